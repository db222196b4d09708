//! Lists of parts.

ghost use Rattle.std.specs.Prelude.{◌≡◌, map};
ghost use Rattle.au_base.specs.declared.tokens.What.TheVariants as what;
ghost use Rattle.au_read_expressions.specs.Reading as reading;
ghost use Rattle.au_read_expressions.specs.Reading.{Gives};

use crate::faults::Stop;
use crate::parts::{Entry, Part};
use crate::tokens::{Expected, after, expect, is_sign, stop_before};
use au_base::{Sign, Token};
use std::alloc::Global;

/// Reads one or more parts with a sign between.
///
/// # Errors
///
/// The fault of the first part that isn't read.
pub fn separated<P: Part>(
    alloc: Global,
    between: Sign,
    tokens: &[Token],
) -> Result<(Vec<P::Item>, &[Token]), Stop>
    ensures { Gives (λ x. (map P.see x.0.items, x.1.now)) result
        (reading.separated (what.Sign between) P.read_at tokens.now) }
{
    let mut parts = Vec::new(alloc);
    let mut rest = tokens;
    for _ in 0..tokens.len() {
        let (part, next) = P::read(alloc, rest)?;
        parts.push(part)?;
        if !is_sign(between, next) {
            return Ok((parts, next));
        }
        rest = after(next);
    }
    Err(stop_before(rest))
}

/// Reads one or more parts with commas between.
///
/// # Errors
///
/// The fault of the first part that isn't read.
pub fn listed<P: Part>(alloc: Global, tokens: &[Token]) -> Result<(Vec<P::Item>, &[Token]), Stop>
    ensures { Gives (λ x. (map P.see x.0.items, x.1.now)) result (reading.listed P.read_at tokens.now) }
{
    separated::<P>(alloc, Sign::Comma, tokens)
}

/// Reads parts with commas between and signs round them, or nothing where the first sign doesn't stand.
///
/// # Errors
///
/// The fault of the first part that isn't read, or `Fault::Syntax` where the last sign is missing.
pub fn bracketed<P: Part>(
    alloc: Global,
    left: Sign,
    right: Sign,
    tokens: &[Token],
) -> Result<(Vec<P::Item>, &[Token]), Stop>
    ensures { Gives (λ x. (map P.see x.0.items, x.1.now)) result
        (reading.bracketed left right P.read_at tokens.now) }
{
    if !is_sign(left, tokens) {
        return Ok((Vec::new(alloc), tokens));
    }
    let (parts, rest) = listed::<P>(alloc, after(tokens))?;
    let rest = expect(&[Expected::Sign(right)], rest)?;
    Ok((parts, rest))
}

/// Reads entries that stand one after another, up to a token with which none begins.
///
/// # Errors
///
/// The fault of the first entry that isn't read.
pub fn repeated<E: Entry>(alloc: Global, tokens: &[Token]) -> Result<(Vec<E::Item>, &[Token]), Stop>
    ensures { Gives (λ x. (map E.see x.0.items, x.1.now)) result
        (reading.repeated E.begins_by E.read_at tokens.now) }
{
    let mut entries = Vec::new(alloc);
    let mut rest = tokens;
    for _ in 0..tokens.len() {
        if !E::begins(rest) {
            return Ok((entries, rest));
        }
        let (entry, next) = E::read(alloc, rest)?;
        entries.push(entry)?;
        rest = next;
    }
    Ok((entries, rest))
}
