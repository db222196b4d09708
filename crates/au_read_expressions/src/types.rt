//! Written types.

ghost use Rattle.std.specs.Prelude.{◌≡◌, Err, map};
ghost use Rattle.au_base.specs.declared.tokens.Sign.TheVariants.{LeftBracket, RightBracket};
ghost use Rattle.au_read_expressions.specs.Reading as reading;
ghost use Rattle.au_read_expressions.specs.Reading.{Gives, name_at};
ghost use Rattle.au_read_expressions.specs.Bounds.{usual};
ghost use Rattle.au_read_expressions.specs.TypeReading.{named_with, reference_with, type_at, type_with};
ghost use Rattle.au_read_expressions.specs.TypeReading.{type_within};
ghost use Rattle.au_syntax.specs.Views.{type_name, written};
ghost use Rattle.au_syntax.specs.Words as words;

use crate::nodes::{begins, count_before, is_few, judge, too_many};
use crate::{Expected, Fault, Stop, after, expect, is_sign, name, place, stop_before};
use au_base::{Limit, LimitKind, MOST_TYPE_DEPTH, Sign, Token, What};
use au_syntax::{Access, TypeName, TypeText};
use std::alloc::Global;

/// Reads a type.
///
/// # Errors
///
/// `Fault::Syntax` at the first token that continues no type, and `Fault::Passed` where the type is
/// too deep or has too many nodes. The count of nodes is that of the tokens before the first one that
/// continues no type, however deep the type is, or that of the whole type.
#[tactic(auto, unfolding(crate::specs::TypeReading::type_at))]
pub fn written_type(alloc: Global, tokens: &[Token]) -> Result<(TypeText, &[Token]), Stop>
    ensures { Gives (λ x. (written x.0, x.1.now)) result (type_at usual tokens.now) }
{
    match within(alloc, MOST_TYPE_DEPTH, tokens) {
        Ok((made, rest)) => {
            let count = count_before(rest.len(), tokens);
            if is_few(count) {
                Ok((made, rest))
            } else {
                Err(Stop::Fault(too_many(count, tokens)))
            }
        }
        Err(Stop::Memory) => Err(Stop::Memory),
        Err(Stop::Fault(fault)) => Err(judge(alloc, fault, tokens)),
    }
}

/// A type begins where none may be any more, or none begins.
#[tactic(auto, unfolding(crate::specs::TypeReading::type_within))]
fn stop_deep(tokens: &[Token]) -> Stop
    ensures { reading.Stops result (type_within usual 0 tokens.now) }
{
    let [first, ..] = tokens else {
        return stop_before(tokens);
    };
    if !begins(first) {
        return stop_before(tokens);
    }
    let limit = Limit {
        kind: LimitKind::TypeDepth,
        count: u64::from(MOST_TYPE_DEPTH) + 1,
        most: u64::from(MOST_TYPE_DEPTH),
    };
    Stop::Fault(Fault::Passed(limit, tokens.len()))
}

/// A name in a type.
fn one_name(alloc: Global, tokens: &[Token]) -> Result<(TypeName, &[Token]), Stop>
    ensures { Gives (λ x. (type_name x.0, x.1.now)) result (name_at tokens.now) }
{
    let (name, rest) = name(alloc, tokens)?;
    let at = name.at;
    let name = name.name;
    Ok((TypeName { name, at }, rest))
}

/// A type that is no deeper than the number of levels.
#[tactic(auto, using(crate::proofs::TypeSteps::deeper, crate::proofs::TypeSteps::deepest))]
#[cycle(types)]
fn within(alloc: Global, levels: u32, tokens: &[Token]) -> Result<(TypeText, &[Token]), Stop>
    ensures { Gives (λ x. (written x.0, x.1.now)) result (type_within usual levels tokens.now) }
{
    if levels == 0 {
        return Err(stop_deep(tokens));
    }
    one_type(alloc, levels - 1, tokens)
}

/// A type of which the parts are no deeper than the number of levels.
#[tactic(auto, unfolding(crate::specs::TypeReading::type_with))]
#[cycle(types)]
fn one_type(alloc: Global, levels: u32, tokens: &[Token]) -> Result<(TypeText, &[Token]), Stop>
    ensures { Gives (λ x. (written x.0, x.1.now)) result (type_with (type_within usual levels) tokens.now) }
{
    let [first, ..] = tokens else {
        return Err(stop_before(tokens));
    };
    match &first.what {
        What::Name(_) => named(alloc, levels, tokens),
        What::Sign(Sign::ReadBorrow) => reference(alloc, levels, Access::Read, tokens),
        What::Sign(Sign::WriteBorrow) => reference(alloc, levels, Access::Write, tokens),
        _ => Err(stop_before(tokens)),
    }
}

/// A name and its arguments.
#[tactic(auto, using(au_syntax::proofs::TypeLemmas::type_steps, crate::proofs::TypeSteps::types_written, std::proofs::lemmas::Grind::common_steps))]
#[cycle(types)]
fn named(alloc: Global, levels: u32, tokens: &[Token]) -> Result<(TypeText, &[Token]), Stop>
    ensures { Gives (λ x. (written x.0, x.1.now)) result (named_with (type_within usual levels) tokens.now) }
{
    let (name, rest) = one_name(alloc, tokens)?;
    let (args, rest) = arguments(alloc, levels, rest)?;
    Ok((TypeText::Named(name, args), rest))
}

/// Arguments in brackets, or none where no bracket stands.
#[cycle(types)]
fn arguments(
    alloc: Global,
    levels: u32,
    tokens: &[Token],
) -> Result<(Vec<TypeText>, &[Token]), Stop>
    ensures { Gives (λ x. (map written x.0.items, x.1.now)) result
        (reading.bracketed LeftBracket RightBracket (type_within usual levels) tokens.now) }
{
    if !is_sign(Sign::LeftBracket, tokens) {
        return Ok((Vec::new(alloc), tokens));
    }
    let (args, rest) = listed(alloc, levels, after(tokens))?;
    let rest = expect(&[Expected::Sign(Sign::RightBracket)], rest)?;
    Ok((args, rest))
}

/// Types with commas between.
#[cycle(types)]
fn listed(alloc: Global, levels: u32, tokens: &[Token]) -> Result<(Vec<TypeText>, &[Token]), Stop>
    ensures { Gives (λ x. (map written x.0.items, x.1.now)) result
        (reading.listed (type_within usual levels) tokens.now) }
{
    let mut args = Vec::new(alloc);
    let mut rest = tokens;
    for _ in 0..tokens.len() {
        let (one, next) = within(alloc, levels, rest)?;
        args.push(one)?;
        if !is_sign(Sign::Comma, next) {
            return Ok((args, next));
        }
        rest = after(next);
    }
    Err(stop_before(rest))
}

/// The sign with which a reference begins.
fn access_sign(access: Access) -> Sign
    ensures { result ≡ words.access_sign access }
{
    match access {
        Access::Read => Sign::ReadBorrow,
        Access::Write => Sign::WriteBorrow,
    }
}

/// A reference.
#[tactic(auto, using(au_syntax::proofs::TypeLemmas::type_steps, crate::proofs::TypeSteps::types_written, std::proofs::lemmas::Grind::common_steps))]
#[cycle(types)]
fn reference(
    alloc: Global,
    levels: u32,
    access: Access,
    tokens: &[Token],
) -> Result<(TypeText, &[Token]), Stop>
    ensures { Gives (λ x. (written x.0, x.1.now)) result
        (reference_with (type_within usual levels) access tokens.now) }
{
    let at = place(tokens);
    let sign = access_sign(access);
    let rest = expect(
        &[Expected::Sign(sign), Expected::Sign(Sign::LeftBracket)],
        tokens,
    )?;
    let (target, rest) = within(alloc, levels, rest)?;
    let target = Box::new(alloc, target)?;
    let rest = expect(&[Expected::Sign(Sign::Comma)], rest)?;
    let (region, rest) = one_name(alloc, rest)?;
    let rest = expect(&[Expected::Sign(Sign::RightBracket)], rest)?;
    Ok((TypeText::Reference(at, access, target, region), rest))
}
