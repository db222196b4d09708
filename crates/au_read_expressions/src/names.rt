//! Names with dots.

ghost use Rattle.std.specs.Prelude.{◌≡◌, ◌∷◌, [], List, map, ℕ};
ghost use Rattle.au_base.specs.declared.tokens.Sign.TheVariants.{Dot};
ghost use Rattle.au_base.specs.declared.tokens.What.TheVariants as what;
ghost use Rattle.au_read_expressions.specs.Reading.{Gives, behind_tokens, dotted_at, fields_at};
ghost use Rattle.au_read_expressions.specs.Reading.{is_front, name_at};
ghost use Rattle.au_syntax.specs.Names.{Placed};
ghost use Rattle.au_syntax.specs.Views.{placed};

use crate::faults::Stop;
use crate::lists::{repeated, separated};
use crate::parts::{Entry, Part};
use crate::tokens::{Expected, expect, is_sign, name};
use au_base::{Sign, Token};
use au_syntax::{Ident, Parsed, Phase};
use std::alloc::Global;

/// A name in a list.
pub struct NamePart;

impl Part for NamePart {
    type Item = Ident<Parsed>;

    ghost Seen = { Placed (List ℕ) };

    ghost see = { placed ⟦<Parsed as Phase>⟧ };

    ghost read_at = { name_at };

    fn read(alloc: Global, tokens: &[Token]) -> Result<(Ident<Parsed>, &[Token]), Stop> {
        name(alloc, tokens)
    }
}

/// A name behind a dot.
pub struct FieldEntry;

impl Entry for FieldEntry {
    type Item = Ident<Parsed>;

    ghost Seen = { Placed (List ℕ) };

    ghost see = { placed ⟦<Parsed as Phase>⟧ };

    ghost begins_by = { is_front (what.Sign Dot) };

    ghost read_at = { behind_tokens (what.Sign Dot ∷ []) name_at };

    fn begins(tokens: &[Token]) -> bool {
        is_sign(Sign::Dot, tokens)
    }

    fn read(alloc: Global, tokens: &[Token]) -> Result<(Ident<Parsed>, &[Token]), Stop> {
        let rest = expect(&[Expected::Sign(Sign::Dot)], tokens)?;
        name(alloc, rest)
    }
}

/// Reads one or more names with dots between.
///
/// # Errors
///
/// `Fault::Syntax` where a name is missing.
pub fn dotted(alloc: Global, tokens: &[Token]) -> Result<(Vec<Ident<Parsed>>, &[Token]), Stop>
    ensures { Gives (λ x. (map (placed ⟦<Parsed as Phase>⟧) x.0.items, x.1.now)) result
        (dotted_at tokens.now) }
{
    separated::<NamePart>(alloc, Sign::Dot, tokens)
}

/// Reads names that each stand behind a dot, or none.
///
/// # Errors
///
/// `Fault::Syntax` where a name is missing behind a dot.
pub fn fields(alloc: Global, tokens: &[Token]) -> Result<(Vec<Ident<Parsed>>, &[Token]), Stop>
    ensures { Gives (λ x. (map (placed ⟦<Parsed as Phase>⟧) x.0.items, x.1.now)) result
        (fields_at tokens.now) }
{
    repeated::<FieldEntry>(alloc, tokens)
}
