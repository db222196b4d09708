//! What is written in a declaration and may not be well formed.

ghost use Rattle.std.specs.Prelude.{◌≡◌};
ghost use Rattle.au_formed.specs.Said.{writing_said};
ghost use Rattle.au_formed.specs.Writings as spec;
ghost use Rattle.au_syntax.specs.Views.{written};

use au_base::Pos;
use au_syntax::{Ident, Parsed, TypeText, Universe};

/// Something that is written in a declaration and may not be well formed.
#[derive(Clone, Copy)]
pub enum Writing<'a> {
    /// A type.
    Type(&'a TypeText),
    /// A name that stands for a class.
    Class(&'a Ident<Parsed>),
    /// The universe of what stands at this place, which may not be `Region`.
    InUniverse(Pos, Universe),
}

/// The place of a written type: that of its first token.
#[tactic(auto, using(au_syntax::proofs::TypeLemmas::type_steps))]
fn type_place(of: &TypeText) -> Pos
    ensures { result ≡ spec.type_place (written of.now) }
{
    match of {
        TypeText::Named(name, _) => name.at,
        TypeText::Reference(at, _, _, _) => *at,
    }
}

/// Where something is written.
pub fn place_of(one: &Writing) -> Pos
    ensures { result ≡ spec.place_of (writing_said one.now) }
{
    match one {
        Writing::Type(of) => type_place(of),
        Writing::Class(name) => name.at,
        Writing::InUniverse(at, _) => *at,
    }
}
