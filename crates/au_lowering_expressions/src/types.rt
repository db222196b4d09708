//! What is asked of the closed types that are noted.

ghost use Rattle.std.specs.Prelude.{◌≡◌, Some};
ghost use Rattle.std.specs.Option.{option_copied, option_map};
ghost use Rattle.au_type_texts.specs.Views.{closed_meaning};
ghost use Rattle.au_meaning.specs.Expressions as meant;
ghost use Rattle.au_meaning.specs.Names as names;

use au_base::IntKind;
use au_type_texts::Closed;

/// The kind that a type is, if it is one.
#[tactic(auto, using(au_type_texts::proofs::ClosedLemmas::closed_steps))]
pub fn kind_in(of: &Closed) -> Option<IntKind>
    ensures { result ≡ meant.kind_in (Some (closed_meaning of.now)) }
{
    match of {
        Closed::Unit => None,
        Closed::Bool => None,
        Closed::Int(kind) => Some(*kind),
        Closed::Text => None,
        Closed::Named { .. } => None,
        Closed::Read(_) => None,
        Closed::Write(_) => None,
    }
}

/// What is compared: numbers of a kind, or truth values, which have none.
#[tactic(auto, using(au_type_texts::proofs::ClosedLemmas::closed_steps))]
pub fn compared_kind(of: &Closed) -> Option<Option<IntKind>>
    ensures { result ≡ meant.compared_kind (Some (closed_meaning of.now)) }
{
    match of {
        Closed::Unit => None,
        Closed::Bool => Some(None),
        Closed::Int(kind) => Some(Some(*kind)),
        Closed::Text => None,
        Closed::Named { .. } => None,
        Closed::Read(_) => None,
        Closed::Write(_) => None,
    }
}

/// What a reference refers to.
#[tactic(auto, using(au_type_texts::proofs::ClosedLemmas::closed_steps))]
fn behind_type(of: &Closed) -> Option<&Closed>
    ensures { option_map closed_meaning (option_copied result)
        ≡ names.target_behind (Some (closed_meaning of.now)) }
{
    match of {
        Closed::Unit => None,
        Closed::Bool => None,
        Closed::Int(_) => None,
        Closed::Text => None,
        Closed::Named { .. } => None,
        Closed::Read(to) => Some(&**to),
        Closed::Write(to) => Some(&**to),
    }
}

/// The same, where the type may not be known.
pub fn target_behind(of: &Option<Closed>) -> Option<&Closed>
    ensures { option_map closed_meaning (option_copied result)
        ≡ names.target_behind (option_map closed_meaning of.now) }
{
    match of {
        None => None,
        Some(known) => behind_type(known),
    }
}
