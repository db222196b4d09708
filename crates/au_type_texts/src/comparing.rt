//! Whether two closed types are one type.

ghost use Rattle.std.specs.Prelude.{◌≡◌, IsTrue, ◌↔◌};
ghost use Rattle.au_type_texts.specs.Same.{same, same_all};
ghost use Rattle.au_type_texts.specs.Types.{integer, named, reads, text, truth, unit, writes};
ghost use Rattle.au_type_texts.specs.Views.{closed_meaning, closed_meanings};

use crate::types::Closed;
use au_base::IntKind;
use au_types::DeclAt;

/// Whether two closed types are one type.
pub fn is_same(one: &Closed, other: &Closed) -> bool
    ensures test { result ≡ same (closed_meaning one.now) (closed_meaning other.now) }
    ensures exact { IsTrue result ↔ (closed_meaning one.now ≡ closed_meaning other.now) }
{
    same_closed(one, other)
}

#[tactic(auto, using(crate::proofs::ClosedLemmas::closed_steps))]
fn is_unit(of: &Closed) -> bool
    ensures { result ≡ same unit (closed_meaning of.now) }
{
    match of {
        Closed::Unit => true,
        _ => false,
    }
}

#[tactic(auto, using(crate::proofs::ClosedLemmas::closed_steps))]
fn is_truth(of: &Closed) -> bool
    ensures { result ≡ same truth (closed_meaning of.now) }
{
    match of {
        Closed::Bool => true,
        _ => false,
    }
}

#[tactic(auto, using(crate::proofs::ClosedLemmas::closed_steps))]
fn is_integer(kind: IntKind, of: &Closed) -> bool
    ensures { result ≡ same (integer kind) (closed_meaning of.now) }
{
    match of {
        Closed::Int(other) => kind == *other,
        _ => false,
    }
}

#[tactic(auto, using(crate::proofs::ClosedLemmas::closed_steps))]
fn is_text(of: &Closed) -> bool
    ensures { result ≡ same text (closed_meaning of.now) }
{
    match of {
        Closed::Text => true,
        _ => false,
    }
}

#[tactic(auto, using(crate::proofs::ClosedLemmas::closed_steps))]
#[cycle(same_closed)]
fn same_closed(one: &Closed, other: &Closed) -> bool
    ensures { result ≡ same (closed_meaning one.now) (closed_meaning other.now) }
{
    match one {
        Closed::Unit => is_unit(other),
        Closed::Bool => is_truth(other),
        Closed::Int(kind) => is_integer(*kind, other),
        Closed::Text => is_text(other),
        Closed::Named { of, args } => is_named(*of, args, other),
        Closed::Read(to) => is_read(to, other),
        Closed::Write(to) => is_write(to, other),
    }
}

#[tactic(auto, using(crate::proofs::ClosedLemmas::closed_steps))]
#[cycle(same_closed)]
fn is_named(at: DeclAt, args: &Vec<Closed>, of: &Closed) -> bool
    ensures { result ≡ same (named at (closed_meanings args.now.items)) (closed_meaning of.now) }
{
    match of {
        Closed::Named {
            of: other,
            args: others,
        } => at == *other && same_lists(args, others),
        _ => false,
    }
}

#[tactic(auto, using(crate::proofs::ClosedLemmas::closed_steps))]
#[cycle(same_closed)]
fn is_read(to: &Closed, of: &Closed) -> bool
    ensures { result ≡ same (reads (closed_meaning to.now)) (closed_meaning of.now) }
{
    match of {
        Closed::Read(other) => same_closed(to, other),
        _ => false,
    }
}

#[tactic(auto, using(crate::proofs::ClosedLemmas::closed_steps))]
#[cycle(same_closed)]
fn is_write(to: &Closed, of: &Closed) -> bool
    ensures { result ≡ same (writes (closed_meaning to.now)) (closed_meaning of.now) }
{
    match of {
        Closed::Write(other) => same_closed(to, other),
        _ => false,
    }
}

#[tactic(auto, using(crate::proofs::ClosedLemmas::closed_steps))]
#[cycle(same_closed)]
fn same_lists(list: &Vec<Closed>, others: &Vec<Closed>) -> bool
    ensures { result ≡ same_all (closed_meanings list.now.items) (closed_meanings others.now.items) }
{
    if list.len() != others.len() {
        return false;
    }
    for (index, one) in list.iter().enumerate() {
        if !same_closed(one, &others[index]) {
            return false;
        }
    }
    true
}
