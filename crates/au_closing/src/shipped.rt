//! Shipped calls, by the modules that they stand in.

ghost use Rattle.std.specs.Prelude.{◌≡◌, None};
ghost use Rattle.std.specs.Option.{option_map};
ghost use Rattle.au_type_texts.specs.Views.{closed_meaning};
ghost use Rattle.au_closing.specs.Leading as spec;
ghost use Rattle.au_modules.specs.Slots as slots;
ghost use Rattle.au_shipped.specs.Calls as calls;

use au_base::{IntKind, Name};
use au_imports::Resolved;
use au_shipped::{ShippedCall, prim_of};
use au_type_texts::Closed;

/// The kind of integers that a closed type is.
#[tactic(auto, using(au_type_texts::proofs::ClosedLemmas::closed_steps))]
fn kind_of(of: &Closed) -> Option<IntKind>
    ensures { result ≡ spec.kind_of (closed_meaning of.now) }
{
    match of {
        Closed::Unit => None,
        Closed::Bool => None,
        Closed::Int(kind) => Some(*kind),
        Closed::Text => None,
        Closed::Named { .. } => None,
        Closed::Read(_) => None,
        Closed::Write(_) => None,
    }
}

/// A shipped call at the truth values.
fn at_truth(call: ShippedCall) -> ShippedCall
    ensures { result ≡ spec.at_truth call }
{
    match call {
        ShippedCall::PrintText => ShippedCall::PrintBool,
        ShippedCall::PrintLnText => ShippedCall::PrintLnBool,
        _ => call,
    }
}

/// A shipped method at a closed type.
#[tactic(auto, using(au_type_texts::proofs::ClosedLemmas::closed_steps))]
fn at_type(of: &Closed, call: ShippedCall) -> ShippedCall
    ensures { result ≡ spec.at_type (closed_meaning of.now) call }
{
    match of {
        Closed::Unit => call,
        Closed::Bool => at_truth(call),
        Closed::Int(_) => call,
        Closed::Text => call,
        Closed::Named { .. } => call,
        Closed::Read(_) => call,
        Closed::Write(_) => call,
    }
}

/// The shipped call of a name in the module at a place, for integers of a kind, if there is one.
fn shipped_call(
    program: &Resolved,
    place: u16,
    name: &Name,
    of: Option<IntKind>,
) -> Option<ShippedCall>
    ensures { result ≡ calls.prim_of (spec.module_name (slots.modules program.now) place) name.now of }
{
    let modules = program.modules();
    if (place as usize) < modules.len() {
        prim_of(modules.name(place as usize), name, of)
    } else {
        None
    }
}

/// The shipped function of a name in the module at a place, if there is one.
pub(crate) fn shipped_function(program: &Resolved, place: u16, name: &Name) -> Option<ShippedCall>
    ensures { result ≡ calls.prim_of (spec.module_name (slots.modules program.now) place) name.now None }
{
    shipped_call(program, place, name, None)
}

/// The shipped method of a name at a closed type, by the place of the module of the class's instance, if
/// there is one.
pub(crate) fn shipped_method(
    program: &Resolved,
    place: u16,
    name: &Name,
    of: &Closed,
) -> Option<ShippedCall>
    ensures { let t = closed_meaning of.now in
        result
        ≡ option_map (spec.at_type t)
        (calls.prim_of (spec.module_name (slots.modules program.now) place) name.now (spec.kind_of t)) }
{
    match shipped_call(program, place, name, kind_of(of)) {
        Some(call) => Some(at_type(of, call)),
        None => None,
    }
}
