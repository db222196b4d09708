//! Why noting stops.

ghost use Rattle.std.specs.Prelude.{◌≡◌, IfOk};
ghost use Rattle.au_judged_types.specs.Views.{reason};
ghost use Rattle.au_noting.specs.declared.faults.Fault.TheVariants as fault;
ghost use Rattle.au_noting.specs.Giving.{Tells, cause_said, form_said};
ghost use Rattle.au_types.specs.Views.{meaning};
ghost use Rattle.au_typing.specs.Faults as spec;

use au_base::{Limit, Memory, Name};
use au_judged_types::Reason;
use au_sights::{Form, Why};
use au_types::{DeclAt, Ty, copy_type};
use std::alloc::Global;

/// Why noting stops.
#[derive(Drop)]
pub enum Fault {
    /// A clause fails.
    Why(Why<Ty, DeclAt>),
    /// A type of a note passes a limit.
    Limit(Limit),
    /// No memory was found.
    Memory,
}

impl From<Memory> for Fault {
    ghost from_gives = { λ _ e. e ≡ fault.Memory };

    fn from(_fault: Memory) -> Fault {
        Fault::Memory
    }
}

/// That a name means nothing where it stands.
pub fn unknown(alloc: Global, name: &Name) -> Fault
    ensures { Tells (spec.unknown name.now) result }
{
    match name.copy(alloc) {
        Ok(name) => Fault::Why(Why::Unknown(name)),
        Err(_) => Fault::Memory,
    }
}

/// That a type parameter is unfixed.
pub fn unfixed(alloc: Global, name: &Name) -> Fault
    ensures { Tells (spec.unfixed name.now) result }
{
    match name.copy(alloc) {
        Ok(name) => Fault::Why(Why::Unfixed(name)),
        Err(_) => Fault::Memory,
    }
}

/// That one type is wanted and another one is found.
pub fn different(alloc: Global, goal: &Ty, found: &Ty) -> Fault
    ensures { Tells (spec.different (meaning goal.now) (meaning found.now)) result }
{
    match two_types(alloc, goal, found) {
        Ok((wanted, found)) => Fault::Why(Why::Different { wanted, found }),
        Err(_) => Fault::Memory,
    }
}

/// Two types that mean the same as these.
fn two_types(alloc: Global, one: &Ty, other: &Ty) -> Result<(Ty, Ty), Memory>
    ensures one { IfOk result (λ two. meaning two.0 ≡ meaning one.now) }
    ensures other { IfOk result (λ two. meaning two.1 ≡ meaning other.now) }
{
    let one = copy_type(alloc, one)?;
    let other = copy_type(alloc, other)?;
    Ok((one, other))
}

/// That a type isn't Free.
pub fn not_free(alloc: Global, of: &Ty) -> Fault
    ensures { Tells (spec.not_free (meaning of.now)) result }
{
    match copy_type(alloc, of) {
        Ok(of) => Fault::Why(Why::NotFree { of }),
        Err(_) => Fault::Memory,
    }
}

/// That another form is wanted.
pub fn other_form(form: Form) -> Fault
    ensures { Tells (spec.shape (form_said form)) result }
{
    Fault::Why(Why::Shape { wanted: form })
}

/// Why a written type isn't well formed.
pub fn ill_formed(why: Reason) -> Fault
    ensures { Tells (spec.reason_why (reason why)) result }
{
    match why {
        Reason::Unknown(name) => Fault::Why(Why::Unknown(name)),
        Reason::Arguments(number) => other_form(Form::Arguments(number)),
        Reason::RegionWanted => other_form(Form::Region),
        Reason::NotFree(of) => Fault::Why(Why::NotFree { of }),
        Reason::LinearWanted => other_form(Form::Linear),
    }
}
