//! Faults of statements as they are told: types and classes by their texts.

ghost use Rattle.std.specs.Prelude.{◌≡◌, IfOk};
ghost use Rattle.au_modules.specs.Slots as slots;
ghost use Rattle.au_names.specs.HeadsOf.{heads_of};
ghost use Rattle.au_noting.specs.Giving.{cause_said};
ghost use Rattle.au_noting_programs.specs.Faults as spec;
ghost use Rattle.au_noting_programs.specs.Told.{IsTold};
ghost use Rattle.au_type_texts.specs.Texts.{text_of};
ghost use Rattle.au_types.specs.Views.{meaning};
ghost use Rattle.au_typing.specs.Faults as faults;

use au_base::{Memory, Pos, Text};
use au_imports::Resolved;
use au_judgements::Refused;
use au_sights::{TypeFault, Why};
use au_type_texts::type_text;
use au_types::{DeclAt, Ty};
use au_typing::class_texts::class_text;
use std::alloc::Global;

/// The text of a type of a program.
fn text_of_type(alloc: Global, program: &Resolved, of: &Ty) -> Result<Text, Memory>
    ensures { IfOk result (λ text. text ≡ text_of (heads_of (slots.modules program.now)) (meaning of.now)) }
{
    type_text(alloc, program.heads_ref(), of)
}

/// That another type is wanted than is found.
fn different(
    alloc: Global,
    program: &Resolved,
    goal: &Ty,
    other: &Ty,
) -> Result<Why<Text, Text>, Memory>
    ensures { IfOk result (λ why. why ≡ spec.cause_told (slots.modules program.now)
        (faults.different (meaning goal.now) (meaning other.now))) }
{
    let wanted = text_of_type(alloc, program, goal)?;
    let found = text_of_type(alloc, program, other)?;
    Ok(Why::Different { wanted, found })
}

/// That a class has no instance at a type.
fn no_instance(
    alloc: Global,
    program: &Resolved,
    class: DeclAt,
    of: &Ty,
) -> Result<Why<Text, Text>, Memory>
    ensures { IfOk result (λ why. why
        ≡ spec.cause_told (slots.modules program.now) (faults.no_instance class (meaning of.now))) }
{
    let class = class_text(alloc, program.modules(), class)?;
    let of = text_of_type(alloc, program, of)?;
    Ok(Why::NoInstance { class, of })
}

/// That a type isn't Free.
fn not_free(alloc: Global, program: &Resolved, of: &Ty) -> Result<Why<Text, Text>, Memory>
    ensures { IfOk result (λ why. why
        ≡ spec.cause_told (slots.modules program.now) (faults.not_free (meaning of.now))) }
{
    let of = text_of_type(alloc, program, of)?;
    Ok(Why::NotFree { of })
}

/// What is wrong with a statement, as it is told.
fn why_of(
    alloc: Global,
    program: &Resolved,
    cause: Why<Ty, DeclAt>,
) -> Result<Why<Text, Text>, Memory>
    ensures { IfOk result (λ why. why ≡ spec.cause_told (slots.modules program.now) (cause_said cause)) }
{
    match cause {
        Why::Unknown(name) => Ok(Why::Unknown(name)),
        Why::Different { wanted, found } => different(alloc, program, &wanted, &found),
        Why::Unfixed(name) => Ok(Why::Unfixed(name)),
        Why::NoInstance { class, of } => no_instance(alloc, program, class, &of),
        Why::NotFree { of } => not_free(alloc, program, &of),
        Why::Shape { wanted } => Ok(Why::Shape { wanted }),
        Why::AfterReturn => Ok(Why::AfterReturn),
        Why::FallsOut => Ok(Why::FallsOut),
    }
}

/// A fault of the statement at a place, as it is told.
fn statement_fault(alloc: Global, program: &Resolved, at: Pos, cause: Why<Ty, DeclAt>) -> TypeFault
    ensures { IsTold (slots.modules program.now) (Refused.Statement at cause) result }
{
    match why_of(alloc, program, cause) {
        Ok(why) => TypeFault::Statement { at, why },
        Err(_) => TypeFault::Memory,
    }
}

/// A fault, as it is told.
pub(crate) fn told(alloc: Global, program: &Resolved, refused: Refused) -> TypeFault
    ensures { IsTold (slots.modules program.now) refused result }
{
    match refused {
        Refused::Statement { at, cause } => statement_fault(alloc, program, at, cause),
        Refused::Limit(passed) => TypeFault::Limit(passed),
        Refused::Memory => TypeFault::Memory,
    }
}
