//! From a program to its derivation.

ghost use Rattle.std.specs.Prelude.{◌≡◌, ◌⊎◌, Err, IfOk, List, MatchResult, None, Ok, Some};
ghost use Rattle.au_classes.specs.Rows.{rows_of};
ghost use Rattle.au_typing.specs.Trees.{NotedParts};
ghost use Rattle.au_modules.specs.Slots as slots;
ghost use Rattle.au_names.specs.HeadsOf.{heads_of};
ghost use Rattle.au_noting_programs.specs.Faults.{IsDerived, noting_of, type_fault};

use crate::noting::note_modules;
use crate::programs::NotedProgram;
use crate::telling::told;
use au_classes::Classes;
use au_imports::Resolved;
use au_sights::TypeFault;
use std::alloc::Global;

/// A program with its notes, the one derivation that it has.
///
/// # Errors
///
/// What a program is refused for that has none: the first statement without good notes in the order of the
/// text, modules by their places and the interface of each before its body, with the clause of its rule that
/// fails (`TypeFault::Statement`), or the limit that a type of a note passes before (`TypeFault::Limit`).
/// `TypeFault::Memory` where no memory was found, in place of any other answer.
pub fn note_program(
    alloc: Global,
    program: Resolved,
    classes: Classes,
) -> Result<NotedProgram, TypeFault>
    requires instances { classes.instances ≡ rows_of (slots.modules program) }
    requires heads { classes.heads ≡ heads_of (slots.modules program) }
    // The program is the one that is given. It holds the modules that the search finds, which are derived.
    ensures program { IfOk result (λ made. made ≡ program) }
    ensures accepted { IfOk result (λ made. type_fault (slots.modules program) ≡ None) }
    // Whatever modules with notes are derived, the search finds them, and nothing is refused.
    ensures only { (noted : List NotedParts) → IsDerived (slots.modules program) noted
        → MatchResult result (λ made. noting_of (slots.modules program) ≡ Ok noted)
        (λ e. e ≡ TypeFault.Memory) }
    // What is refused is refused for this, or memory ran out.
    ensures refused { (e : TypeFault) → result ≡ Err e
        → (e ≡ TypeFault.Memory) ⊎ (type_fault (slots.modules program) ≡ Some e) }
{
    match note_modules(alloc, &program, &classes.instances) {
        Ok(modules) => Ok(NotedProgram::of(program, classes, modules)),
        Err(refused) => Err(told(alloc, &program, refused)),
    }
}
