//! Programs with a note at each expression.

ghost use Rattle.std.specs.Prelude.{◌≡◌, ◌<◌, List, Ok, Some, length, slice_get};
ghost use Rattle.std.specs.Option.{option_copied};
ghost use Rattle.au_classes.specs.Rows.{rows_of};
ghost use Rattle.au_typing.specs.Trees.{NotedParts};
ghost use Rattle.au_modules.specs.Slots as slots;
ghost use Rattle.au_names.specs.HeadsOf.{heads_of};
ghost use Rattle.au_noting_programs.specs.Faults.{IsDerived, noting_of};
ghost use Rattle.au_noting_programs.specs.Held.{IsNoted};
ghost use Rattle.au_noting_programs.specs.Said.{module_said, modules_said, noted_part, part_said};

use crate::modules::{NotedFile, NotedModule};
use au_classes::Classes;
use au_imports::Resolved;
use au_syntax::Part;
use std::marker::Model;

/// A program with its notes: the program, the instances of its classes with the rows of its declared types,
/// and its modules by their places with a note at each expression, which are derived by the rules of typing.
/// Only `note_program` makes one. A contract sees the modules without notes alone: all else follows from
/// them.
#[derive(Drop)]
pub struct NotedProgram {
    program: Resolved,
    classes: Classes,
    modules: Vec<NotedModule>,
}

impl Model for NotedProgram {
    ghost use Rattle.au_modules.specs.contracts.modules.Modules as held;
    ghost use Rattle.au_modules.specs.declared.modules.Modules.{Modules};
    ghost use Rattle.au_noting_programs.specs.Held.{IsNoted};

    ghost Value = { Modules };

    ghost coded = { held.the_row.coded };

    ghost view = { λ n. n.program };

    ghost invariant = { λ n. IsNoted n.program n.classes n.modules.items };
}

impl NotedProgram {
    /// A program with these notes, which are those that the search finds.
    pub(crate) fn of(program: Resolved, classes: Classes, modules: Vec<NotedModule>) -> NotedProgram
        requires { IsNoted program classes modules.items }
        ensures { result ≡ program }
    {
        NotedProgram {
            program,
            classes,
            modules,
        }
    }

    /// The program without its notes.
    pub fn program(&self) -> &Resolved
        ensures { result.now ≡ self.now }
    {
        &self.program
    }

    /// The instances of its classes, and the rows of its declared types.
    pub fn classes(&self) -> &Classes
        ensures instances { result.now.instances ≡ rows_of (slots.modules self.now) }
        ensures heads { result.now.heads ≡ heads_of (slots.modules self.now) }
    {
        &self.classes
    }

    /// Its modules by their places, with their notes: those that the search finds, which are derived.
    pub fn modules(&self) -> &[NotedModule]
        ensures found { noting_of (slots.modules self.now) ≡ Ok (modules_said result.now) }
        ensures derived { IsDerived (slots.modules self.now) (modules_said result.now) }
    {
        self.modules.as_slice()
    }

    /// The module at a place, with its notes.
    pub fn module(&self, place: usize) -> &NotedModule
        requires { place < length (slots.modules self.now) }
        ensures { (noted : List NotedParts) → noting_of (slots.modules self.now) ≡ Ok noted
            → slice_get noted place ≡ Some (module_said result.now) }
    {
        &self.modules()[place]
    }

    /// A part of the module at a place with its notes, if the module has it.
    pub fn part(&self, place: usize, part: Part) -> Option<&NotedFile>
        requires { place < length (slots.modules self.now) }
        ensures { (noted : List NotedParts) → noting_of (slots.modules self.now) ≡ Ok noted
            → part_said (option_copied result) ≡ noted_part part (slice_get noted place) }
    {
        part_of(self.module(place), part)
    }
}

/// A part of a module with its notes, if the module has it.
fn part_of(one: &NotedModule, part: Part) -> Option<&NotedFile>
    ensures { part_said (option_copied result) ≡ noted_part part (Some (module_said one.now)) }
{
    match part {
        Part::Interface => one.interface.as_ref(),
        Part::Body => one.body.as_ref(),
    }
}
