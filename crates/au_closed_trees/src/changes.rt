//! How closed notes are made, and what is found at a call.

ghost use Rattle.std.specs.Prelude.{◌≡◌, ◌++◌, ℕ, IfOk, List, OnOk, map};
ghost use Rattle.au_sights.specs.Views.{note as note_said};
ghost use Rattle.au_sights.specs.Notes.{Note};
ghost use Rattle.au_closed_trees.specs.Changes.{Change};
ghost use Rattle.au_closed_trees.specs.ClosedNotes.{Callee as CalleeSeen, ClosedNote as NoteSeen};
ghost use Rattle.au_closed_trees.specs.TreeViews.{callee as callee_said, closed_note};

use crate::notes::{Callee, ClosedNote};
use au_base::{Memory, Name};
use au_sights::Notes;
use std::alloc::Global;

/// How the notes of a tree are closed. Each call errs only for want of memory.
pub trait Closer {
    // what becomes of each note
    ghost change: { Self → Change (List ℕ) Note (Unit {0}) NoteSeen (CalleeSeen ℕ) };

    /// The closed note of an expression.
    fn note(&self, alloc: Global, of: &Notes) -> Result<ClosedNote, Memory>
        ensures { IfOk result (λ made. closed_note made ≡ (change self.now).note (note_said of.now)) };

    /// The closed note of an expression that mentions a name as a value, or parts of what has the name.
    fn mention(&self, alloc: Global, of: &Notes, name: &Name) -> Result<ClosedNote, Memory>
        ensures { IfOk result (λ made.
            closed_note made ≡ (change self.now).mention (note_said of.now) name.now) };

    /// What a call of a name leads to, of whose expression this is the note.
    fn callee(&self, alloc: Global, of: &Notes, name: &Name) -> Result<Callee, Memory>
        ensures { IfOk result (λ made.
            callee_said made ≡ (change self.now).callee (note_said of.now) tt name.now) };

    /// What the name of an arm becomes.
    fn arm(&self, alloc: Global, name: &Name) -> Result<Name, Memory>
        ensures { IfOk result (λ made. made ≡ (change self.now).arm name.now) };
}

/// What is found at the calls of a tree. It errs only for want of memory.
pub trait Finder {
    /// What is found.
    type Found: Drop;

    // what contracts see of it
    ghost Seen: { Type 0 };

    ghost see: { Self.Found → Seen };

    // what is found at a call
    ghost leads: { Self → Note → Unit {0} → List ℕ → List Seen };

    /// Puts what is found at a call of a name, of whose expression this is the note, behind others.
    fn add(
        &self,
        alloc: Global,
        of: &Notes,
        name: &Name,
        found: &mut Vec<Self::Found>,
    ) -> Result<(), Memory>
        ensures { OnOk result (map see found.new.items
            ≡ map see found.old.items ++ leads self.now (note_said of.now) tt name.now) };
}
