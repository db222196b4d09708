//! What is looked up in the program round a closed tree.

ghost use Rattle.std.specs.Prelude.{◌≡◌, IfOk, length};
ghost use Rattle.std.specs.Option.{option_map};
ghost use Rattle.au_closed_trees.specs.TreeViews.{callee as callee_said, closed_note};
ghost use Rattle.au_type_texts.specs.Views.{closed_meaning};
ghost use Rattle.au_closed_meanings.specs.Surroundings.{Surroundings, call_noted, field_in, fields_in};
ghost use Rattle.au_closed_meanings.specs.Views.{called_said, found_said};

use crate::calls::{Called, Found};
use au_base::{Memory, Name};
use au_closed_trees::{Callee, ClosedNote};
use au_type_texts::Closed;
use std::alloc::Global;

/// What is looked up in the program round a closed tree.
pub trait Lookup {
    // what is round the tree
    ghost round: { Self → Surroundings };

    /// What a call does of whose expression this is the note.
    ///
    /// # Errors
    ///
    /// Only for want of memory.
    fn called(
        &self,
        alloc: Global,
        note: &ClosedNote,
        callee: &Callee,
    ) -> Result<Option<Called>, Memory>
        ensures { IfOk result (λ made. option_map called_said made
            ≡ call_noted (round self.now) (closed_note note.now) (callee_said callee.now)) };

    /// The number of the case of a type that a name means.
    fn tag(&self, of: &Closed, name: &Name) -> Option<u32>
        ensures { result ≡ (round self.now).tag (closed_meaning of.now) name.now };

    /// The number and the type of the field of a name, among the fields of the case of a number.
    fn field(&self, of: &Closed, tag: u32, name: &Name) -> Option<Found<'_>>
        ensures { option_map found_said result
            ≡ field_in (round self.now) (closed_meaning of.now) tag name.now };

    /// How many fields the case of a number has, and 0 where there is no such case.
    fn count(&self, of: &Closed, tag: u32) -> u32
        ensures { result ≡ length (fields_in (round self.now) (closed_meaning of.now) tag) };
}
