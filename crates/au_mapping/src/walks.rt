//! What a walk over a tree makes of names and notes.

ghost use Rattle.std.specs.Prelude.{◌≡◌, ℕ, Bool, List, IfOk};

use au_base::Memory;
use au_syntax::Phase;
use std::alloc::Global;

/// A walk from trees of one phase to trees of another. What is kept of a name and of a note, by which the
/// trees before and after are compared, is for the walk to say. Each call errs only for want of memory.
pub trait Walk<P: Phase, Q: Phase> {
    // what is kept of a name, of the note of an expression and of that of a call
    ghost KeptName: { Type 0 };

    ghost KeptType: { Type 0 };

    ghost KeptCall: { Type 0 };

    // the bytes of a name by what is kept of it, and which notes are allowed
    ghost bytes: { KeptName → List ℕ };

    ghost allows_type: { KeptType → Bool };

    ghost allows_call: { KeptCall → Bool };

    // what is kept of it in the old phase
    ghost old_name: { P.Name → KeptName };

    ghost old_type: { P.TypeNote → KeptType };

    ghost old_call: { P.CallNote → KeptCall };

    // and in the new one
    ghost new_name: { Q.Name → KeptName };

    ghost new_type: { Q.TypeNote → KeptType };

    ghost new_call: { Q.CallNote → KeptCall };

    /// The name in the new phase.
    fn name(&mut self, alloc: Global, old: &P::Name) -> Result<Q::Name, Memory>
        ensures { IfOk result (λ new. new_name new ≡ old_name old.now) };

    /// The note of an expression in the new phase.
    fn type_note(&mut self, alloc: Global, old: &P::TypeNote) -> Result<Q::TypeNote, Memory>
        ensures { IfOk result (λ new. new_type new ≡ old_type old.now) };

    /// The note of a call in the new phase.
    fn call_note(&mut self, alloc: Global, old: &P::CallNote) -> Result<Q::CallNote, Memory>
        ensures { IfOk result (λ new. new_call new ≡ old_call old.now) };
}

/// A walk that changes nothing: each name and each note is copied.
#[derive(Drop)]
pub(crate) struct Copying;

impl<P: Phase> Walk<P, P> for Copying {
    ghost KeptName = { P.SeenName };

    ghost KeptType = { P.SeenType };

    ghost KeptCall = { P.SeenCall };

    ghost bytes = { P.name_bytes };

    ghost allows_type = { P.allows_type };

    ghost allows_call = { P.allows_call };

    ghost old_name = { P.see_name };

    ghost old_type = { P.see_type };

    ghost old_call = { P.see_call };

    ghost new_name = { P.see_name };

    ghost new_type = { P.see_type };

    ghost new_call = { P.see_call };

    fn name(&mut self, alloc: Global, old: &P::Name) -> Result<P::Name, Memory> {
        P::copy_name(alloc, old)
    }

    fn type_note(&mut self, alloc: Global, old: &P::TypeNote) -> Result<P::TypeNote, Memory> {
        P::copy_type_note(alloc, old)
    }

    fn call_note(&mut self, alloc: Global, old: &P::CallNote) -> Result<P::CallNote, Memory> {
        P::copy_call_note(alloc, old)
    }
}
