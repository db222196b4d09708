//! How what a tree keeps for names and notes becomes that of another phase.

ghost use Rattle.std.specs.Prelude.{◌≡◌, ℕ, Bool, true, List, IfOk, IsTrue};

use crate::Walk;
use au_base::Memory;
use au_syntax::Phase;
use std::alloc::Global;

/// How names and notes become those of another phase. Each errs only for want of memory.
pub trait Turn<P: Phase, Q: Phase> {
    /// The name in the new phase, with the same bytes.
    fn name(&mut self, alloc: Global, old: P::Name) -> Result<Q::Name, Memory>
        ensures { IfOk result (λ new. Q.name_bytes (Q.see_name new) ≡ P.name_bytes (P.see_name old)) };

    /// The note of an expression, one that the new phase allows.
    fn type_note(&mut self, alloc: Global, old: P::TypeNote) -> Result<Q::TypeNote, Memory>
        ensures { IfOk result (λ new. IsTrue (Q.allows_type (Q.see_type new))) };

    /// The note of a call, one that the new phase allows.
    fn call_note(&mut self, alloc: Global, old: P::CallNote) -> Result<Q::CallNote, Memory>
        ensures { IfOk result (λ new. IsTrue (Q.allows_call (Q.see_call new))) };
}

/// The walk of a turn: the bytes of names are kept, and each note becomes one that the new phase allows.
#[derive(Drop)]
pub(crate) struct Turning<'a, F> {
    pub(crate) turn: &'a mut F,
}

impl<'a, P: Phase, Q: Phase, F: Turn<P, Q>> Walk<P, Q> for Turning<'a, F> {
    ghost KeptName = { List ℕ };

    ghost KeptType = { Bool };

    ghost KeptCall = { Bool };

    ghost bytes = { λ name. name };

    ghost allows_type = { λ mark. mark };

    ghost allows_call = { λ mark. mark };

    ghost old_name = { λ name. P.name_bytes (P.see_name name) };

    ghost old_type = { λ note. true };

    ghost old_call = { λ note. true };

    ghost new_name = { λ name. Q.name_bytes (Q.see_name name) };

    ghost new_type = { λ note. Q.allows_type (Q.see_type note) };

    ghost new_call = { λ note. Q.allows_call (Q.see_call note) };

    fn name(&mut self, alloc: Global, old: &P::Name) -> Result<Q::Name, Memory> {
        let copy = P::copy_name(alloc, old)?;
        self.turn.name(alloc, copy)
    }

    fn type_note(&mut self, alloc: Global, old: &P::TypeNote) -> Result<Q::TypeNote, Memory> {
        let copy = P::copy_type_note(alloc, old)?;
        self.turn.type_note(alloc, copy)
    }

    fn call_note(&mut self, alloc: Global, old: &P::CallNote) -> Result<Q::CallNote, Memory> {
        let copy = P::copy_call_note(alloc, old)?;
        self.turn.call_note(alloc, copy)
    }
}
