//! Phases: what a tree keeps for a name, for an expression and for a call.

ghost use Rattle.std.specs.Prelude.{◌≡◌, ℕ, ◌<◌, ◌≤◌, Bool, List, length, IfOk};
ghost use Rattle.au_base.specs.Limits.{most_name_bytes};

use au_base::Memory;
use std::alloc::Global;

/// A phase of the compiler: what its trees keep for a name, for an expression, and for a call besides.
///
/// Contracts see a name and a note by what it says (`see_name`, `see_type`, `see_call`), and not by
/// where it lies in memory. A copy says the same.
pub trait Phase {
    /// What a tree keeps for a name.
    type Name: Drop;
    /// What a tree keeps for an expression.
    type TypeNote: Drop;
    /// What a tree keeps for a call besides.
    type CallNote: Drop;

    ghost SeenName: { Type 0 };

    ghost SeenType: { Type 0 };

    ghost SeenCall: { Type 0 };

    ghost see_name: { Self.Name → SeenName };

    ghost see_type: { Self.TypeNote → SeenType };

    ghost see_call: { Self.CallNote → SeenCall };

    // the bytes of a name
    ghost name_bytes: { SeenName → List ℕ };

    // which notes the phase allows
    ghost allows_type: { SeenType → Bool };

    ghost allows_call: { SeenCall → Bool };

    /// The bytes of a name, which are those of some `Name`.
    fn bytes_of(name: &Self::Name) -> &[u8]
        ensures bytes { result.now ≡ name_bytes (see_name name.now) }
        ensures some { 0 < length result.now }
        ensures most { length result.now ≤ most_name_bytes };

    /// A name that says the same.
    fn copy_name(alloc: Global, name: &Self::Name) -> Result<Self::Name, Memory>
        ensures { IfOk result (λ copy. see_name copy ≡ see_name name.now) };

    /// A note of an expression that says the same.
    fn copy_type_note(alloc: Global, note: &Self::TypeNote) -> Result<Self::TypeNote, Memory>
        ensures { IfOk result (λ copy. see_type copy ≡ see_type note.now) };

    /// A note of a call that says the same.
    fn copy_call_note(alloc: Global, note: &Self::CallNote) -> Result<Self::CallNote, Memory>
        ensures { IfOk result (λ copy. see_call copy ≡ see_call note.now) };
}
