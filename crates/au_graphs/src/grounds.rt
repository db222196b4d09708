//! What a walk goes over.

ghost use Rattle.std.specs.Prelude.{◌≡◌, ℕ, List, Option, IfOk, map};
ghost use Rattle.au_base.specs.declared.limits.Limit.{Limit as Told};

use au_base::{Limit, Memory};
use std::alloc::Global;

/// What a walk goes over: elements, which are told apart by their keys, and what follows each of them.
pub trait Ground {
    /// An element.
    type Item: Drop;

    // what contracts see of an element
    ghost Seen: { Type 0 };

    ghost see: { Self.Item → Seen };

    // the key of an element
    ghost key_of: { Seen → List ℕ };

    // what is told of an element that passes a limit by itself
    ghost told_of: { Seen → Option Told };

    // what follows an element
    ghost next_of: { Self → Seen → List Seen };

    /// The key of an element.
    ///
    /// # Errors
    ///
    /// Only for want of memory.
    fn key(alloc: Global, of: &Self::Item) -> Result<Vec<u32>, Memory>
        ensures { IfOk result (λ key. key.items ≡ key_of (see of.now)) };

    /// What is told of an element that passes a limit by itself.
    fn told(of: &Self::Item) -> Option<Limit>
        ensures { result ≡ told_of (see of.now) };

    /// What follows an element, in order.
    ///
    /// # Errors
    ///
    /// Only for want of memory.
    fn next(&self, alloc: Global, of: &Self::Item) -> Result<Vec<Self::Item>, Memory>
        ensures { IfOk result (λ next. map see next.items ≡ next_of self.now (see of.now)) };

    // elements with one key are equal
    ghost tells: { (a b : Seen) → key_of a ≡ key_of b → a ≡ b };
}
