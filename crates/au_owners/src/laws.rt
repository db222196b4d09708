//! Laws of opaque types, each as the contract of a call that does nothing.

ghost use Rattle.au_owners.specs.Owners.{OpaquePartsAreOwn};

/// The constructors and cases of an opaque type are known in its own module alone, whatever the program.
pub fn opaque_parts_are_own()
    ensures { OpaquePartsAreOwn }
{}
