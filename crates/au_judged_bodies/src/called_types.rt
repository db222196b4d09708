//! What stands for the type parameters of what is called.

ghost use Rattle.au_judged_bodies.specs.Callees.{CalleesStand};

/// What a call puts, where the caller runs, stands for the type parameters of what is called.
pub fn callees_stand()
    ensures { CalleesStand }
{}
