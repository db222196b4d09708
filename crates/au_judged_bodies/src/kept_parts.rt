//! What an expression may leave out consumes nothing, where each variable has a good life.

ghost use Rattle.std.specs.Prelude.{ℕ};
ghost use Rattle.au_lives.specs.declared.lives.Sort.{Sort};
ghost use Rattle.au_meaning.specs.Views.{Function};
ghost use Rattle.au_judged_bodies.specs.Kept.{PartsAreKept};

/// Where the variables of a function have good lives, none is consumed where an expression may leave out to
/// look.
pub fn parts_are_kept<I, T, C>()
    ensures { (sorts : ℕ → Sort) (f : Function I T C) → PartsAreKept sorts f }
{}
