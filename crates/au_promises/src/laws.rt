//! Laws of the definitions.

ghost use Rattle.std.specs.Prelude.{◌≡◌, ◌↔◌, List, None};
ghost use Rattle.au_modules.specs.Programs.{ModuleParts};
ghost use Rattle.au_promises.specs.Fulfilled.{AllFulfil};
ghost use Rattle.au_promises.specs.Promises.{promise_fault};

/// Promises are refused for nothing exactly where every body fulfils its interface.
pub fn kept_promises_are_not_refused()
    ensures { (program : List ModuleParts) → (promise_fault program ≡ None) ↔ AllFulfil program }
{}
