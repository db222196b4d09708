//! Laws over the definitions alone.

ghost use Rattle.std.specs.Prelude.{◌≡◌, ◌↔◌, List, None};
ghost use Rattle.au_modules.specs.Accepted.{IsProgram};
ghost use Rattle.au_modules.specs.Programs.{Entry, refusal_of};

/// Files are those of a program exactly where they are refused for nothing.
pub fn programs_are_not_refused()
    ensures { (files : List Entry) → (refusal_of files ≡ None) ↔ IsProgram files }
{}
