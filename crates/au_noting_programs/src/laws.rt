//! Laws of the definitions.

ghost use Rattle.std.specs.Prelude.{◌≡◌, ◌↔◌, List, None};
ghost use Rattle.au_typing.specs.Trees.{NotedParts};
ghost use Rattle.au_modules.specs.Programs.{ModuleParts};
ghost use Rattle.au_noting_programs.specs.Faults.{IsDerived, type_fault};

/// A program is refused for no statement exactly where it is derived with some notes.
pub fn typed_programs_are_not_refused()
    ensures { (program : List ModuleParts)
        → (type_fault program ≡ None) ↔ ((noted : List NotedParts) × IsDerived program noted) }
{}
