//! Laws of the definitions.

ghost use Rattle.std.specs.Prelude.{◌≡◌, ◌↔◌, List, None};
ghost use Rattle.au_modules.specs.Programs.{ModuleParts};
ghost use Rattle.au_rules.specs.DeclFaults.{decl_fault};
ghost use Rattle.au_rules.specs.Good.{AllDeclarationsAreGood};

/// Declarations are refused for nothing exactly where all are good.
pub fn good_declarations_are_not_refused()
    ensures { (program : List ModuleParts) → (decl_fault program ≡ None) ↔ AllDeclarationsAreGood program }
{}
