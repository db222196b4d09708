//! Laws of names that are declared again.

ghost use Rattle.std.specs.Prelude.{◌≡◌, ◌↔◌, List, None};
ghost use Rattle.au_rules.specs.Doubles.{first_double};
ghost use Rattle.au_rules.specs.Examples.{at_the_top, doubles_found, in_blocks};
ghost use Rattle.au_rules.specs.Once.{AllNamesAreOnce};
ghost use Rattle.au_modules.specs.Programs.{ModuleParts};
ghost use Rattle.au_syntax.specs.Parts.{Each};
ghost use Rattle.au_types.specs.declared.types.DeclAt.{DeclAt};

/// No declaration of a program declares a name again exactly where the rule on names holds.
pub fn no_doubles_exactly_where_names_are_once()
    ensures { (program : List ModuleParts) → ((at : DeclAt) → first_double program at ≡ None)
        ↔ AllNamesAreOnce program }
{}

/// In a few small modules the names that are declared again are those that were found by hand.
pub fn examples_hold()
    ensures top { Each (λ one. doubles_found one ≡ one.doubles) at_the_top }
    ensures blocks { Each (λ one. doubles_found one ≡ one.doubles) in_blocks }
{}
