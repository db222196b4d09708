//! Laws of the definitions.

ghost use Rattle.std.specs.Prelude.{◌≡◌, ◌↔◌, List, Option, true};
ghost use Rattle.au_classes.specs.Methods.{AreMethods, are_methods};
ghost use Rattle.au_syntax.specs.Modules.{Header};
ghost use Rattle.au_syntax.specs.Plain.{Bytes, PlainMethod};
ghost use Rattle.au_syntax.specs.Types.{WrittenType};
ghost use Rattle.au_types.specs.Types.{Meaning};

/// The test for methods says yes exactly where the rule on them holds.
pub fn the_test_decides_the_rule()
    ensures { (wanted given : WrittenType → Option Meaning) (class : List (Header Bytes))
        (methods : List PlainMethod)
        → (are_methods wanted given class methods ≡ true) ↔ AreMethods wanted given class methods }
{}
