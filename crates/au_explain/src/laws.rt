//! Laws of the definitions.

ghost use Rattle.std.specs.Prelude.{◌≡◌};
ghost use Rattle.au_explain.specs.Examples.{small, told};
ghost use Rattle.au_explain.specs.Lines.{life_text};

/// The text of the lives of a small program is that written by hand.
pub fn an_example_holds()
    ensures { life_text small ≡ told }
{}
