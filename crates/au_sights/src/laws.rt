//! Laws on what is told of a program that isn't well typed.

ghost use Rattle.std.specs.Prelude.{◌≡◌};
ghost use Rattle.au_sights.specs.Examples.{class_text, examples, rows};
ghost use Rattle.au_sights.specs.Lines.{why_text};
ghost use Rattle.au_sights.specs.Views.{why_told};
ghost use Rattle.au_syntax.specs.Parts.{Each};

/// Of each clause that may fail the line says what was written by hand.
pub fn examples_hold()
    ensures { Each (λ one. why_text (why_told rows class_text one.why) ≡ one.says) examples }
{}
