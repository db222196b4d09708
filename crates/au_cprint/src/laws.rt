//! Laws of the definitions.

ghost use Rattle.std.specs.Prelude.{◌≡◌};
ghost use Rattle.au_cprint.specs.Examples.{hello, hello_lines, forms, form_lines, lines_from_first};
ghost use Rattle.au_cprint.specs.Programs.{c_text, lines_of};
ghost use Rattle.au_cprint.specs.Told.{IsToldCode};
ghost use Rattle.au_low.specs.declared.code.Code.{Code};

/// The lines of a small program are those written by hand.
pub fn an_example_holds()
    ensures { lines_of hello ≡ hello_lines }
{}

/// So are those of one instruction of each form.
pub fn forms_hold()
    ensures { lines_from_first forms ≡ form_lines }
{}

/// Two codes whose texts tell them are one where their texts are.
pub fn one_code_a_text()
    ensures { (x y : Code) → IsToldCode x → IsToldCode y → c_text x ≡ c_text y → x ≡ y }
{}
