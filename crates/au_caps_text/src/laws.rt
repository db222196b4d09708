//! Laws of the definitions.

ghost use Rattle.std.specs.Prelude.{◌≡◌, Contains, ℕ, List};
ghost use Rattle.au_caps_text.specs.Examples.{small, told};
ghost use Rattle.au_caps_text.specs.Lines.{report_text};
ghost use Rattle.au_caps_text.specs.Lists.{IsListOf};

/// The text of a small report is that written by hand.
pub fn an_example_holds()
    ensures { report_text small ≡ told }
{}

/// There is one list of some texts.
pub fn there_is_one_list()
    ensures { (texts one other : List (List ℕ)) → IsListOf (Contains texts) one
        → IsListOf (Contains texts) other
        → one ≡ other }
{}
