//! Laws of the definitions: a file is cut in one way, and is refused for one cause at one place.

ghost use Rattle.std.specs.Prelude.{◌≡◌, ℕ, List};
ghost use Rattle.au_base.specs.declared.tokens.Token.{Token};
ghost use Rattle.au_lexer.specs.Cut.{Cut, Lexed, Lexes};

/// No file has two cuts.
pub fn one_cut()
    ensures { (file : ℕ) (bytes : List ℕ) (tokens others : List Token)
        → Cut file bytes tokens → Cut file bytes others → tokens ≡ others }
{}

/// A file comes to one thing: its tokens, or one cause at one place.
pub fn one_outcome()
    ensures { (file : ℕ) (bytes : List ℕ) (outcome other : Lexed)
        → Lexes file bytes outcome → Lexes file bytes other → outcome ≡ other }
{}
