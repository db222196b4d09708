//! Laws of sorts.

ghost use Rattle.std.specs.Prelude.{◌≡◌, List, length};
ghost use Rattle.au_lives.specs.Scopes.{scopes_of};
ghost use Rattle.au_program_lives.specs.Scopes.{TypeScope};
ghost use Rattle.au_program_lives.specs.Examples.{examples, over_two};
ghost use Rattle.au_program_lives.specs.Sorts.{sorts, sorts_of};
ghost use Rattle.au_syntax.specs.Parts.{Each};
ghost use Rattle.au_syntax.specs.Plain.{Bytes, PlainStatements};
ghost use Rattle.au_syntax.specs.Types.{Labelled};

/// Each variable of a function has one sort.
pub fn each_variable_has_a_sort()
    ensures { (parameters : List (Labelled Bytes)) (body : PlainStatements) (sc : TypeScope)
        → length (sorts_of parameters body sc) ≡ length (scopes_of parameters body) }
{}

/// What the types of the variables of a few bodies ask is what is written beside these by hand.
pub fn examples_hold()
    ensures { Each (λ one. sorts one.0 over_two ≡ one.1) examples }
{}
