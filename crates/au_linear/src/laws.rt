//! Laws of what is told.

ghost use Rattle.std.specs.Prelude.{◌≡◌, List, map};
ghost use Rattle.au_syntax.specs.Types.{Labelled};
ghost use Rattle.au_syntax.specs.Plain.{Bytes, PlainStatements};
ghost use Rattle.au_lives.specs.declared.lives.Sort.{Sort};
ghost use Rattle.au_lives.specs.Scopes.{Scope, scopes_of};
ghost use Rattle.au_lives.specs.Refusals.{variables};
ghost use Rattle.au_linear.specs.Telling.{sorted};

/// Where the sorts are those that a function gives for the variables in text order, each variable has the
/// sort that the function gives for it.
pub fn sorts_stand_in_order()
    ensures { (sort_of : Scope → Sort) (parameters : List (Labelled Bytes)) (body : PlainStatements)
        → sorted (scopes_of parameters body) (map sort_of (scopes_of parameters body))
        ≡ variables sort_of parameters body }
{}
