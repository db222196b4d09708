//! Laws of the definitions.

ghost use Rattle.std.specs.Prelude.{◌≡◌, ℕ, List, IsTrue, ◌↔◌};
ghost use Rattle.au_base.specs.declared.tokens.What.TheVariants.{Name};
ghost use Rattle.au_lexer.specs.Pieces.{IsToken};
ghost use Rattle.au_words.specs.Jobs.{Task, IsJob, is_name};

/// Words ask for one job at most.
pub fn one_job()
    ensures { (words : List (List ℕ)) (task other : Task) → IsJob words task → IsJob words other
        → task ≡ other }
{}

/// The names in words are the names of the language.
pub fn names_of_the_language()
    ensures { (bytes : List ℕ) → IsTrue (is_name bytes) ↔ IsToken (Name bytes) }
{}
