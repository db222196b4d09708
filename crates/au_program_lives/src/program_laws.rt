//! Laws of the definitions.

ghost use Rattle.std.specs.Prelude.{◌≡◌, ◌↔◌, List, None, Some};
ghost use Rattle.au_modules.specs.Programs.{ModuleParts};
ghost use Rattle.au_program_lives.specs.declared.faults.LinearFault.{LinearFault};
ghost use Rattle.au_program_lives.specs.Good.{AllLivesAreGood, IsRefused};
ghost use Rattle.au_program_lives.specs.LinearFaults.{function_fault, linear_fault};
ghost use Rattle.au_program_lives.specs.Scopes.{TypeScope};
ghost use Rattle.au_syntax.specs.Modules.{Header};
ghost use Rattle.au_syntax.specs.Plain.{Bytes, PlainStatements};

/// A program is refused for nothing exactly where every variable of every function
/// and method has a good life.
pub fn good_lives_are_not_refused()
    ensures { (program : List ModuleParts) → (linear_fault program ≡ None) ↔ AllLivesAreGood program }
{}

/// What is told of a function is told of its first variable that has no good life.
pub fn the_first_bad_life_is_told()
    ensures { (header : Header Bytes) (body : PlainStatements) (sc : TypeScope) (e : LinearFault)
        → function_fault header body sc ≡ Some e
        → IsRefused header body sc e }
{}
