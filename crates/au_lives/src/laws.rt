//! Laws of the definitions.

ghost use Rattle.std.specs.Prelude.{◌≡◌, ℕ, List, Bool, false, [], codes, IsTrue, Ok, Err, None, Some, ◌↔◌};
ghost use Rattle.au_syntax.specs.Parts.{Each};
ghost use Rattle.au_syntax.specs.Plain.{PlainStatements};
ghost use Rattle.au_lives.specs.declared.lives.LifeKind.{LifeKind};
ghost use Rattle.au_lives.specs.declared.lives.Sort.{Sort};
ghost use Rattle.au_lives.specs.declared.lives.Sort.TheVariants as sorts;
ghost use Rattle.au_lives.specs.Mentions.{counts_in};
ghost use Rattle.au_lives.specs.Paths.{Step, follow_block};
ghost use Rattle.au_lives.specs.Scopes.{scopes};
ghost use Rattle.au_lives.specs.Lives.{fate, going, broken, consumptions, keeps_loops, keeps_all_parts};
ghost use Rattle.au_lives.specs.Lives.{GoodPath, GoodPaths, GoodLife, BadPath};
ghost use Rattle.au_lives.specs.Breaches.{BreaksFirst};
ghost use Rattle.au_lives.specs.Walks.{Reach, Breach, checked};
ghost use Rattle.au_lives.specs.Places.{loop_places, part_places};
ghost use Rattle.au_lives.specs.Refusals.{Refusal, Refuses, Refused, Variable, GoodLives, IsFirstRefused};
ghost use Rattle.au_lives.specs.Refusals.{refusal, first_refused};
ghost use Rattle.au_lives.specs.Trimming.{without_zeros};
ghost use Rattle.au_lives.specs.Examples.{mentions, ways, names, names_of, without_around};

/// The mentions of some expressions are those that are counted by hand.
pub fn mentions_are_counted()
    ensures { Each (λ row. counts_in (codes "x") false row.0 ≡ row.1) mentions }
{}

/// The paths of small bodies meet the steps that are written by hand, and do to a variable what is said
/// there.
pub fn paths_are_followed()
    ensures met { Each (λ row. without_around (follow_block row.0 [] row.1).steps ≡ row.2) ways }
    ensures done { Each (λ row. fate (codes "x") sorts.Linear (follow_block row.0 [] row.1).steps
        ≡ row.3) ways }
{}

/// The variables of some bodies are those that are listed by hand, in text order.
pub fn variables_are_listed()
    ensures { Each (λ row. names_of (scopes row.0) ≡ row.1) names }
{}

/// A variable whose type is Free is never consumed.
pub fn free_variables_are_never_consumed()
    ensures { (x : List ℕ) (steps : List Step) → consumptions x sorts.Free steps ≡ 0 }
{}

/// A path keeps the rules exactly where no step of it and not its end breaks the life.
pub fn fates_are_the_rules()
    ensures good { (x : List ℕ) (sort : Sort) (steps : List Step) (spent : Bool)
        → fate x sort steps ≡ going spent
        → GoodPath x sort steps }
    ensures going { (x : List ℕ) (sort : Sort) (steps : List Step)
        → GoodPath x sort steps
        → (spent : Bool) × (fate x sort steps ≡ going spent) }
{}

/// Zeros at the end of the choices change nothing on a path.
pub fn zeros_at_the_end_are_nothing()
    ensures steps { (b : PlainStatements) (choices : List ℕ)
        → (follow_block b [] (without_zeros choices)).steps ≡ (follow_block b [] choices).steps }
    ensures taken { (b : PlainStatements) (choices : List ℕ)
        → (follow_block b [] (without_zeros choices)).taken ≡ (follow_block b [] choices).taken }
{}

/// Where no consumption of a variable stands in a loop, the walk says yes exactly where every path is good.
pub fn the_walk_decides_paths()
    ensures yes { (x : List ℕ) (sort : Sort) (b : PlainStatements) (o : Reach)
        → IsTrue (keeps_loops x sort b)
        → checked x sort b ≡ Ok o
        → GoodPaths x sort b }
    ensures good { (x : List ℕ) (sort : Sort) (b : PlainStatements)
        → IsTrue (keeps_loops x sort b)
        → GoodPaths x sort b
        → (o : Reach) × (checked x sort b ≡ Ok o) }
{}

/// Where the walk says no, its path without the zeros at the end breaks the life, in that way first; each of
/// its numbers is read, and is the least that takes the same way.
pub fn a_no_keeps_a_bad_path()
    ensures { (x : List ℕ) (sort : Sort) (b : PlainStatements) (e : Breach)
        → IsTrue (keeps_loops x sort b)
        → checked x sort b ≡ Err e
        → BadPath x sort b e.kind (without_zeros e.path) }
{}

/// A life that some path breaks isn't good.
pub fn bad_paths_break_good_lives()
    ensures { (x : List ℕ) (sort : Sort) (b : PlainStatements) (kind : LifeKind) (path : List ℕ)
        → BadPath x sort b kind path
        → GoodLife x sort b
        → ⊥ }
{}

/// A life is good exactly where no consumption stands in a loop, none stands where an expression may leave
/// out to look, and the walk says yes.
pub fn good_lives_are_decided()
    ensures yes { (x : List ℕ) (sort : Sort) (b : PlainStatements) (o : Reach)
        → IsTrue (keeps_loops x sort b)
        → IsTrue (keeps_all_parts x sort b)
        → checked x sort b ≡ Ok o
        → GoodLife x sort b }
    ensures good { (x : List ℕ) (sort : Sort) (b : PlainStatements)
        → GoodLife x sort b
        → IsTrue (keeps_loops x sort b)
        × IsTrue (keeps_all_parts x sort b)
        × ((o : Reach) × (checked x sort b ≡ Ok o)) }
{}

/// No consumption stands in a loop, or where an expression may leave out to look, exactly where none has a
/// place there.
pub fn places_are_the_consumptions()
    ensures loops { (x : List ℕ) (sort : Sort) (b : PlainStatements)
        → IsTrue (keeps_loops x sort b) ↔ (loop_places x sort b ≡ []) }
    ensures parts { (x : List ℕ) (sort : Sort) (b : PlainStatements)
        → IsTrue (keeps_all_parts x sort b) ↔ (part_places x sort b ≡ []) }
{}

/// What is told of a variable is right, and nothing is told exactly where its life is good.
pub fn refusals_are_right()
    ensures none { (x : List ℕ) (sort : Sort) (b : PlainStatements)
        → (refusal x sort b ≡ None) ↔ GoodLife x sort b }
    ensures some { (x : List ℕ) (sort : Sort) (b : PlainStatements) (why : Refusal)
        → refusal x sort b ≡ Some why
        → Refuses x sort b why }
    ensures bad { (x : List ℕ) (sort : Sort) (b : PlainStatements) (why : Refusal)
        → Refuses x sort b why
        → GoodLife x sort b
        → ⊥ }
{}

/// Of some variables the first that has no good life is refused, and none exactly where each life is good.
pub fn the_first_bad_life_is_refused()
    ensures none { (vs : List Variable) → (first_refused vs ≡ None) ↔ GoodLives vs }
    ensures some { (vs : List Variable) (r : Refused) → first_refused vs ≡ Some r → IsFirstRefused vs r }
{}

/// A path that breaks the life of a variable does so at its first step that breaks it, in the way that is
/// told, or where it ends.
pub fn the_first_breach_is_told()
    ensures { (x : List ℕ) (sort : Sort) (kind : LifeKind) (steps : List Step)
        → fate x sort steps ≡ broken kind
        → BreaksFirst x sort kind steps }
{}
