//! Laws of the definitions.

ghost use Rattle.std.specs.Prelude.{◌≡◌, ◌↔◌, ℕ, IsTrue, List};
ghost use Rattle.au_base.specs.Outside.{Files};
ghost use Rattle.au_accepted.specs.Accepted.{Accepted, AreAcceptedAs};
ghost use Rattle.au_outcomes.specs.Outcomes.{Comes, HasLayout, is_behind, judges};
ghost use Rattle.au_outcomes.specs.Programs.{AcceptedCome};
ghost use Rattle.au_accepted.specs.Trees.{ReadFile};
ghost use Rattle.au_outcomes.specs.declared.outcomes.Aim.{Aim};
ghost use Rattle.au_outcomes.specs.declared.outcomes.Aim.TheVariants as aims;
ghost use Rattle.au_outcomes.specs.declared.outcomes.Outcome.{Outcome};
ghost use Rattle.au_outcomes.specs.declared.outcomes.Outcome.TheVariants as outcome;

/// Whatever is asked of files that are judged, they come to something behind the steps that judge whether
/// they are accepted exactly where they are; and then they come to what is asked: that they are accepted,
/// or the lives of their variables, or the report on what they can do with capabilities, or that their
/// program is to run or to be compiled. Files that are to be laid out come to their layout exactly where
/// they can be had and read.
pub fn accepted_files_come_to_what_is_asked()
    ensures behind { (aim : Aim) (files : Files) (names : List (List ℕ)) (arisen : Outcome)
        → IsTrue (judges aim) → Comes aim files names arisen
        → IsTrue (is_behind arisen) ↔ Accepted files names }
    ensures asked { (aim : Aim) (files : Files) (names all : List (List ℕ)) (reads : List ReadFile)
        (arisen : Outcome)
        → IsTrue (judges aim) → AreAcceptedAs files names all reads
        → Comes aim files names arisen ↔ AcceptedCome aim reads arisen }
    ensures laid { (files : Files) (names : List (List ℕ)) (text : List ℕ)
        → Comes aims.Format files names (outcome.Laid text) ↔ HasLayout files names text }
    ensures laid_only { (aim : Aim) (files : Files) (names : List (List ℕ)) (text : List ℕ)
        → Comes aim files names (outcome.Laid text) → aim ≡ aims.Format }
{}
