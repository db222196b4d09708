//! Runs of accepted programs are seen well, where calls run in the bodies of functions.

ghost use Rattle.std.specs.Prelude.{ℕ, List, Option};
ghost use Rattle.au_base.specs.Outside.{Files};
ghost use Rattle.au_type_texts.specs.Types.{ClosedType};
ghost use Rattle.au_modules.specs.Programs.{ModuleParts};
ghost use Rattle.au_judged_bodies.specs.Trees.{NotedParts};
ghost use Rattle.au_judged_programs.specs.CheckedChecked.{IsChecked};
ghost use Rattle.au_closing_laws.specs.Accepted.{AreAcceptedAs};
ghost use Rattle.au_closing_laws.specs.Programs.{program_modules};
ghost use Rattle.au_closing_laws.specs.Trees.{ReadFile};
ghost use Rattle.au_judged_bodies.specs.Held.{Permits};
ghost use Rattle.au_judged_bodies.specs.Keys.{Key};
ghost use Rattle.au_judged_programs.specs.Runs.{CallsHoldWell, RunsAreSeenWell, RunsHoldWell};

/// Every run of an accepted program from an entry is seen well, where calls run in the bodies of functions.
pub fn accepted_programs_run_well()
    ensures checked { (program : List ModuleParts) (noted : List NotedParts)
        (owner : ClosedType → Option (List ℕ))
        → IsChecked program noted → RunsAreSeenWell program noted owner }
    ensures accepted { (files : Files) (names all : List (List ℕ)) (reads : List ReadFile)
        (a : AreAcceptedAs files names all reads) (owner : ClosedType → Option (List ℕ))
        → RunsAreSeenWell (program_modules reads) a.noted owner }
{}

/// Names hold what is permitted wherever a run of a checked program from an entry is cut off, and wherever
/// each of its calls is, where this covers the bodies of functions.
pub fn checked_programs_hold_well<W>()
    ensures runs { (program : List ModuleParts) (noted : List NotedParts)
        (owner : ClosedType → Option (List ℕ)) (permits : Permits (Key program noted) W)
        → IsChecked program noted → RunsHoldWell program noted owner permits }
    ensures calls { (program : List ModuleParts) (noted : List NotedParts)
        (owner : ClosedType → Option (List ℕ)) (permits : Permits (Key program noted) W)
        → IsChecked program noted → CallsHoldWell program noted owner permits }
{}
