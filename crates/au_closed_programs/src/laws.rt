//! Laws of closed programs.

ghost use Rattle.std.specs.Prelude.{◌≡◌, List};
ghost use Rattle.au_closed_programs.specs.Programs.{ClosedProgram, Closes};
ghost use Rattle.au_typing.specs.Trees.{NotedParts};
ghost use Rattle.au_modules.specs.Programs.{ModuleParts};
ghost use Rattle.au_syntax.specs.Plain.{Bytes};

/// A program with notes closes to one closed program from an entry.
pub fn there_is_one_closed_program()
    ensures { (program : List ModuleParts) (noted : List NotedParts) (owner name : Bytes)
        (one other : ClosedProgram)
        → Closes program noted owner name one
        → Closes program noted owner name other
        → one ≡ other }
{}
