//! Code of programs has plain names, as a law: the contract of a call that does nothing.

ghost use Rattle.std.specs.Prelude.{List, ℕ};
ghost use Rattle.au_syntax.specs.Plain.{Bytes};
ghost use Rattle.au_typing.specs.Trees.{NotedParts};
ghost use Rattle.au_closed_programs.specs.Programs.{ClosedProgram, Closes};
ghost use Rattle.au_low.specs.declared.code.Code.{Code};
ghost use Rattle.au_lowering.specs.Closed.{code_of};
ghost use Rattle.au_accepted.specs.Programs.{program_modules};
ghost use Rattle.au_accepted.specs.Trees.{AreRead, ReadFile};
ghost use Rattle.au_told.specs.Names.{HasPlainNames};
ghost use Rattle.au_told.specs.Programs.{IsAcceptedCode};

/// The code of what a program closes to has plain names where its files were read, and so each code has that
/// accepted files are lowered to.
pub fn code_has_plain_names()
    ensures read { (all : List (List ℕ)) (reads : List ReadFile)
        → AreRead 0 all reads
        → (noted : List NotedParts) (owner name : Bytes) (c : ClosedProgram)
        → Closes (program_modules reads) noted owner name c
        → HasPlainNames (code_of c) }
    ensures accepted { (code : Code) → IsAcceptedCode code → HasPlainNames code }
{}
