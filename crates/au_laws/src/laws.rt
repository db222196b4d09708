//! What the search refuses, and why, is what the first node that fails tells: so of each expression, block
//! and program that has no good notes there is one first fault, and of each other one none.

ghost use Rattle.std.specs.Prelude.{◌≡◌, ◌↔◌, ℕ, List, Err};
ghost use Rattle.au_modules.specs.Programs.{ModuleParts};
ghost use Rattle.au_typing.specs.Scopes.{Outside, Scope};
ghost use Rattle.au_syntax.specs.declared.modules.Part.{Part};
ghost use Rattle.au_syntax.specs.Plain.{PlainExpression, PlainStatement, PlainStatements};
ghost use Rattle.au_typing.specs.Derivations.{Derives};
ghost use Rattle.au_typing.specs.DerivationFaults.{StatementFault};
ghost use Rattle.au_typing.specs.ProgramSearch.{note_program};
ghost use Rattle.au_typing.specs.DerivationSearch.{note_block, note_statement};
ghost use Rattle.au_typing.specs.Trees.{NotedParts, NotedStatements};
ghost use Rattle.au_laws.specs.FirstFaults.{FirstFault};
ghost use Rattle.au_laws.specs.FirstInPrograms.{ProgramFault};
ghost use Rattle.au_laws.specs.FirstInStatements.{BlockNoted, FaultIn, FaultOf};
ghost use Rattle.au_typing.specs.Faults.{Fault};
ghost use Rattle.au_typing.specs.Good.{IsNoting};
ghost use Rattle.au_typing.specs.Notes.{Mode, NotedExpression};
ghost use Rattle.au_typing.specs.Search.{note};

/// The search refuses an expression for just what its first node tells that fails.
pub fn the_first_fault_is_told()
    ensures { (scope : Scope) (e : PlainExpression) (mode : Mode) (fault : Fault)
        → (note scope e mode ≡ Err fault) ↔ FirstFault scope e mode fault }
{}

/// It refuses a statement, and a block, for just what the first fault in it tells.
pub fn the_first_fault_in_a_block_is_told()
    ensures statement { (s : PlainStatement) (sc : Scope) (fault : StatementFault)
        → (note_statement s sc ≡ Err fault) ↔ FaultOf s sc fault }
    ensures block { (ss : PlainStatements) (sc : Scope) (fault : StatementFault)
        → (note_block ss sc ≡ Err fault) ↔ FaultIn ss sc fault }
{}

/// It refuses a program for just what the first fault in it tells.
pub fn the_first_fault_in_a_program_is_told()
    ensures { (outside : ℕ → Part → Outside) (program : List ModuleParts) (fault : StatementFault)
        → (note_program outside program ≡ Err fault) ↔ ProgramFault outside program fault }
{}

/// There is at most one first fault: of an expression in a mode, of a block, and of a program.
pub fn there_is_one_first_fault()
    ensures expression { (scope : Scope) (e : PlainExpression) (mode : Mode) (f g : Fault)
        → FirstFault scope e mode f
        → FirstFault scope e mode g
        → f ≡ g }
    ensures block { (ss : PlainStatements) (sc : Scope) (f g : StatementFault)
        → FaultIn ss sc f
        → FaultIn ss sc g
        → f ≡ g }
    ensures program { (outside : ℕ → Part → Outside) (program : List ModuleParts) (f g : StatementFault)
        → ProgramFault outside program f
        → ProgramFault outside program g
        → f ≡ g }
{}

/// There is one exactly where there are no good notes.
pub fn faults_are_where_no_notes_are_good()
    ensures expression { (scope : Scope) (e : PlainExpression) (mode : Mode)
        → ((f : Fault) × FirstFault scope e mode f)
        ↔ (¬ ((a : NotedExpression) × IsNoting scope e mode a)) }
    ensures block { (ss : PlainStatements) (sc : Scope)
        → ((f : StatementFault) × FaultIn ss sc f) ↔ (¬ ((b : NotedStatements) × BlockNoted ss sc b)) }
    ensures program { (outside : ℕ → Part → Outside) (program : List ModuleParts)
        → ((f : StatementFault) × ProgramFault outside program f)
        ↔ (¬ ((noted : List NotedParts) × Derives outside program noted)) }
{}
