//! Laws of the notes of statements, blocks, bodies and programs: the search finds whatever is good, whatever
//! it finds is good, and no program has two derivations.

ghost use Rattle.std.specs.Prelude.{◌≡◌, ℕ, true, false, List, Ok, Err};
ghost use Rattle.au_syntax.specs.declared.modules.Part.{Part};
ghost use Rattle.au_syntax.specs.Modules.{Constrained, Header};
ghost use Rattle.au_syntax.specs.Parts.{Each};
ghost use Rattle.au_syntax.specs.Plain.{Bytes, PlainStatement, PlainStatements, plain_module};
ghost use Rattle.au_modules.specs.Programs.{ModuleParts};
ghost use Rattle.au_typing.specs.Scopes.{Outside, Scope};
ghost use Rattle.au_typing.specs.Bodies.{GoodBody};
ghost use Rattle.au_typing.specs.Derivations.{Derives};
ghost use Rattle.au_typing.specs.DerivationExamples.{body, examples, fault_of};
ghost use Rattle.au_typing.specs.DerivationFaults.{StatementFault};
ghost use Rattle.au_typing.specs.Paths.{GoesOn, ReachesEnd};
ghost use Rattle.au_typing.specs.ProgramSearch.{note_program};
ghost use Rattle.au_typing.specs.Refusals.{IsRefused};
ghost use Rattle.au_typing.specs.Returns.{block_returns, returns};
ghost use Rattle.au_typing.specs.DerivationSearch.{note_block, note_statement};
ghost use Rattle.au_typing.specs.Statements.{GoodBlock, GoodStatement};
ghost use Rattle.au_typing.specs.Trees.{NotedParts, NotedStatement, NotedStatements, erase_block};
ghost use Rattle.au_typing.specs.Trees.{NotedModule, erase_module, erase_statement};

/// A module without its notes is what is read plainly of it, with each name as it is.
pub fn erasing_reads_plainly()
    ensures { (m : NotedModule) → plain_module (λ (name : Bytes). name) m ≡ erase_module m }
{}

/// A few blocks are accepted or refused as is written beside them by hand.
pub fn examples_hold()
    ensures { Each (λ one. fault_of (note_block one.written body) ≡ one.fault) examples }
{}

/// A statement that returns on every path is one behind which no path goes on, and behind each other one some
/// path does; a block that returns on every path is one whose end no path reaches, and that of each other one
/// some path does.
pub fn paths_end_where_nothing_returns()
    ensures statement { (s : PlainStatement)
        → (returns s ≡ true → ¬ (GoesOn s)) × (returns s ≡ false → GoesOn s) }
    ensures block { (ss : PlainStatements)
        → (block_returns ss ≡ true → ¬ (ReachesEnd ss)) × (block_returns ss ≡ false → ReachesEnd ss) }
{}

/// Whatever notes of a statement or a block are good, the search finds them.
pub fn good_blocks_are_found()
    ensures statement { (s : NotedStatement) (sc : Scope)
        → GoodStatement s sc
        → note_statement (erase_statement s) sc ≡ Ok s }
    ensures block { (ss : NotedStatements) (sc : Scope)
        → GoodBlock ss sc
        → note_block (erase_block ss) sc ≡ Ok ss }
{}

/// Whatever notes the search finds for a statement or a block are good, and without them the statement or the
/// block is as it was.
pub fn found_blocks_are_good()
    ensures statement { (s : PlainStatement) (sc : Scope) (found : NotedStatement)
        → note_statement s sc ≡ Ok found
        → GoodStatement found sc × (erase_statement found ≡ s) }
    ensures block { (ss : PlainStatements) (sc : Scope) (found : NotedStatements)
        → note_block ss sc ≡ Ok found
        → GoodBlock found sc × (erase_block found ≡ ss) }
{}

/// A block that the search refuses is refused at the first of its statements that isn't good where it stands:
/// those in front of it are good, and it follows what returns on every path, or is refused itself.
pub fn blocks_are_refused_at_their_first_fault()
    ensures { (ss : PlainStatements) (sc : Scope) (fault : StatementFault)
        → note_block ss sc ≡ Err fault
        → IsRefused ss sc fault }
{}

/// No statement and no block has two notings that are good in one scope.
pub fn no_block_has_two_notings()
    ensures statement { (a b : NotedStatement) (sc : Scope)
        → GoodStatement a sc
        → GoodStatement b sc
        → erase_statement a ≡ erase_statement b
        → a ≡ b }
    ensures block { (a b : NotedStatements) (sc : Scope)
        → GoodBlock a sc
        → GoodBlock b sc
        → erase_block a ≡ erase_block b
        → a ≡ b }
{}

/// No body of a function or method has two notings that are good.
pub fn no_body_has_two_notings()
    ensures { (outside : Outside) (generics : List (Constrained Bytes)) (header : Header Bytes)
        (a b : NotedStatements)
        → GoodBody outside generics header a
        → GoodBody outside generics header b
        → erase_block a ≡ erase_block b
        → a ≡ b }
{}

/// Whatever notes derive a program, the search finds them, so that it refuses no program that has a
/// derivation.
pub fn derivations_are_found()
    ensures found { (outside : ℕ → Part → Outside) (program : List ModuleParts) (noted : List NotedParts)
        → Derives outside program noted
        → note_program outside program ≡ Ok noted }
    ensures refused { (outside : ℕ → Part → Outside) (program : List ModuleParts) (noted : List NotedParts)
        (fault : StatementFault)
        → note_program outside program ≡ Err fault
        → ¬ (Derives outside program noted) }
{}

/// Whatever notes the search finds for a program derive it.
pub fn what_is_found_derives()
    ensures { (outside : ℕ → Part → Outside) (program : List ModuleParts) (noted : List NotedParts)
        → note_program outside program ≡ Ok noted
        → Derives outside program noted }
{}

/// No program has two derivations.
pub fn no_program_has_two_derivations()
    ensures { (outside : ℕ → Part → Outside) (program : List ModuleParts) (a b : List NotedParts)
        → Derives outside program a
        → Derives outside program b
        → a ≡ b }
{}
