//! What each tree of the rows has as its type, or is refused for, is what was written beside it by hand.

ghost use Rattle.std.specs.Prelude.{◌≡◌};
ghost use Rattle.au_syntax.specs.Parts.{Each};
ghost use Rattle.au_typing.specs.DerivationExamples.{fault_of};
ghost use Rattle.au_typing.specs.ProgramSearch.{note_declaration, note_program};
ghost use Rattle.au_typing.specs.DerivationSearch.{note_block};
ghost use Rattle.au_typing.specs.TypingExamples.{told_of};
ghost use Rattle.au_typing.specs.Search.{note};
ghost use Rattle.au_laws.specs.Bodies as bodies;
ghost use Rattle.au_laws.specs.Expressions as expressions;
ghost use Rattle.au_laws.specs.Statements as statements;
ghost use Rattle.au_laws.specs.Things.{outside, scope};

/// Expressions have the types, or the faults, that are written beside them.
pub fn rows_of_expressions_hold()
    ensures words { Each (λ one. told_of (note scope one.of one.mode) ≡ one.told) expressions.words }
    ensures parts { Each (λ one. told_of (note scope one.of one.mode) ≡ one.told) expressions.parts }
    ensures operations { Each (λ one. told_of (note scope one.of one.mode) ≡ one.told)
        expressions.operations }
    ensures constraints { Each (λ one. told_of (note scope one.of one.mode) ≡ one.told)
        expressions.constraints }
{}

/// Statements are accepted, or refused for what is written beside them.
pub fn rows_of_statements_hold()
    ensures declarations { Each (λ one. fault_of (note_block one.written scope) ≡ one.fault)
        statements.declarations }
    ensures assignments { Each (λ one. fault_of (note_block one.written scope) ≡ one.fault)
        statements.assignments }
    ensures conditionals { Each (λ one. fault_of (note_block one.written scope) ≡ one.fault)
        statements.conditionals }
    ensures references { Each (λ one. fault_of (note_block one.written scope) ≡ one.fault)
        statements.through_references }
    ensures repetitions { Each (λ one. fault_of (note_block one.written scope) ≡ one.fault)
        statements.repetitions }
    ensures borrows { Each (λ one. fault_of (note_block one.written scope) ≡ one.fault)
        statements.borrows_of }
    ensures ends { Each (λ one. fault_of (note_block one.written scope) ≡ one.fault) statements.ends }
{}

/// Bodies, constants and programs are accepted, or refused for what is written beside them.
pub fn rows_of_bodies_hold()
    ensures declarations { Each (λ one. fault_of (note_declaration outside one.written) ≡ one.fault)
        bodies.rows }
    ensures programs { Each (λ one. fault_of (note_program bodies.everywhere one.modules) ≡ one.fault)
        bodies.programs }
{}
