//! Laws of the definitions.

ghost use Rattle.std.specs.Prelude.{◌≡◌, ◌<◌, Bool, IsTrue, length};
ghost use Rattle.au_syntax.specs.Examples.{type_rows, expression_rows, statement_rows, declaration_rows};
ghost use Rattle.au_syntax.specs.Examples.{module_rows};
ghost use Rattle.au_syntax.specs.Depths.{expression_depth};
ghost use Rattle.au_syntax.specs.Parts.{Each, parts, substatements, nodes};
ghost use Rattle.au_syntax.specs.Plain.{PlainExpression, PlainStatement};
ghost use Rattle.au_syntax.specs.Words as words;

/// What holds of an expression wherever it holds of its parts, holds of every expression.
pub fn expression_induction()
    ensures { (test : PlainExpression → Bool)
        → ((e : PlainExpression) → Each (λ part. IsTrue (test part)) (parts e) → IsTrue (test e))
        → (e : PlainExpression) → IsTrue (test e) }
{}

/// What holds of a statement wherever it holds of the statements in it, holds of every statement.
pub fn statement_induction()
    ensures { (test : PlainStatement → Bool)
        → ((s : PlainStatement) → Each (λ part. IsTrue (test part)) (substatements s) → IsTrue (test s))
        → (s : PlainStatement) → IsTrue (test s) }
{}

/// The parts of an expression are less deeply nested.
pub fn parts_are_shallower()
    ensures { (e : PlainExpression) → Each (λ part. expression_depth part < expression_depth e) (parts e) }
{}

/// The parts of an expression have fewer nodes.
pub fn parts_are_smaller()
    ensures { (e : PlainExpression) → Each (λ part. length (nodes part) < length (nodes e)) (parts e) }
{}

/// The words of one small tree of each row of the grammar are the tokens that are written for it by hand.
pub fn rows_are_spelled()
    ensures types { Each (λ row. words.spelled (words.type_words row.0) ≡ row.1) type_rows }
    ensures expressions { Each (λ row. words.spelled (words.expression_words row.0) ≡ row.1) expression_rows }
    ensures statements { Each (λ row. words.spelled (words.statement_words row.0) ≡ row.1) statement_rows }
    ensures declarations { Each (λ row. words.spelled (words.declaration_words row.0)
        ≡ row.1) declaration_rows }
    ensures modules { Each (λ row. words.spelled (words.words row.0) ≡ row.1) module_rows }
{}
