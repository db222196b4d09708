//! Literals.

ghost use Rattle.std.specs.Prelude.{◌≡◌};
ghost use Rattle.au_typing.specs.Parts as parts;
ghost use Rattle.au_syntax.specs.Views.{expression};

use au_syntax::{Expr, Phase};

/// Whether an expression is one literal; in parentheses it is none.
pub fn is_literal<P: Phase>(expr: &Expr<P>) -> bool
    ensures { result ≡ parts.is_literal (expression P.Phase expr.now) }
{
    match expr {
        Expr::Number(_, _) => true,
        Expr::Negative(_, _) => true,
        Expr::Text(_, _) => true,
        Expr::Bool(_, _) => true,
        Expr::Nil(_) => true,
        Expr::Path(_, _, _) => false,
        Expr::Arrow(_, _, _) => false,
        Expr::Call(_, _, _, _) => false,
        Expr::NamedCall(_, _, _, _) => false,
        Expr::Parenthesized(_, _) => false,
        Expr::Dereference(_, _) => false,
        Expr::Borrow(_, _, _) => false,
        Expr::BorrowPart(_, _, _) => false,
        Expr::Binary(_, _, _, _) => false,
        Expr::Not(_, _) => false,
        Expr::Typed(_, _, _) => false,
        Expr::If(_, _, _, _) => false,
    }
}
