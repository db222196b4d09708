//! What operators do.

ghost use Rattle.std.specs.Prelude.{◌≡◌};
ghost use Rattle.au_lowering_expressions.specs.Views.{operation_said};
ghost use Rattle.au_meaning.specs.Expressions as meant;

use au_ints::{IntOp, Order};
use au_syntax::BinaryOperator;

/// What an operator does.
#[derive(Clone, Copy, Debug, PartialEq, Eq)]
pub enum Operation {
    /// It computes.
    Computes(IntOp),
    /// It compares.
    Compares(Order),
    /// `and`
    And,
    /// `or`
    Or,
}

/// What an operator does.
pub fn operation_of(operator: BinaryOperator) -> Operation
    ensures { operation_said result ≡ meant.operation_of operator }
{
    match operator {
        BinaryOperator::Add => Operation::Computes(IntOp::Add),
        BinaryOperator::Subtract => Operation::Computes(IntOp::Subtract),
        BinaryOperator::Multiply => Operation::Computes(IntOp::Multiply),
        BinaryOperator::Divide => Operation::Computes(IntOp::Divide),
        BinaryOperator::Equal => Operation::Compares(Order::Equal),
        BinaryOperator::NotEqual => Operation::Compares(Order::NotEqual),
        BinaryOperator::Less => Operation::Compares(Order::Less),
        BinaryOperator::LessEqual => Operation::Compares(Order::LessEqual),
        BinaryOperator::Greater => Operation::Compares(Order::Greater),
        BinaryOperator::GreaterEqual => Operation::Compares(Order::GreaterEqual),
        BinaryOperator::And => Operation::And,
        BinaryOperator::Or => Operation::Or,
    }
}
