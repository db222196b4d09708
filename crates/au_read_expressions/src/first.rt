//! What the first tokens tell.

ghost use Rattle.std.specs.Prelude.{◌≡◌, ◌<◌, drop, length, nat_le};
ghost use Rattle.au_read_expressions.specs.Bounds.{nesting_limit, usual};
ghost use Rattle.au_read_expressions.specs.Reading.{Stops, front};
ghost use Rattle.au_read_expressions.specs.ExpressionReading as spec;
ghost use Rattle.au_read_expressions.specs.FirstTokens as first;
ghost use Rattle.au_syntax.specs.Depths.{expression_depth as depth_of};
ghost use Rattle.au_syntax.specs.Views as views;

use crate::{Fault, Stop, stop_before};
use au_base::limits::MOST_NESTING;
use au_base::{Keyword, Limit, LimitKind, Sign, Token, What};
use au_syntax::depths::expression_depth;
use au_syntax::{BinaryOperator, Expr, Parsed, Phase};

/// Whether the tokens begin as an atom does.
pub(crate) fn begins_atom(tokens: &[Token]) -> bool
    ensures { result ≡ spec.begins_atom (front tokens.now) }
{
    match tokens {
        [] => false,
        [first, ..] => match &first.what {
            What::Number { .. } | What::Text(_) | What::Name(_) => true,
            What::Word(Keyword::KwTrue | Keyword::KwFalse | Keyword::KwNil) => true,
            What::Sign(Sign::Minus | Sign::LeftParenthesis | Sign::Exclamation) => true,
            What::Sign(Sign::ReadBorrow | Sign::WriteBorrow | Sign::Reborrow) => true,
            _ => false,
        },
    }
}

/// Whether the tokens begin as an expression does.
pub(crate) fn begins_expression(tokens: &[Token]) -> bool
    ensures { result ≡ spec.begins_expression (front tokens.now) }
{
    match tokens {
        [] => false,
        [first, ..] => match &first.what {
            What::Word(Keyword::KwNot | Keyword::KwIf) => true,
            _ => begins_atom(tokens),
        },
    }
}

/// The operator that the first token is.
pub(crate) fn operator(tokens: &[Token]) -> Option<BinaryOperator>
    ensures { result ≡ spec.operator_of (front tokens.now) }
{
    match tokens {
        [] => None,
        [first, ..] => match &first.what {
            What::Sign(Sign::Plus) => Some(BinaryOperator::Add),
            What::Sign(Sign::Minus) => Some(BinaryOperator::Subtract),
            What::Sign(Sign::Star) => Some(BinaryOperator::Multiply),
            What::Sign(Sign::Slash) => Some(BinaryOperator::Divide),
            What::Sign(Sign::Equal) => Some(BinaryOperator::Equal),
            What::Sign(Sign::NotEqual) => Some(BinaryOperator::NotEqual),
            What::Sign(Sign::Less) => Some(BinaryOperator::Less),
            What::Sign(Sign::LessEqual) => Some(BinaryOperator::LessEqual),
            What::Sign(Sign::Greater) => Some(BinaryOperator::Greater),
            What::Sign(Sign::GreaterEqual) => Some(BinaryOperator::GreaterEqual),
            What::Word(Keyword::KwAnd) => Some(BinaryOperator::And),
            What::Word(Keyword::KwOr) => Some(BinaryOperator::Or),
            _ => None,
        },
    }
}

/// Whether an argument by the name of its parameter begins here.
pub(crate) fn begins_label(tokens: &[Token]) -> bool
    ensures { result ≡ first.is_label (front tokens.now) (front (drop 1 tokens.now)) }
{
    match tokens {
        [name, sign, ..] => match (&name.what, &sign.what) {
            (What::Name(_), What::Sign(Sign::FatArrow)) => true,
            _ => false,
        },
        _ => false,
    }
}

/// Whether an argument begins with a name behind which no expression goes on.
pub(crate) fn is_cut_short(tokens: &[Token]) -> bool
    ensures { result ≡ first.is_cut_short (front tokens.now) (front (drop 1 tokens.now)) }
{
    match tokens {
        [] => false,
        [first, others @ ..] => match &first.what {
            What::Name(_) => !goes_on(others),
            _ => false,
        },
    }
}

/// Whether an expression that begins with a name, and is an argument, goes on with these tokens, or ends
/// before them.
fn goes_on(tokens: &[Token]) -> bool
    ensures { result ≡ spec.goes_on (front tokens.now) }
{
    match tokens {
        [] => false,
        [first, ..] => match &first.what {
            What::Sign(Sign::RightParenthesis | Sign::Comma | Sign::Colon) => true,
            What::Sign(Sign::Dot | Sign::Arrow | Sign::LeftParenthesis) => true,
            _ => match operator(tokens) {
                Some(_) => true,
                None => false,
            },
        },
    }
}

/// Reading stops before these tokens, since the nesting passes its limit.
pub(crate) fn passed(tokens: &[Token]) -> Stop
    ensures { result ≡ Stop.Fault (Fault.Passed (nesting_limit usual) (length tokens.now)) }
{
    let most = u64::from(MOST_NESTING);
    let limit = Limit {
        kind: LimitKind::Nesting,
        count: most + 1,
        most,
    };
    Stop::Fault(Fault::Passed(limit, tokens.len()))
}

/// Why nothing is read where no level is left.
pub(crate) fn too_deep(begins: bool, tokens: &[Token]) -> Stop
    ensures { Stops result (spec.too_deep usual begins tokens.now) }
{
    if begins {
        passed(tokens)
    } else {
        stop_before(tokens)
    }
}

/// Whether so many levels are enough for an expression.
pub(crate) fn is_within(expr: &Expr<Parsed>, levels: u32) -> bool
    requires { levels < 4294967295 }
    ensures { result ≡ nat_le (depth_of (views.expression ⟦<Parsed as Phase>⟧ expr.now)) levels }
{
    expression_depth(expr) <= levels
}
