//! The nodes that tokens stand for.

ghost use Rattle.std.specs.Prelude.{◌≡◌, Some, Err, IfOk, length, nat_le};
ghost use Rattle.au_read_expressions.specs.Reading as reading;
ghost use Rattle.au_read_expressions.specs.Bounds.{nodes_limit, usual};
ghost use Rattle.au_read_expressions.specs.TypeReading as types;
ghost use Rattle.au_read_expressions.specs.TypeReading.{begins_type, judged, nodes_before, nodes_here};
ghost use Rattle.au_syntax.specs.Types.{WrittenType};

use crate::stops::tokens_left;
use crate::{Fault, Stop};
use au_base::{Limit, LimitKind, MOST_TYPE_NODES, Memory, Sign, Token, What};
use std::alloc::Global;

/// Whether a type begins with this token.
pub(crate) fn begins(token: &Token) -> bool
    ensures { result ≡ begins_type (Some token.now.what) }
{
    match &token.what {
        What::Name(_) => true,
        What::Sign(Sign::ReadBorrow) => true,
        What::Sign(Sign::WriteBorrow) => true,
        _ => false,
    }
}

/// The nodes of the tokens before the last ones, of which there are so many.
pub(crate) fn count_before(left: usize, tokens: &[Token]) -> u64
    ensures { result ≡ nodes_before left tokens.now }
{
    let mut count = 0;
    let mut rest = tokens;
    for _ in 0..tokens.len().saturating_sub(left) {
        let [token, behind @ ..] = rest else {
            return count;
        };
        if begins(token) {
            count += 1;
        }
        rest = behind;
    }
    count
}

/// The nodes of the type that stands here, however deep it is: those of all tokens before the first one that
/// doesn't continue the type, or before what is behind the type.
///
/// # Errors
///
/// `Memory` when memory runs out.
#[tactic(auto, using(crate::proofs::TypeStops::reading_stops))]
fn count_here(alloc: Global, tokens: &[Token]) -> Result<u64, Memory>
    ensures { IfOk result (λ count. count ≡ nodes_here usual tokens.now) }
{
    let left = tokens_left(alloc, tokens)?;
    Ok(count_before(left, tokens))
}

/// A type has more nodes than it may.
pub(crate) fn too_many(count: u64, tokens: &[Token]) -> Fault
    ensures { result ≡ Fault.Passed (nodes_limit usual count) (length tokens.now) }
{
    let limit = Limit {
        kind: LimitKind::TypeNodes,
        count,
        most: u64::from(MOST_TYPE_NODES),
    };
    Fault::Passed(limit, tokens.len())
}

/// Whether a type may have so many nodes.
pub(crate) fn is_few(count: u64) -> bool
    ensures { result ≡ nat_le count usual.nodes }
{
    count <= u64::from(MOST_TYPE_NODES)
}

/// What is wrong with a type that has so many nodes: that these are too many, or else the fault.
fn too_many_or(fault: Fault, count: u64, tokens: &[Token]) -> Fault
    ensures { types.too_many usual {A = WrittenType} count tokens.now (Err fault) ≡ Err result }
{
    if is_few(count) {
        fault
    } else {
        too_many(count, tokens)
    }
}

/// What is wrong with a type that has a fault: the fault, unless the type has too many nodes before it.
/// The count that is told is that of the nodes before the first token that doesn't continue the type, however
/// deep the type is.
pub(crate) fn judge(alloc: Global, fault: Fault, tokens: &[Token]) -> Stop
    ensures { reading.Stops result (judged usual tokens.now (Err fault)) }
{
    match fault {
        Fault::Syntax(left) => {
            let count = count_before(left, tokens);
            Stop::Fault(too_many_or(fault, count, tokens))
        }
        Fault::Passed(_, left) => {
            if is_few(count_before(left, tokens)) {
                return Stop::Fault(fault);
            }
            match count_here(alloc, tokens) {
                Ok(count) => Stop::Fault(too_many_or(fault, count, tokens)),
                Err(Memory) => Stop::Memory,
            }
        }
    }
}
