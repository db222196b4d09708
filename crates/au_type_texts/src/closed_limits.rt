//! How deep closed types are and how many nodes they have, and whether that is too much.

ghost use Rattle.std.specs.Prelude.{◌≡◌, ◌+◌, max};
ghost use Rattle.au_type_texts.specs.Sizes.{counted};
ghost use Rattle.au_type_texts.specs.ClosedSizes as sizes;
ghost use Rattle.au_type_texts.specs.ClosedSizes.{depth_of, nodes_of};
ghost use Rattle.au_type_texts.specs.Views.{closed_meaning, closed_meanings};

use crate::types::Closed;
use au_base::{Limit, LimitKind, MOST_TYPE_DEPTH, MOST_TYPE_NODES};

/// The limit of depth, exactly where a closed type is deeper than 24. The count is 25, the first that passes
/// it.
pub fn closed_depth_passed(of: &Closed) -> Option<Limit>
    ensures { result ≡ sizes.depth_limit (closed_meaning of.now) }
{
    let most = u64::from(MOST_TYPE_DEPTH);
    if depth(of) <= most {
        return None;
    }
    Some(Limit {
        kind: LimitKind::TypeDepth,
        count: most + 1,
        most,
    })
}

/// The limit of nodes, exactly where a closed type has more than 4,096. The count is that of the whole type;
/// one that has 2^64 nodes or more is counted up to 2^64 - 1.
pub fn closed_nodes_passed(of: &Closed) -> Option<Limit>
    ensures { result ≡ sizes.nodes_limit (closed_meaning of.now) }
{
    let most = u64::from(MOST_TYPE_NODES);
    let count = nodes(of);
    if count <= most {
        return None;
    }
    Some(Limit {
        kind: LimitKind::TypeNodes,
        count,
        most,
    })
}

/// The sum of two counts.
fn sum(one: u64, other: u64) -> u64
    ensures { result ≡ counted (one + other) }
{
    one.saturating_add(other)
}

/// The greater of two.
fn greater(one: u64, other: u64) -> u64
    ensures { result ≡ max one other }
{
    if one < other { other } else { one }
}

/// The depth of a closed type.
#[tactic(auto, using(crate::proofs::ClosedLemmas::closed_steps, std::proofs::lemmas::Grind::common_steps))]
#[cycle(depth)]
fn depth(of: &Closed) -> u64
    ensures { result ≡ counted (depth_of (closed_meaning of.now)) }
{
    match of {
        Closed::Unit => 1,
        Closed::Bool => 1,
        Closed::Int(_) => 1,
        Closed::Text => 2,
        Closed::Named { of: _, args } => sum(1, list_depth(args)),
        Closed::Read(to) => sum(1, depth(to)),
        Closed::Write(to) => sum(1, depth(to)),
    }
}

/// The depth of the deepest of some closed types, 0 where there is none.
#[cycle(depth)]
fn list_depth(list: &Vec<Closed>) -> u64
    ensures { result ≡ counted (sizes.list_depth (closed_meanings list.now.items)) }
{
    let mut deepest = 0;
    for one in list {
        let depth = depth(one);
        deepest = greater(deepest, depth);
    }
    deepest
}

/// The nodes of a closed type.
#[tactic(auto, using(crate::proofs::ClosedLemmas::closed_steps, std::proofs::lemmas::Grind::common_steps))]
#[cycle(nodes)]
fn nodes(of: &Closed) -> u64
    ensures { result ≡ counted (nodes_of (closed_meaning of.now)) }
{
    match of {
        Closed::Unit => 1,
        Closed::Bool => 1,
        Closed::Int(_) => 1,
        Closed::Text => 3,
        Closed::Named { of: _, args } => sum(1, list_nodes(args)),
        Closed::Read(to) => sum(1, nodes(to)),
        Closed::Write(to) => sum(1, nodes(to)),
    }
}

/// The nodes of some closed types.
#[cycle(nodes)]
fn list_nodes(list: &Vec<Closed>) -> u64
    ensures { result ≡ counted (sizes.list_nodes (closed_meanings list.now.items)) }
{
    let mut count = 0;
    for one in list {
        let more = nodes(one);
        count = sum(count, more);
    }
    count
}
