//! How deep types are and how many nodes they have, and whether that is too much.

ghost use Rattle.std.specs.Prelude.{◌≡◌, ◌+◌, max};
ghost use Rattle.au_types.specs.Views.{argument, argument_all, meaning};
ghost use Rattle.au_type_texts.specs.Sizes as sizes;
ghost use Rattle.au_type_texts.specs.Sizes.{counted, depth_of, nodes_of};

use au_base::{Limit, LimitKind, MOST_TYPE_DEPTH, MOST_TYPE_NODES};
use au_types::{Arg, Ty};

/// The limit of depth, exactly where a type is deeper than 24. The count is 25, the first that passes it.
pub fn depth_passed(of: &Ty) -> Option<Limit>
    ensures { result ≡ sizes.depth_limit (meaning of.now) }
{
    let most = u64::from(MOST_TYPE_DEPTH);
    if depth(of) <= most {
        return None;
    }
    Some(Limit {
        kind: LimitKind::TypeDepth,
        count: most + 1,
        most,
    })
}

/// The limit of nodes, exactly where a type has more than 4,096. The count is that of the whole type; one
/// that has 2^64 nodes or more is counted up to 2^64 - 1.
pub fn nodes_passed(of: &Ty) -> Option<Limit>
    ensures { result ≡ sizes.nodes_limit (meaning of.now) }
{
    let most = u64::from(MOST_TYPE_NODES);
    let count = nodes(of);
    if count <= most {
        return None;
    }
    Some(Limit {
        kind: LimitKind::TypeNodes,
        count,
        most,
    })
}

/// The sum of two counts.
fn sum(one: u64, other: u64) -> u64
    ensures { result ≡ counted (one + other) }
{
    one.saturating_add(other)
}

/// The greater of two.
fn greater(one: u64, other: u64) -> u64
    ensures { result ≡ max one other }
{
    if one < other { other } else { one }
}

/// The depth of a type.
#[tactic(auto, using(au_types::proofs::TypeLemmas::type_steps, std::proofs::lemmas::Grind::common_steps))]
#[cycle(depth)]
fn depth(of: &Ty) -> u64
    ensures { result ≡ counted (depth_of (meaning of.now)) }
{
    match of {
        Ty::Unit => 1,
        Ty::Bool => 1,
        Ty::Int(_) => 1,
        Ty::Text => 2,
        Ty::Param(_) => 1,
        Ty::Named { of: _, args } => sum(1, arguments_depth(args)),
        Ty::Read { to, region: _ } => sum(1, depth(to)),
        Ty::Write { to, region: _ } => sum(1, depth(to)),
    }
}

/// The depth of an argument.
#[tactic(auto, using(au_types::proofs::TypeLemmas::type_steps))]
#[cycle(depth)]
fn argument_depth(one: &Arg) -> u64
    ensures { result ≡ counted (sizes.argument_depth (argument one.now)) }
{
    match one {
        Arg::Of(of) => depth(of),
        Arg::In(_) => 1,
    }
}

/// The depth of the deepest of some arguments, 0 where there is none.
#[cycle(depth)]
fn arguments_depth(args: &Vec<Arg>) -> u64
    ensures { result ≡ counted (sizes.arguments_depth (argument_all args.now.items)) }
{
    let mut deepest = 0;
    for one in args {
        let depth = argument_depth(one);
        deepest = greater(deepest, depth);
    }
    deepest
}

/// The nodes of a type.
#[tactic(auto, using(au_types::proofs::TypeLemmas::type_steps, std::proofs::lemmas::Grind::common_steps))]
#[cycle(nodes)]
fn nodes(of: &Ty) -> u64
    ensures { result ≡ counted (nodes_of (meaning of.now)) }
{
    match of {
        Ty::Unit => 1,
        Ty::Bool => 1,
        Ty::Int(_) => 1,
        Ty::Text => 3,
        Ty::Param(_) => 1,
        Ty::Named { of: _, args } => sum(1, arguments_nodes(args)),
        Ty::Read { to, region: _ } => sum(2, nodes(to)),
        Ty::Write { to, region: _ } => sum(2, nodes(to)),
    }
}

/// The nodes of an argument.
#[tactic(auto, using(au_types::proofs::TypeLemmas::type_steps))]
#[cycle(nodes)]
fn argument_nodes(one: &Arg) -> u64
    ensures { result ≡ counted (sizes.argument_nodes (argument one.now)) }
{
    match one {
        Arg::Of(of) => nodes(of),
        Arg::In(_) => 1,
    }
}

/// The nodes of some arguments.
#[cycle(nodes)]
fn arguments_nodes(args: &Vec<Arg>) -> u64
    ensures { result ≡ counted (sizes.arguments_nodes (argument_all args.now.items)) }
{
    let mut count = 0;
    for one in args {
        let more = argument_nodes(one);
        count = sum(count, more);
    }
    count
}
