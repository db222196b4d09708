//! What is told of an instance that passes a limit by itself.

ghost use Rattle.std.specs.Prelude.{◌≡◌};
ghost use Rattle.au_type_texts.specs.ClosedSizes.{depth_limit, nodes_limit};
ghost use Rattle.au_closing.specs.ClosingViews.{instance_said};
ghost use Rattle.au_type_texts.specs.GivenViews.{given_said};
ghost use Rattle.au_closing.specs.Told.{first_told, instance_told};

use crate::Instance;
use au_base::Limit;
use au_type_texts::{GivenType, closed_depth_passed, closed_nodes_passed};

/// What is told of an instance by itself: of the depths of the types that are given, in order, and then of
/// their nodes.
pub(crate) fn told_of(of: &Instance) -> Option<Limit>
    ensures { result ≡ instance_told (instance_said of.now) }
{
    match depth_told(&of.given) {
        Some(limit) => Some(limit),
        None => nodes_told(&of.given),
    }
}

/// What is told of the first type that is too deep.
fn depth_told(given: &[GivenType]) -> Option<Limit>
    ensures { result ≡ first_told depth_limit (given_said given.now) }
{
    for one in given {
        if let Some(limit) = closed_depth_passed(&one.of) {
            return Some(limit);
        }
    }
    None
}

/// What is told of the first type that has too many nodes.
fn nodes_told(given: &[GivenType]) -> Option<Limit>
    ensures { result ≡ first_told nodes_limit (given_said given.now) }
{
    for one in given {
        if let Some(limit) = closed_nodes_passed(&one.of) {
            return Some(limit);
        }
    }
    None
}
