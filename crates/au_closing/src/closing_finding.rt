//! The instances that the calls of a body lead to.

ghost use Rattle.std.specs.Prelude.{◌≡◌, IfOk};
ghost use Rattle.au_closed_trees.specs.Calls as calls;
ghost use Rattle.au_closing.specs.Instances.{Instance as InstanceSeen};
ghost use Rattle.au_closing.specs.ClosingViews.{instance_said, instances_said, leads_of};
ghost use Rattle.au_type_texts.specs.GivenViews.{given_said};
ghost use Rattle.au_sights.specs.contracts.noted.NotedPhase.TheImpl.{ghosts as noted};
ghost use Rattle.au_syntax.specs.Views.{block};

use crate::instances::{Instance, Lead};
use crate::leading::{Sight, call_leads};
use au_base::{Memory, Name};
use au_closed_trees::{Finder, calls_in_block};
use au_sights::{Noted, Notes};
use au_syntax::Block;
use au_type_texts::GivenType;
use std::alloc::Global;

/// What is seen in a body, and what is given for its type parameters.
#[derive(Clone, Copy)]
struct CallFinder<'a> {
    sight: Sight<'a>,
    given: &'a [GivenType],
}

impl<'a> Finder for CallFinder<'a> {
    type Found = Instance;

    ghost Seen = { InstanceSeen };

    ghost see = { λ one. instance_said one };

    ghost leads = { λ finder. leads_of finder.sight (given_said finder.given.now) };

    fn add(
        &self,
        alloc: Global,
        of: &Notes,
        name: &Name,
        found: &mut Vec<Instance>,
    ) -> Result<(), Memory> {
        match call_leads(alloc, &self.sight, self.given, of, name)? {
            Lead::Nowhere => Ok(()),
            Lead::To(one) => {
                found.push(one)?;
                Ok(())
            }
            Lead::Constructor { .. } => Ok(()),
            Lead::Shipped(_) => Ok(()),
        }
    }
}

/// The instances that the calls of a block lead to, in the order of the text, where this is seen and this is
/// given for the type parameters.
///
/// # Errors
///
/// Only for want of memory.
pub fn instances_called(
    alloc: Global,
    sight: &Sight,
    given: &[GivenType],
    of: &Block<Noted>,
) -> Result<Vec<Instance>, Memory>
    ensures { IfOk result (λ found.
        instances_said found.items
        ≡ calls.calls_in_block (leads_of sight.now (given_said given.now)) (block noted of.now)) }
{
    let finder = CallFinder {
        sight: *sight,
        given,
    };
    calls_in_block(alloc, &finder, of)
}
