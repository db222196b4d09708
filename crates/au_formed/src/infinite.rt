//! The first type that is infinite.

ghost use Rattle.std.specs.Prelude.{◌≡◌, ◌↔◌, ℕ, IfOk, None, Some};
ghost use Rattle.au_graphs.specs.Cycles.{HasNoCycle, IsFirstOnCycle};
ghost use Rattle.au_formed.specs.Graphs.{graph_of};
ghost use Rattle.au_formed.specs.Infinite as spec;

use crate::declarers::first_declarers;
use crate::graphs::graph_of;
use crate::namings::Naming;
use au_base::Memory;
use au_graphs::first_on_cycle;
use au_types::DeclAt;
use std::alloc::Global;

/// Of these records and unions the first that lies on a cycle, by its index.
fn first_index(alloc: Global, namings: &Vec<Naming>) -> Result<Option<usize>, Memory>
    ensures found { IfOk result
        (λ first. (k : ℕ) → (first ≡ Some k) ↔ IsFirstOnCycle (graph_of namings.now.items) k) }
    ensures none { IfOk result (λ first. (first ≡ None) ↔ HasNoCycle (graph_of namings.now.items)) }
{
    let table = first_declarers(alloc, namings)?;
    let graph = graph_of(alloc, &table, namings)?;
    first_on_cycle(alloc, &graph)
}

/// The first type in the order of these records and unions that is infinite: it leads back to itself by what
/// fields name.
///
/// # Errors
///
/// Only for want of memory.
pub fn first_infinite(alloc: Global, namings: &Vec<Naming>) -> Result<Option<DeclAt>, Memory>
    ensures { IfOk result (λ first. first ≡ spec.first_infinite namings.now.items) }
{
    match first_index(alloc, namings)? {
        None => Ok(None),
        Some(index) => Ok(Some(namings[index].of)),
    }
}
