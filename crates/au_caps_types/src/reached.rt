//! Which heads the declared types of a program reach.

ghost use Rattle.std.specs.Prelude.{◌≡◌, ◌++◌, ◌∷◌, [], IfOk, OnOk, filter, map, option_map, slice_get};
ghost use Rattle.au_caps_text.specs.Spreading.{AreSpread};
ghost use Rattle.au_formed.specs.Graphs.{graph_by, index_at};
ghost use Rattle.au_formed.specs.declared.namings.Naming.{Naming as NamingSeen};
ghost use Rattle.au_caps_types.specs.Views as spec;
ghost use Rattle.au_caps_types.specs.Views.{IsReaching};
ghost use Rattle.au_modules.specs.Slots as slots;

use crate::declarers::{Declarers, first_declarers};
use crate::graphs::graph_of;
use crate::heads::head_of;
use crate::namings::namings_of;
use au_base::{Memory, Sequence};
use au_caps_text::spread;
use au_formed::Naming;
use au_graphs::Graph;
use au_imports::Resolved;
use au_types::DeclAt;
use std::alloc::Global;

/// The heads of a program, and which of them each declared type reaches.
#[derive(Drop)]
pub struct Reaching {
    /// The number of each declared type.
    table: Declarers,
    /// The declared types that have a head, each with itself.
    heads: Vec<Naming>,
    /// The place of each of them.
    own: Declarers,
    /// Of each declared type by its number the places among these of the heads that it reaches.
    reached: Graph,
}

impl Reaching {
    /// The places among the heads of those that a declared type reaches.
    pub fn places(&self, at: DeclAt) -> &[usize]
        ensures { result.now ≡ spec.places self.now at }
    {
        match self.table.get(at) {
            None => &[],
            Some(number) => self.reached.successors(number),
        }
    }

    /// The place among the heads of that of a declared type, if it has one.
    pub fn place(&self, at: DeclAt) -> Option<usize>
        ensures { result ≡ spec.place_of self.now at }
    {
        self.own.get(at)
    }

    /// How many heads there are.
    pub fn len(&self) -> usize
        ensures { result ≡ spec.head_count self.now }
    {
        self.heads.len()
    }

    /// The declared type of the head at a place.
    pub fn head(&self, place: usize) -> Option<DeclAt>
        ensures { result ≡ option_map (λ (n : NamingSeen). n.of) (slice_get self.now.heads.items place) }
    {
        match self.heads.get(place) {
            None => None,
            Some(one) => Some(one.of),
        }
    }
}

/// Puts a declared type that has a head.
fn push_head(
    alloc: Global,
    program: &Resolved,
    at: DeclAt,
    made: &mut Vec<Naming>,
) -> Result<(), Memory>
    ensures { OnOk result (made.new.items
        ≡ made.old.items ++ map spec.itself (filter (spec.has_head (slots.modules program.now)) (at ∷ []))) }
{
    if head_of(program, at).is_some() {
        let one = itself(alloc, at)?;
        made.push(one)?;
    }
    Ok(())
}

/// The declared types that have a head, in the order of these.
fn heads_among(
    alloc: Global,
    program: &Resolved,
    namings: &Vec<Naming>,
) -> Result<Vec<Naming>, Memory>
    ensures { IfOk result (λ made. made.items
        ≡ spec.heads_among (slots.modules program.now) namings.now.items) }
{
    let mut made = Vec::new(alloc);
    for one in namings {
        push_head(alloc, program, one.of, &mut made)?;
    }
    Ok(made)
}

/// A declared type that names itself alone.
fn itself(alloc: Global, of: DeclAt) -> Result<Naming, Memory>
    ensures { IfOk result (λ made. made ≡ spec.itself of) }
{
    let mut names = Vec::new(alloc);
    names.push(of)?;
    Ok(Naming {
        of,
        names: Sequence::from_vec(names),
    })
}

/// The heads that come to the declared types over what their fields name, where these have one.
fn reached_by(
    alloc: Global,
    table: &Declarers,
    namings: &Vec<Naming>,
    heads: &Vec<Naming>,
) -> Result<Graph, Memory>
    ensures { IfOk result (λ made. AreSpread
        (graph_by (index_at table.now) namings.now.items) (graph_by (index_at table.now) heads.now.items)
        made) }
{
    let graph = graph_of(alloc, table, namings)?;
    let labels = graph_of(alloc, table, heads)?;
    spread(alloc, &graph, &labels)
}

/// The same with the numbers of the declared types and the places of those that have a head.
fn reaching_by(alloc: Global, namings: &Vec<Naming>, heads: Vec<Naming>) -> Result<Reaching, Memory>
    ensures { IfOk result (spec.IsHeld namings.now.items heads.items) }
{
    let table = first_declarers(alloc, namings)?;
    let own = first_declarers(alloc, &heads)?;
    let reached = reached_by(alloc, &table, namings, &heads)?;
    Ok(Reaching {
        table,
        heads,
        own,
        reached,
    })
}

/// Which heads the declared types of a program reach: their own, and those of what their fields name.
///
/// # Errors
///
/// Only for want of memory.
pub fn reaching_of(alloc: Global, program: &Resolved) -> Result<Reaching, Memory>
    ensures { IfOk result (IsReaching (slots.modules program.now)) }
{
    let namings = namings_of(alloc, program)?;
    let heads = heads_among(alloc, program, &namings)?;
    reaching_by(alloc, &namings, heads)
}
