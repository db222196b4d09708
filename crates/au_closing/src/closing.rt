//! Closed trees of bodies.

ghost use Rattle.std.specs.Prelude.{◌≡◌, IfOk, List, Option, length};
ghost use Rattle.std.specs.Option.{option_and_then};
ghost use Rattle.au_closed_trees.specs.contracts.phase.ClosedTreesPhase.TheImpl.{ghosts as closed};
ghost use Rattle.au_closed_trees.specs.declared.notes.Literal.{Literal as LiteralSeen};
ghost use Rattle.au_closed_trees.specs.Renoted.{block_renoted};
ghost use Rattle.au_closed_trees.specs.TreeViews.{callee as callee_said, closed_note};
ghost use Rattle.au_closing.specs.Closes as spec;
ghost use Rattle.au_closing.specs.Instances.{Instance as InstanceSeen, numbered, place_in};
ghost use Rattle.au_closing.specs.ClosingViews.{change_seen, instance_said, lead_said};
ghost use Rattle.au_type_texts.specs.GivenViews.{given_said};
ghost use Rattle.au_modules.specs.Slots as slots;
ghost use Rattle.au_names.specs.HeadsOf.{heads_of};
ghost use Rattle.au_sights.specs.contracts.noted.NotedPhase.TheImpl.{ghosts as noted};
ghost use Rattle.au_sights.specs.Views.{note as note_said};
ghost use Rattle.au_syntax.specs.Views.{block};
ghost use Rattle.au_types.specs.declared.types.DeclAt.{DeclAt as DeclAtSeen};
ghost use Rattle.au_types.specs.Views.{meaning};
ghost use Rattle.au_matching.specs.Universes as universes;

use crate::instances::{Instance, Lead};
use crate::leading::{Sight, call_leads};
use crate::names::case_name;
use au_base::{Memory, Name};
use au_closed_trees::{Callee, ClosedNote, ClosedTrees, Closer, Literal, close_block};
use au_imports::Resolved;
use au_matching::{takes, universe_of};
use au_sights::{Noted, Notes};
use au_syntax::{Block, Universe};
use au_type_texts::{GivenType, closed_under};
use au_types::{DeclAt, Params, Ty};
use std::alloc::Global;

/// What is known of a program once its instances are listed: their numbers, and the literals of its
/// constants. Each call errs only for want of memory.
pub trait Listed {
    // the instances in the order of their numbers
    ghost instances: { Self → List InstanceSeen };

    // the literal of the constant of a declaration, if it is one
    ghost literal_of: { Self → DeclAtSeen → Option LiteralSeen };

    /// The number of an instance, and how many there are where it isn't listed.
    fn number(&self, alloc: Global, one: &Instance) -> Result<u32, Memory>
        ensures { IfOk result (λ number. number ≡ place_in (instance_said one.now) (instances self.now)) };

    /// How many instances there are.
    fn count(&self) -> Result<u32, Memory>
        ensures { IfOk result (λ count. count ≡ length (instances self.now)) };

    /// The literal of the constant of a declaration, if it is one.
    fn literal(&self, alloc: Global, at: DeclAt) -> Result<Option<Literal>, Memory>
        ensures { IfOk result (λ found. found ≡ literal_of self.now at) };
}

/// What is seen in a body, its type parameters, and what is given for them, where this is known.
#[derive_where(Clone, Copy)]
struct BodyCloser<'a, K> {
    sight: Sight<'a>,
    params: &'a Params,
    given: &'a [GivenType],
    known: &'a K,
}

/// Whether a type is Free over these type parameters.
fn is_free(program: &Resolved, params: &Params, of: &Ty) -> bool
    ensures { result
        ≡ universes.is_free
        (universes.universe_of (heads_of (slots.modules program.now)) params.now (meaning of.now)) }
{
    takes(Universe::Free, universe_of(program.heads_ref(), params, of))
}

/// The closed note of an expression that mentions nothing.
fn plain_note(alloc: Global, given: &[GivenType], of: &Notes) -> Result<ClosedNote, Memory>
    ensures { IfOk result (λ made.
        closed_note made ≡ spec.note_closed (given_said given.now) (note_said of.now)) }
{
    let of = closed_under(alloc, given, &of.of)?;
    Ok(ClosedNote {
        of,
        free: None,
        literal: None,
    })
}

/// The literal of the constant of a declaration, if there is the declaration and it is one.
fn literal_at<K: Listed>(
    alloc: Global,
    known: &K,
    constant: Option<DeclAt>,
) -> Result<Option<Literal>, Memory>
    ensures { IfOk result (λ found. found ≡ option_and_then (K.literal_of known.now) constant) }
{
    match constant {
        None => Ok(None),
        Some(at) => known.literal(alloc, at),
    }
}

/// The closed note of an expression that mentions a name, which means this constant, if it means one.
fn mention_note<K: Listed>(
    alloc: Global,
    closer: &BodyCloser<K>,
    of: &Notes,
    constant: Option<DeclAt>,
) -> Result<ClosedNote, Memory>
    ensures { IfOk result (λ made.
        closed_note made
        ≡ spec.mention_closed (heads_of (slots.modules closer.now.sight.program.now))
        (K.literal_of closer.now.known.now) closer.now.params.now (given_said closer.now.given.now)
        (note_said of.now) constant) }
{
    let free = Some(is_free(closer.sight.program, closer.params, &of.of));
    let literal = literal_at(alloc, closer.known, constant)?;
    let of = closed_under(alloc, closer.given, &of.of)?;
    Ok(ClosedNote { of, free, literal })
}

/// The number of the instance that a call leads to, or what else it leads to.
fn numbered_lead<K: Listed>(alloc: Global, known: &K, lead: Lead) -> Result<Callee, Memory>
    ensures { IfOk result (λ made.
        callee_said made ≡ numbered (K.instances known.now) (lead_said lead)) }
{
    match lead {
        Lead::Nowhere => Ok(Callee::Instance(known.count()?)),
        Lead::To(one) => Ok(Callee::Instance(known.number(alloc, &one)?)),
        Lead::Constructor { of, tag } => Ok(Callee::Constructor { of, tag }),
        Lead::Shipped(call) => Ok(Callee::Shipped(call)),
    }
}

impl<'a, K: Listed> Closer for BodyCloser<'a, K> {
    ghost change = { λ closer.
        change_seen closer.sight (K.instances closer.known.now) (K.literal_of closer.known.now)
        closer.params.now (given_said closer.given.now) };

    fn note(&self, alloc: Global, of: &Notes) -> Result<ClosedNote, Memory> {
        plain_note(alloc, self.given, of)
    }

    fn mention(&self, alloc: Global, of: &Notes, name: &Name) -> Result<ClosedNote, Memory> {
        let constant = self.sight.names.values.get(name.as_bytes()).copied();
        mention_note(alloc, self, of, constant)
    }

    fn callee(&self, alloc: Global, of: &Notes, name: &Name) -> Result<Callee, Memory> {
        let lead = call_leads(alloc, &self.sight, self.given, of, name)?;
        numbered_lead(alloc, self.known, lead)
    }

    fn arm(&self, alloc: Global, name: &Name) -> Result<Name, Memory> {
        case_name(alloc, &self.sight, name)
    }
}

/// The closed tree of a block over these type parameters, where this is seen, this is given for them, and
/// this is known: each note is closed, each call leads to the number of its instance or to what else it leads
/// to, each arm has the name under which its case is declared, and the same is written at the same places.
///
/// # Errors
///
/// Only for want of memory.
pub fn block_closed<K: Listed>(
    alloc: Global,
    sight: &Sight,
    params: &Params,
    given: &[GivenType],
    known: &K,
    of: &Block<Noted>,
) -> Result<Block<ClosedTrees>, Memory>
    ensures { IfOk result (λ made.
        block closed made
        ≡ block_renoted
        (change_seen sight.now (K.instances known.now) (K.literal_of known.now) params.now
        (given_said given.now))
        (block noted of.now)) }
{
    let closer = BodyCloser {
        sight: *sight,
        params,
        given,
        known,
    };
    close_block(alloc, &closer, of)
}
