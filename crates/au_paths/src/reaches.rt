//! Which states of a variable are possible at a place, each with a path to it.

ghost use Rattle.std.specs.Prelude.{◌≡◌, IfOk, None, Some, ◌++◌, ◌∷◌, [], Ok};
ghost use Rattle.au_lives.specs.Walks as walks;
ghost use Rattle.au_lives.specs.Walks.{Walk, either, land, walk_by, push, noted, finish};
ghost use Rattle.au_paths.specs.declared.reaches.Stop.TheVariants as stop;
ghost use Rattle.au_paths.specs.Standing.{fate_of, path_of, reach_of, Gives};

use crate::fates::{Effect, Fate, ending};
use au_base::Memory;
use au_lives::lives::{LifeKind, Sort};
use std::alloc::Global;

/// Which states of a variable are possible at a place, each with the choices of a path to it.
#[derive(Drop)]
pub struct Reached {
    /// It isn't consumed.
    pub live: Option<Vec<usize>>,
    /// It is consumed.
    pub spent: Option<Vec<usize>>,
}

/// The states behind a test, and those behind the branches before.
#[derive(Drop)]
pub struct Fork {
    /// The states behind the test.
    pub at: Reached,
    /// The states behind the branches.
    pub out: Reached,
}

/// How a life is broken, and on which path.
#[derive(Drop)]
pub struct Broken {
    /// How it is broken.
    pub kind: LifeKind,
    /// The choices of the path.
    pub path: Vec<usize>,
}

/// Why a walk ends early.
#[derive(Drop)]
pub enum Stop {
    /// No memory was found.
    Memory,
    /// The life is broken.
    Breach(Broken),
}

impl From<Memory> for Stop {
    ghost from_gives = { λ _ e. e ≡ stop.Memory };

    fn from(_fault: Memory) -> Stop {
        Stop::Memory
    }
}

/// No path leads there.
pub(crate) fn nowhere() -> Reached
    ensures { reach_of result ≡ walks.nowhere }
{
    Reached {
        live: None,
        spent: None,
    }
}

/// What becomes of one state.
fn land(path: Option<Vec<usize>>, fate: Fate) -> Result<Reached, Stop>
    ensures { Gives result (land (path_of path) (fate_of fate)) }
{
    match path {
        None => Ok(nowhere()),
        Some(path) => match fate {
            Fate::Going(spent) => Ok(only(spent, path)),
            Fate::Broken(kind) => Err(Stop::Breach(Broken { kind, path })),
        },
    }
}

/// One state alone.
fn only(spent: bool, path: Vec<usize>) -> Reached
    ensures { reach_of result ≡ walks.only spent (Some path.items) }
{
    if spent {
        Reached {
            live: None,
            spent: Some(path),
        }
    } else {
        Reached {
            live: Some(path),
            spent: None,
        }
    }
}

/// The first of two paths that is there.
fn either(one: Option<Vec<usize>>, other: Option<Vec<usize>>) -> Option<Vec<usize>>
    ensures { path_of result ≡ either (path_of one) (path_of other) }
{
    match one {
        Some(path) => Some(path),
        None => other,
    }
}

/// Where two ways meet.
pub(crate) fn merge(one: Reached, other: Reached) -> Reached
    ensures { reach_of result ≡ walks.merge (reach_of one) (reach_of other) }
{
    Reached {
        live: either(one.live, other.live),
        spent: either(one.spent, other.spent),
    }
}

/// What a step does to all states.
#[tactic(auto, unfolding(au_lives::specs::Walks::walk_by))]
pub(crate) fn go_on(effect: Effect, reach: Reached) -> Result<Reached, Stop>
    ensures { Gives result (walk_by (fate_of effect.spent) (fate_of effect.live) (reach_of reach)) }
{
    let spent = land(reach.spent, effect.spent)?;
    let live = land(reach.live, effect.live)?;
    Ok(merge(spent, live))
}

/// A path with one more number.
fn push_onto(path: Vec<usize>, number: usize) -> Result<Vec<usize>, Memory>
    ensures { IfOk result (λ longer. longer.items ≡ path.items ++ number ∷ []) }
{
    let mut longer = path;
    longer.push(number)?;
    Ok(longer)
}

/// A copy of a path with one more number.
fn pushed(
    alloc: Global,
    number: usize,
    path: &Option<Vec<usize>>,
) -> Result<Option<Vec<usize>>, Memory>
    ensures { IfOk result (λ longer. path_of longer ≡ push number (path_of path.now)) }
{
    match path {
        None => Ok(None),
        Some(path) => {
            let copy = path.as_slice().to_vec(alloc)?;
            let longer = push_onto(copy, number)?;
            Ok(Some(longer))
        }
    }
}

/// Each path with one more number.
pub(crate) fn choose(alloc: Global, number: usize, reach: &Reached) -> Result<Reached, Memory>
    ensures { IfOk result (λ chosen. reach_of chosen ≡ walks.choose number (reach_of reach.now)) }
{
    let live = pushed(alloc, number, &reach.live)?;
    let spent = pushed(alloc, number, &reach.spent)?;
    Ok(Reached { live, spent })
}

/// The same, where the path of a breach has one more number.
pub(crate) fn noted(number: usize, found: Result<Reached, Stop>) -> Result<Reached, Stop>
    ensures { (w : Walk) → Gives found w → Gives result (noted number w) }
{
    match found {
        Ok(reach) => Ok(reach),
        Err(Stop::Memory) => Err(Stop::Memory),
        Err(Stop::Breach(Broken { kind, path })) => {
            let path = push_onto(path, number)?;
            Err(Stop::Breach(Broken { kind, path }))
        }
    }
}

/// The end of each path.
pub(crate) fn finish(sort: Sort, reach: Reached) -> Result<Reached, Stop>
    ensures { Gives result (finish sort (reach_of reach)) }
{
    go_on(ending(sort), reach)
}

/// What a return leaves.
pub(crate) fn returned(sort: Sort, reach: Reached) -> Result<Reached, Stop>
    ensures { Gives result (walks.returned sort (reach_of reach)) }
{
    let _end = finish(sort, reach)?;
    Ok(nowhere())
}
