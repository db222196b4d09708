//! How a part of a body deals with all variables.

ghost use Rattle.std.specs.Prelude.{◌≡◌, Bool, [], ◌∷◌, Some, IsTrue, OnOk};
ghost use Rattle.au_syntax.specs.Plain.{Bytes};
ghost use Rattle.au_lives.specs.Lives.{Hold, held_from};
ghost use Rattle.au_lives.specs.Paths.{declared};
ghost use Rattle.au_clearing.specs.declared.dealings.Dealing.{Dealing};
ghost use Rattle.au_clearing.specs.Dealings as spec;
ghost use Rattle.au_clearing.specs.Dealings.{lend_named};
ghost use Rattle.au_clearing.specs.Deals as deals;
ghost use Rattle.au_clearing.specs.Deals.{or_alike, seen_at, Sums};
ghost use Rattle.au_clearing.specs.Tables.{find};

use crate::dealings::{
    Dealing, Dealings, chain, fork, is_never, is_nothing, lend_both, never, nothing, turns,
};
use crate::tables::Table;
use au_base::Memory;
use au_syntax::Access;
use std::alloc::Global;

/// How two parts are put together.
#[derive(Clone, Copy, Debug)]
pub enum Way {
    /// One after the other, which has so many returns.
    Chain(u64),
    /// One or the other.
    Fork,
    /// The second as the turns of a loop, and nothing of the first.
    Turns,
}

/// How a part of a body deals with the variables: with each that it mentions, and with any other. How many
/// returns it has, as far as can be counted.
#[derive(Drop)]
pub struct Deals {
    /// With those that it mentions, by name.
    pub named: Table<Dealings>,
    /// With any other.
    pub rest: Dealing,
    /// The number of returns.
    pub returns: u64,
}

/// Those of no step.
pub(crate) fn no_step(alloc: Global) -> Deals
    ensures { Sums result (λ x free h. spec.nothing) 0 }
{
    Deals {
        named: Table::new(alloc),
        rest: nothing(),
        returns: 0,
    }
}

/// Those of no path, behind so many returns.
pub(crate) fn no_path(alloc: Global, returns: u64) -> Deals
    ensures { Sums result (λ x free h. spec.never) returns }
{
    Deals {
        named: Table::new(alloc),
        rest: never(),
        returns,
    }
}

/// How two parts together deal with a variable.
pub(crate) fn by(way: Way, one: Dealing, other: Dealing) -> Dealing
    ensures { result ≡ deals.by way one other }
{
    match way {
        Way::Chain(returns) => chain(returns, one, other),
        Way::Fork => fork(one, other),
        Way::Turns => turns(other),
    }
}

/// The same for both kinds of types.
pub(crate) fn by_both(way: Way, one: Dealings, other: Dealings) -> Dealings
    ensures { result ≡ deals.by_both way one other }
{
    Dealings {
        owned: by(way, one.owned, other.owned),
        free: by(way, one.free, other.free),
    }
}

/// The same dealing for both kinds of types.
pub(crate) fn alike(one: Dealing) -> Dealings
    ensures { result ≡ deals.alike one }
{
    Dealings {
        owned: one,
        free: one,
    }
}

/// Whether a first part that deals so with a variable leaves any second part as it is.
pub(crate) fn is_still(way: Way, one: Dealing) -> bool
    ensures { IsTrue result → (other : Dealing) → deals.by way one other ≡ other }
{
    match way {
        Way::Chain(_) => is_nothing(one),
        Way::Fork => is_never(one),
        Way::Turns => false,
    }
}

/// What a table has of a name, or else what all other names have.
pub(crate) fn found_or(named: &Table<Dealings>, name: &[u8], rest: Dealing) -> Dealings
    ensures { result ≡ or_alike (find name.now named.now) rest }
{
    match named.get(name) {
        Some(found) => *found,
        None => alike(rest),
    }
}

/// Forgets what is known of a name: another variable has it in front of this part.
pub(crate) fn forget(deals: &mut Deals, name: &[u8])
    ensures { Sums deals.new
        (λ x free h. seen_at deals.old x free (held_from x (declared name.now ∷ []) h)) deals.old.returns }
{
    deals.named.remove(name);
}

/// Puts a borrow statement on the variable of this name round the part.
///
/// # Errors
///
/// `Memory` when memory runs out.
pub(crate) fn lend(
    alloc: Global,
    deals: &mut Deals,
    name: &[u8],
    access: Access,
) -> Result<(), Memory>
    ensures { OnOk result (Sums deals.new
        (λ x free h. lend_named x name.now access h (seen_at deals.old x free h)) deals.old.returns) }
{
    let one = found_or(&deals.named, name, deals.rest);
    let key = Vec::from_slice(alloc, name)?;
    deals.named.put(key, lend_both(access, one))
}
