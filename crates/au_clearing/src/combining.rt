//! Parts of a body put together.

ghost use Rattle.std.specs.Prelude.{◌≡◌, Bool, Some, IfOk};
ghost use Rattle.au_syntax.specs.Plain.{Bytes};
ghost use Rattle.au_lives.specs.Lives.{Hold};
ghost use Rattle.au_clearing.specs.Touches.{unless_hidden};
ghost use Rattle.au_clearing.specs.Dealings as spec;
ghost use Rattle.au_clearing.specs.Dealings.{sum};
ghost use Rattle.au_clearing.specs.Deals as deals;
ghost use Rattle.au_clearing.specs.Deals.{settled, absorbed, seen_at, touch_in, kept_if, stepped, Sums};
ghost use Rattle.au_clearing.specs.Tables.{find};

use crate::dealings::{Dealing, Dealings, chain, once, sum, turns};
use crate::deals::{Deals, Way, alike, by, by_both, found_or, is_still};
use crate::tables::Table;
use crate::touches::{Touch, Touches, kept};
use au_base::Memory;
use std::alloc::Global;

/// How a second part deals with a name behind a first one that may not mention it.
fn settled(way: Way, rest: Dealing, one: &Table<Dealings>, name: &[u8], other: Dealings) -> Dealings
    ensures { settled way rest (find name.now one.now) (Some other) ≡ Some result }
{
    match one.get(name) {
        Some(_) => other,
        None => by_both(way, alike(rest), other),
    }
}

/// The names of a second part that the first one doesn't mention, each with what both do to it.
fn settle(
    alloc: Global,
    way: Way,
    rest: Dealing,
    one: &Table<Dealings>,
    other: Table<Dealings>,
) -> Result<Table<Dealings>, Memory>
    ensures { IfOk result (λ table. (x : Bytes)
        → find x table ≡ settled way rest (find x one.now) (find x other)) }
{
    let mut left = other;
    let mut done = Table::new(alloc);
    while let Some((name, dealings)) = left.pop() {
        let new = settled(way, rest, one, name.as_slice(), dealings);
        done.put(name, new)?;
    }
    Ok(done)
}

/// The same, where nothing needs to be done if the first part leaves any second one as it is.
fn settle_if(
    alloc: Global,
    way: Way,
    rest: Dealing,
    one: &Table<Dealings>,
    other: Table<Dealings>,
) -> Result<Table<Dealings>, Memory>
    ensures { IfOk result (λ table. (x : Bytes)
        → find x table ≡ settled way rest (find x one.now) (find x other)) }
{
    if is_still(way, rest) {
        Ok(other)
    } else {
        settle(alloc, way, rest, one, other)
    }
}

/// The names that a first part mentions, each with what both parts do to it.
fn absorb(
    way: Way,
    one: Table<Dealings>,
    rest: Dealing,
    other: Table<Dealings>,
) -> Result<Table<Dealings>, Memory>
    ensures { IfOk result (λ table. (x : Bytes)
        → find x table ≡ absorbed (deals.by_both way) rest (find x one) (find x other)) }
{
    let mut left = one;
    let mut done = other;
    while let Some((name, dealings)) = left.pop() {
        let old = found_or(&done, name.as_slice(), rest);
        done.put(name, by_both(way, dealings, old))?;
    }
    Ok(done)
}

/// Two parts together.
///
/// # Errors
///
/// `Memory` when memory runs out.
fn combined(alloc: Global, way: Way, one: Deals, other: Deals) -> Result<Deals, Memory>
    ensures { IfOk result (λ d. Sums d
        (λ x free h. deals.by way (seen_at one x free h) (seen_at other x free h))
        (sum one.returns other.returns)) }
{
    let returns = sum(one.returns, other.returns);
    let rest = by(way, one.rest, other.rest);
    let base = settle_if(alloc, way, one.rest, &one.named, other.named)?;
    let named = absorb(way, one.named, other.rest, base)?;
    Ok(Deals {
        named,
        rest,
        returns,
    })
}

/// One part and then the other.
///
/// # Errors
///
/// `Memory` when memory runs out.
pub(crate) fn chained(alloc: Global, one: Deals, other: Deals) -> Result<Deals, Memory>
    ensures { IfOk result (λ d. Sums d
        (λ x free h. spec.chain other.returns (seen_at one x free h) (seen_at other x free h))
        (sum one.returns other.returns)) }
{
    let way = Way::Chain(other.returns);
    combined(alloc, way, one, other)
}

/// One part or the other.
///
/// # Errors
///
/// `Memory` when memory runs out.
pub(crate) fn forked(alloc: Global, one: Deals, other: Deals) -> Result<Deals, Memory>
    ensures { IfOk result (λ d. Sums d
        (λ x free h. spec.fork (seen_at one x free h) (seen_at other x free h))
        (sum one.returns other.returns)) }
{
    combined(alloc, Way::Fork, one, other)
}

/// The turns of a loop.
///
/// # Errors
///
/// `Memory` when memory runs out.
pub(crate) fn turned(alloc: Global, body: Deals) -> Result<Deals, Memory>
    ensures { IfOk result (λ d. Sums d (λ x free h. spec.turns (seen_at body x free h)) body.returns) }
{
    let rest = turns(body.rest);
    let none = Table::new(alloc);
    let named = settle(alloc, Way::Turns, rest, &none, body.named)?;
    Ok(Deals {
        named,
        rest,
        returns: body.returns,
    })
}

/// A touch, which may consume nothing where it stands in a loop.
fn kept_if(in_loop: bool, touch: Touch) -> Touch
    ensures { result ≡ deals.kept_if in_loop touch }
{
    if in_loop { kept(touch) } else { touch }
}

/// A step, and then a part that has so many returns.
fn stepped(in_loop: bool, returns: u64, touches: Touches, other: Dealings) -> Dealings
    ensures { result ≡ deals.stepped in_loop returns touches other }
{
    let owned = once(kept_if(in_loop, touches.owned));
    let free = once(kept_if(in_loop, touches.free));
    Dealings {
        owned: chain(returns, owned, other.owned),
        free: chain(returns, free, other.free),
    }
}

/// The names that a step touches, each with what the step and the part behind it do to it.
fn absorb_step(
    in_loop: bool,
    returns: u64,
    touches: Table<Touches>,
    rest: Dealing,
    other: Table<Dealings>,
) -> Result<Table<Dealings>, Memory>
    ensures { IfOk result (λ table. (x : Bytes)
        → find x table ≡ absorbed (deals.stepped in_loop returns) rest (find x touches) (find x other)) }
{
    let mut left = touches;
    let mut done = other;
    while let Some((name, one)) = left.pop() {
        let old = found_or(&done, name.as_slice(), rest);
        done.put(name, stepped(in_loop, returns, one, old))?;
    }
    Ok(done)
}

/// A step, and then a part. A step in a loop may consume nothing.
///
/// # Errors
///
/// `Memory` when memory runs out.
pub(crate) fn met(in_loop: bool, touches: Table<Touches>, other: Deals) -> Result<Deals, Memory>
    ensures { IfOk result (λ d. Sums d
        (λ x free h. spec.chain other.returns
        (spec.once (deals.kept_if in_loop (unless_hidden h (touch_in touches x free))))
        (seen_at other x free h))
        other.returns) }
{
    let rest = other.rest;
    let returns = other.returns;
    let named = absorb_step(in_loop, returns, touches, rest, other.named)?;
    Ok(Deals {
        named,
        rest,
        returns,
    })
}
