//! Which lives of a body are shown to be good by one walk.

ghost use Rattle.std.specs.Prelude.{◌≡◌, map, reverse, IfOk, OnOk, IsTrue};
ghost use Rattle.au_syntax.specs.Plain.{PlainStatements};
ghost use Rattle.au_lives.specs.Lives.{GoodLife, is_free};
ghost use Rattle.au_lives.specs.Scopes.{Scope, scope, scopes_of};
ghost use Rattle.au_clearing.specs.Dealings as spec;
ghost use Rattle.au_clearing.specs.Dealings.{by_type, is_spent, life_of};
ghost use Rattle.au_clearing.specs.Seen.{seen_block, seen_parameters};
ghost use Rattle.au_clearing.specs.Deals.{SumsBlock, Piles};

use crate::dealings::{Dealing, Life};
use crate::deals::Deals;
use crate::declaring::pile;
use crate::statements::deals_of_block;
use crate::touches::is_whole;
use au_base::Memory;
use au_lives::lives::Sort;
use au_syntax::{Block, Field, Phase};
use std::alloc::Global;

/// Puts on a pile what is known of the parameters.
fn pile_parameters<P: Phase>(
    pile_of: &mut Vec<Life>,
    parameters: &Vec<Field<P>>,
    deals: &Deals,
) -> Result<(), Memory>
    ensures { (b : PlainStatements) → SumsBlock deals.now b
        → OnOk result
        (Piles (map (λ parameter. scope parameter.name b) (seen_parameters P.Phase parameters.now.items))
        pile_of.old.items pile_of.new.items) }
{
    let mut left = parameters.len();
    while left > 0 {
        left -= 1;
        pile(pile_of, &parameters[left].name, deals)?;
    }
    Ok(())
}

/// What one walk over a body shows of its variables: the last is what is known of the first variable in text
/// order, with the parameters first.
///
/// # Errors
///
/// `Memory` when memory runs out.
pub fn lives<P: Phase>(
    alloc: Global,
    parameters: &Vec<Field<P>>,
    body: &Block<P>,
) -> Result<Vec<Life>, Memory>
    ensures { IfOk result (λ found. reverse found.items
        ≡ map life_of
        (scopes_of (seen_parameters P.Phase parameters.now.items) (seen_block P.Phase body.now))) }
{
    let mut found = Vec::new(alloc);
    let deals = deals_of_block(alloc, &mut found, body)?;
    pile_parameters(&mut found, parameters, &deals)?;
    Ok(found)
}

/// Whether no path ends with the variable alive, and each of so many returns is spared.
fn is_spent(returns: u64, one: Dealing) -> bool
    ensures { result ≡ is_spent returns one }
{
    !one.lives && one.spared == returns && returns < u64::MAX
}

/// Whether a dealing of the whole scope of a variable clears it, by what its type asks for.
fn is_cleared(sort: Sort, life: Life) -> bool
    ensures { result ≡ spec.clears sort life.returns (by_type (is_free sort) life.dealings) }
{
    let owned = life.dealings.owned;
    match sort {
        Sort::Free => is_whole(life.dealings.free.touch),
        Sort::WriteReference => is_whole(owned.touch),
        Sort::Linear => is_whole(owned.touch) && is_spent(life.returns, owned),
    }
}

/// Whether what is known of a variable shows that its life is good, by what its type asks for. Where it
/// doesn't, the life may still be good.
pub fn clears(sort: Sort, life: Life) -> bool
    ensures { (s : Scope) → life ≡ life_of s → IsTrue result → GoodLife s.name.name sort s.block }
{
    is_cleared(sort, life)
}
