//! The rows of closed types, each of which is found without a walk through those before it.

ghost use Rattle.std.specs.Prelude.{◌≡◌, ℕ, IfOk, OnOk, drop, length, map, nat_eq};
ghost use Rattle.std.specs.Option.{option_copied, option_map};
ghost use Rattle.indexmap.specs.IndexMap.{get};
ghost use Rattle.au_closed_programs.specs.Views.{rows_said};
ghost use Rattle.au_type_texts.specs.Views.{closed_meaning};
ghost use Rattle.au_closed_meanings.specs.Programs.{row_in};
ghost use Rattle.au_lowering.specs.Closed.{row_seen};
ghost use Rattle.au_lowering.specs.Placed.{ArePlaced, placed_with};
ghost use Rattle.au_lowering.specs.Views.{row_held, rows_held};

use crate::mixing::mixed_type;
use crate::rows::see_rows;
use crate::seen::SeenRow;
use au_base::Memory;
use au_closed_programs::TypeRow;
use au_type_texts::{Closed, is_same};
use indexmap::IndexMap;
use std::alloc::Global;

/// The rows of closed types, with the places from which they are looked for.
#[derive(Drop)]
pub struct PlacedRows<'a> {
    /// The rows.
    pub rows: Vec<SeenRow<'a>>,
    /// The place of the first row whose type has a number, by these numbers.
    places: IndexMap<u64, usize>,
    ghost placed: { ArePlaced (rows_held rows.items) (get nat_eq places) (length rows.items) },
}

/// Gives a number this place, unless it has one.
fn put_place(places: &mut IndexMap<u64, usize>, number: u64, place: usize) -> Result<(), Memory>
    ensures { OnOk result ((other : ℕ) → get nat_eq places.new other
        ≡ placed_with number place (get nat_eq places.old) other) }
{
    if places.contains_key(&number) {
        return Ok(());
    }
    places.insert(number, place)?;
    Ok(())
}

/// The places of the first rows, by the numbers of their types.
fn places_of(alloc: Global, rows: &Vec<SeenRow<'_>>) -> Result<IndexMap<u64, usize>, Memory>
    ensures { IfOk result (λ places.
        ArePlaced (rows_held rows.now.items) (get nat_eq places) (length rows.now.items)) }
{
    let mut places = IndexMap::new(alloc);
    for (place, one) in rows.iter().enumerate() {
        put_place(&mut places, mixed_type(one.of), place)?;
    }
    Ok(places)
}

/// The rows of types.
///
/// # Errors
///
/// `Memory` when memory runs out, and where a case or a field has a number of more than 32 bits.
pub fn place_rows<'a>(alloc: Global, rows: &'a Vec<TypeRow>) -> Result<PlacedRows<'a>, Memory>
    ensures { IfOk result (λ made. rows_held made.rows.items ≡ map row_seen (rows_said rows.now.items)) }
{
    let rows = see_rows(alloc, rows)?;
    let places = places_of(alloc, &rows)?;
    Ok(PlacedRows { rows, places })
}

/// The row of a type among those from a place on.
fn find_from<'r, 'a>(
    rows: &'r Vec<SeenRow<'a>>,
    place: usize,
    of: &Closed,
) -> Option<&'r SeenRow<'a>>
    ensures { option_map row_held (option_copied result)
        ≡ row_in (drop place (rows_held rows.now.items)) (closed_meaning of.now) }
{
    for at in place..rows.len() {
        let one = &rows[at];
        if is_same(one.of, of) {
            return Some(one);
        }
    }
    None
}

/// The row of a type: the walk to it begins where the first type of its number stands, and that is mostly it.
pub fn find_row<'r, 'a>(rows: &'r PlacedRows<'a>, of: &Closed) -> Option<&'r SeenRow<'a>>
    ensures { option_map row_held (option_copied result)
        ≡ row_in (rows_held rows.now.rows.items) (closed_meaning of.now) }
{
    match rows.places.get(&mixed_type(of)) {
        None => None,
        Some(place) => find_from(&rows.rows, *place, of),
    }
}
