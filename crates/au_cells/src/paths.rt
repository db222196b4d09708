//! The parts of values: what the fields of a path lead to.

ghost use Rattle.std.specs.Prelude.{◌≡◌, slice_get};
ghost use Rattle.std.specs.Option.{option_map, option_copied};
ghost use Rattle.au_effects.specs.Values.{fields_of};
ghost use Rattle.au_effects.specs.Parts as effect;
ghost use Rattle.au_cells.specs.Cells.{low, lows};

use crate::cells::Cell;
use std::mem;

/// The field of a number, where the value has it.
fn field(cell: &Cell, index: u32) -> Option<&Cell>
    ensures { option_map low (option_copied result) ≡ effect.field index (low cell.now) }
{
    match cell {
        Cell::Made(parts) => nth(&parts.fields, index as usize),
        _ => None,
    }
}

fn nth(cells: &Vec<Cell>, index: usize) -> Option<&Cell>
    ensures { option_copied result ≡ slice_get cells.now.items index }
{
    cells.get(index)
}

/// The part of a value at the end of a path, if it is there.
pub fn part<'a>(cell: &'a Cell, path: &[u32]) -> Option<&'a Cell>
    ensures { option_map low (option_copied result) ≡ effect.part path.now (low cell.now) }
{
    let mut at = cell;
    for index in path {
        match field(at, *index) {
            Some(found) => at = found,
            None => return None,
        }
    }
    Some(at)
}

/// Puts a value into the part at the end of a path, and gives what was there. Where the part isn't there,
/// nothing changes, and the new value is gone.
pub fn replace(cell: &mut Cell, path: &[u32], new: Cell) -> Option<Cell>
    ensures whole { low cell.new ≡ effect.with_part path.now (low new) (low cell.old) }
    ensures old { option_map low result ≡ effect.part path.now (low cell.old) }
{
    let whole = mem::replace(cell, Cell::Unit);
    let Changed { whole, old } = replaced(whole, path, new);
    *cell = whole;
    old
}

/// A value of which a part may have been replaced, and what was there.
#[derive(Drop)]
struct Changed {
    whole: Cell,
    old: Option<Cell>,
}

#[cycle(replaced)]
fn replaced(cell: Cell, path: &[u32], new: Cell) -> Changed
    ensures whole { low result.whole ≡ effect.with_part path.now (low new) (low cell) }
    ensures old { option_map low result.old ≡ effect.part path.now (low cell) }
{
    if path.is_empty() {
        return Changed {
            whole: new,
            old: Some(cell),
        };
    }
    match cell {
        Cell::Made(mut parts) => {
            let old = replace_field(&mut parts.fields, path[0], &path[1..], new);
            Changed {
                whole: Cell::Made(parts),
                old,
            }
        }
        other => Changed {
            whole: other,
            old: None,
        },
    }
}

#[cycle(replaced)]
fn replace_field(fields: &mut Vec<Cell>, index: u32, rest: &[u32], new: Cell) -> Option<Cell>
    ensures whole { fields_of (lows fields.new.items)
        ≡ effect.with_nth index (effect.with_part rest.now (low new)) (fields_of (lows fields.old.items)) }
    ensures old { option_map low result
        ≡ effect.along (effect.nth_field index (fields_of (lows fields.old.items))) (effect.part rest.now) }
{
    let index = index as usize;
    if index >= fields.len() {
        return None;
    }
    let held = mem::replace(&mut fields[index], Cell::Unit);
    let Changed { whole, old } = replaced(held, rest, new);
    fields[index] = whole;
    old
}
