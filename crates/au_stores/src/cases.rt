//! What a `case` tells apart: a union, or one behind a reference.

ghost use Rattle.std.specs.Prelude.{◌≡◌, ◌∷◌, [], IfOk, OnOk};
ghost use Rattle.std.specs.Option.{option_map};
ghost use Rattle.au_effects.specs.Cases as effect;
ghost use Rattle.au_effects.specs.References.{referring, reference_along};
ghost use Rattle.au_cells.specs.Cells.{low, lows, lent};
ghost use Rattle.au_stores.specs.Stores.{world_of, top_frame, taken, told_by};

use crate::worlds::World;
use au_base::{Memory, Sequence};
use au_cells::forms::{case_of, into_parts, make_reference, reference_in};
use au_cells::{Borrowed, Cell, Parts};
use std::alloc::Global;

/// How the fields of a value are taken.
#[derive(Clone, Copy)]
pub enum Taken {
    /// From the value itself, which is consumed where it has this birth.
    Spent(Option<u64>),
    /// From a value behind a reference, whose borrow is used.
    Used(u64),
}

/// What a `case` tells apart.
#[derive(Drop)]
pub struct Told {
    /// The number of the case.
    pub tag: u32,
    /// How the fields are taken.
    pub how: Taken,
    /// The fields, or references to them.
    pub fields: Vec<Cell>,
}

impl World {
    /// Tells how the fields of a value were taken.
    ///
    /// # Errors
    ///
    /// `Memory` when memory runs out.
    pub fn tell_taken(&mut self, how: Taken) -> Result<(), Memory>
        ensures world { OnOk result (world_of self.new ≡ taken how (world_of self.old)) }
        ensures frame { OnOk result (top_frame self.new ≡ top_frame self.old) }
    {
        match how {
            Taken::Spent(birth) => self.spend(birth),
            Taken::Used(borrow) => self.tell_use(borrow),
        }
    }

    /// The case of a value, and its fields, or of the one behind a reference, and references to them. Nothing
    /// is told here.
    ///
    /// # Errors
    ///
    /// `Memory` when memory runs out.
    #[tactic(auto, using(crate::proofs::CaseLemmas::told_reference, crate::proofs::CaseLemmas::told_made, crate::proofs::CaseLemmas::told_none))]
    pub fn told_apart(&self, alloc: Global, cell: Cell) -> Result<Option<Told>, Memory>
        ensures { IfOk result (λ found. option_map (told_by (world_of self.now)) found
            ≡ effect.told_apart (low cell) (world_of self.now)) }
    {
        if let Some(one) = reference_in(&cell) {
            return self.told_behind(alloc, one);
        }
        let Some(Parts { tag, birth, fields }) = into_parts(cell) else {
            return Ok(None);
        };
        Ok(Some(Told {
            tag,
            how: Taken::Spent(birth),
            fields,
        }))
    }

    /// The case of the value behind a reference, and references to its fields.
    fn told_behind(&self, alloc: Global, one: &Borrowed) -> Result<Option<Told>, Memory>
        ensures { IfOk result (λ found. option_map (told_by (world_of self.now)) found
            ≡ effect.told_apart (referring (lent one.now)) (world_of self.now)) }
    {
        let Some(held_value) = self.at(one) else {
            return Ok(None);
        };
        let Some((tag, count)) = case_of(held_value) else {
            return Ok(None);
        };
        let fields = fields_behind(alloc, one, count)?;
        Ok(Some(Told {
            tag,
            how: Taken::Used(one.borrow),
            fields,
        }))
    }
}

/// References to so many fields of what a reference refers to.
fn fields_behind(alloc: Global, one: &Borrowed, count: usize) -> Result<Vec<Cell>, Memory>
    ensures { IfOk result (λ fields. lows fields.items ≡ effect.fields_behind (lent one.now) 0 count) }
{
    let mut fields = Vec::new(alloc);
    for index in 0..count {
        let field = field_behind(alloc, one, index)?;
        fields.push(field)?;
    }
    Ok(fields)
}

/// A reference to a field of what a reference refers to.
fn field_behind(alloc: Global, one: &Borrowed, index: usize) -> Result<Cell, Memory>
    ensures { IfOk result (λ field. low field ≡ referring (reference_along (lent one.now) (index ∷ []))) }
{
    let Ok(number) = u32::try_from(index) else {
        return Err(Memory);
    };
    let mut path = one.path.as_slice().to_vec(alloc)?;
    path.push(number)?;
    make_reference(
        alloc,
        Borrowed {
            borrow: one.borrow,
            start: one.start,
            path: Sequence::from_vec(path),
        },
    )
}
