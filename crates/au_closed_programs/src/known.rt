//! What is known once the instances of a program are listed.

ghost use Rattle.std.specs.Prelude.{◌≡◌, IfOk, length};
ghost use Rattle.au_closing.specs.Bodies as found;
ghost use Rattle.au_closing.specs.Instances as spec;
ghost use Rattle.au_closing.specs.ClosingViews.{instance_said};
ghost use Rattle.au_modules.specs.Slots as slots;
ghost use Rattle.au_noting_programs.specs.Said.{modules_said};

use crate::calls::Bodies;
use crate::constants::value_of;
use au_base::Memory;
use au_closed_trees::Literal;
use au_closing::{Instance, Listed, Reached};
use au_types::DeclAt;
use std::alloc::Global;

/// A program with the list of its instances.
#[derive(Clone, Copy)]
pub(crate) struct Known<'a> {
    /// The program.
    pub bodies: Bodies<'a>,
    /// The list.
    pub reached: &'a Reached,
}

/// A number of 32 bits, and `Memory` where it has more.
fn small(number: usize) -> Result<u32, Memory>
    ensures { IfOk result (λ made. made ≡ number) }
{
    if number > u32::MAX as usize {
        return Err(Memory);
    }
    Ok(number as u32)
}

/// The number of an instance in a list, and how many there are where it isn't there.
fn number_of(alloc: Global, reached: &Reached, one: &Instance) -> Result<u32, Memory>
    ensures { IfOk result (λ number. number ≡ spec.place_in (instance_said one.now) reached.now) }
{
    let number = reached.number(alloc, one)?;
    small(number)
}

/// How many instances a list has.
fn count_of(reached: &Reached) -> Result<u32, Memory>
    ensures { IfOk result (λ count. count ≡ length reached.now) }
{
    small(reached.list().len())
}

/// The literal of the constant of a declaration, if it is one.
fn literal_of(alloc: Global, bodies: &Bodies, at: DeclAt) -> Result<Option<Literal>, Memory>
    ensures { IfOk result (λ made.
        made
        ≡ found.value_of (slots.modules bodies.now.program.now) (modules_said bodies.now.modules.now) at) }
{
    value_of(
        alloc,
        bodies.program,
        bodies.definitions,
        bodies.modules,
        at,
    )
}

impl<'a> Listed for Known<'a> {
    ghost instances = { λ known. known.reached.now };

    ghost literal_of = { λ known.
        found.value_of (slots.modules known.bodies.program.now) (modules_said known.bodies.modules.now) };

    fn number(&self, alloc: Global, one: &Instance) -> Result<u32, Memory> {
        number_of(alloc, self.reached, one)
    }

    fn count(&self) -> Result<u32, Memory> {
        count_of(self.reached)
    }

    fn literal(&self, alloc: Global, at: DeclAt) -> Result<Option<Literal>, Memory> {
        literal_of(alloc, &self.bodies, at)
    }
}
