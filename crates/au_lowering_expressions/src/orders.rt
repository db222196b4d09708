//! The orders of arguments.

ghost use Rattle.std.specs.Prelude.{◌≡◌, IfOk};
ghost use Rattle.std.specs.List.{position_or_len};
ghost use Rattle.std.specs.Str.{bytes_eq};
ghost use Rattle.au_closed_trees.specs.contracts.phase.ClosedTreesPhase.TheImpl.{ghosts as closed};
ghost use Rattle.au_lowered.specs.Expressions as spec;
ghost use Rattle.au_meaning.specs.Expressions.{labels as labels_in};
ghost use Rattle.au_syntax.specs.Views.{argument_all};

use au_base::{Memory, Name};
use au_closed_trees::ClosedTrees;
use au_syntax::Argument;
use std::alloc::Global;

/// A number of 32 bits, and `Memory` where it has more.
fn small(number: usize) -> Result<u32, Memory>
    ensures { IfOk result (λ made. made ≡ number) }
{
    if number > u32::MAX as usize {
        return Err(Memory);
    }
    Ok(number as u32)
}

/// The order of arguments by position.
///
/// # Errors
///
/// Only for want of memory.
pub fn by_position(alloc: Global, parameters: &Vec<Name>) -> Result<Vec<u32>, Memory>
    ensures { IfOk result (λ order. order.items ≡ spec.by_position parameters.now.items) }
{
    let mut order = Vec::new(alloc);
    for number in 0..parameters.len() {
        let number = small(number)?;
        order.push(number)?;
    }
    Ok(order)
}

/// The number of the argument with a label, and how many there are where none has it.
fn argument_of(name: &Name, labels: &Vec<Argument<ClosedTrees>>) -> Result<u32, Memory>
    ensures { IfOk result (λ number. number
        ≡ position_or_len (λ label. bytes_eq label name.now)
        (labels_in (argument_all closed labels.now.items))) }
{
    let mut number = 0;
    for one in labels {
        if one.label.name.as_bytes() == name.as_bytes() {
            return small(number);
        }
        number += 1;
    }
    small(number)
}

/// The order of arguments with labels.
///
/// # Errors
///
/// Only for want of memory.
pub fn by_labels(
    alloc: Global,
    parameters: &Vec<Name>,
    labels: &Vec<Argument<ClosedTrees>>,
) -> Result<Vec<u32>, Memory>
    ensures { IfOk result (λ order. order.items
        ≡ spec.by_labels (labels_in (argument_all closed labels.now.items)) parameters.now.items) }
{
    let mut order = Vec::new(alloc);
    for one in parameters {
        let number = argument_of(one, labels)?;
        order.push(number)?;
    }
    Ok(order)
}

/// Whether arguments stand in declared order.
fn is_declared(order: &Vec<u32>) -> bool
    ensures { result ≡ bytes_eq order.now.items (spec.numbers_from 0 order.now.items) }
{
    for (index, number) in order.iter().enumerate() {
        if *number as usize != index {
            return false;
        }
    }
    true
}

/// An order, or none where arguments stand in declared order.
pub fn unless_declared(alloc: Global, order: Vec<u32>) -> Vec<u32>
    ensures { result.items ≡ spec.unless_declared order.items }
{
    if is_declared(&order) {
        Vec::new(alloc)
    } else {
        order
    }
}
