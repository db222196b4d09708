//! The declarations of a program in the order of the text.

ghost use Rattle.std.specs.Prelude.{◌≡◌, ◌+◌, ◌++◌, ◌<◌, IfOk, OnOk, Some, length, slice_get};
ghost use Rattle.au_formed.specs.Said.{spots_said};
ghost use Rattle.au_formed.specs.Text as spec;
ghost use Rattle.au_names.specs.Walks.{written_all};
ghost use Rattle.au_modules.specs.Programs.{ModuleParts};
ghost use Rattle.au_modules.specs.Seen.{tree_seen};
ghost use Rattle.au_modules.specs.Slots as slots;
ghost use Rattle.au_names.specs.Exporting.{declarations_seen};

use au_base::Memory;
use au_modules::Modules;
use au_syntax::{Decl, Parsed, Part, Whole};
use au_types::DeclAt;
use std::alloc::Global;

/// A declaration of a program, with where it stands.
#[derive(Clone, Copy)]
pub struct Spot<'a> {
    /// The place of its module, and its number there: those of an interface are counted from 0, and those of
    /// the body of its module behind them.
    pub at: DeclAt,
    /// The part of the module that it stands in.
    pub part: Part,
    /// The declaration.
    pub decl: &'a Decl<Parsed>,
}

/// The number behind a number, and `Memory` where none is left.
fn next_number(number: u32) -> Result<u32, Memory>
    ensures { IfOk result (λ next. next ≡ number + 1) }
{
    if number == u32::MAX {
        Err(Memory)
    } else {
        Ok(number + 1)
    }
}

/// Puts declarations of a part of the module at a place, the first of which has this number. Answers the
/// number behind them.
fn push_declarations<'a>(
    list: &mut Vec<Spot<'a>>,
    place: u16,
    part: Part,
    first: u32,
    decls: &'a Vec<Decl<Parsed>>,
) -> Result<u32, Memory>
    ensures spots { OnOk result
        (spots_said list.new.items
        ≡ spots_said list.old.items ++ spec.spots_from place part first (written_all decls.now.items)) }
    ensures next { IfOk result (λ next. next ≡ first + length (written_all decls.now.items)) }
{
    let mut number = first;
    for decl in decls {
        let at = DeclAt {
            module: place,
            decl: number,
        };
        list.push(Spot { at, part, decl })?;
        number = next_number(number)?;
    }
    Ok(number)
}

/// Puts the declarations of a part of the module at a place, if it is there, the first of which has this
/// number. Answers the number behind them.
fn push_part<'a>(
    list: &mut Vec<Spot<'a>>,
    place: u16,
    part: Part,
    first: u32,
    file: Option<&'a Whole<Parsed>>,
) -> Result<u32, Memory>
    ensures spots { OnOk result
        (spots_said list.new.items
        ≡ spots_said list.old.items
        ++ spec.spots_from place part first (declarations_seen (tree_seen file.entry))) }
    ensures next { IfOk result (λ next. next ≡ first + length (declarations_seen (tree_seen file.entry))) }
{
    match file {
        None => Ok(first),
        Some(file) => push_declarations(list, place, part, first, &file.tree().declarations),
    }
}

/// A place as it stands with a declaration, and `Memory` where it fits none.
fn place_number(place: usize) -> Result<u16, Memory>
    ensures { IfOk result (λ same. same ≡ place) }
{
    if place > u16::MAX as usize {
        return Err(Memory);
    }
    Ok(place as u16)
}

/// Puts the declarations of the module at a place: those of its interface, and then those of its body.
fn push_module<'a>(
    list: &mut Vec<Spot<'a>>,
    modules: &'a Modules,
    place: usize,
) -> Result<(), Memory>
    requires { place < length (slots.modules modules.now) }
    ensures { (m : ModuleParts) → slice_get (slots.modules modules.now) place ≡ Some m
        → OnOk result (spots_said list.new.items ≡ spots_said list.old.items ++ spec.module_spots place m) }
{
    let at = place_number(place)?;
    let number = push_part(list, at, Part::Interface, 0, modules.interface(place))?;
    push_part(list, at, Part::Body, number, modules.body(place))?;
    Ok(())
}

/// The declarations of a program in the order of the text: modules by their places, the interface of each
/// before its body.
///
/// # Errors
///
/// Only for want of memory. It is also what is answered where a place or a number doesn't fit.
pub fn all_declarations(alloc: Global, modules: &Modules) -> Result<Vec<Spot<'_>>, Memory>
    ensures { IfOk result (λ all. spots_said all.items ≡ spec.text (slots.modules modules.now)) }
{
    let mut list = Vec::new(alloc);
    for place in 0..modules.len() {
        push_module(&mut list, modules, place)?;
    }
    Ok(list)
}
