//! A walk through the declarations of modules.

ghost use Rattle.std.specs.Prelude.{◌≡◌, ◌++◌, ◌+◌, ◌<◌, ◌^◌, IfOk, OnOk, length, map, slice_get};
ghost use Rattle.au_names.specs.Exporting.{declarations_seen};
ghost use Rattle.au_names.specs.HeadsOf as spec;
ghost use Rattle.au_names.specs.Walks.{IsFreeFrom, is_new, row_on, rows_on, type_names_of};
ghost use Rattle.au_names.specs.Walks.{walk_over, walk_past, written, written_all};
ghost use Rattle.au_modules.specs.Seen.{tree_seen};
ghost use Rattle.au_modules.specs.Slots.{modules};
ghost use Rattle.au_types.specs.DeclaredNames.{given};
ghost use Rattle.au_types.specs.Tables.{with_all};

use crate::rows::push_row;
use crate::trees::tree_of;
use au_base::{Memory, Name};
use au_modules::Modules;
use au_syntax::{Decl, Parsed, Whole};
use au_types::declared_names::put_declared;
use au_types::{DeclAt, Heads, Space, Table};
use std::alloc::Global;

/// Where a walk through the declarations of a module stands.
#[derive(Drop)]
pub struct Walk {
    /// The place of the module.
    pub place: u16,
    /// The number of the next declaration.
    pub number: u32,
    /// The names of types that the declarations before it brought in, each with the number of its first
    /// declaration.
    pub seen: Table<u32>,
}

/// Puts the name of a declaration, if it brings one in to the space of types, and answers whether it does
/// and the name is new.
fn put_type(seen: &mut Table<u32>, decl: &Decl<Parsed>, number: u32) -> Result<bool, Memory>
    ensures new { IfOk result (λ new. new ≡ is_new (type_names_of decl.now) seen.old) }
    ensures seen { OnOk result (seen.new ≡ with_all seen.old (given number (type_names_of decl.now))) }
{
    let before = seen.len();
    put_declared(seen, Space::Types, decl, number)?;
    Ok(before < seen.len())
}

/// Walks past a declaration, and puts its row behind others.
fn pass(
    alloc: Global,
    owner: &Name,
    decl: &Decl<Parsed>,
    walk: &mut Walk,
    heads: &mut Heads,
) -> Result<(), Memory>
    requires free { IsFreeFrom walk.old.place walk.old.number heads.old }
    requires fits { walk.old.number + 1 < 2 ^ 32 }
    ensures rows { OnOk result (heads.new ≡ heads.old ++ row_on walk.old owner.now (written decl.now)) }
    ensures walk { OnOk result (walk.new ≡ walk_past walk.old (written decl.now)) }
    ensures free { OnOk result (IsFreeFrom walk.new.place walk.new.number heads.new) }
{
    let at = DeclAt {
        module: walk.place,
        decl: walk.number,
    };
    walk.number = at.decl + 1;
    if put_type(&mut walk.seen, decl, at.decl)? {
        push_row(alloc, owner, at, decl, heads)
    } else {
        Ok(())
    }
}

/// Walks past declarations in order, and puts their rows behind others.
fn pass_all(
    alloc: Global,
    owner: &Name,
    decls: &Vec<Decl<Parsed>>,
    walk: &mut Walk,
    heads: &mut Heads,
) -> Result<(), Memory>
    requires free { IsFreeFrom walk.old.place walk.old.number heads.old }
    requires fits { walk.old.number + length decls.now.items < 2 ^ 32 }
    ensures rows { OnOk result
        (heads.new ≡ heads.old ++ rows_on walk.old owner.now (written_all decls.now.items)) }
    ensures walk { OnOk result (walk.new ≡ walk_over walk.old (written_all decls.now.items)) }
    ensures free { OnOk result (IsFreeFrom walk.new.place walk.new.number heads.new) }
{
    for one in decls {
        pass(alloc, owner, one, walk, heads)?;
    }
    Ok(())
}

/// Walks past the declarations of a part of a module, if it is there, and puts their rows behind others.
fn pass_part(
    alloc: Global,
    owner: &Name,
    part: Option<&Whole<Parsed>>,
    walk: &mut Walk,
    heads: &mut Heads,
) -> Result<(), Memory>
    requires free { IsFreeFrom walk.old.place walk.old.number heads.old }
    requires fits { walk.old.number + length (declarations_seen (tree_seen part)) < 2 ^ 32 }
    ensures rows { OnOk result
        (heads.new ≡ heads.old ++ rows_on walk.old owner.now (declarations_seen (tree_seen part.entry))) }
    ensures walk { OnOk result (walk.new ≡ walk_over walk.old (declarations_seen (tree_seen part.entry))) }
    ensures free { OnOk result (IsFreeFrom walk.new.place walk.new.number heads.new) }
{
    match part {
        None => Ok(()),
        Some(file) => pass_all(alloc, owner, &tree_of(file).declarations, walk, heads),
    }
}

/// Puts the rows of the module at a place behind others.
fn push_module(
    alloc: Global,
    program: &Modules,
    place: usize,
    heads: &mut Heads,
) -> Result<(), Memory>
    requires within { place < length (modules program.now) }
    requires free { IsFreeFrom place 0 heads.old }
    ensures rows { OnOk result
        (heads.new ≡ heads.old ++ spec.rows_at place (slice_get (modules program.now) place)) }
    ensures free { OnOk result (IsFreeFrom (place + 1) 0 heads.new) }
{
    let owner = program.name(place);
    let mut walk = Walk {
        place: place as u16,
        number: 0,
        seen: Table::new(alloc),
    };
    pass_part(alloc, owner, program.interface(place), &mut walk, heads)?;
    pass_part(alloc, owner, program.body(place), &mut walk, heads)
}

/// The rows of the declared types of a program: module by module in the order of their places, and in each
/// in the order of its declarations, those of its interface before those of its body. Of several
/// declarations of one name in the space of types the first alone counts.
///
/// # Errors
///
/// Only for want of memory.
pub fn heads_of(alloc: Global, program: &Modules) -> Result<Heads, Memory>
    ensures { IfOk result (λ heads. heads ≡ spec.heads_of (modules program.now)) }
{
    let mut heads = Heads::new(alloc);
    for place in 0..program.len() {
        push_module(alloc, program, place, &mut heads)?;
    }
    Ok(heads)
}
