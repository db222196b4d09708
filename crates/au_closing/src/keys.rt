//! The key of an instance.

ghost use Rattle.std.specs.Prelude.{◌≡◌, ◌++◌, ◌∷◌, [], IfOk, OnOk};
ghost use Rattle.au_closing.specs.ClosingViews.{instance_said};
ghost use Rattle.au_type_texts.specs.GivenViews.{given_said, pair_said};
ghost use Rattle.au_closing.specs.Keys.{given_key, instance_key, name_key, pair_key};

use crate::Instance;
use au_base::Memory;
use au_type_texts::{GivenType, add_key, add_number};
use au_types::DeclAt;
use std::alloc::Global;

/// The key of an instance.
///
/// # Errors
///
/// Only for want of memory.
pub(crate) fn key_of_instance(alloc: Global, of: &Instance) -> Result<Vec<u32>, Memory>
    ensures { IfOk result (λ key. key.items ≡ instance_key (instance_said of.now)) }
{
    let mut key = Vec::new(alloc);
    add_place(&mut key, of.of.at)?;
    add_name(&mut key, of.of.name.as_bytes())?;
    add_given(&mut key, &of.given)?;
    Ok(key)
}

/// Adds the place of a declaration.
fn add_place(key: &mut Vec<u32>, at: DeclAt) -> Result<(), Memory>
    ensures { OnOk result (key.new.items ≡ key.old.items ++ at.module ∷ at.decl ∷ []) }
{
    add_number(key, u32::from(at.module))?;
    add_number(key, at.decl)
}

/// Adds the key of a name. One that has 2^32 bytes or more has no room.
fn add_name(key: &mut Vec<u32>, name: &[u8]) -> Result<(), Memory>
    ensures { OnOk result (key.new.items ≡ key.old.items ++ name_key name.now) }
{
    let Ok(count) = u32::try_from(name.len()) else {
        return Err(Memory);
    };
    add_number(key, count)?;
    add_bytes(key, name)
}

/// Adds bytes.
fn add_bytes(key: &mut Vec<u32>, bytes: &[u8]) -> Result<(), Memory>
    ensures { OnOk result (key.new.items ≡ key.old.items ++ bytes.now) }
{
    for byte in bytes {
        add_number(key, u32::from(*byte))?;
    }
    Ok(())
}

/// Adds the keys of what is given, in order.
fn add_given(key: &mut Vec<u32>, given: &[GivenType]) -> Result<(), Memory>
    ensures { OnOk result (key.new.items ≡ key.old.items ++ given_key (given_said given.now)) }
{
    for one in given {
        add_pair(key, one)?;
    }
    Ok(())
}

/// Adds the key of a type parameter and of what is given for it.
fn add_pair(key: &mut Vec<u32>, one: &GivenType) -> Result<(), Memory>
    ensures { OnOk result (key.new.items ≡ key.old.items ++ pair_key (pair_said one.now)) }
{
    add_name(key, one.name.as_bytes())?;
    add_key(key, &one.of)
}
