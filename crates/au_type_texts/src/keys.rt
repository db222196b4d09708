//! The key of a closed type.

ghost use Rattle.std.specs.Prelude.{◌≡◌, ◌++◌, ◌∷◌, [], OnOk};
ghost use Rattle.au_type_texts.specs.Views.{closed_meaning, closed_meanings};
ghost use Rattle.au_type_texts.specs.Keys as keys;
ghost use Rattle.au_type_texts.specs.Keys.{key_of, list_key, place_key};

use crate::types::Closed;
use au_base::{IntKind, Memory};
use au_types::DeclAt;

/// Adds the key of a closed type.
///
/// # Errors
///
/// Only for want of memory.
#[tactic(auto, using(crate::proofs::ClosedLemmas::closed_steps, std::proofs::lemmas::Grind::common_steps))]
#[cycle(add_key)]
pub fn add_key(key: &mut Vec<u32>, of: &Closed) -> Result<(), Memory>
    ensures { OnOk result (key.new.items ≡ key.old.items ++ key_of (closed_meaning of.now)) }
{
    match of {
        Closed::Unit => add_number(key, 0),
        Closed::Bool => add_number(key, 1),
        Closed::Text => add_number(key, 2),
        Closed::Int(kind) => add_two(key, 7, kind_key(*kind)),
        Closed::Named { of, args } => {
            add_place(key, *of)?;
            add_list(key, args)
        }
        Closed::Read(to) => {
            add_number(key, 3)?;
            add_key(key, to)
        }
        Closed::Write(to) => {
            add_number(key, 4)?;
            add_key(key, to)
        }
    }
}

/// Adds those of closed types, and what ends them.
#[cycle(add_key)]
fn add_list(key: &mut Vec<u32>, list: &Vec<Closed>) -> Result<(), Memory>
    ensures { OnOk result (key.new.items ≡ key.old.items ++ list_key (closed_meanings list.now.items)) }
{
    for one in list {
        add_key(key, one)?;
    }
    add_number(key, 6)
}

/// Adds what a declared type begins with.
fn add_place(key: &mut Vec<u32>, at: DeclAt) -> Result<(), Memory>
    ensures { OnOk result (key.new.items ≡ key.old.items ++ place_key at) }
{
    add_two(key, 5, u32::from(at.module))?;
    add_number(key, at.decl)
}

/// Adds two numbers.
fn add_two(key: &mut Vec<u32>, one: u32, other: u32) -> Result<(), Memory>
    ensures { OnOk result (key.new.items ≡ key.old.items ++ one ∷ other ∷ []) }
{
    add_number(key, one)?;
    add_number(key, other)
}

/// Adds a number.
pub fn add_number(key: &mut Vec<u32>, number: u32) -> Result<(), Memory>
    ensures { OnOk result (key.new.items ≡ key.old.items ++ number ∷ []) }
{
    key.push(number)?;
    Ok(())
}

/// The number of a kind of integers.
fn kind_key(kind: IntKind) -> u32
    ensures { result ≡ keys.kind_key kind }
{
    match kind {
        IntKind::Nat8 => 0,
        IntKind::Nat16 => 1,
        IntKind::Nat32 => 2,
        IntKind::Nat64 => 3,
        IntKind::Int8 => 4,
        IntKind::Int16 => 5,
        IntKind::Int32 => 6,
        IntKind::Int64 => 7,
        IntKind::Index => 8,
    }
}
