//! The keys of what calls lead to: numbers from which it is told.

ghost use Rattle.std.specs.Prelude.{◌≡◌, ◌++◌, ◌∷◌, [], IfOk, OnOk};
ghost use Rattle.au_caps.specs.Calls.{a_class, a_function, a_method, an_instance};
ghost use Rattle.au_caps.specs.Keys as spec;
ghost use Rattle.au_caps.specs.Views.{callee_said};

use crate::callees::Callee;
use au_base::{IntKind, Memory};
use au_instances::Constructor;
use au_type_texts::add_number;
use au_types::DeclAt;
use std::alloc::Global;

/// Adds the numbers of a declaration.
fn add_place(key: &mut Vec<u32>, at: DeclAt) -> Result<(), Memory>
    ensures { OnOk result (key.new.items ≡ key.old.items ++ at.module ∷ at.decl ∷ []) }
{
    add_number(key, u32::from(at.module))?;
    add_number(key, at.decl)
}

/// Adds the numbers of a name.
fn add_name(key: &mut Vec<u32>, name: &[u8]) -> Result<(), Memory>
    ensures { OnOk result (key.new.items ≡ key.old.items ++ name.now) }
{
    for byte in name {
        add_number(key, u32::from(*byte))?;
    }
    Ok(())
}

/// The number of an integer type.
fn kind_number(kind: IntKind) -> u32
    ensures { result ≡ spec.kind_number kind }
{
    match kind {
        IntKind::Nat8 => 0,
        IntKind::Nat16 => 1,
        IntKind::Nat32 => 2,
        IntKind::Nat64 => 3,
        IntKind::Int8 => 4,
        IntKind::Int16 => 5,
        IntKind::Int32 => 6,
        IntKind::Int64 => 7,
        IntKind::Index => 8,
    }
}

/// Adds the numbers of a constructor.
fn add_constructor(key: &mut Vec<u32>, one: Constructor) -> Result<(), Memory>
    ensures { OnOk result (key.new.items ≡ key.old.items ++ spec.constructor_key one) }
{
    match one {
        Constructor::Unit => add_number(key, 0),
        Constructor::Bool => add_number(key, 1),
        Constructor::Text => add_number(key, 2),
        Constructor::Int(kind) => {
            add_number(key, 3)?;
            add_number(key, kind_number(kind))
        }
        Constructor::Declared(at) => {
            add_number(key, 4)?;
            add_place(key, at)
        }
    }
}

/// A key that begins with a number.
fn begun(alloc: Global, tag: u32) -> Result<Vec<u32>, Memory>
    ensures { IfOk result (λ key. key.items ≡ tag ∷ []) }
{
    let mut key = Vec::new(alloc);
    add_number(&mut key, tag)?;
    Ok(key)
}

/// The key of a birth.
fn birth_key(alloc: Global, at: DeclAt) -> Result<Vec<u32>, Memory>
    ensures { IfOk result (λ key. key.items ≡ 0 ∷ at.module ∷ at.decl ∷ []) }
{
    let mut key = begun(alloc, 0)?;
    add_place(&mut key, at)?;
    Ok(key)
}

/// The key of the function of a name in the module at a place.
pub(crate) fn function_key(alloc: Global, place: u16, name: &[u8]) -> Result<Vec<u32>, Memory>
    ensures { IfOk result (λ key. key.items ≡ spec.key_of (a_function place name.now)) }
{
    let mut key = begun(alloc, 1)?;
    add_number(&mut key, u32::from(place))?;
    add_name(&mut key, name)?;
    Ok(key)
}

/// The key of the method of a name of all instances of a class.
pub(crate) fn method_key(alloc: Global, class: DeclAt, name: &[u8]) -> Result<Vec<u32>, Memory>
    ensures { IfOk result (λ key. key.items ≡ spec.key_of (a_method class name.now)) }
{
    let mut key = begun(alloc, 2)?;
    add_place(&mut key, class)?;
    add_name(&mut key, name)?;
    Ok(key)
}

/// The key of the instance of a class whose head has a constructor.
pub(crate) fn instance_key(
    alloc: Global,
    class: DeclAt,
    one: Constructor,
) -> Result<Vec<u32>, Memory>
    ensures { IfOk result (λ key. key.items ≡ spec.key_of (an_instance class one)) }
{
    let mut key = begun(alloc, 3)?;
    add_place(&mut key, class)?;
    add_constructor(&mut key, one)?;
    Ok(key)
}

/// The key of all instances of a class.
pub(crate) fn class_key(alloc: Global, class: DeclAt) -> Result<Vec<u32>, Memory>
    ensures { IfOk result (λ key. key.items ≡ spec.key_of (a_class class)) }
{
    let mut key = begun(alloc, 4)?;
    add_place(&mut key, class)?;
    Ok(key)
}

/// The key of what a call leads to.
pub(crate) fn key_of(alloc: Global, one: &Callee) -> Result<Vec<u32>, Memory>
    ensures { IfOk result (λ key. key.items ≡ spec.key_of (callee_said one.now)) }
{
    match one {
        Callee::Birth(at) => birth_key(alloc, *at),
        Callee::Function(place, name) => function_key(alloc, *place, name.as_bytes()),
        Callee::Method(class, name) => method_key(alloc, *class, name.as_bytes()),
        Callee::Instance(class, one) => instance_key(alloc, *class, *one),
        Callee::Class(class) => class_key(alloc, *class),
    }
}
