//! Keys of instances, by which the instance of the body that an interface promises is looked up. Two
//! instances, one of the interface and one of the body, have one key exactly where they are of one class and
//! their types are the same word for word.

ghost use Rattle.std.specs.Prelude.{◌≡◌, ◌∷◌, ◌++◌, IfOk, OnOk, length};
ghost use Rattle.std.specs.Option.{option_map};
ghost use Rattle.au_promises.specs.Defining as defining;
ghost use Rattle.au_promises.specs.Defining.{AreFirst};
ghost use Rattle.au_promises.specs.Keys as spec;
ghost use Rattle.au_promises.specs.Written.{declarations_of, declared_of, generics_of, name_of, sight_in};
ghost use Rattle.au_syntax.specs.Views.{written, written_all};

use crate::agreeing::scope_of;
use crate::sights::Sight;
use crate::wording::{declaration_meant, is_meaningless};
use au_base::{Memory, Name};
use au_syntax::{Access, Decl, Generic, Ident, Parsed, TypeText};
use au_types::{DeclAt, Heads, Params, Table};
use std::alloc::Global;

/// What instances of a body are looked up by.
#[derive(Clone, Copy)]
pub enum KeySort {
    /// Their classes and their written types.
    Worded,
    /// Their classes alone, where their types mean nothing.
    Meaningless,
}

/// Puts a number behind a key.
fn push_number(key: &mut Vec<u8>, number: u16) -> Result<(), Memory>
    ensures { OnOk result (key.new.items ≡ key.old.items ++ spec.number_key number) }
{
    key.push((number % 256) as u8)?;
    key.push((number / 256) as u8)?;
    Ok(())
}

/// Puts a declaration behind a key.
fn push_place(key: &mut Vec<u8>, at: DeclAt) -> Result<(), Memory>
    ensures { OnOk result (key.new.items ≡ key.old.items ++ spec.place_key at) }
{
    push_number(key, at.module)?;
    push_number(key, (at.decl % 65536) as u16)?;
    push_number(key, (at.decl / 65536) as u16)
}

/// Puts the bytes of a name behind a key, behind their number.
fn push_name(key: &mut Vec<u8>, name: &Name) -> Result<(), Memory>
    ensures { OnOk result (key.new.items ≡ key.old.items ++ (length name.now ∷ name.now)) }
{
    let bytes = name.as_bytes();
    key.push(bytes.len() as u8)?;
    key.extend_from_slice(bytes)?;
    Ok(())
}

/// Puts a word behind a key, which means this declaration, if it means one.
fn push_word(key: &mut Vec<u8>, name: &Name, at: Option<DeclAt>) -> Result<(), Memory>
    ensures { OnOk result (key.new.items ≡ key.old.items ++ spec.word_key name.now at) }
{
    match at {
        None => {
            key.push(0)?;
            push_name(key, name)
        }
        Some(at) => {
            key.push(1)?;
            push_place(key, at)
        }
    }
}

/// Puts a word of a type behind a key.
fn push_meant(
    key: &mut Vec<u8>,
    params: &Params,
    names: &Table<DeclAt>,
    heads: &Heads,
    name: &Name,
) -> Result<(), Memory>
    ensures { OnOk result (key.new.items ≡ key.old.items ++ spec.meant_key
        params.now names.now heads.now name.now) }
{
    let at = declaration_meant(params, names, heads, name);
    push_word(key, name, at)
}

/// The sign of a reference.
fn access_key(access: Access) -> u8
    ensures { result ≡ spec.access_key access }
{
    match access {
        Access::Read => 1,
        Access::Write => 2,
    }
}

/// Puts a written type behind a key, word for word.
#[tactic(auto, using(au_syntax::proofs::TypeLemmas::type_steps))]
#[cycle(wording)]
fn push_wording(
    key: &mut Vec<u8>,
    params: &Params,
    names: &Table<DeclAt>,
    heads: &Heads,
    of: &TypeText,
) -> Result<(), Memory>
    ensures { OnOk result (key.new.items ≡ key.old.items ++ spec.wording_key params.now names.now heads.now
        (written of.now)) }
{
    match of {
        TypeText::Named(name, args) => {
            key.push(0)?;
            push_meant(key, params, names, heads, &name.name)?;
            push_wordings(key, params, names, heads, args)
        }
        TypeText::Reference(_, access, target, region) => {
            key.push(access_key(*access))?;
            push_meant(key, params, names, heads, &region.name)?;
            push_wording(key, params, names, heads, target)
        }
    }
}

/// Puts written types behind a key, word for word.
#[cycle(wording)]
fn push_wordings(
    key: &mut Vec<u8>,
    params: &Params,
    names: &Table<DeclAt>,
    heads: &Heads,
    list: &Vec<TypeText>,
) -> Result<(), Memory>
    ensures { OnOk result (key.new.items ≡ key.old.items ++ spec.wordings_key params.now names.now heads.now
        (written_all list.now.items)) }
{
    for one in list {
        key.push(1)?;
        push_wording(key, params, names, heads, one)?;
    }
    key.push(0)?;
    Ok(())
}

/// The key of the class of an instance.
///
/// # Errors
///
/// Only for want of memory.
pub fn class_key(
    alloc: Global,
    names: &Table<DeclAt>,
    name: &Ident<Parsed>,
) -> Result<Vec<u8>, Memory>
    ensures { IfOk result (λ key. key.items ≡ spec.class_key names.now (name_of name.now)) }
{
    let at = names.get(name.name.as_bytes()).copied();
    let mut key = Vec::new(alloc);
    push_word(&mut key, &name.name, at)?;
    Ok(key)
}

/// The key of an instance of this class for this type, among these type parameters, names and rows.
///
/// # Errors
///
/// Only for want of memory.
pub fn instance_key(
    alloc: Global,
    params: &Params,
    names: &Table<DeclAt>,
    heads: &Heads,
    name: &Ident<Parsed>,
    of: &TypeText,
) -> Result<Vec<u8>, Memory>
    ensures { IfOk result (λ key. key.items ≡ spec.instance_key params.now names.now heads.now
        (name_of name.now) (written of.now)) }
{
    let mut key = class_key(alloc, names, name)?;
    push_wording(&mut key, params, names, heads, of)?;
    Ok(key)
}

/// The key of the class of an instance of the body, given its type parameters, where its type means nothing.
fn meaningless_key(
    alloc: Global,
    sight: &Sight,
    params: &Params,
    name: &Ident<Parsed>,
    of: &TypeText,
) -> Result<Option<Vec<u8>>, Memory>
    ensures { IfOk result (λ key. option_map (λ k. k.items) key
        ≡ defining.meaningless_key (sight_in sight.now) params.now (name_of name.now) (written of.now)) }
{
    if !is_meaningless(alloc, params, sight.body, sight.heads, of)? {
        return Ok(None);
    }
    let key = class_key(alloc, sight.body, name)?;
    Ok(Some(key))
}

/// The key of an instance of the body, if it has one.
fn body_key(
    alloc: Global,
    sight: &Sight,
    sort: KeySort,
    list: &Vec<Generic<Parsed>>,
    name: &Ident<Parsed>,
    of: &TypeText,
) -> Result<Option<Vec<u8>>, Memory>
    ensures { IfOk result (λ key. option_map (λ k. k.items) key
        ≡ defining.body_key sort (sight_in sight.now) (generics_of list.now.items)
        (name_of name.now) (written of.now)) }
{
    let scope = scope_of(alloc, list)?;
    match sort {
        KeySort::Worded => {
            let key = instance_key(alloc, &scope, sight.body, sight.heads, name, of)?;
            Ok(Some(key))
        }
        KeySort::Meaningless => meaningless_key(alloc, sight, &scope, name, of),
    }
}

/// The key of the instance that a declaration of a body defines, if it has one.
fn key_defined(
    alloc: Global,
    sight: &Sight,
    sort: KeySort,
    decl: &Decl<Parsed>,
) -> Result<Option<Vec<u8>>, Memory>
    ensures { IfOk result (λ key. option_map (λ k. k.items) key
        ≡ defining.key_defined sort (sight_in sight.now) (declared_of decl.now)) }
{
    match decl {
        Decl::InstanceBody(_, list, name, of, _) => body_key(alloc, sight, sort, list, name, of),
        _ => Ok(None),
    }
}

/// Puts an index under the key of a declaration, if it has one and the key has no index.
fn put_key(
    alloc: Global,
    sight: &Sight,
    sort: KeySort,
    table: &mut Table<usize>,
    decl: &Decl<Parsed>,
    index: usize,
) -> Result<(), Memory>
    ensures { OnOk result (table.new ≡ defining.with_name table.old
        (defining.key_defined sort (sight_in sight.now) (declared_of decl.now)) index) }
{
    match key_defined(alloc, sight, sort, decl)? {
        None => Ok(()),
        Some(key) => {
            table.put(key.as_slice(), index)?;
            Ok(())
        }
    }
}

/// The first instance of each key of a sort, by its index.
///
/// # Errors
///
/// Only for want of memory.
pub fn first_keyed(
    alloc: Global,
    sight: &Sight,
    sort: KeySort,
    decls: &[Decl<Parsed>],
) -> Result<Table<usize>, Memory>
    ensures { IfOk result (λ table. AreFirst (defining.key_defined sort (sight_in sight.now))
        (declarations_of decls.now) table) }
{
    let mut table = Table::new(alloc);
    for (index, one) in decls.iter().enumerate() {
        put_key(alloc, sight, sort, &mut table, one, index)?;
    }
    Ok(table)
}
