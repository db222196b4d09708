//! Whether a function has the form of an entry.

ghost use Rattle.std.specs.Prelude.{◌≡◌, [], IfOk, Some};
ghost use Rattle.std.specs.Str.{bytes_eq};
ghost use Rattle.au_closing.specs.Entries as spec;
ghost use Rattle.au_promises.specs.Written.{generics_of, header_of, labels_of};
ghost use Rattle.au_syntax.specs.Views as trees;
ghost use Rattle.au_types.specs.Rows.{head_of};
ghost use Rattle.au_types.specs.Views.{meaning};
ghost use Rattle.au_types.specs.Meant.{meant};

use au_base::Memory;
use au_syntax::{Field, Generic, Parsed, Signature, TypeText};
use au_types::{DeclAt, Heads, Params, Scope, Table, Ty, type_meant};
use std::alloc::Global;

/// What names of types mean where a function stands, and the rows of declared types.
#[derive(Clone, Copy)]
pub(crate) struct Place<'a> {
    /// What the names mean.
    pub names: &'a Table<DeclAt>,
    /// The rows.
    pub heads: &'a Heads,
}

/// Whether a text is this one.
fn is_text(text: &[u8], other: &[u8]) -> bool
    ensures { result ≡ bytes_eq text.now other.now }
{
    text == other
}

/// Whether a declared type has this text.
fn has_text(heads: &Heads, text: &[u8], at: DeclAt) -> bool
    ensures { result ≡ spec.has_text text.now (head_of heads.now at) }
{
    match heads.row(at) {
        None => false,
        Some(head) => is_text(head.text.as_bytes(), text),
    }
}

/// Whether a type is the declared type of this text that has no arguments.
#[tactic(auto, using(au_types::proofs::TypeLemmas::type_steps))]
fn is_declared(heads: &Heads, text: &[u8], of: &Ty) -> bool
    ensures { result ≡ spec.is_type heads.now text.now (Some (meaning of.now)) }
{
    match of {
        Ty::Unit => false,
        Ty::Bool => false,
        Ty::Int(_) => false,
        Ty::Text => false,
        Ty::Param(_) => false,
        Ty::Named { of: at, args } => args.is_empty() && has_text(heads, text, *at),
        Ty::Read { to: _, region: _ } => false,
        Ty::Write { to: _, region: _ } => false,
    }
}

/// Whether a type that is written is the declared type of this text.
fn is_type(alloc: Global, place: &Place, text: &[u8], node: &TypeText) -> Result<bool, Memory>
    ensures { IfOk result (λ is.
        is ≡ spec.is_type place.now.heads.now text.now
        (meant [] [] place.now.names.now place.now.heads.now (trees.written node.now))) }
{
    let scope = Scope {
        regions: &[],
        params: &Params::new(alloc),
        names: place.names,
        heads: place.heads,
    };
    match type_meant(alloc, &scope, node)? {
        None => Ok(false),
        Some(of) => Ok(is_declared(place.heads, text, &of)),
    }
}

/// Whether a type that is written is `ExitCode`.
fn is_exit(alloc: Global, place: &Place, node: &TypeText) -> Result<bool, Memory>
    ensures { IfOk result (λ is.
        is ≡ spec.is_exit place.now.names.now place.now.heads.now (trees.written node.now)) }
{
    is_type(alloc, place, b"Austral.Pervasive:ExitCode", node)
}

/// Whether a type that is written is `RootCapability`.
fn is_root(alloc: Global, place: &Place, node: &TypeText) -> Result<bool, Memory>
    ensures { IfOk result (λ is.
        is ≡ spec.is_root place.now.names.now place.now.heads.now (trees.written node.now)) }
{
    is_type(alloc, place, b"Austral.Pervasive:RootCapability", node)
}

/// Whether parameters are the root alone, where they are that or none.
fn root_in(
    alloc: Global,
    place: &Place,
    parameters: &Vec<Field<Parsed>>,
) -> Result<Option<bool>, Memory>
    ensures { IfOk result (λ root.
        root ≡ spec.root_in place.now.names.now place.now.heads.now (labels_of parameters.now.items)) }
{
    match parameters.as_slice() {
        [] => Ok(Some(false)),
        [one] => {
            if is_root(alloc, place, &one.of)? {
                Ok(Some(true))
            } else {
                Ok(None)
            }
        }
        _ => Ok(None),
    }
}

/// Whether a function takes the root, where it has the form of an entry.
pub(crate) fn form_of(
    alloc: Global,
    place: &Place,
    generics: &Vec<Generic<Parsed>>,
    signature: &Signature<Parsed>,
) -> Result<Option<bool>, Memory>
    ensures { IfOk result (λ root.
        root
        ≡ spec.form_of place.now.names.now place.now.heads.now (generics_of generics.now.items)
        (header_of signature.now)) }
{
    if !generics.is_empty() {
        return Ok(None);
    }
    if is_exit(alloc, place, &signature.result)? {
        root_in(alloc, place, &signature.parameters)
    } else {
        Ok(None)
    }
}
