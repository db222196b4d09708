//! Names and types of a shipped interface, from the rows of its table.

ghost use Rattle.std.specs.Prelude.{◌≡◌, IfOk, codes};
ghost use Rattle.au_syntax.specs.Types as types;
ghost use Rattle.au_syntax.specs.Views as views;
ghost use Rattle.au_shipped.specs.Building as spec;
ghost use Rattle.au_shipped.specs.Rows as rows;

use crate::rows::{Form, Shape};
use au_base::{MOST_NAME_BYTES, Memory, Name, Pos};
use au_syntax::{Access, Ident, Parsed, Phase, TypeName, TypeText};
use std::alloc::Global;

/// The place of everything in the interface of this file.
pub fn place(file: u16) -> Pos
    ensures { result ≡ spec.place file }
{
    Pos {
        file,
        line: 1,
        column: 1,
    }
}

/// The name of these bytes. Bytes that are no name stand in no table: they are answered by `Memory`.
fn name_of(alloc: Global, bytes: &[u8]) -> Result<Name, Memory>
    ensures { IfOk result (λ name. name ≡ bytes.now) }
{
    if bytes.is_empty() || MOST_NAME_BYTES < bytes.len() {
        return Err(Memory);
    }
    Name::copy_of(alloc, bytes)
}

/// A name.
pub(crate) fn name(alloc: Global, at: Pos, bytes: &[u8]) -> Result<Ident<Parsed>, Memory>
    ensures { IfOk result (λ n. views.placed ⟦<Parsed as Phase>⟧ n ≡ spec.name at bytes.now) }
{
    let name = name_of(alloc, bytes)?;
    Ok(Ident { name, at })
}

fn type_name(alloc: Global, at: Pos, bytes: &[u8]) -> Result<TypeName, Memory>
    ensures { IfOk result (λ n. views.type_name n ≡ spec.name at bytes.now) }
{
    let name = name_of(alloc, bytes)?;
    Ok(TypeName { name, at })
}

/// `NAME[TYPE, ..]`
#[tactic(auto, using(au_syntax::proofs::TypeLemmas::named_written))]
fn type_of(
    alloc: Global,
    at: Pos,
    bytes: &[u8],
    arguments: Vec<TypeText>,
) -> Result<TypeText, Memory>
    ensures { IfOk result (λ t. views.written t
        ≡ types.named (spec.name at bytes.now) (views.written_all arguments.items)) }
{
    let name = type_name(alloc, at, bytes)?;
    Ok(TypeText::Named(name, arguments))
}

/// `NAME`
fn simple(alloc: Global, at: Pos, bytes: &[u8]) -> Result<TypeText, Memory>
    ensures { IfOk result (λ t. views.written t ≡ spec.simple at bytes.now) }
{
    type_of(alloc, at, bytes, Vec::new(alloc))
}

/// The types of these names, as arguments.
fn both(alloc: Global, at: Pos, one: &[u8], other: &[u8]) -> Result<Vec<TypeText>, Memory>
    ensures { IfOk result (λ ts. views.written_all ts.items
        ≡ types.types (spec.simple at one.now) (types.types (spec.simple at other.now) types.no_types)) }
{
    let one = simple(alloc, at, one)?;
    let other = simple(alloc, at, other)?;
    Ok(vec![in alloc; one, other]?)
}

/// A type that isn't a reference.
pub(crate) fn shape_type(alloc: Global, at: Pos, shape: &Shape) -> Result<TypeText, Memory>
    ensures { IfOk result (λ t. views.written t ≡ rows.shape_type at shape.now) }
{
    match shape {
        Shape::Simple(name) => simple(alloc, at, name),
        Shape::Applied(name, one) => {
            let one = simple(alloc, at, one)?;
            type_of(alloc, at, name, vec![in alloc; one]?)
        }
        Shape::AppliedToTwo(name, one, other) => {
            let arguments = both(alloc, at, one, other)?;
            type_of(alloc, at, name, arguments)
        }
    }
}

/// A reference to a value of this type.
#[tactic(auto, using(au_syntax::proofs::TypeLemmas::reference_written))]
fn reference(alloc: Global, at: Pos, access: Access, target: TypeText) -> Result<TypeText, Memory>
    ensures { IfOk result (λ t. views.written t
        ≡ types.reference at access (views.written target) (spec.name at (codes "R"))) }
{
    let region = type_name(alloc, at, b"R")?;
    let target = Box::new(alloc, target)?;
    Ok(TypeText::Reference(at, access, target, region))
}

/// A type.
pub(crate) fn form_type(alloc: Global, at: Pos, form: &Form) -> Result<TypeText, Memory>
    ensures { IfOk result (λ t. views.written t ≡ rows.form_type at form.now) }
{
    match form {
        Form::Plain(shape) => shape_type(alloc, at, shape),
        Form::Reads(shape) => {
            let target = shape_type(alloc, at, shape)?;
            reference(alloc, at, Access::Read, target)
        }
        Form::Writes(shape) => {
            let target = shape_type(alloc, at, shape)?;
            reference(alloc, at, Access::Write, target)
        }
    }
}
