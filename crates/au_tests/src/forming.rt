//! Which types stand and are well formed, over one declared type and four type parameters.

use au_base::{Memory, Name, Text};
use au_matching::{is_well_formed, stands_over};
use au_syntax::Universe;
use au_types::{Arg, DeclAt, Head, Heads, Parameter, Params, Region, Ty};
use std::alloc::Global;
use std::test::Fail;

/// The declared type.
const HOLDER: DeclAt = DeclAt { module: 0, decl: 7 };

/// A declaration without a row.
const OTHER: DeclAt = DeclAt { module: 7, decl: 0 };

fn put(params: &mut Params, alloc: Global, name: u8, universe: Universe) -> Result<(), Memory> {
    let name = Name::copy_of(alloc, &[name])?;
    params.push(Parameter { name, universe })
}

/// The type parameters: F is Free, L is Linear, T is either, and R is a region.
fn scope(alloc: Global) -> Result<Params, Memory> {
    let mut params = Params::new(alloc);
    let each = [
        (b'F', Universe::Free),
        (b'L', Universe::Linear),
        (b'T', Universe::AnyType),
        (b'R', Universe::Region),
    ];
    for (name, universe) in each {
        put(&mut params, alloc, name, universe)?;
    }
    Ok(params)
}

/// Parameters for a type of the universe that is wanted, and for a region.
fn wants(alloc: Global, wanted: Universe) -> Result<Params, Memory> {
    let mut params = Params::new(alloc);
    put(&mut params, alloc, b'A', wanted)?;
    put(&mut params, alloc, b'S', Universe::Region)?;
    Ok(params)
}

/// The row of the declared type.
fn heads(alloc: Global, params: Params) -> Result<Heads, Memory> {
    let head = Head {
        text: Text::new(alloc),
        universe: Universe::AnyType,
        params,
    };
    let mut heads = Heads::new(alloc);
    heads.push(HOLDER, head)?;
    Ok(heads)
}

/// How a type is made of a type parameter.
#[derive(Clone, Copy)]
enum Shape {
    /// It is the type parameter.
    Alone,
    /// The declared type of that and a region.
    Held,
    /// The declared type of such a type.
    Twice,
    /// The declared type of that alone.
    Short,
    /// A declared type without a row.
    Rowless,
}

fn short(alloc: Global, of: Ty) -> Result<Vec<Arg>, Memory> {
    let mut args = Vec::new(alloc);
    args.push(Arg::Of(of))?;
    Ok(args)
}

fn held(alloc: Global, at: DeclAt, of: Ty) -> Result<Ty, Memory> {
    let mut args = short(alloc, of)?;
    args.push(Arg::In(Region::Static))?;
    Ok(Ty::Named { of: at, args })
}

fn shaped(alloc: Global, shape: Shape, of: Ty) -> Result<Ty, Memory> {
    match shape {
        Shape::Alone => Ok(of),
        Shape::Held => held(alloc, HOLDER, of),
        Shape::Twice => held(alloc, HOLDER, held(alloc, HOLDER, of)?),
        Shape::Short => Ok(Ty::Named {
            of: HOLDER,
            args: short(alloc, of)?,
        }),
        Shape::Rowless => held(alloc, OTHER, of),
    }
}

/// A type of a type parameter.
fn made(alloc: Global, shape: Shape, name: u8) -> Result<Ty, Memory> {
    let name = Name::copy_of(alloc, &[name])?;
    shaped(alloc, shape, Ty::Param(name))
}

/// Whether a type stands, and is well formed, over a declared type that wants a universe.
fn is_formed(alloc: Global, wanted: Universe, of: &Ty) -> Result<(bool, bool), Memory> {
    let params = scope(alloc)?;
    let rows = heads(alloc, wants(alloc, wanted)?)?;
    let stands = stands_over(&rows, &params, of);
    let formed = is_well_formed(&rows, &params, of);
    Ok((stands, formed))
}

/// A parameter takes a type of its universe, and one of universe `Type` any type. A region, a name that isn't
/// in scope, arguments that don't fit in number, and a declared type without a row don't stand.
#[test]
fn arguments_fit(rt: HostRuntime) -> Result<(), Fail> {
    let cases = [
        (Universe::Free, Shape::Held, b'F', (true, true)),
        (Universe::Free, Shape::Held, b'L', (true, false)),
        (Universe::Free, Shape::Held, b'T', (true, false)),
        (Universe::Linear, Shape::Held, b'F', (true, false)),
        (Universe::Linear, Shape::Held, b'L', (true, true)),
        (Universe::Linear, Shape::Held, b'T', (true, false)),
        (Universe::AnyType, Shape::Held, b'F', (true, true)),
        (Universe::AnyType, Shape::Held, b'L', (true, true)),
        (Universe::AnyType, Shape::Twice, b'T', (true, true)),
        (Universe::Region, Shape::Held, b'F', (false, false)),
        (Universe::AnyType, Shape::Twice, b'R', (false, false)),
        (Universe::AnyType, Shape::Alone, b'U', (false, false)),
        (Universe::AnyType, Shape::Short, b'F', (false, false)),
        (Universe::AnyType, Shape::Rowless, b'F', (false, false)),
    ];
    for (wanted, shape, name, want) in cases {
        let of = made(rt.alloc(), shape, name)?;
        let (stands, formed) = is_formed(rt.alloc(), wanted, &of)?;
        assert!(rt; stands == want.0 && formed == want.1);
    }
    Ok(())
}
