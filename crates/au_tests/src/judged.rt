//! What written types are judged to mean, or why they aren't well formed.

use au_base::{Memory, Name, Text};
use au_judged_types::{Judged, Reason, judge_type};
use au_lexer::lex;
use au_read_expressions::written_type;
use au_syntax::Universe;
use au_types::{DeclAt, Head, Heads, Parameter, Params, Scope, Table, Ty};
use std::alloc::Global;
use std::process::Abort;
use std::test::Fail;

/// A type parameter's name and universe.
type Taken = (u8, Universe);

/// Type parameters of each universe that a declared type takes.
const FREE: Taken = (b'T', Universe::Free);

const LINEAR: Taken = (b'T', Universe::Linear);

const REGION: Taken = (b'T', Universe::Region);

/// Declared types with their places among declarations, their universes and their type parameters.
const DECLARED: [(&[u8], u32, Universe, &[Taken]); 4] = [
    (b"One", 0, Universe::Free, &[FREE]),
    (b"Two", 1, Universe::Free, &[FREE, FREE]),
    (b"Both", 2, Universe::Linear, &[LINEAR, FREE]),
    (b"Kept", 3, Universe::Free, &[REGION]),
];

/// The type parameters in scope: one that is Free, one that is Linear, and a region.
const SCOPE: [Taken; 3] = [
    (b'F', Universe::Free),
    (b'L', Universe::Linear),
    (b'R', Universe::Region),
];

/// Written types, and what each of them is told to be where F is a type parameter that is Free, L one that is
/// Linear, R a region and Show a class: a reason of each kind first, and then which reason comes where there
/// are two.
const TOLD: [(&[u8], &[u8]); 18] = [
    (b"Missing", b"Missing"),
    (b"Show", b"Show"),
    (b"R", b"R"),
    (b"Nat8[Nat8]", b"none"),
    (b"One", b"one"),
    (b"Span[Missing, Static]", b"two"),
    (b"&[Nat8, Show]", b"a region"),
    (b"&[Nat8, Missing]", b"Missing"),
    (b"Kept[R[Nat8]]", b"none"),
    (b"Kept[&[Nat8, R]]", b"a region"),
    (b"One[L]", b"Free"),
    (b"Both[F, F]", b"Linear"),
    (b"One[Missing, Missing]", b"one"),
    (b"Two[L, Missing]", b"Missing"),
    (b"Two[One[L], One]", b"Free"),
    (b"Both[F, L]", b"Linear"),
    (b"&[Missing, Nat8]", b"Missing"),
    (b"&![Both[L, Kept[R]], Static]", b"well formed"),
];

/// How many arguments are wanted, in words.
fn number_told(number: usize) -> &'static [u8] {
    match number {
        0 => b"none",
        1 => b"one",
        2 => b"two",
        _ => b"many",
    }
}

/// A reason in a word.
fn reason_told(why: &Reason) -> &[u8] {
    match why {
        Reason::Unknown(name) => name.as_bytes(),
        Reason::Arguments(number) => number_told(*number),
        Reason::RegionWanted => b"a region",
        Reason::NotFree(_) => b"Free",
        Reason::LinearWanted => b"Linear",
    }
}

/// What came of judging, in a word.
fn told(judged: &Judged<Ty>) -> &[u8] {
    match judged {
        Judged::Means(_) => b"well formed",
        Judged::Fails(why) => reason_told(why),
    }
}

/// Type parameters of these names and universes.
fn params_of(alloc: Global, taken: &[Taken]) -> Result<Params, Memory> {
    let mut params = Params::new(alloc);
    for (name, universe) in taken {
        let name = Name::copy_of(alloc, &[*name])?;
        let universe = *universe;
        params.push(Parameter { name, universe })?;
    }
    Ok(params)
}

/// The row of a declared type.
fn head_of(alloc: Global, universe: Universe, taken: &[Taken]) -> Result<Head, Memory> {
    let params = params_of(alloc, taken)?;
    let text = Text::new(alloc);
    Ok(Head {
        text,
        universe,
        params,
    })
}

/// The rows of the declared types.
fn rows(alloc: Global) -> Result<Heads, Memory> {
    let mut heads = Heads::new(alloc);
    for (_, decl, universe, taken) in DECLARED {
        let at = DeclAt { module: 0, decl };
        if heads.row(at).is_none() {
            heads.push(at, head_of(alloc, universe, taken)?)?;
        }
    }
    Ok(heads)
}

/// The names of the declared types, and that of a class, which has no row.
fn names(alloc: Global) -> Result<Table<DeclAt>, Memory> {
    let mut names = Table::new(alloc);
    for (name, decl, _, _) in DECLARED {
        names.put(name, DeclAt { module: 0, decl })?;
    }
    names.put(b"Show", DeclAt { module: 0, decl: 9 })?;
    Ok(names)
}

/// What a written type is judged to be.
fn judged(alloc: Global, scope: &Scope, source: &[u8]) -> Result<Judged<Ty>, Fail> {
    if source.len() > 100 {
        return Err(Fail::new("a long type"));
    }
    let tokens = lex(alloc, 0, source)?;
    let (of, _) = written_type(alloc, tokens.as_slice())?;
    Ok(judge_type(alloc, scope, &of)?)
}

/// Asserts what each written type is told to be in a scope.
fn are_told(rt: &impl Abort, alloc: Global, scope: &Scope) -> Result<(), Fail> {
    for (index, (source, want)) in TOLD.iter().enumerate() {
        let judged = judged(alloc, scope, source)?;
        assert!(rt; told(&judged) == *want, "{index}");
    }
    Ok(())
}

/// Asserts what each written type is told to be over these type parameters and rows.
fn are_told_over(
    rt: &impl Abort,
    alloc: Global,
    params: &Params,
    heads: &Heads,
) -> Result<(), Fail> {
    let names = names(alloc)?;
    let scope = Scope {
        regions: &[],
        params,
        names: &names,
        heads,
    };
    are_told(rt, alloc, &scope)
}

/// Each reason comes where it should, and of two the one that is judged first.
#[test]
fn written_types_are_judged(rt: HostRuntime) -> Result<(), Fail> {
    let params = params_of(rt.alloc(), &SCOPE)?;
    let heads = rows(rt.alloc())?;
    are_told_over(&rt, rt.alloc(), &params, &heads)
}
