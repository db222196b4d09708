//! Trees that are mapped and copied: each note is counted and each word stays, also where trees are as deep
//! or as long as a file can have them.

ghost use Rattle.std.specs.Prelude.{◌<◌, ◌≤◌, length};

use crate::counted::{Count, Counted};
use au_base::{Memory, Name, Pos};
use au_mapping::{copy_whole, depth_of, map_block, map_expr, map_phase};
use au_syntax::depths::expression_depth;
use au_syntax::{Block, Expr, Ident, Literal, Module, Parsed, Part, Site, Stmt, Whole};
use std::alloc::Global;
use std::test::Fail;

/// A place of the first line.
fn at(column: u32) -> Pos {
    Pos {
        file: 0,
        line: 1,
        column,
    }
}

/// A name at the first place.
fn ident(alloc: Global, bytes: &[u8]) -> Result<Ident<Parsed>, Memory>
    requires some { 0 < length bytes.now }
    requires most { length bytes.now ≤ 64 }
{
    let name = Name::copy_of(alloc, bytes)?;
    Ok(Ident { name, at: at(1) })
}

/// A site without a note.
fn site(column: u32) -> Site<Parsed> {
    Site {
        at: at(column),
        note: (),
    }
}

/// `007`
fn number() -> Expr<Parsed> {
    let literal = Literal {
        value: 7,
        digits: 3,
    };
    Expr::Number(site(3), literal)
}

/// A number in 98 pairs of parentheses.
fn nested(alloc: Global) -> Result<Expr<Parsed>, Memory> {
    let mut expr = number();
    for _ in 0..98u32 {
        expr = Expr::Parenthesized(site(1), Box::new(alloc, expr)?);
    }
    Ok(expr)
}

/// A call with a nested number as its argument, which is as deep as a file can have an expression.
fn call(alloc: Global) -> Result<Expr<Parsed>, Memory> {
    let name = ident(alloc, b"f")?;
    let mut arguments = Vec::new(alloc);
    arguments.push(nested(alloc)?)?;
    Ok(Expr::Call(site(2), name, arguments, ()))
}

/// Whether an expression is the call, with two notes of its own.
fn is_call(expr: &Expr<Counted>) -> bool {
    match expr {
        Expr::Call(site, name, arguments, note) => {
            name.name.as_bytes() == b"f".as_slice()
                && site.at.line == 1
                && site.at.column == 2
                && arguments.len() == 1
                && site.note != *note
        }
        _ => false,
    }
}

/// Whether an expression is the call, as deep as it was, and so many notes were made as it has.
fn is_counted(expr: &Expr<Counted>, made: u32) -> bool {
    made == 101 && expression_depth(expr) == 100 && is_call(expr)
}

/// The call, mapped.
fn mapped(alloc: Global, count: &mut Count) -> Result<Expr<Counted>, Memory> {
    let old = call(alloc)?;
    map_expr(alloc, old, count)
}

/// Whether the call keeps its name, its place, its argument and its depth, and each expression in it has a
/// note, and the call another one.
fn call_is_mapped(alloc: Global) -> Result<bool, Memory> {
    let mut count = Count { made: 0 };
    let new = mapped(alloc, &mut count)?;
    Ok(is_counted(&new, count.made))
}

/// Whether a block of as many statements as a file has tokens for keeps them, and none of them has a note.
fn block_is_mapped(alloc: Global) -> Result<bool, Memory> {
    let mut count = Count { made: 0 };
    let mut statements = Vec::new(alloc);
    for column in 0..131_072u32 {
        statements.push(Stmt::<Parsed>::Skip(at(column)))?;
    }
    match map_block::<Parsed, Parsed, Count>(alloc, Block { statements }, &mut count) {
        Ok(new) => Ok(count.made == 0 && new.statements.len() == 131_072),
        Err(fault) => Err(fault),
    }
}

/// `module M is end module.`
fn empty(alloc: Global) -> Result<Whole<Parsed>, Memory> {
    let mut name = Vec::new(alloc);
    name.push(ident(alloc, b"M")?)?;
    Ok(Whole::new(Module::<Parsed> {
        imports: Vec::new(alloc),
        at: at(1),
        part: Part::Interface,
        name,
        pragma: None,
        declarations: Vec::new(alloc),
    }))
}

/// Whether a file has the name and the place of the empty one, and no nesting.
fn is_empty(whole: &Whole<Parsed>) -> bool {
    let tree = whole.tree();
    match tree.name.as_slice() {
        [only] => {
            only.name.as_bytes() == b"M".as_slice()
                && tree.at.line == 1
                && tree.at.column == 1
                && depth_of(whole) == 0
        }
        _ => false,
    }
}

/// A copy of a file that is gone.
fn copied(alloc: Global) -> Result<Whole<Parsed>, Memory> {
    let whole = empty(alloc)?;
    copy_whole(alloc, &whole)
}

/// Whether a copy has the name, the place and the nesting of the file, and stays whole where it is mapped,
/// with no note where there is no expression.
fn copy_is_mapped(alloc: Global) -> Result<bool, Memory> {
    let old = copied(alloc)?;
    let mut count = Count { made: 0 };
    match map_phase::<Parsed, Parsed, Count>(alloc, old, &mut count) {
        Ok(new) => Ok(count.made == 0 && is_empty(&new)),
        Err(fault) => Err(fault),
    }
}

/// Whether an expression as deep as a file can have one and a block as long as a file can have one are mapped
/// and dropped, and so is a copy of a whole file.
fn all_are_mapped(alloc: Global) -> Result<bool, Memory> {
    Ok(call_is_mapped(alloc)? && block_is_mapped(alloc)? && copy_is_mapped(alloc)?)
}

/// Trees stay the same where they are mapped and copied, and their notes are counted.
#[test]
fn trees_stay_and_notes_are_counted(rt: HostRuntime) -> Result<(), Fail> {
    assert!(rt; all_are_mapped(rt.alloc())?);
    Ok(())
}
