//! Names, parts and references to them.

ghost use Rattle.std.specs.Prelude.{◌≡◌, IfOk, map};
ghost use Rattle.au_noting.specs.Giving.{Gives};
ghost use Rattle.au_noting.specs.Modes.{wanted};
ghost use Rattle.au_noting.specs.Scopes.{scope_said};
ghost use Rattle.au_noting_expressions.specs.Leaves.{borrow_noted};
ghost use Rattle.au_sights.specs.contracts.noted.NotedPhase.TheImpl.{ghosts as noted};
ghost use Rattle.au_syntax.specs.contracts.parsed.ParsedPhase.TheImpl.{ghosts as parsed};
ghost use Rattle.au_syntax.specs.Expressions as tree;
ghost use Rattle.au_syntax.specs.Views.{expression, node, placed};
ghost use Rattle.au_types.specs.Views.{meaning};
ghost use Rattle.au_typing.specs.Search.{note_expression};

use crate::operands::noted_site;
use au_base::Memory;
use au_noting::lookups::{known_value, known_variable};
use au_noting::nodes::{arrow_note, borrow_part_note, borrowed, path_note};
use au_noting::rules::noted;
use au_noting::{Fault, Scope};
use au_sights::{Noted, copy_name, copy_names};
use au_syntax::{BorrowMode, Expr, Ident, Parsed, Site};
use au_types::Ty;
use std::alloc::Global;

/// A name and the fields behind it.
fn copy_place(
    alloc: Global,
    name: &Ident<Parsed>,
    fields: &Vec<Ident<Parsed>>,
) -> Result<(Ident<Noted>, Vec<Ident<Noted>>), Memory>
    ensures name { IfOk result (λ copy. placed noted copy.0 ≡ placed parsed name.now) }
    ensures fields { IfOk result (λ copy.
        map (placed noted) copy.1.items ≡ map (placed parsed) fields.now.items) }
{
    let name = copy_name(alloc, name)?;
    let fields = copy_names(alloc, fields)?;
    Ok((name, fields))
}

/// A variable or a constant, or a part of it.
///
/// # Errors
///
/// The limit or the clause that fails.
pub fn note_path(
    alloc: Global,
    scope: &Scope,
    mode: Option<&Ty>,
    site: &Site<Parsed>,
    name: &Ident<Parsed>,
    fields: &Vec<Ident<Parsed>>,
) -> Result<Expr<Noted>, Fault>
    ensures { Gives (expression noted) result (note_expression (scope_said scope.now)
        (tree.path (node parsed site.now) (placed parsed name.now) (map (placed parsed) fields.now.items))
        (wanted mode.entry)) }
{
    let of = known_value(alloc, scope, &name.name)?;
    let note = path_note(alloc, scope, mode, fields, &of)?;
    let (name, fields) = copy_place(alloc, name, fields)?;
    Ok(Expr::Path(noted_site(site, note), name, fields))
}

/// A part behind a reference.
///
/// # Errors
///
/// The limit or the clause that fails.
pub fn note_arrow(
    alloc: Global,
    scope: &Scope,
    mode: Option<&Ty>,
    site: &Site<Parsed>,
    name: &Ident<Parsed>,
    fields: &Vec<Ident<Parsed>>,
) -> Result<Expr<Noted>, Fault>
    ensures { Gives (expression noted) result (note_expression (scope_said scope.now)
        (tree.arrow (node parsed site.now) (placed parsed name.now) (map (placed parsed) fields.now.items))
        (wanted mode.entry)) }
{
    let of = known_value(alloc, scope, &name.name)?;
    let note = arrow_note(alloc, scope, mode, fields, &of)?;
    let (name, fields) = copy_place(alloc, name, fields)?;
    Ok(Expr::Arrow(noted_site(site, note), name, fields))
}

/// A reference to a variable of a type.
fn borrow_of(
    alloc: Global,
    mode: Option<&Ty>,
    site: &Site<Parsed>,
    kind: BorrowMode,
    name: &Ident<Parsed>,
    of: &Ty,
) -> Result<Expr<Noted>, Fault>
    ensures { Gives (expression noted) result (borrow_noted (node parsed site.now) kind
        (placed parsed name.now) (wanted mode.entry) (meaning of.now)) }
{
    let gives = borrowed(alloc, kind, of)?;
    let note = noted(alloc, mode, &gives)?;
    let name = copy_name(alloc, name)?;
    Ok(Expr::Borrow(noted_site(site, note), kind, name))
}

/// A reference to a variable.
///
/// # Errors
///
/// The limit or the clause that fails.
pub fn note_borrow(
    alloc: Global,
    scope: &Scope,
    mode: Option<&Ty>,
    site: &Site<Parsed>,
    kind: BorrowMode,
    name: &Ident<Parsed>,
) -> Result<Expr<Noted>, Fault>
    ensures { Gives (expression noted) result (note_expression (scope_said scope.now)
        (tree.borrow (node parsed site.now) kind (placed parsed name.now)) (wanted mode.entry)) }
{
    let of = known_variable(alloc, scope, &name.name)?;
    borrow_of(alloc, mode, site, kind, name, of)
}

/// A reference to a part, from a reference.
///
/// # Errors
///
/// The limit or the clause that fails.
pub fn note_borrow_part(
    alloc: Global,
    scope: &Scope,
    mode: Option<&Ty>,
    site: &Site<Parsed>,
    name: &Ident<Parsed>,
    fields: &Vec<Ident<Parsed>>,
) -> Result<Expr<Noted>, Fault>
    ensures { Gives (expression noted) result (note_expression (scope_said scope.now)
        (tree.borrow_part (node parsed site.now) (placed parsed name.now)
        (map (placed parsed) fields.now.items))
        (wanted mode.entry)) }
{
    let of = known_value(alloc, scope, &name.name)?;
    let note = borrow_part_note(alloc, scope, mode, fields, &of)?;
    let (name, fields) = copy_place(alloc, name, fields)?;
    Ok(Expr::BorrowPart(noted_site(site, note), name, fields))
}
