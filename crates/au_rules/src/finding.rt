//! Finds the first name of a declaration that is declared again.

ghost use Rattle.std.specs.Prelude.{◌≡◌, ◌++◌, ◌<◌, IfOk, OnOk, Some, if◌then◌else◌, None, length, map};
ghost use Rattle.std.specs.Prelude.{slice_get};
ghost use Rattle.std.specs.List.{fold};
ghost use Rattle.au_rules.specs.Marks.{marks};
ghost use Rattle.au_rules.specs.Outside as outside;
ghost use Rattle.au_rules.specs.Scopes as spec;
ghost use Rattle.au_rules.specs.Scopes.{after, after_all};
ghost use Rattle.au_modules.specs.Programs.{ModuleParts};
ghost use Rattle.au_modules.specs.Slots as slots;
ghost use Rattle.au_names.specs.Meanings.{part_of};
ghost use Rattle.au_names.specs.Owned.{declarations_in};
ghost use Rattle.au_syntax.specs.Plain.{plain_declaration};
ghost use Rattle.au_syntax.specs.Views.{declaration};
ghost use Rattle.au_syntax.specs.contracts.parsed.ParsedPhase.TheImpl.{ghosts as parsed};

use crate::doubles::Double;
use crate::listing::marks_of;
use crate::marks::{Kind, Mark, Role};
use crate::outside::{Here, is_outside};
use crate::scopes::Scopes;
use au_base::{Memory, Name, Pos};
use au_imports::Resolved;
use au_syntax::{Decl, Parsed, Part};
use std::alloc::Global;

/// A name as a double, where it is one.
fn double_if(alloc: Global, again: bool, name: &Name, at: Pos) -> Result<Option<Double>, Memory>
    ensures { IfOk result (λ found. found ≡ (if again then Some (record { name = name.now; at = at }) else
        None)) }
{
    if again {
        let name = name.copy(alloc)?;
        Ok(Some(Double { name, at }))
    } else {
        Ok(None)
    }
}

/// What a name that is declared is again. It is noted.
fn judge_name(
    alloc: Global,
    scopes: &mut Scopes,
    here: &Here,
    role: Role,
    kind: Kind,
    name: &Name,
    at: Pos,
) -> Result<Option<Double>, Memory>
    ensures found { IfOk result (λ found. found ≡ spec.double_in (outside.is_outside_of here.now)
        scopes.old (Mark.Declares role kind name.now at)) }
    ensures noted { OnOk result (scopes.new ≡ after scopes.old (Mark.Declares role kind name.now at)) }
{
    let bytes = name.as_bytes();
    let foreign = is_outside(here, kind, bytes);
    let again = scopes.is_again(foreign, role, kind, bytes);
    scopes.note(role, kind, bytes)?;
    double_if(alloc, again, name, at)
}

/// What a mark declares again. It is noted.
fn judge_mark(
    alloc: Global,
    scopes: &mut Scopes,
    here: &Here,
    mark: &Mark,
) -> Result<Option<Double>, Memory>
    ensures found { IfOk result (λ found. found ≡ spec.double_in (outside.is_outside_of here.now)
        scopes.old mark.now) }
    ensures noted { OnOk result (scopes.new ≡ after scopes.old mark.now) }
{
    match mark {
        Mark::Opens => {
            scopes.enter()?;
            Ok(None)
        }
        Mark::Closes => {
            scopes.leave();
            Ok(None)
        }
        Mark::Declares(role, kind, name, at) => {
            judge_name(alloc, scopes, here, *role, *kind, name, *at)
        }
    }
}

/// The first name of marks that is declared again. They are noted.
fn judge_marks(
    alloc: Global,
    scopes: &mut Scopes,
    here: &Here,
    marks: &Vec<Mark>,
) -> Result<Option<Double>, Memory>
    ensures found { IfOk result (λ found. found ≡ spec.first_in (outside.is_outside_of here.now)
        scopes.old marks.now.items) }
    ensures noted { OnOk result (scopes.new ≡ after_all scopes.old marks.now.items) }
{
    let mut first = None;
    for mark in marks {
        let found = judge_mark(alloc, scopes, here, mark)?;
        first = first.or(found);
    }
    Ok(first)
}

/// The first name of a declaration of a part that is declared again. What it declares is noted.
fn judge_declaration(
    alloc: Global,
    scopes: &mut Scopes,
    here: &Here,
    part: Part,
    decl: &Decl<Parsed>,
) -> Result<Option<Double>, Memory>
    ensures found { IfOk result (λ found. found ≡ spec.first_in (outside.is_outside_of here.now)
        scopes.old (marks part (plain_declaration parsed.name_bytes (declaration parsed decl.now)))) }
    ensures noted { OnOk result (scopes.new ≡ after_all scopes.old
        (marks part (plain_declaration parsed.name_bytes (declaration parsed decl.now)))) }
{
    let marks = marks_of(alloc, part, decl)?;
    judge_marks(alloc, scopes, here, &marks)
}

/// Puts the first name of each declaration of a part that is declared again.
fn judge_declarations(
    alloc: Global,
    list: &mut Vec<Option<Double>>,
    scopes: &mut Scopes,
    here: &Here,
    part: Part,
    decls: &Vec<Decl<Parsed>>,
) -> Result<(), Memory>
    ensures found { OnOk result (list.new.items ≡ list.old.items
        ++ spec.doubles_in (outside.is_outside_of here.now) scopes.old
        (map (marks part) (map (plain_declaration parsed.name_bytes)
        (map (declaration parsed) decls.now.items)))) }
    ensures noted { OnOk result (scopes.new ≡ fold after_all scopes.old
        (map (marks part) (map (plain_declaration parsed.name_bytes)
        (map (declaration parsed) decls.now.items)))) }
{
    for decl in decls {
        let found = judge_declaration(alloc, scopes, here, part, decl)?;
        list.push(found)?;
    }
    Ok(())
}

/// Puts the first name of each declaration of a part of the module at a place that is declared again.
pub fn judge_part(
    alloc: Global,
    list: &mut Vec<Option<Double>>,
    scopes: &mut Scopes,
    resolved: &Resolved,
    place: usize,
    part: Part,
) -> Result<(), Memory>
    requires { place < length (slots.modules resolved.now) }
    ensures found { (m : ModuleParts) → slice_get (slots.modules resolved.now) place ≡ Some m
        → OnOk result (list.new.items ≡ list.old.items
        ++ spec.doubles_in (outside.outside (slots.modules resolved.now) place m part) scopes.old
        (map (marks part) (declarations_in (part_of part m)))) }
    ensures noted { (m : ModuleParts) → slice_get (slots.modules resolved.now) place ≡ Some m
        → OnOk result (scopes.new ≡ fold after_all scopes.old
        (map (marks part) (declarations_in (part_of part m)))) }
{
    let names = resolved.names(place, part);
    let here = Here { place, names };
    match resolved.modules().part(place, part) {
        None => Ok(()),
        Some(file) => {
            let tree = file.tree();
            judge_declarations(alloc, list, scopes, &here, part, &tree.declarations)
        }
    }
}
