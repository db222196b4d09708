//! What imports are refused for that bring cases of unions and methods of classes along.

ghost use Rattle.std.specs.Prelude.{◌≡◌, ◌<◌, IfOk, None, Some, length, map};
ghost use Rattle.au_modules.specs.Programs.{ModuleParts};
ghost use Rattle.au_modules.specs.Seen.{tree_seen};
ghost use Rattle.au_imports.specs.Choices.{first_of};
ghost use Rattle.au_imports.specs.Importers.{AllPass, IsFrom, IsOf, IsReady, fault_in, program_of};
ghost use Rattle.au_names.specs.Along.{members_in};
ghost use Rattle.au_names.specs.Exporting.{declarations_seen, members_at};
ghost use Rattle.au_names.specs.Importing.{along, members};
ghost use Rattle.au_names.specs.Owned.{interface_of, target, targets};
ghost use Rattle.au_types.specs.DeclaredNames.{given};
ghost use Rattle.au_imports.specs.Written.{all_declared, cases_of, declared_of, methods_of};

use crate::clashes::{Importer, first_offered, import_clashes};
use crate::name_faults::NameFault;
use au_base::{Memory, Name, Pos};
use au_names::DeclSet;
use au_syntax::{Decl, Ident, Parsed, Signature, UnionCase, Whole};
use au_types::{DeclAt, Space};
use std::alloc::Global;

/// What a case or a method that comes along is refused for. It stands at a place of the text.
fn one_fault(
    alloc: Global,
    importer: &Importer,
    stands: Pos,
    at: DeclAt,
    name: &Name,
) -> Result<Option<NameFault>, Memory>
    requires { IsReady importer.now }
    ensures { (m other : ModuleParts) → IsOf importer.now m
        → IfOk result (λ found. found ≡ fault_in importer.now m at.«module» other stands
        (name.now, target at.«module» name.now at.decl)) }
{
    let bytes = name.as_bytes();
    if import_clashes(importer, Space::Callables, bytes, at, bytes) {
        let name = name.copy(alloc)?;
        return Ok(Some(NameFault::NameTwice(stands, name)));
    }
    Ok(None)
}

/// What a union's cases are refused for.
fn cases_fault(
    alloc: Global,
    importer: &Importer,
    stands: Pos,
    at: DeclAt,
    cases: &Vec<UnionCase<Parsed>>,
) -> Result<Option<NameFault>, Memory>
    requires { IsReady importer.now }
    ensures { (m other : ModuleParts) → IsOf importer.now m
        → IfOk result (λ found. found ≡ first_of (fault_in importer.now m at.«module» other stands)
        (targets at.«module» (given at.decl (cases_of cases.now.items)))) }
{
    for one in cases {
        if let Some(fault) = one_fault(alloc, importer, stands, at, &one.name.name)? {
            return Ok(Some(fault));
        }
    }
    Ok(None)
}

/// What a class's methods are refused for.
fn methods_fault(
    alloc: Global,
    importer: &Importer,
    stands: Pos,
    at: DeclAt,
    methods: &Vec<Signature<Parsed>>,
) -> Result<Option<NameFault>, Memory>
    requires { IsReady importer.now }
    ensures { (m other : ModuleParts) → IsOf importer.now m
        → IfOk result (λ found. found ≡ first_of (fault_in importer.now m at.«module» other stands)
        (targets at.«module» (given at.decl (methods_of methods.now.items)))) }
{
    for one in methods {
        if let Some(fault) = one_fault(alloc, importer, stands, at, &one.name.name)? {
            return Ok(Some(fault));
        }
    }
    Ok(None)
}

/// What the cases or methods of a declaration are refused for.
fn declared_fault(
    alloc: Global,
    importer: &Importer,
    stands: Pos,
    at: DeclAt,
    decl: &Decl<Parsed>,
) -> Result<Option<NameFault>, Memory>
    requires { IsReady importer.now }
    ensures { (m other : ModuleParts) → IsOf importer.now m
        → IfOk result (λ found. found ≡ first_of (fault_in importer.now m at.«module» other stands)
        (targets at.«module» (given at.decl (members (declared_of decl.now))))) }
{
    match decl {
        Decl::Union(_, _, _, _, cases) => cases_fault(alloc, importer, stands, at, cases),
        Decl::Class(_, _, _, methods) => methods_fault(alloc, importer, stands, at, methods),
        _ => Ok(None),
    }
}

/// What the cases or methods of the declaration of a number are refused for, if there is one.
fn numbered_fault(
    alloc: Global,
    importer: &Importer,
    stands: Pos,
    at: DeclAt,
    declarations: &Vec<Decl<Parsed>>,
) -> Result<Option<NameFault>, Memory>
    requires { IsReady importer.now }
    ensures { (m other : ModuleParts) → IsOf importer.now m
        → IfOk result (λ found. found ≡ first_of (fault_in importer.now m at.«module» other stands)
        (members_at at.«module» at.decl (all_declared declarations.now.items))) }
{
    match declarations.get(at.decl as usize) {
        None => Ok(None),
        Some(decl) => declared_fault(alloc, importer, stands, at, decl),
    }
}

/// What the cases or methods of the declaration of a number in a file are refused for, if it has it.
fn file_fault(
    alloc: Global,
    importer: &Importer,
    stands: Pos,
    at: DeclAt,
    file: Option<&Whole<Parsed>>,
) -> Result<Option<NameFault>, Memory>
    requires { IsReady importer.now }
    ensures { (m other : ModuleParts) → IsOf importer.now m
        → IfOk result (λ found. found ≡ first_of (fault_in importer.now m at.«module» other stands)
        (members_at at.«module» at.decl (declarations_seen (tree_seen file.entry)))) }
{
    match file {
        None => Ok(None),
        Some(file) => {
            let tree = file.tree();
            numbered_fault(alloc, importer, stands, at, &tree.declarations)
        }
    }
}

/// What the cases or methods of a declaration of an interface are refused for. They stand at a place of the
/// text. Where they have come along before and were refused for nothing, they are not walked again.
fn fault_once(
    alloc: Global,
    importer: &Importer,
    passed: &mut DeclSet,
    stands: Pos,
    at: DeclAt,
) -> Result<Option<NameFault>, Memory>
    requires ready { IsReady importer.now }
    requires within { at.«module» < length (program_of importer.now) }
    requires passed { AllPass importer.now passed.old }
    ensures fault { (m other : ModuleParts) → IsOf importer.now m → IsFrom importer.now at.«module» other
        → IfOk result (λ found. found ≡ first_of (fault_in importer.now m at.«module» other stands)
        (members_in at other)) }
    ensures passed { IfOk result (λ found. found ≡ None → AllPass importer.now passed.new) }
{
    let fresh = passed.put(at)?;
    if !fresh {
        return Ok(None);
    }
    let file = importer.modules.interface(at.module as usize);
    let fault = file_fault(alloc, importer, stands, at, file)?;
    Ok(fault)
}

/// What is refused of the cases or methods that come along under a name from the module at a place, given
/// those that were refused for nothing. They stand where the name stands.
pub fn along_fault(
    alloc: Global,
    importer: &Importer,
    passed: &mut DeclSet,
    from: u16,
    name: &Ident<Parsed>,
) -> Result<Option<NameFault>, Memory>
    requires ready { IsReady importer.now }
    requires within { from < length (program_of importer.now) }
    requires passed { AllPass importer.now passed.old }
    ensures along { (m other : ModuleParts) → IsOf importer.now m → IsFrom importer.now from other
        → IfOk result (λ found. found ≡ first_of (fault_in importer.now m from other name.now.at)
        (along from name.now.name (interface_of other))) }
    ensures passed { IfOk result (λ found. found ≡ None → AllPass importer.now passed.new) }
{
    match first_offered(importer, from as usize, Space::Types, name.name.as_bytes()) {
        None => Ok(None),
        Some(number) => {
            let at = DeclAt {
                module: from,
                decl: number,
            };
            fault_once(alloc, importer, passed, name.at, at)
        }
    }
}
