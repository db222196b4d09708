//! What imports are refused for.

ghost use Rattle.std.specs.Prelude.{◌≡◌, ◌<◌, IfOk, IsTrue, None, Some, length};
ghost use Rattle.au_modules.specs.Programs.{ModuleParts};
ghost use Rattle.au_modules.specs.Slots as slots;
ghost use Rattle.au_imports.specs.Choices.{first_of};
ghost use Rattle.au_imports.specs.Gathered.{AreBroughtTo, AreOffers};
ghost use Rattle.au_imports.specs.Importers as importers;
ghost use Rattle.au_imports.specs.Importers.{AllPass, IsFrom, IsOf, IsReady, is_module_name, item_fault_in};
ghost use Rattle.au_imports.specs.Importers.{name_modules, program_of};
ghost use Rattle.au_imports.specs.NameFaults as spec;
ghost use Rattle.au_syntax.specs.Plain.{plain_name};
ghost use Rattle.au_syntax.specs.Sizes.{joined};
ghost use Rattle.au_syntax.specs.Views.{placed};
ghost use Rattle.au_syntax.specs.contracts.parsed.ParsedPhase.TheImpl.{ghosts as parsed};
ghost use Rattle.au_imports.specs.Written.{IsAt, import_of, imports_of, item_of, items_of, names_of};

use crate::brought::Brought;
use crate::clashes::{Importer, first_offered, import_clashes, last_offered};
use crate::members::along_fault;
use crate::name_faults::NameFault;
use crate::offers::Offers;
use au_base::{Memory, Name, Pos};
use au_modules::{Modules, dotted_text};
use au_names::DeclSet;
use au_names::imports::place_named;
use au_syntax::{Ident, Import, Parsed, Part, Renamed};
use au_types::{DeclAt, Space};
use std::alloc::Global;

/// The name of a module, given by its parts.
fn joined_name(alloc: Global, names: &Vec<Ident<Parsed>>) -> Result<Name, Memory>
    requires { IsTrue (is_module_name (names_of names.now.items)) }
    ensures { IfOk result (λ name. name ≡ joined (names_of names.now.items)) }
{
    let first = names[0].name.as_bytes();
    prove!(!first.is_empty());
    let text = dotted_text(alloc, names)?;
    Name::copy_of(alloc, &text.as_bytes()[1..])
}

/// The place of the first of names, or else this place.
fn first_place(at: Pos, names: &Vec<Ident<Parsed>>) -> Pos
    ensures { result ≡ spec.first_place at (names_of names.now.items) }
{
    match names.first() {
        None => at,
        Some(name) => name.at,
    }
}

/// The name that an item gives: that after its `as`, or its own.
pub fn given(item: &Renamed<Parsed>) -> &Ident<Parsed>
    ensures { plain_name parsed.name_bytes (placed parsed result.now) ≡ spec.given (item_of item.now) }
{
    match &item.alias {
        None => &item.name,
        Some(alias) => alias,
    }
}

/// Whether two numbers of declarations are there and aren't one.
fn is_apart(first: Option<u32>, last: Option<u32>) -> bool
    ensures { result ≡ spec.is_apart first last }
{
    match (first, last) {
        (Some(first), Some(last)) => first != last,
        _ => false,
    }
}

/// Whether no space of the interface of the module at a place has the name.
fn is_hidden(importer: &Importer, from: u16, name: &[u8]) -> bool
    requires ready { IsReady importer.now }
    requires within { from < length (program_of importer.now) }
    ensures { (m other : ModuleParts) → IsFrom importer.now from other
        → result ≡ importers.is_hidden_in importer.now m from other name.now }
{
    let place = from as usize;
    let seen = first_offered(importer, place, Space::Values, name).is_some()
        || first_offered(importer, place, Space::Callables, name).is_some()
        || first_offered(importer, place, Space::Types, name).is_some();
    !seen
}

/// Whether what is found under a name in the module at a place, if anything is, clashes under a local name.
fn found_clashes(
    importer: &Importer,
    from: u16,
    space: Space,
    name: &[u8],
    local: &[u8],
    found: Option<u32>,
) -> bool
    requires { IsReady importer.now }
    ensures { (m other : ModuleParts) → IsOf importer.now m
        → result ≡ importers.clashes_where importer.now m from other space name.now local.now found }
{
    match found {
        None => false,
        Some(number) => {
            let at = DeclAt {
                module: from,
                decl: number,
            };
            import_clashes(importer, space, local, at, name)
        }
    }
}

/// Whether an item brings two different things into a space, or something that clashes.
fn item_clashes(importer: &Importer, from: u16, item: &Renamed<Parsed>, space: Space) -> bool
    requires ready { IsReady importer.now }
    requires within { from < length (program_of importer.now) }
    ensures { (m other : ModuleParts) → IsOf importer.now m → IsFrom importer.now from other
        → result ≡ importers.clashes_by importer.now m from other (item_of item.now) space }
{
    let place = from as usize;
    let name = item.name.name.as_bytes();
    let first = first_offered(importer, place, space, name);
    let last = last_offered(importer, place, space, name);
    if is_apart(first, last) {
        return true;
    }
    let local = given(item).name.as_bytes();
    found_clashes(importer, from, space, name, local, first)
}

/// Whether an item brings two different things into some space, or something that clashes.
fn any_clashes(importer: &Importer, from: u16, item: &Renamed<Parsed>) -> bool
    requires ready { IsReady importer.now }
    requires within { from < length (program_of importer.now) }
    ensures { (m other : ModuleParts) → IsOf importer.now m → IsFrom importer.now from other
        → result ≡ importers.any_clashes importer.now m from other (item_of item.now) }
{
    item_clashes(importer, from, item, Space::Values)
        || item_clashes(importer, from, item, Space::Callables)
        || item_clashes(importer, from, item, Space::Types)
}

/// What an item of an import of the module at a place is refused for, given the declarations whose cases or
/// methods were refused for nothing.
fn item_fault(
    alloc: Global,
    importer: &Importer,
    passed: &mut DeclSet,
    from: u16,
    item: &Renamed<Parsed>,
) -> Result<Option<NameFault>, Memory>
    requires ready { IsReady importer.now }
    requires within { from < length (program_of importer.now) }
    requires passed { AllPass importer.now passed.old }
    ensures item { (m other : ModuleParts) → IsOf importer.now m → IsFrom importer.now from other
        → IfOk result (λ found. found ≡ item_fault_in importer.now m from other (item_of item.now)) }
    ensures passed { IfOk result (λ found. found ≡ None → AllPass importer.now passed.new) }
{
    if is_hidden(importer, from, item.name.name.as_bytes()) {
        let name = item.name.name.copy(alloc)?;
        return Ok(Some(NameFault::NotVisible(item.name.at, name)));
    }
    if any_clashes(importer, from, item) {
        let local = given(item);
        let name = local.name.copy(alloc)?;
        return Ok(Some(NameFault::NameTwice(local.at, name)));
    }
    along_fault(alloc, importer, passed, from, &item.name)
}

/// What items of an import of the module at a place are refused for, given the declarations whose cases or
/// methods were refused for nothing.
fn items_fault(
    alloc: Global,
    importer: &Importer,
    passed: &mut DeclSet,
    from: u16,
    items: &Vec<Renamed<Parsed>>,
) -> Result<Option<NameFault>, Memory>
    requires ready { IsReady importer.now }
    requires within { from < length (program_of importer.now) }
    requires passed { AllPass importer.now passed.old }
    ensures items { (m other : ModuleParts) → IsOf importer.now m → IsFrom importer.now from other
        → IfOk result (λ found. found ≡ first_of (item_fault_in importer.now m from other)
        (items_of items.now.items)) }
    ensures passed { IfOk result (λ found. found ≡ None → AllPass importer.now passed.new) }
{
    for item in items {
        if let Some(fault) = item_fault(alloc, importer, passed, from, item)? {
            return Ok(Some(fault));
        }
    }
    Ok(None)
}

/// What an import is refused for, given the declarations whose cases or methods were refused for nothing.
fn import_fault(
    alloc: Global,
    importer: &Importer,
    passed: &mut DeclSet,
    import: &Import<Parsed>,
) -> Result<Option<NameFault>, Memory>
    requires ready { IsReady importer.now }
    requires passed { AllPass importer.now passed.old }
    requires named { IsTrue (is_module_name (import_of import.now).from) }
    ensures import { (m : ModuleParts) → IsOf importer.now m
        → IfOk result (λ found. found ≡ importers.import_fault_in importer.now m (import_of import.now)) }
    ensures passed { IfOk result (λ found. found ≡ None → AllPass importer.now passed.new) }
{
    match place_named(alloc, &importer.offers.exports, &import.module)? {
        None => {
            let name = joined_name(alloc, &import.module)?;
            let at = first_place(import.at, &import.module);
            Ok(Some(NameFault::NoModule(at, name)))
        }
        Some(from) => {
            if (from as usize) < importer.place {
                return items_fault(alloc, importer, passed, from, &import.items);
            }
            let name = joined_name(alloc, &import.module)?;
            let at = first_place(import.at, &import.module);
            Ok(Some(NameFault::Late(at, name)))
        }
    }
}

/// What imports are refused for.
fn all_imports_fault(
    alloc: Global,
    importer: &Importer,
    imports: &Vec<Import<Parsed>>,
) -> Result<Option<NameFault>, Memory>
    requires ready { IsReady importer.now }
    requires named { IsTrue (name_modules (imports_of imports.now.items)) }
    ensures { (m : ModuleParts) → IsOf importer.now m
        → IfOk result (λ found. found ≡ first_of (importers.import_fault_in importer.now m)
        (imports_of imports.now.items)) }
{
    let mut passed = DeclSet::new(alloc);
    for import in imports {
        if let Some(fault) = import_fault(alloc, importer, &mut passed, import)? {
            return Ok(Some(fault));
        }
    }
    Ok(None)
}

/// What imports of a part of the module at a place are refused for, the first in the order of the text.
///
/// # Errors
///
/// Only for want of memory.
pub fn imports_fault(
    alloc: Global,
    modules: &Modules,
    offers: &Offers,
    brought: &Brought,
    place: usize,
    part: Part,
    imports: &Vec<Import<Parsed>>,
) -> Result<Option<NameFault>, Memory>
    requires within { place < length (slots.modules modules.now) }
    requires offers { AreOffers (slots.modules modules.now) offers.now }
    requires brought { AreBroughtTo modules.now place part brought.now }
    requires named { IsTrue (name_modules (imports_of imports.now.items)) }
    ensures { (m : ModuleParts) → IsAt modules.now place m
        → IfOk result (λ found. found ≡ first_of (spec.import_fault (slots.modules modules.now) place m part)
        (imports_of imports.now.items)) }
{
    let importer = Importer {
        modules,
        offers,
        brought,
        place,
        part,
    };
    all_imports_fault(alloc, &importer, imports)
}
