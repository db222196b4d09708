//! The first fault of the names of a program.

ghost use Rattle.std.specs.Prelude.{◌≡◌, ◌<◌, ℕ, List, IfOk, IsTrue, Some, length};
ghost use Rattle.au_modules.specs.Programs.{ModuleParts};
ghost use Rattle.au_modules.specs.Slots as slots;
ghost use Rattle.au_imports.specs.Gathered.{AreBrought, AreOffers};
ghost use Rattle.au_imports.specs.Judging.{AreBroughtBy, IsJudged, program_of};
ghost use Rattle.au_imports.specs.NameFaults as spec;
ghost use Rattle.au_imports.specs.Parts.{tree_fault};
ghost use Rattle.au_syntax.specs.Files.{is_formed, is_within, says};
ghost use Rattle.au_syntax.specs.contracts.parsed.ParsedPhase.TheImpl.{ghosts as parsed};
ghost use Rattle.au_syntax.specs.declared.modules.Part.TheVariants as parts;
ghost use Rattle.au_imports.specs.Written.{IsAt};

use crate::brought::{Brought, brought_to};
use crate::declaring::declarations_fault;
use crate::importing::imports_fault;
use crate::judged::Judged;
use crate::name_faults::NameFault;
use crate::offers::{Offers, offers_of};
use au_base::Memory;
use au_names::NamedModules as Resolved;
use au_syntax::{Module, Parsed, Part};
use std::alloc::Global;

/// What the imports of one of the parts bring.
fn of_part<'a>(interface: &'a Brought, body: &'a Brought, part: Part) -> &'a Brought
    ensures { (program : List ModuleParts) (place : ℕ) (m : ModuleParts)
        → AreBrought program place m parts.Interface interface.now
        → AreBrought program place m parts.Body body.now → AreBrought program place m part result.now }
{
    match part {
        Part::Interface => interface,
        Part::Body => body,
    }
}

/// What the tree of a part of a module is refused for.
fn tree_fault(
    alloc: Global,
    judged: &Judged,
    part: Part,
    tree: &Module<Parsed>,
) -> Result<Option<NameFault>, Memory>
    requires formed { IsTrue (is_formed parsed tree.now) }
    requires sized { IsTrue (is_within parsed tree.now) }
    requires within { judged.now.place < length (program_of judged.now) }
    requires offers { AreOffers (program_of judged.now) judged.now.offers.now }
    requires interface { AreBroughtBy judged.now parts.Interface judged.now.interface.now }
    requires body { AreBroughtBy judged.now parts.Body judged.now.body.now }
    ensures { (m : ModuleParts) → IsJudged judged.now m
        → IfOk result (λ found. found ≡ tree_fault (program_of judged.now) judged.now.place m part
        (says parsed tree.now)) }
{
    let brought = of_part(judged.interface, judged.body, part);
    let modules = judged.resolved.modules();
    let imports = &tree.imports;
    match imports_fault(
        alloc,
        modules,
        judged.offers,
        brought,
        judged.place,
        part,
        imports,
    )? {
        Some(fault) => Ok(Some(fault)),
        None => declarations_fault(alloc, judged, part, &tree.declarations),
    }
}

/// What a part of a module is refused for.
fn part_fault(alloc: Global, judged: &Judged, part: Part) -> Result<Option<NameFault>, Memory>
    requires within { judged.now.place < length (program_of judged.now) }
    requires offers { AreOffers (program_of judged.now) judged.now.offers.now }
    requires interface { AreBroughtBy judged.now parts.Interface judged.now.interface.now }
    requires body { AreBroughtBy judged.now parts.Body judged.now.body.now }
    ensures { (m : ModuleParts) → IsJudged judged.now m
        → IfOk result (λ found. found ≡ spec.part_fault (program_of judged.now) judged.now.place m part) }
{
    match judged.resolved.modules().part(judged.place, part) {
        None => Ok(None),
        Some(file) => {
            let tree = file.tree();
            tree_fault(alloc, judged, part, tree)
        }
    }
}

/// What the two parts of a module are refused for.
fn parts_fault(alloc: Global, judged: &Judged) -> Result<Option<NameFault>, Memory>
    requires within { judged.now.place < length (program_of judged.now) }
    requires offers { AreOffers (program_of judged.now) judged.now.offers.now }
    requires interface { AreBroughtBy judged.now parts.Interface judged.now.interface.now }
    requires body { AreBroughtBy judged.now parts.Body judged.now.body.now }
    ensures { (m : ModuleParts) → IsJudged judged.now m
        → IfOk result (λ found. found ≡ spec.module_fault (program_of judged.now) judged.now.place m) }
{
    let first = part_fault(alloc, judged, Part::Interface)?;
    match first {
        Some(fault) => Ok(Some(fault)),
        None => part_fault(alloc, judged, Part::Body),
    }
}

/// What the module at a place is refused for.
fn module_fault(
    alloc: Global,
    resolved: &Resolved,
    offers: &Offers,
    place: usize,
) -> Result<Option<NameFault>, Memory>
    requires within { place < length (slots.modules resolved.now) }
    requires offers { AreOffers (slots.modules resolved.now) offers.now }
    ensures { (m : ModuleParts) → IsAt resolved.now place m
        → IfOk result (λ found. found ≡ spec.module_fault (slots.modules resolved.now) place m) }
{
    let modules = resolved.modules();
    let interface = brought_to(alloc, modules, &offers.exports, place, Part::Interface)?;
    let body = brought_to(alloc, modules, &offers.exports, place, Part::Body)?;
    let judged = Judged {
        resolved,
        offers,
        interface: &interface,
        body: &body,
        place,
    };
    parts_fault(alloc, &judged)
}

/// What the names of a program are refused for, the first in the order of the text: modules by their
/// places, the interface of each before its body.
///
/// # Errors
///
/// Only for want of memory.
pub fn name_fault(alloc: Global, resolved: &Resolved) -> Result<Option<NameFault>, Memory>
    ensures { IfOk result (λ found. found ≡ spec.name_fault (slots.modules resolved.now)) }
{
    let offers = offers_of(alloc, resolved.modules())?;
    for place in 0..resolved.modules().len() {
        if let Some(fault) = module_fault(alloc, resolved, &offers, place)? {
            return Ok(Some(fault));
        }
    }
    Ok(None)
}
