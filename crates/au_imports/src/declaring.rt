//! What declarations are refused for.

ghost use Rattle.std.specs.Prelude.{◌≡◌, ◌<◌, ◌==◌, IfOk, Some, length};
ghost use Rattle.au_modules.specs.Programs.{ModuleParts};
ghost use Rattle.au_imports.specs.Choices.{first_of, where_so};
ghost use Rattle.au_imports.specs.Declaring.{clashes_at, declaration_fault_at, is_brought_by};
ghost use Rattle.au_imports.specs.Declaring.{means_nothing_at, mention_fault_at};
ghost use Rattle.au_imports.specs.Gathered.{AreOffers, brought_in};
ghost use Rattle.au_imports.specs.Judging.{AreBroughtBy, IsJudged, program_of};
ghost use Rattle.au_imports.specs.NameFaults.{declaration_fault};
ghost use Rattle.au_names.specs.Exporting as exporting;
ghost use Rattle.au_syntax.specs.Views.{declaration};
ghost use Rattle.au_types.specs.Tables.{has_name};
ghost use Rattle.au_imports.specs.Written.{all_declared, declared_of};

use crate::brought::{Brought, brought_in};
use crate::built_in::is_built_in;
use crate::judged::Judged;
use crate::name_faults::NameFault;
use au_base::{Memory, Name, Pos};
use au_names::in_space;
use au_promises::{Mention, mentions_of, type_parameters};
use au_syntax::{Decl, Parsed, Part};
use au_types::{DeclAt, Heads, NameTables, Params, Scope, Space, Table, sense_of};
use std::alloc::Global;

/// What stands at a part of a module for the names in its declarations.
#[derive(Clone, Copy)]
pub struct Site<'a> {
    /// The part.
    pub part: Part,
    /// Whether the module is the first, whose interface is pervasive.
    pub first: bool,
    /// The names that are pervasive.
    pub pervasive: &'a NameTables,
    /// What the imports of the module's interface bring.
    pub interface: &'a Brought,
    /// What the imports of its body bring.
    pub body: &'a Brought,
    /// The names of types and classes that are visible in the part.
    pub names: &'a Table<DeclAt>,
    /// The declared types of the program.
    pub heads: &'a Heads,
}

/// Whether a name is pervasive.
fn is_pervasive(names: &NameTables, space: Space, name: &Name) -> bool
    ensures { result ≡ has_name name.now (exporting.in_space space names.now) }
{
    in_space(names, space).get(name.as_bytes()).is_some()
}

/// Whether imports bring a name.
fn is_brought(brought: &Brought, space: Space, name: &Name) -> bool
    ensures { result ≡ has_name name.now (brought_in space brought.now) }
{
    brought_in(brought, space).get(name.as_bytes()).is_some()
}

/// Whether the imports of a part or of those before it bring a name.
fn is_brought_by(site: &Site, space: Space, name: &Name) -> bool
    ensures { result ≡ is_brought_by site.now.part space site.now.interface.now site.now.body.now name.now }
{
    match site.part {
        Part::Interface => is_brought(site.interface, space, name),
        Part::Body => is_brought(site.interface, space, name) || is_brought(site.body, space, name),
    }
}

/// Whether a name that a declaration brings in means something before it that no declaration of its own
/// module is.
fn clashes(site: &Site, space: Space, name: &Name) -> bool
    ensures { result ≡ clashes_at site.now space name.now }
{
    is_built_in(space, name.as_bytes())
        || (!site.first && is_pervasive(site.pervasive, space, name))
        || is_brought_by(site, space, name)
}

/// Whether a name means nothing among types, classes and regions.
fn means_nothing(site: &Site, params: &Params, name: &Name) -> bool
    ensures { result ≡ means_nothing_at site.now params.now name.now }
{
    let scope = Scope {
        regions: &[],
        params,
        names: site.names,
        heads: site.heads,
    };
    sense_of(&scope, name).is_none()
}

/// What a name that is declared is refused for.
fn declared_fault(
    alloc: Global,
    site: &Site,
    space: Space,
    name: &Name,
    at: Pos,
) -> Result<Option<NameFault>, Memory>
    ensures { IfOk result (λ found. found ≡ where_so (clashes_at site.now space name.now)
        (NameFault.NameTwice at name.now)) }
{
    if clashes(site, space, name) {
        let name = name.copy(alloc)?;
        Ok(Some(NameFault::NameTwice(at, name)))
    } else {
        Ok(None)
    }
}

/// What a name that is written is refused for.
fn written_fault(
    alloc: Global,
    site: &Site,
    params: &Params,
    name: &Name,
    at: Pos,
) -> Result<Option<NameFault>, Memory>
    ensures { IfOk result (λ found. found ≡ where_so (means_nothing_at site.now params.now name.now)
        (NameFault.NotVisible at name.now)) }
{
    if means_nothing(site, params, name) {
        let name = name.copy(alloc)?;
        Ok(Some(NameFault::NotVisible(at, name)))
    } else {
        Ok(None)
    }
}

/// What a name in a declaration with these type parameters is refused for.
fn mention_fault(
    alloc: Global,
    site: &Site,
    params: &Params,
    mention: &Mention,
) -> Result<Option<NameFault>, Memory>
    ensures { IfOk result (λ found. found ≡ mention_fault_at site.now params.now mention.now) }
{
    match mention {
        Mention::Declares(space, name, at) => declared_fault(alloc, site, *space, name, *at),
        Mention::Writes(name, at) => written_fault(alloc, site, params, name, *at),
    }
}

/// The first that one of these names is refused for.
fn mentions_fault(
    alloc: Global,
    site: &Site,
    params: &Params,
    list: &Vec<Mention>,
) -> Result<Option<NameFault>, Memory>
    ensures { IfOk result (λ found. found ≡ first_of (mention_fault_at site.now params.now) list.now.items) }
{
    for one in list {
        match mention_fault(alloc, site, params, one)? {
            Some(fault) => return Ok(Some(fault)),
            None => {}
        }
    }
    Ok(None)
}

/// What a declaration is refused for.
fn declaration_fault(
    alloc: Global,
    site: &Site,
    decl: &Decl<Parsed>,
) -> Result<Option<NameFault>, Memory>
    ensures { IfOk result (λ found. found ≡ declaration_fault_at site.now (declared_of decl.now)) }
{
    let params = type_parameters(alloc, decl)?;
    let list = mentions_of(alloc, decl)?;
    mentions_fault(alloc, site, &params, &list)
}

/// The first that one of these declarations is refused for.
fn first_fault(
    alloc: Global,
    site: &Site,
    declarations: &Vec<Decl<Parsed>>,
) -> Result<Option<NameFault>, Memory>
    ensures { IfOk result (λ found. found ≡ first_of (declaration_fault_at site.now)
        (all_declared declarations.now.items)) }
{
    for one in declarations {
        match declaration_fault(alloc, site, one)? {
            Some(fault) => return Ok(Some(fault)),
            None => {}
        }
    }
    Ok(None)
}

/// What the declarations of a part of a module are refused for, the first in the order of
/// the text: names that they bring in and that mean something else before them, and names that they write
/// for types, classes and regions and that mean nothing.
///
/// # Errors
///
/// Only for want of memory.
pub fn declarations_fault(
    alloc: Global,
    judged: &Judged,
    part: Part,
    declarations: &Vec<Decl<Parsed>>,
) -> Result<Option<NameFault>, Memory>
    requires within { judged.now.place < length (program_of judged.now) }
    requires made { AreOffers (program_of judged.now) judged.now.offers.now }
    requires by_interface { AreBroughtBy judged.now Part.Interface judged.now.interface.now }
    requires by_body { AreBroughtBy judged.now Part.Body judged.now.body.now }
    ensures { (m : ModuleParts) → IsJudged judged.now m
        → IfOk result (λ found. found ≡ first_of (declaration_fault (program_of judged.now) judged.now.place m
        part) (all_declared declarations.now.items)) }
{
    let names = judged.resolved.names(judged.place, part);
    let site = Site {
        part,
        first: judged.place == 0,
        pervasive: &judged.offers.exports.interfaces[0],
        interface: judged.interface,
        body: judged.body,
        names: &names.types,
        heads: judged.resolved.heads_ref(),
    };
    first_fault(alloc, &site, declarations)
}
