//! Which declaration of a body defines another.

ghost use Rattle.std.specs.Prelude.{◌≡◌, ◌<◌, IfOk, List, Some, length, position, slice_get};
ghost use Rattle.au_closing.specs.Bodies as spec;
ghost use Rattle.au_closed_programs.specs.Defined.{AllDefined, AreDefined, declaration_seen};
ghost use Rattle.au_modules.specs.Programs.{ModuleParts};
ghost use Rattle.au_modules.specs.Seen.{tree_seen};
ghost use Rattle.au_modules.specs.Slots as slots;
ghost use Rattle.au_names.specs.Exporting as exporting;
ghost use Rattle.au_names.specs.Standing.{standing};
ghost use Rattle.au_noting_programs.specs.Said.{modules_said};
ghost use Rattle.au_promises.specs.Agreeing as agreeing;
ghost use Rattle.au_promises.specs.Agreeing.{sight_of};
ghost use Rattle.au_promises.specs.Defining.{AreDefinitions};
ghost use Rattle.au_promises.specs.Promises.{defines, instance_defined};
ghost use Rattle.au_promises.specs.Written.{declarations_of, declared_of, generics_of, name_of, sight_in};
ghost use Rattle.au_syntax.specs.Plain.{PlainDeclaration};
ghost use Rattle.au_syntax.specs.Views.{written};

use au_base::Memory;
use au_imports::Resolved;
use au_names::Declared;
use au_noting_programs::NotedModule;
use au_promises::agreeing::scope_of;
use au_promises::definitions::Definitions;
use au_promises::finding::instance_index;
use au_promises::sights::Sight;
use au_sights::Noted;
use au_syntax::{Decl, Generic, Ident, Parsed, Part, TypeText, Whole};
use std::alloc::Global;

/// What is seen of the two parts of the module at a place.
fn sight_at<'a>(program: &'a Resolved, place: usize) -> Sight<'a>
    requires { place < length (slots.modules program.now) }
    ensures { (m : ModuleParts) → slice_get (slots.modules program.now) place ≡ Some m
        → sight_in result ≡ sight_of (slots.modules program.now) place m }
{
    Sight {
        interface: &program.names(place, Part::Interface).types,
        body: &program.names(place, Part::Body).types,
        heads: program.heads_ref(),
    }
}

/// The declarations of a part of a module, of which there are none where it isn't there.
fn declarations_in<'a>(part: Option<&'a Whole<Parsed>>) -> &'a [Decl<Parsed>]
    ensures { declarations_of result.now ≡ exporting.declarations_seen (tree_seen part.entry) }
{
    match part {
        None => &[],
        Some(file) => file.tree().declarations.as_slice(),
    }
}

/// The definitions of the body of the module at a place.
fn definitions_at(alloc: Global, program: &Resolved, place: usize) -> Result<Definitions, Memory>
    requires { place < length (slots.modules program.now) }
    ensures { IfOk result (λ made. AreDefined (slots.modules program.now) place made) }
{
    let sight = sight_at(program, place);
    let body = declarations_in(program.modules().body(place));
    Definitions::of(alloc, &sight, body)
}

/// The definitions of the bodies of all modules, by their places.
///
/// # Errors
///
/// Only for want of memory.
pub fn all_definitions(alloc: Global, program: &Resolved) -> Result<Vec<Definitions>, Memory>
    ensures { IfOk result (λ all. AllDefined (slots.modules program.now) all.items) }
{
    let mut all = Vec::new(alloc);
    for place in 0..program.modules().len() {
        let one = definitions_at(alloc, program, place)?;
        all.push(one)?;
    }
    Ok(all)
}

/// The index of the first declaration of a body that defines an instance, if there is one.
fn instance_in(
    alloc: Global,
    sight: &Sight,
    definitions: &Definitions,
    list: &Vec<Generic<Parsed>>,
    name: &Ident<Parsed>,
    of: &TypeText,
) -> Result<Option<usize>, Memory>
    ensures { (all : List PlainDeclaration) → AreDefinitions (sight_in sight.now) all definitions.now
        → IfOk result (λ index. index ≡ position (instance_defined (sight_in sight.now)
        (agreeing.scope_of (generics_of list.now.items)) (name_of name.now) (written of.now)) all) }
{
    let scope = scope_of(alloc, list)?;
    instance_index(alloc, sight, &scope, name, of, definitions)
}

/// The index of the first declaration of a body that defines what an interface promises, if there is one.
fn index_in(
    alloc: Global,
    sight: &Sight,
    definitions: &Definitions,
    decl: &Decl<Parsed>,
) -> Result<Option<usize>, Memory>
    ensures { (all : List PlainDeclaration) → AreDefinitions (sight_in sight.now) all definitions.now
        → IfOk result (λ index.
        index ≡ position (defines (sight_in sight.now) (declared_of decl.now)) all) }
{
    match decl {
        Decl::Constant(_, name, _) => {
            Ok(
                definitions
                    .names
                    .constants
                    .get(name.name.as_bytes())
                    .copied(),
            )
        }
        Decl::Opaque(_, name, _, _) => {
            Ok(definitions.names.types.get(name.name.as_bytes()).copied())
        }
        Decl::Record(_, _, _, _, _) => Ok(None),
        Decl::Union(_, _, _, _, _) => Ok(None),
        Decl::Function(_, _, one) => {
            Ok(
                definitions
                    .names
                    .functions
                    .get(one.name.name.as_bytes())
                    .copied(),
            )
        }
        Decl::Class(_, _, _, _) => Ok(None),
        Decl::Instance(_, list, name, of) => {
            instance_in(alloc, sight, definitions, list, name, of)
        }
        Decl::ConstantBody(_, _, _, _) => Ok(None),
        Decl::FunctionBody(_, _, _, _, _) => Ok(None),
        Decl::InstanceBody(_, _, _, _, _) => Ok(None),
    }
}

/// The index of the first declaration of the body of the module at a place that defines what its interface
/// promises, if there is one.
fn promised_index(
    alloc: Global,
    program: &Resolved,
    all: &Vec<Definitions>,
    place: u16,
    decl: &Decl<Parsed>,
) -> Result<Option<usize>, Memory>
    requires { AllDefined (slots.modules program.now) all.now.items }
    ensures { IfOk result (λ index.
        index
        ≡ spec.defining_in (slots.modules program.now) place (slice_get (slots.modules program.now) place)
        (declared_of decl.now)) }
{
    match all.get(place as usize) {
        None => Ok(None),
        Some(definitions) => {
            let sight = sight_at(program, place as usize);
            index_in(alloc, &sight, definitions, decl)
        }
    }
}

/// The index of the declaration of the body that defines a declaration: itself, where it stands there.
fn defining_index(
    alloc: Global,
    program: &Resolved,
    all: &Vec<Definitions>,
    found: &Declared,
) -> Result<Option<usize>, Memory>
    requires { AllDefined (slots.modules program.now) all.now.items }
    ensures { IfOk result (λ index.
        index ≡ spec.defining_index (slots.modules program.now) (standing found.now) found.now.part) }
{
    match found.part {
        Part::Body => Ok(Some(found.index)),
        Part::Interface => promised_index(alloc, program, all, found.place, found.decl),
    }
}

/// The declaration of an index in the body of the module at a place, with its notes, if there is one.
fn noted_at(modules: &[NotedModule], place: u16, index: usize) -> Option<&Decl<Noted>>
    ensures { declaration_seen result ≡ spec.noted_at (modules_said modules.now) place (Some index) }
{
    let one = modules.get(place as usize)?;
    let file = one.body.as_ref()?;
    file.tree.declarations.get(index)
}

/// What defines a declaration of a program, with its notes, if there is that.
///
/// # Errors
///
/// Only for want of memory.
pub(crate) fn defining<'a>(
    alloc: Global,
    program: &Resolved,
    all: &Vec<Definitions>,
    modules: &'a [NotedModule],
    found: &Declared,
) -> Result<Option<&'a Decl<Noted>>, Memory>
    requires { AllDefined (slots.modules program.now) all.now.items }
    ensures { IfOk result (λ one.
        declaration_seen one
        ≡ spec.defining (slots.modules program.now) (modules_said modules.now) (standing found.now)) }
{
    match defining_index(alloc, program, all, found)? {
        None => Ok(None),
        Some(index) => Ok(noted_at(modules, found.place, index)),
    }
}
