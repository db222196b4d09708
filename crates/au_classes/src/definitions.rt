//! Which instance of a body defines one of its interface: the first of the same class and the same written
//! type.

ghost use Rattle.std.specs.Prelude.{◌≡◌, IfOk, List};
ghost use Rattle.au_classes.specs.Indices.{first_index};
ghost use Rattle.au_classes.specs.Texts as spec;
ghost use Rattle.au_promises.specs.Agreeing as agreeing;
ghost use Rattle.au_promises.specs.Defining.{AreDefinitions};
ghost use Rattle.au_promises.specs.Promises as promises;
ghost use Rattle.au_promises.specs.Written.{declarations_of, declared_of, generics_of, name_of, sight_in};
ghost use Rattle.au_syntax.specs.Plain.{PlainDeclaration};
ghost use Rattle.au_syntax.specs.Views.{written};

use au_base::Memory;
use au_promises::agreeing::scope_of;
use au_promises::definitions::Definitions;
use au_promises::finding::instance_index;
use au_promises::sights::Sight;
use au_syntax::{Decl, Generic, Ident, Parsed, TypeText};
use std::alloc::Global;

/// The index of the definition of an instance with these type parameters, if there is one.
fn index_of(
    alloc: Global,
    sight: &Sight,
    list: &Vec<Generic<Parsed>>,
    name: &Ident<Parsed>,
    of: &TypeText,
    definitions: &Definitions,
) -> Result<Option<usize>, Memory>
    ensures { (all : List PlainDeclaration) → AreDefinitions (sight_in sight.now) all definitions.now
        → IfOk result (λ index. index ≡ first_index (promises.instance_defined (sight_in sight.now)
        (agreeing.scope_of (generics_of list.now.items)) (name_of name.now) (written of.now)) all) }
{
    let scope = scope_of(alloc, list)?;
    instance_index(alloc, sight, &scope, name, of, definitions)
}

/// The index of the definition of what an interface declares, if that's an instance and has one.
fn definition_index(
    alloc: Global,
    sight: &Sight,
    definitions: &Definitions,
    decl: &Decl<Parsed>,
) -> Result<Option<usize>, Memory>
    ensures { (all : List PlainDeclaration) → AreDefinitions (sight_in sight.now) all definitions.now
        → IfOk result (λ index. index
        ≡ spec.definition_index (sight_in sight.now) all (declared_of decl.now)) }
{
    match decl {
        Decl::Constant(_, _, _) => Ok(None),
        Decl::Opaque(_, _, _, _) => Ok(None),
        Decl::Record(_, _, _, _, _) => Ok(None),
        Decl::Union(_, _, _, _, _) => Ok(None),
        Decl::Function(_, _, _) => Ok(None),
        Decl::Class(_, _, _, _) => Ok(None),
        Decl::Instance(_, list, name, of) => index_of(alloc, sight, list, name, of, definitions),
        Decl::ConstantBody(_, _, _, _) => Ok(None),
        Decl::FunctionBody(_, _, _, _, _) => Ok(None),
        Decl::InstanceBody(_, _, _, _, _) => Ok(None),
    }
}

/// The indices of the definitions of what an interface declares, given those of the body.
fn indices_by(
    alloc: Global,
    sight: &Sight,
    interface: &[Decl<Parsed>],
    body: &[Decl<Parsed>],
    definitions: &Definitions,
) -> Result<Vec<Option<usize>>, Memory>
    requires { AreDefinitions (sight_in sight.now) (declarations_of body.now) definitions.now }
    ensures { IfOk result (λ all. all.items
        ≡ spec.definition_indices (sight_in sight.now) (declarations_of body.now)
        (declarations_of interface.now)) }
{
    let mut all = Vec::new(alloc);
    for one in interface {
        let index = definition_index(alloc, sight, definitions, one)?;
        all.push(index)?;
    }
    Ok(all)
}

/// The indices of the definitions of what an interface declares, in order: of each that is an instance and
/// has one.
///
/// # Errors
///
/// Only for want of memory.
pub(crate) fn definition_indices(
    alloc: Global,
    sight: &Sight,
    interface: &[Decl<Parsed>],
    body: &[Decl<Parsed>],
) -> Result<Vec<Option<usize>>, Memory>
    ensures { IfOk result (λ all. all.items
        ≡ spec.definition_indices (sight_in sight.now) (declarations_of body.now)
        (declarations_of interface.now)) }
{
    let definitions = Definitions::of(alloc, sight, body)?;
    indices_by(alloc, sight, interface, body, &definitions)
}
