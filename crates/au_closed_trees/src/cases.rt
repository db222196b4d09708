//! The cases of closed types.

ghost use Rattle.std.specs.Prelude.{◌≡◌, ◌<◌, [], ◌∷◌, IfOk, Some, length, map};
ghost use Rattle.au_closed_trees.specs.Parts as spec;
ghost use Rattle.au_closed_trees.specs.TypeNames as names;
ghost use Rattle.au_closed_trees.specs.Views.{case_said, cases_said, field_said, fields_said};
ghost use Rattle.au_type_texts.specs.Views.{closed_meaning};
ghost use Rattle.au_type_texts.specs.GivenViews.{given_said};
ghost use Rattle.au_modules.specs.Slots as slots;
ghost use Rattle.au_names.specs.HeadsOf as rows;
ghost use Rattle.au_names.specs.Standing.{definition_of, standing, standing_seen};
ghost use Rattle.au_names.specs.Walks.{written, written_parameters};
ghost use Rattle.au_sights.specs.Written as outsides;
ghost use Rattle.au_promises.specs.Written.{labelled_of, labels_of};
ghost use Rattle.au_sights.specs.Steps.{Stands, variant_of, variants_of};

use crate::parts::{ClosedCase, ClosedField};
use crate::type_names::given_over;
use crate::written::{Written, field_under};
use au_base::{Memory, Name};
use au_imports::Resolved;
use au_names::Declared;
use au_names::parameters::params_of;
use au_syntax::{Decl, Field, Parsed, Part, TypeParameter, UnionCase};
use au_type_texts::Closed;
use au_types::{DeclAt, Heads, Table};
use std::alloc::Global;

/// A field with the closed type of its type.
fn written_field(alloc: Global, place: &Written, one: &Field<Parsed>) -> Result<ClosedField, Memory>
    ensures { IfOk result (λ made.
        field_said made
        ≡ spec.field_under place.now.names.now place.now.heads.now place.now.params.now
        (given_said place.now.given.now) (labelled_of one.now)) }
{
    field_under(alloc, place, &one.name.name, &one.of)
}

/// Fields with the closed types of their types.
fn written_fields(
    alloc: Global,
    place: &Written,
    fields: &Vec<Field<Parsed>>,
) -> Result<Vec<ClosedField>, Memory>
    ensures { IfOk result (λ made.
        fields_said made.items
        ≡ map (spec.field_under place.now.names.now place.now.heads.now place.now.params.now
        (given_said place.now.given.now)) (labels_of fields.now.items)) }
{
    let mut made = Vec::new(alloc);
    for one in fields {
        let field = written_field(alloc, place, one)?;
        made.push(field)?;
    }
    Ok(made)
}

/// Fields under a name.
fn case_under(
    alloc: Global,
    place: &Written,
    name: &Name,
    fields: &Vec<Field<Parsed>>,
) -> Result<ClosedCase, Memory>
    ensures name { IfOk result (λ made. made.name ≡ name.now) }
    ensures fields { IfOk result (λ made.
        fields_said made.fields.items
        ≡ map (spec.field_under place.now.names.now place.now.heads.now place.now.params.now
        (given_said place.now.given.now)) (labels_of fields.now.items)) }
{
    let fields = written_fields(alloc, place, fields)?;
    let name = name.copy(alloc)?;
    Ok(ClosedCase { name, fields })
}

/// A case of a union.
fn variant_under(
    alloc: Global,
    place: &Written,
    one: &UnionCase<Parsed>,
) -> Result<ClosedCase, Memory>
    ensures { IfOk result (λ made.
        case_said made
        ≡ spec.variant_under place.now.names.now place.now.heads.now place.now.params.now
        (given_said place.now.given.now) (variant_of one.now)) }
{
    case_under(alloc, place, &one.name.name, &one.fields)
}

/// The cases of a union in order.
fn variants_under(
    alloc: Global,
    place: &Written,
    cases: &Vec<UnionCase<Parsed>>,
) -> Result<Vec<ClosedCase>, Memory>
    ensures { IfOk result (λ made.
        cases_said made.items
        ≡ map (spec.variant_under place.now.names.now place.now.heads.now place.now.params.now
        (given_said place.now.given.now)) (variants_of cases.now.items)) }
{
    let mut made = Vec::new(alloc);
    for one in cases {
        let case = variant_under(alloc, place, one)?;
        made.push(case)?;
    }
    Ok(made)
}

/// What names of types mean where a definition stands, the rows of declared types, and the arguments of the
/// type that is defined.
#[derive(Clone, Copy)]
struct Defined<'a> {
    names: &'a Table<DeclAt>,
    heads: &'a Heads,
    args: &'a [Closed],
}

/// A record with these type parameters, as the one case that it has.
fn record_with(
    alloc: Global,
    defined: &Defined,
    parameters: &Vec<TypeParameter<Parsed>>,
    name: &Name,
    fields: &Vec<Field<Parsed>>,
) -> Result<ClosedCase, Memory>
    ensures name { IfOk result (λ made. made.name ≡ name.now) }
    ensures fields { IfOk result (λ made.
        fields_said made.fields.items
        ≡ map (spec.field_under defined.now.names.now defined.now.heads.now
        (map rows.parameter (written_parameters parameters.now.items))
        (names.given_over (names.type_names (map rows.parameter (written_parameters parameters.now.items)))
        (map closed_meaning defined.now.args.now))) (labels_of fields.now.items)) }
{
    let params = params_of(alloc, parameters)?;
    let given = given_over(alloc, &params, defined.args)?;
    let place = Written {
        names: defined.names,
        heads: defined.heads,
        params: &params,
        given: &given,
    };
    case_under(alloc, &place, name, fields)
}

/// A record as a list of the one case that it has.
fn record_cases(
    alloc: Global,
    defined: &Defined,
    parameters: &Vec<TypeParameter<Parsed>>,
    name: &Name,
    fields: &Vec<Field<Parsed>>,
) -> Result<Vec<ClosedCase>, Memory>
    ensures { IfOk result (λ made.
        cases_said made.items
        ≡ record {
          name = name.now;
          fields = map (spec.field_under defined.now.names.now defined.now.heads.now
              (map rows.parameter (written_parameters parameters.now.items))
              (names.given_over
              (names.type_names (map rows.parameter (written_parameters parameters.now.items)))
              (map closed_meaning defined.now.args.now))) (labels_of fields.now.items);
        } ∷ []) }
{
    let one = record_with(alloc, defined, parameters, name, fields)?;
    let mut all = Vec::new(alloc);
    all.push(one)?;
    Ok(all)
}

/// The cases of a union with these type parameters.
fn union_with(
    alloc: Global,
    defined: &Defined,
    parameters: &Vec<TypeParameter<Parsed>>,
    cases: &Vec<UnionCase<Parsed>>,
) -> Result<Vec<ClosedCase>, Memory>
    ensures { IfOk result (λ made.
        cases_said made.items
        ≡ spec.union_with defined.now.names.now defined.now.heads.now
        (map closed_meaning defined.now.args.now)
        (map rows.parameter (written_parameters parameters.now.items)) (variants_of cases.now.items)) }
{
    let params = params_of(alloc, parameters)?;
    let given = given_over(alloc, &params, defined.args)?;
    let place = Written {
        names: defined.names,
        heads: defined.heads,
        params: &params,
        given: &given,
    };
    variants_under(alloc, &place, cases)
}

/// The cases that a declaration has where its type parameters have these arguments.
fn declared_cases(
    alloc: Global,
    defined: &Defined,
    decl: &Decl<Parsed>,
) -> Result<Vec<ClosedCase>, Memory>
    ensures { IfOk result (λ made.
        cases_said made.items
        ≡ spec.declared_cases defined.now.names.now defined.now.heads.now
        (map closed_meaning defined.now.args.now) (written decl.now)) }
{
    match decl {
        Decl::Constant(_, _, _) => Ok(Vec::new(alloc)),
        Decl::Opaque(_, _, _, _) => Ok(Vec::new(alloc)),
        Decl::Record(_, name, parameters, _, fields) => {
            record_cases(alloc, defined, parameters, &name.name, fields)
        }
        Decl::Union(_, _, parameters, _, cases) => union_with(alloc, defined, parameters, cases),
        Decl::Function(_, _, _) => Ok(Vec::new(alloc)),
        Decl::Class(_, _, _, _) => Ok(Vec::new(alloc)),
        Decl::Instance(_, _, _, _) => Ok(Vec::new(alloc)),
        Decl::ConstantBody(_, _, _, _) => Ok(Vec::new(alloc)),
        Decl::FunctionBody(_, _, _, _, _) => Ok(Vec::new(alloc)),
        Decl::InstanceBody(_, _, _, _, _) => Ok(Vec::new(alloc)),
    }
}

/// The names of types that a part of the module at a place sees.
fn names_at(program: &Resolved, place: u16, part: Part) -> &Table<DeclAt>
    requires { place < length (slots.modules program.now) }
    ensures { result.now ≡ outsides.types_at (slots.modules program.now) place part }
{
    &program.names(place as usize, part).types
}

/// The cases of a definition that stands in a program, where its type parameters have these arguments.
fn standing_cases(
    alloc: Global,
    program: &Resolved,
    args: &[Closed],
    found: &Declared,
) -> Result<Vec<ClosedCase>, Memory>
    requires { Stands (slots.modules program.now) (standing found.now) }
    ensures { IfOk result (λ made.
        cases_said made.items
        ≡ spec.defined_cases (slots.modules program.now) (map closed_meaning args.now)
        (Some (standing found.now))) }
{
    let defined = Defined {
        names: names_at(program, found.place, found.part),
        heads: program.heads_ref(),
        args,
    };
    declared_cases(alloc, &defined, found.decl)
}

/// The cases of the declared type of a declaration with these arguments.
fn named_cases(
    alloc: Global,
    program: &Resolved,
    at: DeclAt,
    args: &[Closed],
) -> Result<Vec<ClosedCase>, Memory>
    ensures { IfOk result (λ made.
        cases_said made.items
        ≡ spec.defined_cases (slots.modules program.now) (map closed_meaning args.now)
        (definition_of (slots.modules program.now) at)) }
{
    match program.definition(at) {
        None => Ok(Vec::new(alloc)),
        Some(found) => standing_cases(alloc, program, args, &found),
    }
}

/// The cases of a closed type in declared order, with the closed types of their fields. A record has one,
/// with its name; what has no definition has none.
///
/// # Errors
///
/// Only for want of memory.
#[tactic(auto, using(au_type_texts::proofs::ClosedLemmas::closed_steps))]
pub fn cases_of(alloc: Global, program: &Resolved, of: &Closed) -> Result<Vec<ClosedCase>, Memory>
    ensures { IfOk result (λ made.
        cases_said made.items ≡ spec.cases_of (slots.modules program.now) (closed_meaning of.now)) }
{
    match of {
        Closed::Unit => Ok(Vec::new(alloc)),
        Closed::Bool => Ok(Vec::new(alloc)),
        Closed::Int(_) => Ok(Vec::new(alloc)),
        Closed::Text => Ok(Vec::new(alloc)),
        Closed::Named { of, args } => named_cases(alloc, program, *of, args),
        Closed::Read(_) => Ok(Vec::new(alloc)),
        Closed::Write(_) => Ok(Vec::new(alloc)),
    }
}
