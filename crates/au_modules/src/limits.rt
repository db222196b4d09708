//! How many type parameters, parameters, fields and cases a declaration has.

ghost use Rattle.std.specs.Prelude.{◌≡◌, ◌∷◌, [], map};
ghost use Rattle.std.specs.List.{flat_map};
ghost use Rattle.au_modules.specs.Limits as spec;
ghost use Rattle.au_syntax.specs.Plain.{plain_declaration, plain_header, plain_method, plain_variant};
ghost use Rattle.au_syntax.specs.Views.{declaration, header, method_body, variant};

use au_base::{Limit, LimitKind};
use au_syntax::{Decl, Method, Phase, Signature, UnionCase};

/// The most parameters of a function or method.
pub const MOST_PARAMETERS: u32 = 32;

/// The most fields of a record or of a case.
pub const MOST_FIELDS: u32 = 64;

/// The most cases of a union.
pub const MOST_CASES: u32 = 256;

/// The most type parameters of a declaration.
pub const MOST_TYPE_PARAMETERS: u32 = 8;

/// The limit that so many things pass.
fn over(kind: LimitKind, number: usize, most: u32) -> Option<Limit>
    ensures { result ≡ spec.over kind most number }
{
    if (most as usize) < number {
        Some(Limit {
            kind,
            count: most as u64 + 1,
            most: most as u64,
        })
    } else {
        None
    }
}

/// The limit that the case of this number passes.
fn case_limit(number: usize) -> Option<Limit>
    ensures { result ≡ spec.first_passed
        (record { kind = LimitKind.Cases; count = number; most = spec.most_cases } ∷ []) }
{
    if (MOST_CASES as usize) < number {
        Some(Limit {
            kind: LimitKind::Cases,
            count: number as u64,
            most: MOST_CASES as u64,
        })
    } else {
        None
    }
}

/// The limit that so many type parameters pass.
fn type_parameters_limit(number: usize) -> Option<Limit>
    ensures { result ≡ spec.over LimitKind.TypeParameters spec.most_type_parameters number }
{
    over(LimitKind::TypeParameters, number, MOST_TYPE_PARAMETERS)
}

/// The limit that so many parameters pass.
fn parameters_limit(number: usize) -> Option<Limit>
    ensures { result ≡ spec.over LimitKind.Parameters spec.most_parameters number }
{
    over(LimitKind::Parameters, number, MOST_PARAMETERS)
}

/// The limit that so many fields pass.
fn fields_limit(number: usize) -> Option<Limit>
    ensures { result ≡ spec.over LimitKind.Fields spec.most_fields number }
{
    over(LimitKind::Fields, number, MOST_FIELDS)
}

/// The limit that cases pass, each before its own fields.
fn cases_limit<P: Phase>(cases: &Vec<UnionCase<P>>) -> Option<Limit>
    ensures { result ≡ spec.first_passed
        (spec.counted_cases 0 (map (plain_variant P.name_bytes) (map (variant P.Phase) cases.now.items))) }
{
    for (index, one) in cases.iter().enumerate() {
        let found = case_limit(index + 1).or(fields_limit(one.fields.len()));
        if let Some(limit) = found {
            return Some(limit);
        }
    }
    None
}

/// The limit that the parameters of methods pass.
fn signatures_limit<P: Phase>(signatures: &Vec<Signature<P>>) -> Option<Limit>
    ensures { result ≡ spec.first_passed
        (flat_map spec.counted_parameters
        (map (plain_header P.name_bytes) (map (header P.Phase) signatures.now.items))) }
{
    for one in signatures {
        if let Some(limit) = parameters_limit(one.parameters.len()) {
            return Some(limit);
        }
    }
    None
}

/// The limit that the parameters of an instance's methods pass.
fn methods_limit<P: Phase>(methods: &Vec<Method<P>>) -> Option<Limit>
    ensures { result ≡ spec.first_passed
        (flat_map spec.counted_method
        (map (plain_method P.name_bytes) (map (method_body P.Phase) methods.now.items))) }
{
    for one in methods {
        if let Some(limit) = parameters_limit(one.signature.parameters.len()) {
            return Some(limit);
        }
    }
    None
}

/// The limit that a declaration passes, the first in the order of the text.
pub fn limit_of<P: Phase>(decl: &Decl<P>) -> Option<Limit>
    ensures { result ≡ spec.limit_of (plain_declaration P.name_bytes (declaration P.Phase decl.now)) }
{
    match decl {
        Decl::Opaque(_, _, parameters, _) => type_parameters_limit(parameters.len()),
        Decl::Record(_, _, parameters, _, fields) => {
            type_parameters_limit(parameters.len()).or(fields_limit(fields.len()))
        }
        Decl::Union(_, _, parameters, _, cases) => {
            type_parameters_limit(parameters.len()).or(cases_limit(cases))
        }
        Decl::Function(_, generics, header) | Decl::FunctionBody(_, generics, header, _, _) => {
            let parameters = parameters_limit(header.parameters.len());
            type_parameters_limit(generics.len()).or(parameters)
        }
        Decl::Class(_, _, _, methods) => signatures_limit(methods),
        Decl::Instance(_, generics, _, _) => type_parameters_limit(generics.len()),
        Decl::InstanceBody(_, generics, _, _, methods) => {
            type_parameters_limit(generics.len()).or(methods_limit(methods))
        }
        Decl::Constant(_, _, _) | Decl::ConstantBody(_, _, _, _) => None,
    }
}

/// The limit that declarations pass, the first in the order of the text.
pub fn limit_in<P: Phase>(declarations: &Vec<Decl<P>>) -> Option<Limit>
    ensures { result ≡ spec.limit_in
        (map (plain_declaration P.name_bytes) (map (declaration P.Phase) declarations.now.items)) }
{
    for one in declarations {
        if let Some(limit) = limit_of(one) {
            return Some(limit);
        }
    }
    None
}
