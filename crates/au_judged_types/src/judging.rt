//! What written types are judged to mean.

ghost use Rattle.std.specs.Prelude.{◌≡◌, ◌&&◌, IfOk, Some, length, map};
ghost use Rattle.au_syntax.specs.declared.types.TypeText.{TypeText};
ghost use Rattle.au_syntax.specs.Views.{written};
ghost use Rattle.au_types.specs.Same.{same, same_region};
ghost use Rattle.au_types.specs.Types.{in_region, integer, of_type};
ghost use Rattle.au_types.specs.Views.{argument, argument_all, meaning};
ghost use Rattle.au_types.specs.WrittenViews.{said, sense_in};
ghost use Rattle.au_judged_types.specs.Judging as judging;
ghost use Rattle.au_judged_types.specs.Reasons.{kept, means};
ghost use Rattle.au_judged_types.specs.Views.{StandForIn, applied_in, arguments_in, declared_in, fitted_in};
ghost use Rattle.au_judged_types.specs.Views.{given_in, judged_in, outcome, region, region_in};
ghost use Rattle.au_judged_types.specs.Views.{region_named_in};

use crate::fitting::first_unfit;
use crate::reasons::{Judged, Reason, unknown};
use crate::regions::{judge_region, written_region};
use au_base::{IntKind, Memory, Name};
use au_syntax::{Access, TypeText, Universe};
use au_types::{Arg, DeclAt, Params, Region, Scope, Sense, Ty, is_same, is_same_region, sense_of};
use std::alloc::Global;

/// The type that a written type is judged to mean in a scope, or why it isn't well formed there. Its name is
/// judged first, then the number of its arguments, then the arguments from left to right, each one whole, and
/// then whether they fit in universe, from left to right; of a reference the type behind it, and then its
/// region.
///
/// # Errors
///
/// Only for want of memory.
#[tactic(auto, using(au_syntax::proofs::TypeLemmas::type_steps, crate::proofs::JudgedLemmas::judged_steps))]
#[cycle(judge_type)]
pub fn judge_type(alloc: Global, scope: &Scope, node: &TypeText) -> Result<Judged<Ty>, Memory>
    ensures { IfOk result (λ found. outcome meaning found ≡ judged_in scope.now (written node.now)) }
{
    match node {
        TypeText::Named(name, args) => judge_name(alloc, scope, &name.name, args),
        TypeText::Reference(_, access, target, region) => match judge_type(alloc, scope, target)? {
            Judged::Means(to) => judge_reference(alloc, scope, *access, to, &region.name),
            Judged::Fails(why) => Ok(Judged::Fails(why)),
        },
    }
}

/// A reference to a type, whose region has this name.
fn judge_reference(
    alloc: Global,
    scope: &Scope,
    access: Access,
    to: Ty,
    region: &Name,
) -> Result<Judged<Ty>, Memory>
    ensures { IfOk result (λ found. outcome meaning found
        ≡ kept (judging.refers access (meaning to)) (region_named_in scope.now region.now)) }
{
    match judge_region(alloc, scope, region)? {
        Judged::Means(region) => Ok(Judged::Means(refers(access, Box::new(alloc, to)?, region))),
        Judged::Fails(why) => Ok(Judged::Fails(why)),
    }
}

/// A name with arguments.
#[cycle(judge_type)]
fn judge_name(
    alloc: Global,
    scope: &Scope,
    name: &Name,
    args: &Vec<TypeText>,
) -> Result<Judged<Ty>, Memory>
    ensures { IfOk result (λ found. outcome meaning found
        ≡ applied_in scope.now name.now (sense_in scope.now name.now) args.now.items) }
{
    match sense_of(scope, name) {
        Some(sense) => judge_sense(alloc, scope, name, &sense, args),
        None => Ok(Judged::Fails(unknown(alloc, name)?)),
    }
}

/// A name that has this sense, with arguments.
#[tactic(auto, using(au_types::proofs::TypeLemmas::type_steps))]
#[cycle(judge_type)]
fn judge_sense(
    alloc: Global,
    scope: &Scope,
    name: &Name,
    sense: &Sense,
    args: &Vec<TypeText>,
) -> Result<Judged<Ty>, Memory>
    ensures { IfOk result (λ found. outcome meaning found
        ≡ applied_in scope.now name.now (Some (said name.now sense.now)) args.now.items) }
{
    match sense {
        Sense::Unit => Ok(alone(Ty::Unit, args)),
        Sense::Bool => Ok(alone(Ty::Bool, args)),
        Sense::Int(kind) => Ok(alone(Ty::Int(*kind), args)),
        Sense::Param => {
            let name = name.copy(alloc)?;
            Ok(alone(Ty::Param(name), args))
        }
        Sense::Span => judge_span(alloc, scope, args),
        Sense::Static => Ok(Judged::Fails(unknown(alloc, name)?)),
        Sense::Region => Ok(Judged::Fails(unknown(alloc, name)?)),
        Sense::Declared(at, expected) => judge_declared(alloc, scope, *at, expected, args),
        Sense::Class(_) => Ok(Judged::Fails(unknown(alloc, name)?)),
    }
}

/// `Span` with arguments.
#[tactic(auto, using(crate::proofs::JudgedLemmas::span_of_others))]
#[cycle(judge_type)]
fn judge_span(alloc: Global, scope: &Scope, args: &Vec<TypeText>) -> Result<Judged<Ty>, Memory>
    ensures { IfOk result (λ found. outcome meaning found
        ≡ judging.span_with (map (given_in scope.now) args.now.items)) }
{
    if args.len() != 2 {
        return Ok(Judged::Fails(Reason::Arguments(2)));
    }
    let of = judge_type(alloc, scope, &args[0])?;
    let region = written_region(alloc, scope, &args[1])?;
    Ok(span_of(of, region))
}

/// A declared type with arguments.
#[cycle(judge_type)]
fn judge_declared(
    alloc: Global,
    scope: &Scope,
    at: DeclAt,
    expected: &Params,
    args: &Vec<TypeText>,
) -> Result<Judged<Ty>, Memory>
    ensures { IfOk result (λ found. outcome meaning found
        ≡ declared_in scope.now at expected.now args.now.items) }
{
    if args.len() != expected.len() {
        return Ok(Judged::Fails(Reason::Arguments(expected.len())));
    }
    match judge_arguments(alloc, scope, expected, args)? {
        Judged::Means(args) => fitted(alloc, scope, at, expected, args),
        Judged::Fails(why) => Ok(Judged::Fails(why)),
    }
}

/// As many arguments as there are type parameters, each in its place.
#[cycle(judge_type)]
fn judge_arguments(
    alloc: Global,
    scope: &Scope,
    expected: &Params,
    args: &Vec<TypeText>,
) -> Result<Judged<Vec<Arg>>, Memory>
    requires { length args.now.items ≡ length expected.now }
    ensures { IfOk result (λ found. outcome (λ all. argument_all all.items) found
        ≡ arguments_in scope.now expected.now args.now.items) }
{
    let mut found = Vec::new(alloc);
    for (index, one) in args.iter().enumerate() {
        let universe = expected.at(index).universe;
        match judge_argument(alloc, scope, universe, one)? {
            Judged::Means(arg) => found.push(arg)?,
            Judged::Fails(why) => return Ok(Judged::Fails(why)),
        }
    }
    Ok(Judged::Means(found))
}

/// An argument for a type parameter of a universe.
#[cycle(judge_type)]
fn judge_argument(
    alloc: Global,
    scope: &Scope,
    universe: Universe,
    node: &TypeText,
) -> Result<Judged<Arg>, Memory>
    ensures { IfOk result (λ found. outcome argument found
        ≡ judging.argument_judged universe (given_in scope.now node.now)) }
{
    match universe {
        Universe::Free => type_argument(alloc, scope, node),
        Universe::Linear => type_argument(alloc, scope, node),
        Universe::AnyType => type_argument(alloc, scope, node),
        Universe::Region => region_argument(alloc, scope, node),
    }
}

/// An argument where a type is wanted.
#[tactic(auto, using(au_types::proofs::TypeLemmas::type_steps))]
#[cycle(judge_type)]
fn type_argument(alloc: Global, scope: &Scope, node: &TypeText) -> Result<Judged<Arg>, Memory>
    ensures { IfOk result (λ found. outcome argument found
        ≡ kept of_type (judged_in scope.now (written node.now))) }
{
    match judge_type(alloc, scope, node)? {
        Judged::Means(of) => Ok(Judged::Means(Arg::Of(of))),
        Judged::Fails(why) => Ok(Judged::Fails(why)),
    }
}

/// An argument where a region is wanted.
#[tactic(auto, using(au_types::proofs::TypeLemmas::type_steps))]
fn region_argument(alloc: Global, scope: &Scope, node: &TypeText) -> Result<Judged<Arg>, Memory>
    ensures { IfOk result (λ found. outcome argument found
        ≡ kept in_region (region_in scope.now (written node.now))) }
{
    match written_region(alloc, scope, node)? {
        Judged::Means(region) => Ok(Judged::Means(Arg::In(region))),
        Judged::Fails(why) => Ok(Judged::Fails(why)),
    }
}

/// A declared type with arguments that mean something.
#[tactic(auto, using(au_types::proofs::TypeLemmas::type_steps))]
fn fitted(
    alloc: Global,
    scope: &Scope,
    at: DeclAt,
    expected: &Params,
    args: Vec<Arg>,
) -> Result<Judged<Ty>, Memory>
    requires { StandForIn scope.now expected.now (argument_all args.items) }
    ensures { IfOk result (λ found. outcome meaning found
        ≡ fitted_in scope.now at expected.now (argument_all args.items)) }
{
    match first_unfit(alloc, scope, expected, &args)? {
        Some(why) => Ok(Judged::Fails(why)),
        None => Ok(Judged::Means(Ty::Named { of: at, args })),
    }
}

/// A type that takes no arguments, with these.
#[tactic(auto, using(crate::proofs::JudgedLemmas::alone_steps))]
fn alone(of: Ty, args: &Vec<TypeText>) -> Judged<Ty>
    ensures { (f : TypeText → judging.Given)
        → outcome meaning result ≡ judging.alone (meaning of) (map f args.now.items) }
{
    if args.is_empty() {
        Judged::Means(of)
    } else {
        Judged::Fails(Reason::Arguments(0))
    }
}

/// `Span` with two arguments, which are those of the type of texts.
fn span_of(of: Judged<Ty>, judged: Judged<Region>) -> Judged<Ty>
    ensures { outcome meaning result ≡ judging.span_of (outcome meaning of) (region judged) }
{
    let Judged::Means(of) = of else {
        return Judged::Fails(Reason::Arguments(2));
    };
    let Judged::Means(region) = judged else {
        return Judged::Fails(Reason::Arguments(2));
    };
    text_of(&of, &region)
}

/// The type of texts, where it has this element and this region.
#[tactic(auto, using(au_types::proofs::TypeLemmas::type_steps))]
fn text_of(of: &Ty, region: &Region) -> Judged<Ty>
    ensures { outcome meaning result ≡ judging.span_of (means (meaning of.now)) (means region.now) }
{
    if is_text(of, region) {
        Judged::Means(Ty::Text)
    } else {
        Judged::Fails(Reason::Arguments(2))
    }
}

/// Whether the texts have this element and this region.
#[tactic(auto, using(au_types::proofs::TypeLemmas::type_steps))]
fn is_text(of: &Ty, region: &Region) -> bool
    ensures { result ≡ (same (meaning of.now) (integer IntKind.Nat8)
        && same_region region.now Region.Static) }
{
    is_same(of, &Ty::Int(IntKind::Nat8)) && is_same_region(region, &Region::Static)
}

/// A reference to a type in a region.
#[tactic(auto, using(au_types::proofs::TypeLemmas::type_steps))]
fn refers(access: Access, to: Box<Ty>, region: Region) -> Ty
    ensures { meaning result ≡ judging.refers access (meaning to.value) region }
{
    match access {
        Access::Read => Ty::Read { to, region },
        Access::Write => Ty::Write { to, region },
    }
}
