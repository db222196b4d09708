//! Which types the arguments of a call get, and what its type parameters stand for.

ghost use Rattle.std.specs.Prelude.{◌≡◌, ◌==◌, IfOk, Vec, [], map};
ghost use Rattle.std.specs.List.{count_by};
ghost use Rattle.std.specs.Option.{option_map};
ghost use Rattle.std.specs.Str.{bytes_eq};
ghost use Rattle.au_matching.specs.Matched.{matched};
ghost use Rattle.au_matching.specs.Substituted.{substituted};
ghost use Rattle.au_noting.specs.Giving.{Gives, Tells};
ghost use Rattle.au_noting.specs.Modes.{wanted};
ghost use Rattle.au_noting.specs.Said.{all_typed, labels_said, meanings};
ghost use Rattle.au_types.specs.Views.{meaning};
ghost use Rattle.au_typing.specs.Calls as spec;
ghost use Rattle.au_typing.specs.Faults as faults;
ghost use Rattle.au_typing.specs.Search.{another_number, other_labels};
ghost use Rattle.au_typing.specs.SearchCalls as search;

use au_base::{Memory, Name};
use au_matching::{Match, Substitution, match_types, substitute};
use au_noting::Fault;
use au_noting::faults::{different, other_form};
use au_noting::lookups::type_of_name;
use au_sights::{Form, Typed};
use au_syntax::{Argument, Parsed};
use au_types::{Ty, copy_type};
use std::alloc::Global;

/// The types of the parameters in the order of so many positional arguments.
///
/// # Errors
///
/// How many arguments are wanted, where there are not as many.
pub fn in_order(alloc: Global, number: usize, params: &[Typed]) -> Result<Vec<Ty>, Fault>
    ensures { Gives (λ types. meanings types.items) result
        (faults.known_or (another_number (all_typed params.now))
        (spec.in_order number (all_typed params.now))) }
{
    if params.len() == number {
        Ok(types_of(alloc, params)?)
    } else {
        Err(other_form(Form::Arguments(params.len())))
    }
}

/// The types of parameters in order.
fn types_of(alloc: Global, params: &[Typed]) -> Result<Vec<Ty>, Memory>
    ensures { IfOk result (λ types. meanings types.items ≡ map (λ one. one.of) (all_typed params.now)) }
{
    let mut types = Vec::new(alloc);
    for one in params {
        types.push(copy_type(alloc, &one.of)?)?;
    }
    Ok(types)
}

/// The types of the parameters in the order of labelled arguments, where each parameter is named once and
/// each label names one.
///
/// # Errors
///
/// That other labels are wanted.
pub fn by_labels(
    alloc: Global,
    args: &[Argument<Parsed>],
    params: &[Typed],
) -> Result<Vec<Ty>, Fault>
    ensures { Gives (λ types. meanings types.items) result
        (faults.known_or (other_labels (all_typed params.now))
        (spec.by_labels (labels_said args.now) (all_typed params.now))) }
{
    if !each_is_named_once(args, params) {
        return Err(other_form(Form::Labels));
    }
    match labelled_types(alloc, args, params)? {
        Some(types) => Ok(types),
        None => Err(other_form(Form::Labels)),
    }
}

/// How many labels are this name.
fn labels_of_name(name: &Name, args: &[Argument<Parsed>]) -> usize
    ensures { result ≡ count_by (bytes_eq name.now) (labels_said args.now) }
{
    let mut count = 0;
    for one in args {
        if name.as_bytes() == one.label.name.as_bytes() {
            count += 1;
        }
    }
    count
}

/// Whether a parameter is named by exactly one label.
fn is_named_once(one: &Typed, args: &[Argument<Parsed>]) -> bool
    ensures { result ≡ (count_by (bytes_eq one.now.name) (labels_said args.now) == 1) }
{
    labels_of_name(&one.name, args) == 1
}

/// Whether each parameter is named by exactly one label.
fn each_is_named_once(args: &[Argument<Parsed>], params: &[Typed]) -> bool
    ensures { result ≡ spec.each_is_named_once (labels_said args.now) (all_typed params.now) }
{
    for one in params {
        if !is_named_once(one, args) {
            return false;
        }
    }
    true
}

/// The types of the parameters that labels name, in the order of the labels, where each names one.
fn labelled_types(
    alloc: Global,
    args: &[Argument<Parsed>],
    params: &[Typed],
) -> Result<Option<Vec<Ty>>, Memory>
    ensures { IfOk result (λ found. option_map (λ (types : Vec Ty Global). meanings types.items) found
        ≡ spec.labelled_types (labels_said args.now) (all_typed params.now)) }
{
    let mut types = Vec::new(alloc);
    for one in args {
        match type_of_name(&one.label.name, params) {
            Some(of) => types.push(copy_type(alloc, of)?)?,
            None => return Ok(None),
        }
    }
    Ok(Some(types))
}

/// The substitution that a call begins with: what makes its result equal the wanted type.
///
/// # Errors
///
/// That the two differ.
pub fn begun(alloc: Global, mode: Option<&Ty>, gives: &Ty) -> Result<Substitution, Fault>
    ensures { Gives (λ s. s) result (faults.known_or
        (search.result_differs (wanted mode.entry) (meaning gives.now))
        (spec.begun (wanted mode.entry) (meaning gives.now))) }
{
    match mode {
        None => Ok(Substitution::new(alloc)),
        Some(goal) => matched_result(alloc, gives, goal),
    }
}

/// The substitution that makes a result equal the wanted type.
fn matched_result(alloc: Global, gives: &Ty, goal: &Ty) -> Result<Substitution, Fault>
    ensures { Gives (λ s. s) result (faults.known_or
        (faults.different (meaning goal.now) (meaning gives.now))
        (matched (meaning gives.now) (meaning goal.now) [])) }
{
    match match_types(alloc, gives, goal, Substitution::new(alloc))? {
        Match::Yes(s) => Ok(s),
        Match::No => Err(different(alloc, goal, gives)),
    }
}

/// The substitution in which the type of an argument's parameter becomes this type.
///
/// # Errors
///
/// That the two differ.
pub fn taken_as(alloc: Global, param: &Ty, of: &Ty, s: &Substitution) -> Result<Substitution, Fault>
    ensures { Gives (λ r. r) result (faults.known_or
        (faults.different (substituted s.now (meaning param.now)) (meaning of.now))
        (matched (meaning param.now) (meaning of.now) s.now)) }
{
    match match_types(alloc, param, of, s.copy(alloc)?)? {
        Match::Yes(more) => Ok(more),
        Match::No => Err(unlike(alloc, param, of, s)),
    }
}

/// That the type of a parameter differs from that of its argument.
pub fn unlike(alloc: Global, param: &Ty, of: &Ty, s: &Substitution) -> Fault
    ensures { Tells (faults.different (substituted s.now (meaning param.now)) (meaning of.now)) result }
{
    match substitute(alloc, param, s) {
        Ok(goal) => different(alloc, &goal, of),
        Err(_) => Fault::Memory,
    }
}
