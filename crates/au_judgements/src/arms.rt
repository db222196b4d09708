//! The arms of a case.
//!
//! What the name of an arm means is asked once for each arm. Whether each case has exactly one arm is then
//! counted case by case without the table of names: cases times arms, where a union has at most 256 cases
//! (a greater one is refused where programs are gathered).

ghost use Rattle.std.specs.Prelude.{◌≡◌, IfOk, map};
ghost use Rattle.std.specs.List.{count_by};
ghost use Rattle.std.specs.Option.{option_copied, option_map};
ghost use Rattle.au_typing.specs.Parts as parts;
ghost use Rattle.au_typing.specs.DerivationSearch as spec;
ghost use Rattle.au_judgements.specs.Said.{cases_said, head_said, heads_said};
ghost use Rattle.au_judgements.specs.Steps as steps;
ghost use Rattle.au_imports.specs.Clashing.{same_target};
ghost use Rattle.au_noting.specs.Giving.{Gives};
ghost use Rattle.au_noting.specs.Scopes.{scope_said};
ghost use Rattle.au_sights.specs.Sights.{case_said};
ghost use Rattle.au_types.specs.Views.{argument, argument_all, meaning};

use crate::binding::judge_binds;
use crate::unions::cases_told;
use au_base::Memory;
use au_names::Target;
use au_noting::faults::{other_form, unknown};
use au_noting::{Fault, Scope};
use au_sights::surroundings::target;
use au_sights::{Case, Form};
use au_syntax::{Arm, Parsed};
use au_types::{Arg, Region, Ty};
use std::alloc::Global;

/// Whether two names mean one thing.
fn is_same_target(one: &Target, other: &Target) -> bool
    ensures { result ≡ same_target one.now other.now }
{
    one.at == other.at && one.name.as_bytes() == other.name.as_bytes()
}

/// That the name of each arm means something.
///
/// # Errors
///
/// The first name that means nothing.
pub fn judge_names(alloc: Global, scope: &Scope, arms: &[Arm<Parsed>]) -> Result<(), Fault>
    ensures { Gives (λ _. tt) result (spec.judge_names (scope_said scope.now) (heads_said arms.now)) }
{
    for arm in arms {
        if target(&scope.outside, &arm.case.name).is_none() {
            return Err(unknown(alloc, &arm.case.name));
        }
    }
    Ok(())
}

/// The case that a name means, if it means one of them.
fn case_meant<'c>(all: &'c [Case], meant: Option<&Target>) -> Option<&'c Case>
    ensures { option_map case_said (option_copied result)
        ≡ parts.case_meant (cases_said all.now) (option_copied meant.entry) }
{
    match meant {
        Some(one) => case_of_target(all, one),
        None => None,
    }
}

/// The first case of a target, if there is one.
fn case_of_target<'c>(all: &'c [Case], meant: &Target) -> Option<&'c Case>
    ensures { option_map case_said (option_copied result)
        ≡ steps.case_of_target (cases_said all.now) meant.now }
{
    for one in all {
        if is_same_target(meant, &one.target) {
            return Some(one);
        }
    }
    None
}

/// The case of a union that an arm is for, if it is for one.
pub fn case_of_arm<'c>(scope: &Scope, all: &'c [Case], arm: &Arm<Parsed>) -> Option<&'c Case>
    ensures { option_map case_said (option_copied result)
        ≡ parts.case_of_arm (scope_said scope.now) (cases_said all.now) (head_said arm.now) }
{
    case_meant(all, target(&scope.outside, &arm.case.name))
}

/// What the names of arms mean, in order.
fn all_meant<'s>(
    alloc: Global,
    scope: &Scope<'s>,
    arms: &[Arm<Parsed>],
) -> Result<Vec<Option<&'s Target>>, Memory>
    ensures { IfOk result (λ all. map option_copied all.items
        ≡ steps.all_meant (scope_said scope.now) (heads_said arms.now)) }
{
    let mut all = Vec::new(alloc);
    for arm in arms {
        all.push(target(&scope.outside, &arm.case.name))?;
    }
    Ok(all)
}

/// Whether a name that means this is that of a case.
fn is_meant(one: &Case, meant: Option<&Target>) -> bool
    ensures { result ≡ steps.is_meant (case_said one.now) (option_copied meant.entry) }
{
    match meant {
        Some(target) => is_same_target(target, &one.target),
        None => false,
    }
}

/// How many names are that of a case.
fn times_meant(one: &Case, all_meant: &[Option<&Target>]) -> usize
    ensures { result
        ≡ count_by (steps.is_meant (case_said one.now)) (map option_copied all_meant.now) }
{
    let mut count = 0;
    for meant in all_meant {
        if is_meant(one, *meant) {
            count += 1;
        }
    }
    count
}

/// Whether exactly one name is that of a case.
fn has_one_arm(one: &Case, all_meant: &[Option<&Target>]) -> bool
    ensures { result ≡ steps.has_one_arm (map option_copied all_meant.now) (case_said one.now) }
{
    times_meant(one, all_meant) == 1
}

/// Whether exactly one name is that of each case.
fn each_has_one_arm(all: &[Case], all_meant: &[Option<&Target>]) -> bool
    ensures { result ≡ steps.each_has_one_arm (map option_copied all_meant.now) (cases_said all.now) }
{
    for one in all {
        if !has_one_arm(one, all_meant) {
            return false;
        }
    }
    true
}

/// Whether each name is that of one of the cases.
fn each_is_for_one(all: &[Case], all_meant: &[Option<&Target>]) -> bool
    ensures { result ≡ steps.each_is_for_one (cases_said all.now) (map option_copied all_meant.now) }
{
    for meant in all_meant {
        if case_meant(all, *meant).is_none() {
            return false;
        }
    }
    true
}

/// Whether exactly one name is that of each case, and each name is that of one of them.
fn names_fit(all: &[Case], all_meant: &[Option<&Target>]) -> bool
    ensures { result ≡ steps.names_fit (cases_said all.now) (map option_copied all_meant.now) }
{
    each_has_one_arm(all, all_meant) && each_is_for_one(all, all_meant)
}

/// Whether each case of a union has exactly one arm, and each arm is for one of them.
///
/// # Errors
///
/// Only for want of memory.
pub fn arms_fit(
    alloc: Global,
    scope: &Scope,
    all: &[Case],
    arms: &[Arm<Parsed>],
) -> Result<bool, Memory>
    ensures { IfOk result (λ fit. fit
        ≡ parts.arms_fit (scope_said scope.now) (cases_said all.now) (heads_said arms.now)) }
{
    let meant = all_meant(alloc, scope, arms)?;
    Ok(names_fit(all, meant.as_slice()))
}

/// That an arm is for a case, and binds each of its fields.
///
/// # Errors
///
/// The clause that fails.
pub fn judge_arm(alloc: Global, scope: &Scope, all: &[Case], arm: &Arm<Parsed>) -> Result<(), Fault>
    ensures { Gives (λ _. tt) result
        (spec.judge_arm (scope_said scope.now) (cases_said all.now) (head_said arm.now)) }
{
    match case_of_arm(scope, all, arm) {
        Some(one) => judge_binds(alloc, scope, one.fields.as_slice(), arm.binds.as_slice()),
        None => Err(other_form(Form::Arms)),
    }
}

/// That each arm is for a case and binds each of its fields, in order.
///
/// # Errors
///
/// The first clause that fails.
pub fn judge_arms(
    alloc: Global,
    scope: &Scope,
    all: &[Case],
    arms: &[Arm<Parsed>],
) -> Result<(), Fault>
    ensures { Gives (λ _. tt) result
        (spec.judge_arms (scope_said scope.now) (cases_said all.now) (heads_said arms.now)) }
{
    for arm in arms {
        judge_arm(alloc, scope, all, arm)?;
    }
    Ok(())
}

/// That arms are those for the cases of a union: all names before the set of arms, and that before the arms.
///
/// # Errors
///
/// The first clause that fails.
pub fn judge_heads(
    alloc: Global,
    scope: &Scope,
    all: &[Case],
    arms: &[Arm<Parsed>],
) -> Result<(), Fault>
    ensures { Gives (λ _. tt) result
        (spec.judge_heads (scope_said scope.now) (cases_said all.now) (heads_said arms.now)) }
{
    judge_names(alloc, scope, arms)?;
    if arms_fit(alloc, scope, all, arms)? {
        judge_arms(alloc, scope, all, arms)
    } else {
        Err(other_form(Form::Arms))
    }
}

/// The cases that are told apart of a type in which no region is anonymous: of a union that is known there,
/// or of one behind a reference.
///
/// # Errors
///
/// That such a union is wanted.
pub fn judge_union(alloc: Global, scope: &Scope, of: &Ty) -> Result<Vec<Case>, Fault>
    ensures { Gives (λ all. cases_said all.items) result
        (spec.judge_union (scope_said scope.now) (meaning of.now)) }
{
    if is_borrowed_within(of) {
        return Err(other_form(Form::Union));
    }
    match cases_told(alloc, scope, of)? {
        Some(all) => Ok(all),
        None => Err(other_form(Form::Union)),
    }
}

/// Whether a region is that of the borrows of one whole expression, which can't be written.
fn is_anonymous(region: &Region) -> bool
    ensures { result ≡ parts.is_anonymous region.now }
{
    match region {
        Region::Static => false,
        Region::Named(_) => false,
        Region::Anonymous => true,
    }
}

/// Whether the region of the borrows of one whole expression stands somewhere in a type.
#[cycle(is_borrowed_within)]
pub fn is_borrowed_within(of: &Ty) -> bool
    ensures { result ≡ parts.is_borrowed_within (meaning of.now) }
{
    match of {
        Ty::Unit => false,
        Ty::Bool => false,
        Ty::Int(_) => false,
        Ty::Text => false,
        Ty::Param(_) => false,
        Ty::Named { args, .. } => are_borrowed_within(args),
        Ty::Read { to, region } => is_anonymous(region) || is_borrowed_within(to),
        Ty::Write { to, region } => is_anonymous(region) || is_borrowed_within(to),
    }
}

/// Whether that region stands somewhere in arguments.
#[cycle(is_borrowed_within)]
fn are_borrowed_within(args: &Vec<Arg>) -> bool
    ensures { result ≡ parts.are_borrowed_within (argument_all args.now.items) }
{
    for one in args {
        if argument_borrowed_within(one) {
            return true;
        }
    }
    false
}

/// Whether that region stands somewhere in an argument.
#[cycle(is_borrowed_within)]
fn argument_borrowed_within(one: &Arg) -> bool
    ensures { result ≡ parts.argument_borrowed_within (argument one.now) }
{
    match one {
        Arg::Of(of) => is_borrowed_within(of),
        Arg::In(region) => is_anonymous(region),
    }
}
