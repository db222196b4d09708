//! What a part of a module sees outside of its functions.

ghost use Rattle.std.specs.Prelude.{◌≡◌, IfOk, Vec, map};
ghost use Rattle.std.specs.Option.{option_copied, option_map};
ghost use Rattle.au_sights.specs.Sights.{callable_said, case_said, outside_seen, typed_said};
ghost use Rattle.au_types.specs.Views.{meaning};

use crate::callables::callable_at;
use crate::called::{Callable, Case, Typed};
use crate::constants::constant_standing;
use crate::insides::{cases_of, fields_of};
use au_base::{Memory, Name};
use au_imports::Resolved;
use au_instances::Instances;
use au_names::{PartNames, Target};
use au_types::Ty;
use std::alloc::Global;

/// What a part of a module sees outside of its functions.
#[derive(Clone, Copy)]
pub struct Surroundings<'a> {
    /// The program.
    pub program: &'a Resolved,
    /// The instances of its classes.
    pub instances: &'a Instances,
    /// What names mean in the part.
    pub names: &'a PartNames,
    /// The place of the module.
    pub place: u16,
}

/// The type of the constant that a name means, if it means one.
///
/// # Errors
///
/// Only for want of memory.
pub fn constant(alloc: Global, sight: &Surroundings, name: &Name) -> Result<Option<Ty>, Memory>
    ensures { IfOk result (λ found. option_map meaning found ≡ (outside_seen sight.now).constant name.now) }
{
    match sight.names.values.get(name.as_bytes()) {
        None => Ok(None),
        Some(at) => constant_standing(alloc, sight.program, *at),
    }
}

/// What a name means that is called, if it means that.
///
/// # Errors
///
/// Only for want of memory.
pub fn callable(
    alloc: Global,
    sight: &Surroundings,
    name: &Name,
) -> Result<Option<Callable>, Memory>
    ensures { IfOk result (λ found. option_map callable_said found
        ≡ (outside_seen sight.now).callable name.now) }
{
    match target(sight, name) {
        None => Ok(None),
        Some(target) => callable_at(alloc, sight.program, target),
    }
}

/// What a name means among what is called, if it means anything there.
pub fn target<'a>(sight: &Surroundings<'a>, name: &Name) -> Option<&'a Target>
    ensures { option_copied result ≡ (outside_seen sight.now).target name.now }
{
    sight.names.callables.get(name.as_bytes())
}

/// The fields of a type, if it is a record that is known here.
///
/// # Errors
///
/// Only for want of memory.
pub fn fields(alloc: Global, sight: &Surroundings, of: &Ty) -> Result<Option<Vec<Typed>>, Memory>
    ensures { IfOk result (λ found. option_map (λ (all : Vec Typed Global). map typed_said all.items) found
        ≡ (outside_seen sight.now).fields (meaning of.now)) }
{
    fields_of(alloc, sight.program, sight.place, of)
}

/// The cases of a type, if it is a union that is known here.
///
/// # Errors
///
/// Only for want of memory.
pub fn cases(alloc: Global, sight: &Surroundings, of: &Ty) -> Result<Option<Vec<Case>>, Memory>
    ensures { IfOk result (λ found. option_map (λ (all : Vec Case Global). map case_said all.items) found
        ≡ (outside_seen sight.now).cases (meaning of.now)) }
{
    cases_of(alloc, sight.program, sight.place, of)
}
