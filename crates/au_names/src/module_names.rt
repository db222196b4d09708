//! What names mean in the parts of each module.

ghost use Rattle.std.specs.Prelude.{◌≡◌, ◌<◌, IfOk, Some, length, slice_get};
ghost use Rattle.std.specs.Option.{option_map};
ghost use Rattle.au_modules.specs.Slots as slots;
ghost use Rattle.au_names.specs.Exporting.{AreExports};
ghost use Rattle.au_names.specs.Known as known;
ghost use Rattle.au_names.specs.Known.{AreNames, names_of};

use crate::exports::{Exports, exports_of};
use crate::part_names::PartNames;
use crate::seeing::names_seen;
use au_base::Memory;
use au_modules::Modules;
use au_syntax::Part;
use std::alloc::Global;

/// What names mean in the two parts of a module.
#[derive(Drop)]
pub struct ModuleNames {
    /// What they mean in its interface.
    pub interface: PartNames,
    /// What they mean in its body.
    pub body: PartNames,
}

impl ModuleNames {
    /// What they mean in one of the parts.
    pub fn in_part(&self, part: Part) -> &PartNames
        ensures { result.now ≡ known.in_part part self.now }
    {
        match part {
            Part::Interface => &self.interface,
            Part::Body => &self.body,
        }
    }
}

/// What names mean in the two parts of the module at a place.
fn names_at(
    alloc: Global,
    modules: &Modules,
    exports: &Exports,
    place: usize,
) -> Result<ModuleNames, Memory>
    requires within { place < length (slots.modules modules.now) }
    requires made { AreExports exports.now (slots.modules modules.now) }
    ensures { IfOk result
        (λ names. option_map (names_of (slots.modules modules.now) place)
        (slice_get (slots.modules modules.now) place) ≡ Some names) }
{
    let interface = names_seen(alloc, modules, exports, place, Part::Interface)?;
    match names_seen(alloc, modules, exports, place, Part::Body) {
        Ok(body) => Ok(ModuleNames { interface, body }),
        Err(fault) => Err(fault),
    }
}

/// What names mean in the modules of a program, given what its interfaces offer.
fn names_by_place(
    alloc: Global,
    modules: &Modules,
    exports: &Exports,
) -> Result<Vec<ModuleNames>, Memory>
    requires { AreExports exports.now (slots.modules modules.now) }
    ensures { IfOk result (λ all. AreNames (slots.modules modules.now) all.items) }
{
    let mut all = Vec::new(alloc);
    for place in 0..modules.len() {
        let names = names_at(alloc, modules, exports, place)?;
        all.push(names)?;
    }
    Ok(all)
}

/// What names mean in the modules of a program, by their places.
///
/// # Errors
///
/// Only for want of memory.
pub fn all_names(alloc: Global, modules: &Modules) -> Result<Vec<ModuleNames>, Memory>
    ensures { IfOk result (λ all. AreNames (slots.modules modules.now) all.items) }
{
    let exports = exports_of(alloc, modules)?;
    names_by_place(alloc, modules, &exports)
}
