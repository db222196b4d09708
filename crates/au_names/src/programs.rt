//! The modules of a program with all that is known of their names and types.

ghost use Rattle.std.specs.Prelude.{◌≡◌, ◌<◌, IfOk, Some, length, slice_get};
ghost use Rattle.std.specs.Option.{option_map};
ghost use Rattle.au_names.specs.HeadsOf as rows;
ghost use Rattle.au_modules.specs.Programs.{ModuleParts};
ghost use Rattle.au_modules.specs.Slots as slots;
ghost use Rattle.au_names.specs.Meanings.{declared_by, seen};
ghost use Rattle.au_names.specs.Known as known;
ghost use Rattle.au_names.specs.Methods.{method_at, method_seen};
ghost use Rattle.au_names.specs.Standing.{definition_of, standing_seen};
ghost use Rattle.au_syntax.specs.Views.{written};
ghost use Rattle.au_types.specs.declared.spaces.Space.TheVariants as spaces;
ghost use Rattle.au_types.specs.Views.{meaning};
ghost use Rattle.au_types.specs.Meant.{meant};

use crate::declarations::Declared;
use crate::definitions::{Definitions, definition};
use crate::methods::method;
use crate::module_names::{ModuleNames, all_names};
use crate::part_names::PartNames;
use crate::walking::heads_of;
use au_base::{Memory, Name, Text};
use au_modules::Modules;
use au_syntax::{Parsed, Part, Signature, TypeText};
use au_types::{DeclAt, Heads, Params, Scope, Table, Ty, type_meant};
use std::alloc::Global;
use std::marker::Model;

/// The modules of a program, of which is known what names mean in each part of each of them, the rows of its
/// declared types, and what defines these. A contract sees the modules alone: all else follows from them.
#[derive(Drop)]
pub struct NamedModules {
    modules: Modules,
    names: Vec<ModuleNames>,
    heads: Heads,
    definitions: Definitions,
}

impl Model for NamedModules {
    ghost use Rattle.au_modules.specs.contracts.modules.Modules as held;
    ghost use Rattle.au_modules.specs.declared.modules.Modules.{Modules};
    ghost use Rattle.au_modules.specs.Slots as slots;
    ghost use Rattle.au_names.specs.Known.{IsResolved};

    ghost Value = { Modules };

    ghost coded = { held.the_row.coded };

    ghost view = { λ r. r.modules };

    ghost invariant = { λ r. IsResolved (slots.modules r.modules) r.names.items r.heads r.definitions };
}

impl NamedModules {
    /// These modules with all that is known of them.
    ///
    /// # Errors
    ///
    /// Only for want of memory.
    pub fn of(alloc: Global, modules: Modules) -> Result<NamedModules, Memory>
        ensures { IfOk result (λ resolved. resolved ≡ modules) }
    {
        let names = all_names(alloc, &modules)?;
        let heads = heads_of(alloc, &modules)?;
        let definitions = Definitions::of(alloc, &modules)?;
        Ok(NamedModules {
            modules,
            names,
            heads,
            definitions,
        })
    }

    /// The modules.
    pub fn modules(&self) -> &Modules
        ensures { result.now ≡ self.now }
    {
        &self.modules
    }

    /// The modules, by value.
    pub fn into_modules(self) -> Modules
        ensures { result ≡ self }
    {
        self.modules
    }

    /// The definition of the declaration with this module and number, if both are there: an opaque type is
    /// defined by the first record or union of its name in the body of its module, and all else is its own
    /// definition.
    pub fn definition(&self, at: DeclAt) -> Option<Declared<'_>>
        ensures { standing_seen result ≡ definition_of (slots.modules self.now) at }
    {
        definition(&self.modules, &self.definitions, at)
    }

    /// The first method of a name in the class with this module and number, if both are there.
    pub fn method(&self, class: DeclAt, name: &Text) -> Option<&Signature<Parsed>>
        ensures { method_seen result ≡ method_at (slots.modules self.now) class name.now }
    {
        method(&self.modules, &self.definitions.methods, class, name)
    }

    /// What names mean in a part of the module at a place.
    pub fn names(&self, place: usize, part: Part) -> &PartNames
        requires { place < length (slots.modules self.now) }
        ensures values { (m : ModuleParts) → slice_get (slots.modules self.now) place ≡ Some m
            → result.now.values ≡ declared_by (seen spaces.Values (slots.modules self.now) place m part) }
        ensures callables { (m : ModuleParts) → slice_get (slots.modules self.now) place ≡ Some m
            → result.now.callables ≡ seen spaces.Callables (slots.modules self.now) place m part }
        ensures types { (m : ModuleParts) → slice_get (slots.modules self.now) place ≡ Some m
            → result.now.types ≡ declared_by (seen spaces.Types (slots.modules self.now) place m part) }
    {
        self.names[place].in_part(part)
    }

    /// The rows of the declared types.
    pub fn heads_ref(&self) -> &Heads
        ensures { result.now ≡ rows.heads_of (slots.modules self.now) }
    {
        &self.heads
    }

    /// The rows of the declared types, by value.
    ///
    /// # Errors
    ///
    /// Only for want of memory.
    pub fn heads(&self, alloc: Global) -> Result<Heads, Memory>
        ensures { IfOk result (λ heads. heads ≡ rows.heads_of (slots.modules self.now)) }
    {
        heads_of(alloc, self.modules())
    }

    /// The type that a written type means in the body of the module at a place, or else in its interface,
    /// if it means one there: in the scope of these type parameters, and of the regions of these open
    /// borrow statements.
    ///
    /// # Errors
    ///
    /// Only for want of memory.
    pub fn type_of(
        &self,
        alloc: Global,
        place: u16,
        body: bool,
        params: &Params,
        regions: &[Name],
        node: &TypeText,
    ) -> Result<Option<Ty>, Memory>
        requires { place < length (slots.modules self.now) }
        ensures { (m : ModuleParts) → slice_get (slots.modules self.now) place ≡ Some m
            → IfOk result (λ found. option_map meaning found
            ≡ meant regions.now params.now
            (declared_by (seen spaces.Types (slots.modules self.now) place m (known.part_if body)))
            (rows.heads_of (slots.modules self.now)) (written node.now)) }
    {
        let names = self.names(place as usize, part_if(body));
        let found = meant_with(alloc, regions, params, &names.types, self.heads_ref(), node)?;
        Ok(found)
    }
}

/// The body, or else the interface.
fn part_if(body: bool) -> Part
    ensures { result ≡ known.part_if body }
{
    if body { Part::Body } else { Part::Interface }
}

/// The type that a written type means in the scope of these regions and type parameters, names and rows.
fn meant_with(
    alloc: Global,
    regions: &[Name],
    params: &Params,
    names: &Table<DeclAt>,
    heads: &Heads,
    node: &TypeText,
) -> Result<Option<Ty>, Memory>
    ensures { IfOk result
        (λ found. option_map meaning found
        ≡ meant regions.now params.now names.now heads.now (written node.now)) }
{
    let scope = Scope {
        regions,
        params,
        names,
        heads,
    };
    type_meant(alloc, &scope, node)
}
