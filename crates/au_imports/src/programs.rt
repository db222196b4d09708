//! The modules of a program in which every name means one thing and every promise of an interface is kept.

ghost use Rattle.std.specs.Prelude.{◌≡◌, ◌<◌, IfOk, Some, length, slice_get};
ghost use Rattle.std.specs.Option.{option_map};
ghost use Rattle.au_names.specs.HeadsOf as rows;
ghost use Rattle.au_imports.specs.Good.{IsGood};
ghost use Rattle.au_modules.specs.Programs.{ModuleParts};
ghost use Rattle.au_modules.specs.Slots as slots;
ghost use Rattle.au_names.specs.Meanings.{declared_by, seen};
ghost use Rattle.au_names.specs.Known as known;
ghost use Rattle.au_names.specs.Methods.{method_at, method_seen};
ghost use Rattle.au_names.specs.Standing.{definition_of, standing_at, standing_seen};
ghost use Rattle.au_syntax.specs.Views.{written};
ghost use Rattle.au_types.specs.declared.spaces.Space.TheVariants as spaces;
ghost use Rattle.au_types.specs.Views.{meaning};
ghost use Rattle.au_types.specs.Meant.{meant};

use au_base::{Memory, Name, Text};
use au_modules::Modules;
use au_names::{Declared, NamedModules, PartNames, declaration};
use au_syntax::{Parsed, Part, Signature, TypeText};
use au_types::{DeclAt, Heads, Params, Ty};
use std::alloc::Global;
use std::marker::Model;

/// The modules of a program in which every name is good and every promise of an interface is kept, with what
/// their names mean and the rows of their declared types. Only `resolve` makes one. A contract sees the
/// modules alone: all else follows from them.
#[derive(Drop)]
pub struct Resolved {
    named: NamedModules,
}

impl Model for Resolved {
    ghost use Rattle.au_imports.specs.Good.{IsGood};
    ghost use Rattle.au_modules.specs.contracts.modules.Modules as held;
    ghost use Rattle.au_modules.specs.declared.modules.Modules.{Modules};
    ghost use Rattle.au_modules.specs.Slots as slots;

    ghost Value = { Modules };

    ghost coded = { held.the_row.coded };

    ghost view = { λ r. r.named };

    ghost invariant = { λ r. IsGood (slots.modules r.named) };
}

impl Resolved {
    /// The program of these modules, whose names are good and whose promises are kept.
    pub(crate) fn accepted(named: NamedModules) -> Resolved
        requires { IsGood (slots.modules named) }
        ensures { result ≡ named }
    {
        Resolved { named }
    }

    /// The modules. Their names are good and their promises are kept.
    pub fn modules(&self) -> &Modules
        ensures kept { result.now ≡ self.now }
        ensures good { IsGood (slots.modules self.now) }
    {
        self.named.modules()
    }

    /// The modules, by value. Their names are good and their promises are kept.
    pub fn into_modules(self) -> Modules
        ensures kept { result ≡ self }
        ensures good { IsGood (slots.modules self) }
    {
        self.named.into_modules()
    }

    /// The declaration with this module and number, if it is there: those of an interface are counted from 0,
    /// and those of the body of its module behind them.
    pub fn declaration(&self, at: DeclAt) -> Option<Declared<'_>>
        ensures { standing_seen result ≡ standing_at (slots.modules self.now) at }
    {
        declaration(self.named.modules(), at)
    }

    /// The definition of the declaration with this module and number, if both are there: an opaque type is
    /// defined by the first record or union of its name in the body of its module, and all else is its own
    /// definition.
    pub fn definition(&self, at: DeclAt) -> Option<Declared<'_>>
        ensures { standing_seen result ≡ definition_of (slots.modules self.now) at }
    {
        self.named.definition(at)
    }

    /// The first method of a name in the class with this module and number, if both are there.
    pub fn method(&self, class: DeclAt, name: &Text) -> Option<&Signature<Parsed>>
        ensures { method_seen result ≡ method_at (slots.modules self.now) class name.now }
    {
        self.named.method(class, name)
    }

    /// What names mean in a part of the module at a place.
    pub fn names(&self, place: usize, part: Part) -> &PartNames
        requires { place < length (slots.modules self.now) }
        ensures values { (m : ModuleParts) → slice_get (slots.modules self.now) place ≡ Some m
            → result.now.values ≡ declared_by (seen spaces.Values (slots.modules self.now) place m part) }
        ensures callables { (m : ModuleParts) → slice_get (slots.modules self.now) place ≡ Some m
            → result.now.callables ≡ seen spaces.Callables (slots.modules self.now) place m part }
        ensures types { (m : ModuleParts) → slice_get (slots.modules self.now) place ≡ Some m
            → result.now.types ≡ declared_by (seen spaces.Types (slots.modules self.now) place m part) }
    {
        self.named.names(place, part)
    }

    /// The rows of the declared types.
    pub fn heads_ref(&self) -> &Heads
        ensures { result.now ≡ rows.heads_of (slots.modules self.now) }
    {
        self.named.heads_ref()
    }

    /// The rows of the declared types, by value.
    ///
    /// # Errors
    ///
    /// Only for want of memory.
    pub fn heads(&self, alloc: Global) -> Result<Heads, Memory>
        ensures { IfOk result (λ heads. heads ≡ rows.heads_of (slots.modules self.now)) }
    {
        self.named.heads(alloc)
    }

    /// The type that a written type means in the body of the module at a place, or else in its interface,
    /// if it means one there: in the scope of these type parameters, and of the regions of these open
    /// borrow statements.
    ///
    /// # Errors
    ///
    /// Only for want of memory.
    pub fn type_of(
        &self,
        alloc: Global,
        place: u16,
        body: bool,
        params: &Params,
        regions: &[Name],
        node: &TypeText,
    ) -> Result<Option<Ty>, Memory>
        requires { place < length (slots.modules self.now) }
        ensures { (m : ModuleParts) → slice_get (slots.modules self.now) place ≡ Some m
            → IfOk result (λ found. option_map meaning found ≡ meant regions.now params.now
            (declared_by (seen spaces.Types (slots.modules self.now) place m (known.part_if body)))
            (rows.heads_of (slots.modules self.now)) (written node.now)) }
    {
        self.named
            .type_of(alloc, place, body, params, regions, node)
    }
}
