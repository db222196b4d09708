//! Which instance a class has at a type.

ghost use Rattle.std.specs.Prelude.{◌≡◌, ◌↔◌, None, Some, IfOk, IfSome};
ghost use Rattle.std.specs.Option.{option_map};
ghost use Rattle.au_type_texts.specs.Views.{closed_meaning};
ghost use Rattle.au_instances.specs.Becoming.{IsRowFor};
ghost use Rattle.au_instances.specs.ClosedInstances.{ClosedInstance};
ghost use Rattle.au_instances.specs.Instances.{Holds};
ghost use Rattle.au_instances.specs.Pairs as pairs;
ghost use Rattle.au_instances.specs.Rows.{Row as InstanceRow};
ghost use Rattle.au_types.specs.Views.{meaning};

use crate::declaring::Classes;
use au_base::{Memory, Name};
use au_instances::{ClassAt, InstanceAt};
use au_type_texts::Closed;
use au_types::{Params, Ty};
use std::alloc::Global;

impl Classes {
    /// The instance of a class at a closed type: the one whose head becomes the type under some substitution
    /// that fits the universes of its parameters, and whose constraints hold; `None` exactly where there is
    /// none. It takes no memory.
    pub fn instance_for(&self, class: ClassAt, of: &Closed) -> Option<InstanceAt>
        ensures found { IfSome result (λ at.
            (row : InstanceRow)
            × ClosedInstance self.now.instances self.now.heads class (closed_meaning of.now) row
            × (row.instance ≡ at)) }
        ensures only { (row : InstanceRow)
            → ClosedInstance self.now.instances self.now.heads class (closed_meaning of.now) row
            → result ≡ Some row.instance }
    {
        self.instances.instance_for(&self.heads, class, of)
    }

    /// The one instance of a class whose head becomes a type under some substitution that fits the universes
    /// of its parameters, and `None` exactly where there is none. Whether its constraints hold is not asked.
    ///
    /// It takes no memory.
    pub fn row_for(&self, scope: &Params, class: ClassAt, of: &Ty) -> Option<InstanceAt>
        ensures found { IfSome result (λ at.
            (row : InstanceRow)
            × IsRowFor self.now.heads scope.now self.now.instances class (meaning of.now) row
            × (row.instance ≡ at)) }
        ensures only { (row : InstanceRow)
            → IsRowFor self.now.heads scope.now self.now.instances class (meaning of.now) row
            → result ≡ Some row.instance }
    {
        self.instances.row_for(&self.heads, scope, class, of)
    }

    /// The first lacking pair of a class and a type that comes from a class at a type, and `None` exactly
    /// where the class holds there: where the type is a type parameter that is known to have it, or an
    /// instance of the class is given at it, with all its constraints.
    ///
    /// `known` lists the constraints of the type parameters in scope.
    ///
    /// # Errors
    ///
    /// Only for want of memory.
    pub fn lacking(
        &self,
        alloc: Global,
        scope: &Params,
        known: &[(Name, ClassAt)],
        class: ClassAt,
        of: &Ty,
    ) -> Result<Option<(ClassAt, Ty)>, Memory>
        ensures first { IfOk result (λ found. option_map pairs.told found
            ≡ pairs.lacking self.now.instances self.now.heads scope.now known.now class (meaning of.now)) }
        ensures holds { IfOk result (λ found. (found ≡ None)
            ↔ Holds self.now.instances self.now.heads scope.now known.now class (meaning of.now)) }
    {
        self.instances
            .lacking(alloc, &self.heads, scope, known, class, of)
    }
}
