//! Which instance a class has at a type.

ghost use Rattle.std.specs.Prelude.{◌≡◌, ◌↔◌, IfOk, IfSome, None, Some, option_copied};
ghost use Rattle.std.specs.Option.{option_map};
ghost use Rattle.au_types.specs.Views.{meaning};
ghost use Rattle.au_type_texts.specs.Views.{closed_meaning};
ghost use Rattle.au_instances.specs.Becoming.{IsRowFor};
ghost use Rattle.au_instances.specs.ClosedInstances.{ClosedInstance};
ghost use Rattle.au_instances.specs.Instances.{Holds};
ghost use Rattle.au_instances.specs.Pairs as pairs;
ghost use Rattle.au_instances.specs.Rows.{Row as InstanceRow, row_said};
ghost use Rattle.au_instances.specs.Tables as tables;

use crate::becoming::becomes;
use crate::closed::closed_row;
use crate::constructors::constructor_of;
use crate::instances::Instances;
use crate::lacking::{Sight, lacking_in};
use crate::rows::{ClassAt, InstanceAt, Row};
use au_base::{Memory, Name};
use au_type_texts::Closed;
use au_types::{Heads, Params, Ty, copy_type};
use std::alloc::Global;

impl Instances {
    /// The one row of a class whose head becomes a type under some substitution that fits the universes of
    /// the row's parameters, and `None` exactly where there is none. Whether the row's constraints hold is
    /// not asked.
    ///
    /// It takes no memory.
    pub fn row_for(
        &self,
        heads: &Heads,
        scope: &Params,
        class: ClassAt,
        of: &Ty,
    ) -> Option<InstanceAt>
        ensures found { IfSome result (λ at.
            (row : InstanceRow)
            × IsRowFor heads.now scope.now self.now class (meaning of.now) row
            × (row.instance ≡ at)) }
        ensures only { (row : InstanceRow) → IsRowFor heads.now scope.now self.now class (meaning of.now) row
            → result ≡ Some row.instance }
        ensures test { result
            ≡ option_map (λ row. row.instance)
            (tables.row_for heads.now scope.now self.now class (meaning of.now)) }
    {
        self.is_table();
        match row_in(self, heads, scope, class, of) {
            Some(row) => Some(row.instance),
            None => None,
        }
    }

    /// The instance of a class at a closed type: the one row of the class whose head becomes the type under
    /// some substitution that fits the universes of the row's parameters, and whose constraints hold; `None`
    /// exactly where there is none. Regions are left out of a closed type: a region parameter of a row takes
    /// any, and a closed head stands for the type that it closes to.
    ///
    /// It takes no memory.
    pub fn instance_for(&self, heads: &Heads, class: ClassAt, of: &Closed) -> Option<InstanceAt>
        ensures found { IfSome result (λ at.
            (row : InstanceRow)
            × ClosedInstance self.now heads.now class (closed_meaning of.now) row
            × (row.instance ≡ at)) }
        ensures only { (row : InstanceRow)
            → ClosedInstance self.now heads.now class (closed_meaning of.now) row
            → result ≡ Some row.instance }
    {
        self.is_table();
        match closed_row(of, self, heads, class) {
            Some(row) => Some(row.instance),
            None => None,
        }
    }

    /// The first lacking pair of a class and a type that comes from a class at a type, and `None` exactly
    /// where the class holds there: where the type is a type parameter that is known to have it, or an
    /// instance of the class is given at it.
    ///
    /// The pairs are this one and, where a row of a pair's class has a head that becomes the pair's type,
    /// each constraint of the row's parameters with the parameter's value. A pair is followed at once by
    /// those of its row, each with all that come from it. A pair is lacking where its type is a type
    /// parameter that isn't known to have the class, and where no row of the class has a head that becomes
    /// its type.
    ///
    /// `known` lists the constraints of the type parameters in scope.
    ///
    /// # Errors
    ///
    /// `Memory` when memory runs out.
    pub fn lacking(
        &self,
        alloc: Global,
        heads: &Heads,
        scope: &Params,
        known: &[(Name, ClassAt)],
        class: ClassAt,
        of: &Ty,
    ) -> Result<Option<(ClassAt, Ty)>, Memory>
        ensures first { IfOk result (λ found. option_map pairs.told found
            ≡ pairs.lacking self.now heads.now scope.now known.now class (meaning of.now)) }
        ensures holds { IfOk result (λ found. (found ≡ None)
            ↔ Holds self.now heads.now scope.now known.now class (meaning of.now)) }
    {
        self.is_table();
        let sight = Sight {
            instances: self,
            heads,
            scope,
            known,
        };
        match lacking_in(of, &sight, class) {
            Some((class, of)) => Ok(Some((class, copy_type(alloc, of)?))),
            None => Ok(None),
        }
    }
}

/// The row of a class whose head becomes a type.
pub(crate) fn row_in<'a>(
    instances: &'a Instances,
    heads: &Heads,
    scope: &Params,
    class: ClassAt,
    of: &Ty,
) -> Option<&'a Row>
    ensures { option_map row_said (option_copied result)
        ≡ tables.row_for heads.now scope.now instances.now class (meaning of.now) }
{
    let row = instances.row_of(class, constructor_of(of)?)?;
    if becomes(heads, scope, row, of) {
        Some(row)
    } else {
        None
    }
}
