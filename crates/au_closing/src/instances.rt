//! Instances, and what calls lead to.

ghost use Rattle.std.specs.Prelude.{◌≡◌, IfOk};
ghost use Rattle.au_closing.specs.Instances.{same_instance};
ghost use Rattle.au_closing.specs.ClosingViews.{instance_said};

use au_base::Memory;
use au_names::Target;
use au_shipped::ShippedCall;
use au_type_texts::{Closed, GivenType, copy_given, is_same_given};
use std::alloc::Global;

/// A function or a method of an instance of a class, with closed types for its type parameters.
#[derive(Drop)]
pub struct Instance {
    /// The declaration of the function, or of the instance of a class, and the name of the function or
    /// method.
    pub of: Target,
    /// What is given for its type parameters in declared order; for a method, for those of its instance.
    pub given: Vec<GivenType>,
}

/// What a call leads to.
#[derive(Drop)]
pub enum Lead {
    /// Nothing: no call of a derived program leads nowhere.
    Nowhere,
    /// An instance.
    To(Instance),
    /// The constructor of a record, or of a case of a union.
    Constructor {
        /// The type.
        of: Closed,
        /// The place of the case among those of the union, and 0 for a record.
        tag: u32,
    },
    /// A shipped call.
    Shipped(ShippedCall),
}

impl Instance {
    /// An instance that is the same.
    ///
    /// # Errors
    ///
    /// Only for want of memory.
    pub fn copy(&self, alloc: Global) -> Result<Instance, Memory>
        ensures { IfOk result (λ copy. instance_said copy ≡ instance_said self.now) }
    {
        let of = self.of.copy(alloc)?;
        let given = copy_given(alloc, &self.given)?;
        Ok(Instance { of, given })
    }
}

/// Whether two instances are one.
pub fn is_same_instance(one: &Instance, other: &Instance) -> bool
    ensures { result ≡ same_instance (instance_said one.now) (instance_said other.now) }
{
    one.of.at == other.of.at
        && one.of.name.as_bytes() == other.of.name.as_bytes()
        && is_same_given(&one.given, &other.given)
}
