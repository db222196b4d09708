//! What the instances of a program call.

ghost use Rattle.std.specs.Prelude.{◌≡◌, List, IfOk};
ghost use Rattle.au_closing.specs.Instances.{Instance as InstanceSeen};
ghost use Rattle.au_closing.specs.ClosingViews.{instance_said, instances_said};

use crate::Instance;
use au_base::Memory;
use std::alloc::Global;

/// What the instances of a program call.
pub trait Calls {
    // the instances that an instance calls, in the order of the text
    ghost calls_of: { Self → InstanceSeen → List InstanceSeen };

    /// The instances that an instance calls, in the order of the text.
    ///
    /// # Errors
    ///
    /// Only for want of memory.
    fn calls(&self, alloc: Global, of: &Instance) -> Result<Vec<Instance>, Memory>
        ensures { IfOk result (λ called.
            instances_said called.items ≡ calls_of self.now (instance_said of.now)) };
}
