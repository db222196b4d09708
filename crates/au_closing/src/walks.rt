//! The instances of a program as what a walk goes over.

ghost use Rattle.std.specs.Prelude.{◌≡◌, IfOk};
ghost use Rattle.au_closing.specs.Instances.{Instance as InstanceSeen};
ghost use Rattle.au_closing.specs.ClosingViews.{instance_said};
ghost use Rattle.au_closing.specs.Keys.{instance_key};
ghost use Rattle.au_closing.specs.Told.{instance_told};
ghost use Rattle.au_closing.specs.Telling.{instance_one};

use crate::Instance;
use crate::calls::Calls;
use crate::keys::key_of_instance;
use crate::told::told_of;
use au_base::{Limit, Memory};
use au_graphs::Ground;
use std::alloc::Global;

/// The instances of a program, over what they call.
#[derive_where(Clone, Copy)]
pub(crate) struct Instances<'a, C> {
    pub calls: &'a C,
}

impl<'a, C: Calls> Ground for Instances<'a, C> {
    type Item = Instance;

    ghost Seen = { InstanceSeen };

    ghost see = { instance_said };

    ghost key_of = { instance_key };

    ghost told_of = { instance_told };

    ghost next_of = { λ ground. C.calls_of ground.calls.now };

    fn key(alloc: Global, of: &Instance) -> Result<Vec<u32>, Memory>
        ensures { IfOk result (λ key. key.items ≡ instance_key (instance_said of.now)) }
    {
        key_of_instance(alloc, of)
    }

    fn told(of: &Instance) -> Option<Limit>
        ensures { result ≡ instance_told (instance_said of.now) }
    {
        told_of(of)
    }

    fn next(&self, alloc: Global, of: &Instance) -> Result<Vec<Instance>, Memory> {
        self.calls.calls(alloc, of)
    }

    ghost tells = { instance_one };
}
