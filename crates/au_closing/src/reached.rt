//! The instances that are reached from an entry.

ghost use Rattle.std.specs.Prelude.{◌≡◌, ◌∷◌, [], IfOk};
ghost use Rattle.au_closing.specs.Instances.{place_in, same_instance};
ghost use Rattle.au_closing.specs.ClosingViews as views;
ghost use Rattle.au_closing.specs.ClosingViews.{instances_said};
ghost use Rattle.au_closing.specs.Told.{instance_told, most_instances, too_many};
ghost use Rattle.au_closing.specs.WalkViews.{itself};
ghost use Rattle.au_graphs.specs.Finding.{Finds_all, Refuses};
ghost use Rattle.au_graphs.specs.Reached.{Lists};
ghost use Rattle.au_graphs.specs.Walks.{IsWithin};

use crate::Instance;
use crate::calls::Calls;
use crate::keys::key_of_instance;
use crate::walks::Instances;
use au_base::{Limit, LimitKind, Memory};
use au_graphs::{Finds, WalkFault, reach};
use std::alloc::Global;
use std::marker::Model;

/// The most instances of a program.
const MOST_INSTANCES: usize = 4_096;

/// The instances that a program reaches, seen by contracts as their list in the order of their numbers. The
/// number of an instance is found without a walk through the list.
#[derive(Drop)]
pub struct Reached {
    finds: Finds<Instance>,
}

impl Model for Reached {
    ghost use Rattle.std.specs.Coded.{coded_list};
    ghost use Rattle.std.specs.Prelude.{List};
    ghost use Rattle.au_closing.specs.Instances.{Instance};
    ghost use Rattle.au_closing.specs.ClosingViews.{instance_said};
    ghost use Rattle.au_closing.specs.Keys.{instance_key};
    ghost use Rattle.au_closing.specs.Telling.{instance_coded};
    ghost use Rattle.au_graphs.specs.Finding.{IsKeyed, found_in};

    ghost Value = { List Instance };

    ghost coded = { coded_list instance_coded };

    ghost view = { λ r. found_in instance_said r.finds };

    ghost invariant = { λ r. IsKeyed instance_said instance_key r.finds };
}

impl Reached {
    /// The instances in the order of their numbers.
    pub fn list(&self) -> &[Instance]
        ensures { instances_said result.now ≡ self.now }
    {
        self.finds.list()
    }

    /// The number of an instance, and how many there are where it isn't listed.
    ///
    /// # Errors
    ///
    /// Only for want of memory.
    pub fn number(&self, alloc: Global, one: &Instance) -> Result<usize, Memory>
        ensures { IfOk result (λ number. number ≡ place_in (views.instance_said one.now) self.now) }
    {
        let key = key_of_instance(alloc, one)?;
        let count = self.finds.list().len();
        Ok(self.finds.place(&key).unwrap_or(count))
    }
}

/// The instances that are reached from an entry: the entry, and then what each of them calls, in the order of
/// the text and each once. An instance is found by its key and not by comparing it with all.
///
/// # Errors
///
/// `Limit` exactly where an instance passes a limit, or there are more than 4,096 of them, with what is told
/// of the first one: of the depths of the types that are given, in order, then of their nodes, then of the
/// count of instances; `Memory` when memory runs out.
pub fn reached_instances<C: Calls>(
    alloc: Global,
    calls: &C,
    entry: Instance,
) -> Result<Reached, WalkFault>
    ensures lists { IfOk result (λ all.
        Lists same_instance (C.calls_of calls.now) (views.instance_said entry ∷ []) all) }
    ensures within { IfOk result (IsWithin same_instance instance_told most_instances) }
    ensures finds { Finds_all itself result same_instance instance_told most_instances
        (C.calls_of calls.now) (views.instance_said entry ∷ []) }
    ensures refuses { Refuses result same_instance instance_told too_many most_instances
        (C.calls_of calls.now) (views.instance_said entry ∷ []) }
{
    let mut starts = Vec::new(alloc);
    starts.push(entry)?;
    let ground = Instances { calls };
    let full = Limit {
        kind: LimitKind::Instances,
        count: 4_097,
        most: 4_096,
    };
    match reach(alloc, &ground, starts, full, MOST_INSTANCES) {
        Ok(finds) => Ok(Reached { finds }),
        Err(fault) => Err(fault),
    }
}
