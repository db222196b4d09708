//! A machine that is loaded with code and runs it once.

ghost use Rattle.std.specs.Prelude.{◌≡◌, true, false, [], map, IsTrue, IfOk, OnErr};
ghost use Rattle.au_low.specs.Runs.{low_run};
ghost use Rattle.au_stores.specs.Stores.{deed_of};
ghost use Rattle.au_runs.specs.Loaded.{Loaded};
ghost use Rattle.au_runs.specs.Calls.{Says, IsCut, Rose, is_read_fault, is_write_fault};

use crate::beginning::begun;
use crate::ends::End;
use crate::stepping::run_state;
use au_base::{Memory, Sink, Source};
use au_low::{Code, Event};
use au_machine::State;
use std::alloc::Global;
use std::marker::Model;

/// A machine that was loaded with code. Contracts see the code, whether events are kept, whether the machine
/// hasn't run, and the events since it was loaded.
#[derive(Drop)]
pub struct Machine<'c> {
    code: &'c Code,
    keep: bool,
    fresh: bool,
    state: Option<State>,
}

impl<'c> Model for Machine<'c> {
    ghost use Rattle.std.specs.Prelude.{◌≡◌, IsTrue};
    ghost use Rattle.std.specs.Option.{option_map};
    ghost use Rattle.au_low.specs.Runs.{first};
    ghost use Rattle.au_machine.specs.States.{machine_of};
    ghost use Rattle.au_runs.specs.Loaded.{Loaded, deeds_of};

    ghost Value = { Loaded };

    ghost view = { λ m. record {
      code = m.code.now;
      keeps = m.keep;
      fresh = m.fresh;
      events = deeds_of m.state;
    } };

    ghost invariant = { λ m. IsTrue m.fresh → option_map machine_of m.state ≡ first m.keep m.code.now };
}

impl<'c> Machine<'c> {
    /// A machine for this code, which keeps events or not.
    ///
    /// # Errors
    ///
    /// `Memory` when memory runs out.
    pub fn load(alloc: Global, code: &'c Code, keep: bool) -> Result<Machine<'c>, Memory>
        ensures { IfOk result (λ m. m ≡ record {
          code = code.now;
          keeps = keep;
          fresh = true;
          events = (low_run keep code.now [] 0).events;
        }) }
    {
        let state = begun(alloc, code, keep)?;
        Ok(Machine {
            code,
            keep,
            fresh: true,
            state,
        })
    }

    /// Whether the machine hasn't run.
    pub fn fresh(&self) -> bool
        ensures { result ≡ self.now.fresh }
    {
        self.fresh
    }

    /// The events since the machine was loaded, if it keeps events.
    pub fn events(&self) -> &[Event]
        ensures { map deed_of result.now ≡ self.now.events }
    {
        match &self.state {
            Some(state) => state.world.events.as_slice(),
            None => &[],
        }
    }

    /// Runs the code for at most so many steps.
    ///
    /// # Errors
    ///
    /// `Memory` when memory runs out; a front of what the program writes is on the sink then.
    pub fn run<I: Source, O: Sink>(
        &mut self,
        alloc: Global,
        steps: u64,
        input: &mut I,
        out: &mut O,
    ) -> Result<End, Memory>
        requires { IsTrue self.old.fresh }
        ensures says { IfOk result (λ end. Says end (low_run self.old.keeps self.old.code) steps
            (I.left input.old) (I.left input.new) (O.written out.old) (O.written out.new) self.new.events) }
        ensures read { IfOk result (λ end.
            Rose (is_read_fault end) (I.faults input.old) (I.faults input.new)) }
        ensures written { IfOk result (λ end.
            Rose (is_write_fault end) (O.faults out.old) (O.faults out.new)) }
        ensures cut { OnErr result (IsCut (low_run self.old.keeps self.old.code) steps
            (I.left input.old) (O.written out.old) (O.written out.new)) }
        ensures quiet { OnErr result
            ((I.faults input.new ≡ I.faults input.old) × (O.faults out.new ≡ O.faults out.old)) }
        ensures fresh { self.new.fresh ≡ false }
        ensures code { (self.new.code ≡ self.old.code) × (self.new.keeps ≡ self.old.keeps) }
    {
        self.fresh = false;
        run_state(alloc, self.code, &mut self.state, steps, input, out)
    }
}
