//! Closing a program from an entry.

ghost use Rattle.std.specs.Prelude.{◌≡◌, Bool, IfOk, Some, map};
ghost use Rattle.au_classes.specs.Rows.{rows_of};
ghost use Rattle.au_closed_programs.specs.FunctionViews.{functions_said};
ghost use Rattle.au_closed_programs.specs.Answers.{Answers, PassesNoLimit, TellsNoLimit};
ghost use Rattle.au_closed_programs.specs.Programs.{ClosesTypes};
ghost use Rattle.au_closed_programs.specs.Views.{rows_said};
ghost use Rattle.au_closing.specs.Closes as closes;
ghost use Rattle.au_closing.specs.Entries as entries;
ghost use Rattle.au_modules.specs.Slots as slots;
ghost use Rattle.au_names.specs.declared.targets.Target.{Target};
ghost use Rattle.au_noting_programs.specs.Said.{modules_said};
ghost use Rattle.au_syntax.specs.Plain.{Bytes};

use crate::calls::Bodies;
use crate::defining::all_definitions;
use crate::faults::CloseFault;
use crate::listing::closed_functions;
use crate::programs::ClosedProgram;
use crate::types::closed_types;
use au_base::{Memory, Name};
use au_closing::{Begin, EntryFault, Instance, Reached, entry_of, reached_instances};
use au_graphs::WalkFault;
use au_imports::Resolved;
use au_instances::Instances;
use au_noting_programs::NotedModule;
use std::alloc::Global;

/// The closed program of the instances that are reached from its entry, which takes the root or not.
fn closed_program(
    alloc: Global,
    bodies: &Bodies,
    reached: &Reached,
    root: bool,
) -> Result<ClosedProgram, Memory>
    ensures functions { IfOk result (λ c.
        map Some (functions_said c.functions.items)
        ≡ map (closes.instance_closed (slots.modules bodies.now.program.now)
        (modules_said bodies.now.modules.now) reached.now) reached.now) }
    ensures types { IfOk result (λ c.
        ClosesTypes (slots.modules bodies.now.program.now) (functions_said c.functions.items)
        (rows_said c.types.items)) }
    ensures root { IfOk result (λ c. c.root ≡ root) }
{
    let functions = closed_functions(alloc, bodies, reached)?;
    let types = closed_types(alloc, bodies.program, &functions)?;
    Ok(ClosedProgram {
        functions,
        types,
        root,
    })
}

/// The closed program from its entry.
fn closed_from(alloc: Global, bodies: &Bodies, begin: Begin) -> Result<ClosedProgram, CloseFault>
    ensures answers { (owner name : Bytes)
        → entries.entry_of (slots.modules bodies.now.program.now) owner name
        ≡ entries.begins begin.of begin.root
        → Answers (slots.modules bodies.now.program.now) (modules_said bodies.now.modules.now) owner name
        result }
    ensures exact { PassesNoLimit (slots.modules bodies.now.program.now)
        (modules_said bodies.now.modules.now) begin.of → TellsNoLimit result }
{
    let root = begin.root;
    let entry = Instance {
        of: begin.of,
        given: Vec::new(alloc),
    };
    match reached_instances(alloc, bodies, entry) {
        Err(WalkFault::Limit(limit)) => Err(CloseFault::Limit(limit)),
        Err(WalkFault::Memory) => Err(CloseFault::Memory),
        Ok(reached) => match closed_program(alloc, bodies, &reached, root) {
            Err(_) => Err(CloseFault::Memory),
            Ok(made) => Ok(made),
        },
    }
}

/// The closed program from its entry, by the definitions of the bodies of all modules.
fn closed_at(
    alloc: Global,
    program: &Resolved,
    instances: &Instances,
    modules: &[NotedModule],
    begin: Begin,
) -> Result<ClosedProgram, CloseFault>
    requires { instances.now ≡ rows_of (slots.modules program.now) }
    ensures answers { (owner name : Bytes)
        → entries.entry_of (slots.modules program.now) owner name ≡ entries.begins begin.of begin.root
        → Answers (slots.modules program.now) (modules_said modules.now) owner name result }
    ensures exact { PassesNoLimit (slots.modules program.now) (modules_said modules.now) begin.of
        → TellsNoLimit result }
{
    let Ok(definitions) = all_definitions(alloc, program) else {
        return Err(CloseFault::Memory);
    };
    let bodies = Bodies {
        program,
        instances,
        modules,
        definitions: &definitions,
    };
    closed_from(alloc, &bodies, begin)
}

/// What a program with notes closes to from the entry that is named by its module and its own name: each
/// function and method at the closed types at which it is called, with its closed tree, from the entry on,
/// and each closed declared type that occurs. These are the instances of its classes.
///
/// # Errors
///
/// `NoEntry` exactly where no module of the first name has a body with a function of the other; `BadEntry`,
/// at that function, exactly where it hasn't the form of an entry; `Limit` exactly where an instance passes a
/// limit, or there are more than 4,096 of them, with what is told of the first one, breadth first; `Memory`
/// when memory runs out.
pub fn close(
    alloc: Global,
    program: &Resolved,
    instances: &Instances,
    modules: &[NotedModule],
    owner: &Name,
    name: &Name,
) -> Result<ClosedProgram, CloseFault>
    requires { instances.now ≡ rows_of (slots.modules program.now) }
    ensures is { Answers (slots.modules program.now) (modules_said modules.now) owner.now name.now result }
    ensures exact { (entry : Target) (root : Bool)
        → entries.entry_of (slots.modules program.now) owner.now name.now ≡ entries.begins entry root
        → PassesNoLimit (slots.modules program.now) (modules_said modules.now) entry
        → TellsNoLimit result }
{
    match entry_of(alloc, program, owner, name) {
        Err(EntryFault::NoEntry) => Err(CloseFault::NoEntry),
        Err(EntryFault::BadEntry(at)) => Err(CloseFault::BadEntry(at)),
        Err(EntryFault::Memory) => Err(CloseFault::Memory),
        Ok(begin) => closed_at(alloc, program, instances, modules, begin),
    }
}
