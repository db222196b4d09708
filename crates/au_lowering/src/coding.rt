//! Lowering a closed program.

ghost use Rattle.std.specs.Prelude.{◌≡◌, ◌++◌, [], IfOk, OnOk, Some, map, List};
ghost use Rattle.std.specs.Str.{bytes_eq};
ghost use Rattle.au_closed_programs.specs.FunctionViews.{functions_said};
ghost use Rattle.au_type_texts.specs.Keys.{key_of};
ghost use Rattle.au_closed_trees.specs.Views.{fields_said};
ghost use Rattle.au_closed_programs.specs.Views.{program_said};
ghost use Rattle.au_type_texts.specs.Same.{same};
ghost use Rattle.au_lowered.specs.Programs.{texts_named, types_named};
ghost use Rattle.au_lowering.specs.Closed as spec;
ghost use Rattle.au_lowering.specs.Closed.{functions_of, is_too_long, takes_root_of, types_of};
ghost use Rattle.au_lowering.specs.Answers.{TellsLimit};
ghost use Rattle.au_lowering.specs.Drafted.{all_drafts, drafted, function_by};
ghost use Rattle.au_lowering.specs.Rows.{rows_in};
ghost use Rattle.au_lowering.specs.DraftViews.{all_said};
ghost use Rattle.au_graphs.specs.Reached.{adds};
ghost use Rattle.au_types.specs.Tables.{find};

use crate::faults::LowerFault;
use crate::functions::{Drafted, collect_functions, number_functions, passes_limit};
use crate::tables::{Tables, TextTable, TypeTable};
use crate::telling::{TypeRows, tell_rows, tell_types};
use au_base::{Limit, LimitKind, Memory};
use au_closed_programs::{ClosedFunction, ClosedProgram};
use au_closed_trees::ClosedField;
use au_low::Code;
use std::alloc::Global;

/// Puts the types of parameters into a table, in their order.
fn collect_parameters(
    alloc: Global,
    types: &mut TypeTable,
    parameters: &Vec<ClosedField>,
) -> Result<(), Memory>
    ensures { OnOk result (types.new
        ≡ adds bytes_eq types.old (map key_of (types_of (fields_said parameters.now.items)))) }
{
    for one in parameters {
        types.put(alloc, &one.of)?;
    }
    Ok(())
}

/// The types of the parameters of the entry, which is the first function.
fn entry_table(alloc: Global, functions: &Vec<ClosedFunction>) -> Result<TypeTable, Memory>
    ensures { IfOk result (λ types. types
        ≡ adds bytes_eq [] (map key_of (spec.roots_of (functions_said functions.now.items)))) }
{
    let mut types = TypeTable::new(alloc);
    if functions.len() == 0 {
        return Ok(types);
    }
    collect_parameters(alloc, &mut types, &functions[0].parameters)?;
    Ok(types)
}

/// Whether the entry takes the root.
fn takes_root(functions: &Vec<ClosedFunction>) -> bool
    ensures { result ≡ takes_root_of (functions_said functions.now.items) }
{
    if functions.len() == 0 {
        return false;
    }
    0 < functions[0].parameters.len()
}

/// The texts and the types of a program.
fn tables_of(
    alloc: Global,
    functions: &Vec<ClosedFunction>,
    all: &Vec<Drafted>,
) -> Result<Tables, Memory>
    ensures texts { IfOk result (λ made.
        made.texts ≡ adds bytes_eq [] (texts_named (all_drafts (all_said all.now.items)))) }
    ensures types { IfOk result (λ made.
        made.types ≡ map key_of (adds same [] (spec.roots_of (functions_said functions.now.items)
        ++ types_named (all_drafts (all_said all.now.items))))) }
{
    let types = entry_table(alloc, functions)?;
    let mut tables = Tables {
        texts: TextTable::new(alloc),
        types,
    };
    collect_functions(alloc, &mut tables, all)?;
    Ok(tables)
}

/// The code of drafted functions with these texts and types.
fn code_with(
    alloc: Global,
    tables: &Tables,
    rows: &TypeRows,
    all: Vec<Drafted>,
    root: bool,
) -> Result<Code, Memory>
    ensures texts { IfOk result (λ code. code.texts ≡ tables.now.texts) }
    ensures types { IfOk result (λ code.
        map Some code.types ≡ map (λ key. find key (rows_in rows.now)) tables.now.types) }
    ensures functions { IfOk result (λ code.
        code.functions ≡ map (function_by tables.now.texts tables.now.types) (all_said all.items)) }
    ensures root { IfOk result (λ code. code.root ≡ root) }
{
    let functions = number_functions(alloc, tables, all)?;
    let types = tell_types(alloc, rows, &tables.types)?;
    let texts = tables.texts.texts(alloc)?;
    Ok(Code {
        texts,
        types,
        functions,
        root,
    })
}

/// The code of a closed program, of whose functions these are the drafts.
fn code_of(alloc: Global, program: &ClosedProgram, all: Vec<Drafted>) -> Result<Code, Memory>
    requires { all_said all.items ≡ map drafted (functions_of (program_said program.now)) }
    ensures { IfOk result (λ code. code ≡ spec.code_of (program_said program.now)) }
{
    let rows = tell_rows(alloc, &program.types)?;
    let tables = tables_of(alloc, &program.functions, &all)?;
    let root = takes_root(&program.functions);
    code_with(alloc, &tables, &rows, all, root)
}

/// The code that a closed program is lowered to, of whose functions these are the drafts.
///
/// # Errors
///
/// `Limit` exactly where it has more instructions than a program may have; `Memory` when memory runs out.
pub fn lower_drafted(
    alloc: Global,
    program: &ClosedProgram,
    all: Vec<Drafted>,
) -> Result<Code, LowerFault>
    requires { all_said all.items ≡ map drafted (functions_of (program_said program.now)) }
    ensures code { IfOk result (λ code. code ≡ spec.code_of (program_said program.now)) }
    ensures limit { TellsLimit result (is_too_long (program_said program.now)) }
{
    if passes_limit(&all) {
        return Err(LowerFault::Limit(Limit {
            kind: LimitKind::Code,
            count: 1_048_577,
            most: 1_048_576,
        }));
    }
    match code_of(alloc, program, all) {
        Err(_) => Err(LowerFault::Memory),
        Ok(code) => Ok(code),
    }
}
