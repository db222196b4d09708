//! The code of all functions.

ghost use Rattle.std.specs.Prelude.{◌≡◌, [], IfOk, OnOk, map};
ghost use Rattle.std.specs.Str.{bytes_eq};
ghost use Rattle.au_type_texts.specs.Keys.{key_of};
ghost use Rattle.au_lowered.specs.Programs.{texts_named, types_named};
ghost use Rattle.au_lowering.specs.Drafted.{all_drafts, function_by, is_long};
ghost use Rattle.au_lowering.specs.DraftViews.{all_said, drafted_said};
ghost use Rattle.au_graphs.specs.Reached.{adds};

use crate::numbering::{collect, number_all};
use crate::tables::Tables;
use au_base::{Memory, Sequence};
use au_low::Function;
use au_lowering_statements::Draft;
use std::alloc::Global;

/// The most instructions of all functions of a program.
const MOST_INSTRUCTIONS: usize = 1_048_576;

/// A function whose code is written first with texts and types that stand for themselves.
#[derive(Drop)]
pub struct Drafted {
    /// How many parameters it has.
    pub params: u32,
    /// How many slots its frames have.
    pub slots: u32,
    /// Its instructions.
    pub drafts: Vec<Draft>,
}

/// Whether functions have more instructions than a program may have.
pub fn passes_limit(all: &Vec<Drafted>) -> bool
    ensures { result ≡ is_long (all_said all.now.items) }
{
    let mut left = MOST_INSTRUCTIONS;
    for one in all {
        let count = one.drafts.len();
        if count > left {
            return true;
        }
        left -= count;
    }
    false
}

/// Puts the texts and types that the instructions of functions name into the tables, in their order.
///
/// # Errors
///
/// Only for want of memory.
pub fn collect_functions(
    alloc: Global,
    tables: &mut Tables,
    all: &Vec<Drafted>,
) -> Result<(), Memory>
    ensures texts { OnOk result (tables.new.texts
        ≡ adds bytes_eq tables.old.texts (texts_named (all_drafts (all_said all.now.items)))) }
    ensures types { OnOk result (tables.new.types
        ≡ adds bytes_eq tables.old.types (map key_of (types_named (all_drafts (all_said all.now.items))))) }
{
    for one in all {
        collect(alloc, tables, &one.drafts)?;
    }
    Ok(())
}

/// A function as code.
fn number_function(alloc: Global, tables: &Tables, one: Drafted) -> Result<Function, Memory>
    ensures { IfOk result (λ made.
        made ≡ function_by tables.now.texts tables.now.types (drafted_said one)) }
{
    let Drafted {
        params,
        slots,
        drafts,
    } = one;
    let code = number_all(alloc, tables, drafts)?;
    Ok(Function {
        params,
        slots,
        code: Sequence::from_vec(code),
    })
}

/// Functions as code.
///
/// # Errors
///
/// Only for want of memory.
pub fn number_functions(
    alloc: Global,
    tables: &Tables,
    all: Vec<Drafted>,
) -> Result<Sequence<Function>, Memory>
    ensures { IfOk result (λ made.
        made ≡ map (function_by tables.now.texts tables.now.types) (all_said all.items)) }
{
    let mut made = Vec::new(alloc);
    for one in all {
        let function = number_function(alloc, tables, one)?;
        made.push(function)?;
    }
    Ok(Sequence::from_vec(made))
}
