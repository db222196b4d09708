//! Texts and types get their numbers.

ghost use Rattle.std.specs.Prelude.{◌≡◌, [], ◌∷◌, IfOk, OnOk, map};
ghost use Rattle.std.specs.Str.{bytes_eq};
ghost use Rattle.au_type_texts.specs.Keys.{key_of};
ghost use Rattle.au_lowered.specs.Programs.{texts_named, types_named};
ghost use Rattle.au_lowering_statements.specs.LoweringExpressions.Views.{draft_said, drafts_said};
ghost use Rattle.au_lowering.specs.Keyed.{keyed};
ghost use Rattle.au_graphs.specs.Reached.{adds};

use crate::tables::Tables;
use au_base::Memory;
use au_low::Instr;
use au_lowering_statements::Draft;
use std::alloc::Global;

/// Puts the text and the type that an instruction names into the tables.
fn collect_one(alloc: Global, tables: &mut Tables, draft: &Draft) -> Result<(), Memory>
    ensures texts { OnOk result (tables.new.texts
        ≡ adds bytes_eq tables.old.texts (texts_named (draft_said draft.now ∷ []))) }
    ensures types { OnOk result (tables.new.types
        ≡ adds bytes_eq tables.old.types (map key_of (types_named (draft_said draft.now ∷ [])))) }
{
    match draft {
        Draft::Plain(_) => Ok(()),
        Draft::Text(text) => tables.texts.put(alloc, text),
        Draft::Make { of, .. } => tables.types.put(alloc, of),
        Draft::Birth { of, .. } => tables.types.put(alloc, of),
    }
}

/// Puts the texts and types that instructions name into the tables, in their order.
///
/// # Errors
///
/// Only for want of memory.
pub fn collect(alloc: Global, tables: &mut Tables, drafts: &Vec<Draft>) -> Result<(), Memory>
    ensures texts { OnOk result (tables.new.texts
        ≡ adds bytes_eq tables.old.texts (texts_named (drafts_said drafts.now.items))) }
    ensures types { OnOk result (tables.new.types
        ≡ adds bytes_eq tables.old.types (map key_of (types_named (drafts_said drafts.now.items)))) }
{
    for one in drafts {
        collect_one(alloc, tables, one)?;
    }
    Ok(())
}

/// An instruction that names its text and its type by their numbers.
fn number_one(alloc: Global, tables: &Tables, draft: Draft) -> Result<Instr, Memory>
    ensures { IfOk result (λ instr.
        instr ≡ keyed tables.now.texts tables.now.types (draft_said draft)) }
{
    match draft {
        Draft::Plain(instr) => Ok(instr),
        Draft::Text(text) => {
            let number = tables.texts.number(&text)?;
            Ok(Instr::PushText(number))
        }
        Draft::Make {
            of,
            tag,
            order,
            home,
        } => {
            let of = tables.types.number(alloc, &of)?;
            Ok(Instr::Make {
                of,
                tag,
                order,
                module: home,
            })
        }
        Draft::Birth { call, of, order } => {
            let of = tables.types.number(alloc, &of)?;
            Ok(Instr::Shipped {
                call,
                of: Some(of),
                order,
            })
        }
    }
}

/// Instructions that name texts and types by their numbers.
///
/// # Errors
///
/// Only for want of memory.
pub fn number_all(alloc: Global, tables: &Tables, drafts: Vec<Draft>) -> Result<Vec<Instr>, Memory>
    ensures { IfOk result (λ code. code.items
        ≡ map (keyed tables.now.texts tables.now.types) (drafts_said drafts.items)) }
{
    let mut code = Vec::new(alloc);
    for one in drafts {
        let instr = number_one(alloc, tables, one)?;
        code.push(instr)?;
    }
    Ok(code)
}
