//! The shipped interfaces as whole files.

ghost use Rattle.std.specs.Prelude.{◌≡◌, IfOk, IsTrue, map};
ghost use Rattle.au_syntax.specs.Files.{says, is_formed, is_within, is_allowed};
ghost use Rattle.au_shipped.specs.Building.{place as place_in};
ghost use Rattle.au_shipped.specs.PervasiveInterface as pervasive_interface;
ghost use Rattle.au_shipped.specs.BoxInterface as box_interface;
ghost use Rattle.au_shipped.specs.BufferInterface as buffer_interface;
ghost use Rattle.au_shipped.specs.TerminalInterface as terminal_interface;
ghost use Rattle.au_shipped.specs.Shipped.{shipped_files, file_says};

use crate::boxes::boxes;
use crate::buffers::buffers;
use crate::building::place;
use crate::pervasive::pervasive;
use crate::terminal::terminal;
use au_base::Memory;
use au_syntax::{FileTree, Module, Parsed, Phase, Whole};
use std::alloc::Global;

/// The number of the file of Austral.Pervasive, the first of the shipped ones.
const PERVASIVE: u16 = 65532;
/// That of Standard.Box.
const BOXES: u16 = 65533;
/// That of Standard.Buffer.
const BUFFERS: u16 = 65534;
/// That of Standard.IO.Terminal.
const TERMINAL: u16 = 65535;

/// The file of this number that holds this tree, whole.
fn file_of(file: u16, tree: Module<Parsed>) -> FileTree
    requires formed { IsTrue (is_formed ⟦<Parsed as Phase>⟧ tree) }
    requires within { IsTrue (is_within ⟦<Parsed as Phase>⟧ tree) }
    requires allowed { IsTrue (is_allowed ⟦<Parsed as Phase>⟧ tree) }
    ensures { file_says result ≡ (file, says ⟦<Parsed as Phase>⟧ tree) }
{
    FileTree {
        file,
        tree: Whole::new(tree),
    }
}

fn pervasive_file(alloc: Global) -> Result<FileTree, Memory>
    ensures { IfOk result (λ f. file_says f ≡ (65532, pervasive_interface.pervasive (place_in 65532))) }
{
    let tree = pervasive(alloc, place(PERVASIVE))?;
    Ok(file_of(PERVASIVE, tree))
}

fn box_file(alloc: Global) -> Result<FileTree, Memory>
    ensures { IfOk result (λ f. file_says f ≡ (65533, box_interface.boxes (place_in 65533))) }
{
    let tree = boxes(alloc, place(BOXES))?;
    Ok(file_of(BOXES, tree))
}

fn buffer_file(alloc: Global) -> Result<FileTree, Memory>
    ensures { IfOk result (λ f. file_says f ≡ (65534, buffer_interface.buffers (place_in 65534))) }
{
    let tree = buffers(alloc, place(BUFFERS))?;
    Ok(file_of(BUFFERS, tree))
}

fn terminal_file(alloc: Global) -> Result<FileTree, Memory>
    ensures { IfOk result (λ f. file_says f ≡ (65535, terminal_interface.terminal (place_in 65535))) }
{
    let tree = terminal(alloc, place(TERMINAL))?;
    Ok(file_of(TERMINAL, tree))
}

/// The files of the shipped interfaces, in order: Austral.Pervasive, Standard.Box, Standard.Buffer and
/// Standard.IO.Terminal. Their numbers are the last four that a place can name, and everything in a file
/// has one place.
///
/// # Errors
///
/// `Memory`
pub fn shipped(alloc: Global) -> Result<Vec<FileTree>, Memory>
    ensures { IfOk result (λ files. map file_says files.items ≡ shipped_files) }
{
    let own = pervasive_file(alloc)?;
    let of_boxes = box_file(alloc)?;
    let of_buffers = buffer_file(alloc)?;
    let of_terminal = terminal_file(alloc)?;
    Ok(vec![in alloc; own, of_boxes, of_buffers, of_terminal]?)
}
