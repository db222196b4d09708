//! The interfaces of the modules that come with the compiler.

use crate::interfaces::is_interface;
use crate::texts::{BOXES, BUFFERS, PERVASIVE, TERMINAL};
use au_shipped::shipped;
use au_syntax::FileTree;
use std::alloc::Global;

/// Whether a file has this number and is this interface.
fn is_written(file: &FileTree, number: u16, text: &[u8]) -> bool {
    file.file == number && is_interface(text, file.tree.tree())
}

/// Whether files are the interfaces as they are written down, by the last four numbers.
fn are_written(files: &[FileTree]) -> bool {
    match files {
        [own, boxes, buffers, terminal] => {
            is_written(own, 65_532, PERVASIVE)
                && is_written(boxes, 65_533, BOXES)
                && is_written(buffers, 65_534, BUFFERS)
                && is_written(terminal, 65_535, TERMINAL)
        }
        _ => false,
    }
}

/// Whether the shipped files are written so.
fn shipped_are_written(alloc: Global) -> bool {
    match shipped(alloc) {
        Ok(files) => are_written(files.as_slice()),
        Err(_) => false,
    }
}

/// The shipped files are these interfaces.
#[test]
fn shipped_files_are_as_the_document_has_them(rt: HostRuntime) {
    assert!(rt; shipped_are_written(rt.alloc()));
}
