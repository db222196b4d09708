//! Programs made of texts.

use au_imports::{Resolved, resolve};
use au_lexer::lex;
use au_modules::{are_few, gather};
use au_parser::parse;
use au_syntax::{FileTree, Parsed, Whole};
use std::alloc::Global;

/// The tree of the file of a number that holds this text, if it has one and memory is there.
fn tree_of(alloc: Global, file: u16, source: &[u8]) -> Option<Whole<Parsed>> {
    if source.len() > 10_000_000 {
        return None;
    }
    let Ok(tokens) = lex(alloc, file, source) else {
        return None;
    };
    if tokens.len() > 1_000_000 {
        return None;
    }
    match parse(alloc, tokens.as_slice()) {
        Ok(tree) => Some(tree),
        Err(_) => None,
    }
}

/// Puts the file of a number that holds this text behind others, and says whether it stands there.
pub(crate) fn put_file(alloc: Global, files: &mut Vec<FileTree>, file: u16, source: &[u8]) -> bool {
    match tree_of(alloc, file, source) {
        Some(tree) => files.push(FileTree { file, tree }).is_ok(),
        None => false,
    }
}

/// The program of these files, if they are those of one and memory is there.
pub(crate) fn program_of(alloc: Global, files: Vec<FileTree>) -> Option<Resolved> {
    if !are_few(&files) {
        return None;
    }
    let Ok(modules) = gather(alloc, files) else {
        return None;
    };
    match resolve(alloc, modules) {
        Ok(program) => Some(program),
        Err(_) => None,
    }
}
