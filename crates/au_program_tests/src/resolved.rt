//! What a written type means in a part of a module, and which declared types have rows.

use crate::programs::{program_of, put_file};
use au_base::IntKind;
use au_imports::Resolved;
use au_shipped::shipped;
use au_syntax::{Decl, Parsed, TypeText, Whole};
use au_types::{Params, Ty};
use std::alloc::Global;

/// A body with a constant.
const BODY: &[u8] = b"module body M is constant c: Nat8 := 1; end module body.";

/// The program of the shipped files and that body, if memory is there.
fn with_body(alloc: Global) -> Option<Resolved> {
    let Ok(mut files) = shipped(alloc) else {
        return None;
    };
    if put_file(alloc, &mut files, 0, BODY) {
        program_of(alloc, files)
    } else {
        None
    }
}

/// The written type of the constant that is all that a file declares.
fn written_type(whole: &Whole<Parsed>) -> Option<&TypeText> {
    match whole.tree().declarations.as_slice() {
        [Decl::ConstantBody(_, _, of, _)] => Some(of),
        _ => None,
    }
}

/// Whether a type is `Nat8`.
fn is_byte(of: &Option<Ty>) -> bool {
    matches!(of, Some(Ty::Int(IntKind::Nat8)))
}

/// Whether seven declared types have rows, and the written type of the constant means `Nat8` in the body of
/// the module at place 4.
fn are_meant(alloc: Global, resolved: &Resolved) -> bool {
    if resolved.modules().len() != 5 || resolved.heads_ref().len() != 7 {
        return false;
    }
    let Some(whole) = resolved.modules().body(4) else {
        return false;
    };
    let Some(of) = written_type(whole) else {
        return false;
    };
    let params = Params::new(alloc);
    match resolved.type_of(alloc, 4, true, &params, &[], of) {
        Ok(meant) => is_byte(&meant),
        Err(_) => false,
    }
}

/// Whether types have their meanings and rows in the program.
fn has_types(alloc: Global) -> bool {
    match with_body(alloc) {
        Some(resolved) => are_meant(alloc, &resolved),
        None => false,
    }
}

/// A written type means a type. The declared types of the shipped modules have rows: `Option`, `Either`,
/// `ExitCode`, `RootCapability`, `Box`, `Buffer` and `Terminal`.
#[test]
fn types_have_meanings_and_rows(rt: HostRuntime) {
    assert!(rt; has_types(rt.alloc()));
}
