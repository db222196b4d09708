//! The heads of capabilities: opaque types whose universe isn't Free.

ghost use Rattle.std.specs.Prelude.{◌≡◌, is_some, option_copied};
ghost use Rattle.au_caps_types.specs.Heads as spec;
ghost use Rattle.au_modules.specs.Slots as slots;
ghost use Rattle.au_names.specs.Standing as standing;
ghost use Rattle.au_names.specs.Walks.{written};

use au_imports::Resolved;
use au_names::type_declared;
use au_syntax::{Decl, Parsed, Universe};
use au_types::{DeclAt, Head};

/// Whether values of a universe may be capabilities: those that can't be copied at will.
pub fn is_kept(universe: Universe) -> bool
    ensures { result ≡ spec.is_kept universe }
{
    match universe {
        Universe::Free => false,
        Universe::Linear => true,
        Universe::AnyType => true,
        Universe::Region => false,
    }
}

/// Whether a declaration is that of an opaque type.
fn is_opaque_type(decl: &Decl<Parsed>) -> bool
    ensures { result ≡ is_some (standing.opaque_name (written decl.now)) }
{
    match type_declared(decl) {
        None => false,
        Some(one) => one.opaque,
    }
}

/// Whether a declared type is opaque.
fn is_opaque(program: &Resolved, at: DeclAt) -> bool
    ensures { result ≡ spec.is_opaque (standing.standing_at (slots.modules program.now) at) }
{
    match program.declaration(at) {
        None => false,
        Some(found) => is_opaque_type(found.decl),
    }
}

/// The head that a declared type has by its row, if it is opaque.
fn head_by<'a>(opaque: bool, row: Option<&'a Head>) -> Option<&'a [u8]>
    ensures { option_copied result ≡ spec.head_by opaque (option_copied row.entry) }
{
    let Some(head) = row else {
        return None;
    };
    if opaque && is_kept(head.universe) {
        Some(head.text.as_bytes())
    } else {
        None
    }
}

/// The head of a declared type, if it has one: it is an opaque type whose universe isn't Free. It is the
/// text of the type, that is, its module's name, a colon and its own name.
pub fn head_of(program: &Resolved, at: DeclAt) -> Option<&[u8]>
    ensures { option_copied result ≡ spec.head_of (slots.modules program.now) at }
{
    head_by(is_opaque(program, at), program.heads_ref().row(at))
}
