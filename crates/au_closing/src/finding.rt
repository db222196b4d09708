//! Functions by the names of their modules and their own.

ghost use Rattle.std.specs.Prelude.{◌≡◌, ◌<◌, None, Some, if◌then◌else◌, length};
ghost use Rattle.std.specs.Str.{bytes_eq};
ghost use Rattle.au_closing.specs.Entries as spec;
ghost use Rattle.au_closing.specs.Views.{function_seen};
ghost use Rattle.au_modules.specs.Seen.{tree_seen};
ghost use Rattle.au_modules.specs.Slots as slots;
ghost use Rattle.au_names.specs.Exporting.{declarations_seen};
ghost use Rattle.au_names.specs.Importing as importing;
ghost use Rattle.au_names.specs.Walks.{written, written_all};
ghost use Rattle.au_promises.specs.Written.{generics_of, header_of};

use au_base::{Name, Pos};
use au_imports::Resolved;
use au_syntax::{Decl, Generic, Parsed, Signature, Whole};

/// A function that has a body.
#[derive(Clone, Copy)]
pub(crate) struct Candidate<'a> {
    /// Its place in the text.
    pub at: Pos,
    /// Its type parameters.
    pub generics: &'a Vec<Generic<Parsed>>,
    /// What is written before its body.
    pub signature: &'a Signature<Parsed>,
}

/// The place of the module of a name, if there is one.
pub(crate) fn place_of(program: &Resolved, name: &Name) -> Option<usize>
    ensures { result ≡ importing.place_of (slots.modules program.now) name.now }
{
    let modules = program.modules();
    for place in 0..modules.len() {
        if name.as_bytes() == modules.name(place).as_bytes() {
            return Some(place);
        }
    }
    None
}

/// The function that a declaration is, if it is one of this name with a body.
fn function_in<'a>(name: &Name, decl: &'a Decl<Parsed>) -> Option<Candidate<'a>>
    ensures { function_seen result ≡ spec.function_in name.now (written decl.now) }
{
    match decl {
        Decl::Constant(_, _, _) => None,
        Decl::Opaque(_, _, _, _) => None,
        Decl::Record(_, _, _, _, _) => None,
        Decl::Union(_, _, _, _, _) => None,
        Decl::Function(_, _, _) => None,
        Decl::Class(_, _, _, _) => None,
        Decl::Instance(_, _, _, _) => None,
        Decl::ConstantBody(_, _, _, _) => None,
        Decl::FunctionBody(at, generics, signature, _, _) => {
            named_function(name, *at, generics, signature)
        }
        Decl::InstanceBody(_, _, _, _, _) => None,
    }
}

/// A function, if it has this name.
fn named_function<'a>(
    name: &Name,
    at: Pos,
    generics: &'a Vec<Generic<Parsed>>,
    signature: &'a Signature<Parsed>,
) -> Option<Candidate<'a>>
    ensures { function_seen result
        ≡ (if bytes_eq name.now (header_of signature.now).name.name then Some (record {
          at = at;
          generics = generics_of generics.now.items;
          header = header_of signature.now;
        }) else None) }
{
    if name.as_bytes() == signature.name.name.as_bytes() {
        Some(Candidate {
            at,
            generics,
            signature,
        })
    } else {
        None
    }
}

/// The first function of a name with a body among declarations, if there is one.
fn function_among<'a>(name: &Name, decls: &'a [Decl<Parsed>]) -> Option<Candidate<'a>>
    ensures { function_seen result ≡ spec.function_among name.now (written_all decls.now) }
{
    for decl in decls {
        if let Some(found) = function_in(name, decl) {
            return Some(found);
        }
    }
    None
}

/// The declarations of a file, of which there are none where it isn't there.
fn declarations_in<'a>(part: Option<&'a Whole<Parsed>>) -> &'a [Decl<Parsed>]
    ensures { written_all result.now ≡ declarations_seen (tree_seen part.entry) }
{
    match part {
        None => &[],
        Some(file) => file.tree().declarations.as_slice(),
    }
}

/// The function of a name with a body in the module at a place, if there is one.
pub(crate) fn function_at<'a>(
    program: &'a Resolved,
    place: usize,
    name: &Name,
) -> Option<Candidate<'a>>
    requires { place < length (slots.modules program.now) }
    ensures { function_seen result ≡ spec.function_at (slots.modules program.now) place name.now }
{
    function_among(name, declarations_in(program.modules().body(place)))
}
