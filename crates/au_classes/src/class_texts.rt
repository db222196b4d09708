//! The classes of a program.

ghost use Rattle.std.specs.Prelude.{◌≡◌, Some, option_copied};
ghost use Rattle.std.specs.Option.{option_map};
ghost use Rattle.au_classes.specs.Classes as spec;
ghost use Rattle.au_classes.specs.Views.{class_said};
ghost use Rattle.au_modules.specs.Slots as slots;
ghost use Rattle.au_promises.specs.Written.{declared_of};

use au_imports::Resolved;
use au_syntax::{Decl, Parsed, Part, Signature, TypeParameter};
use au_types::{DeclAt, Table};

/// A class of a program.
#[derive(Clone, Copy)]
pub struct ClassText<'a> {
    /// The names of types and classes that are seen where it stands.
    pub visible: &'a Table<DeclAt>,
    /// Its type parameter.
    pub parameter: &'a TypeParameter<Parsed>,
    /// Its methods, in the order of the text.
    pub methods: &'a Vec<Signature<Parsed>>,
}

/// The names of types and classes that a part of the module at a place sees, if the module is there.
fn visible_at<'a>(program: &'a Resolved, place: u16, part: Part) -> Option<&'a Table<DeclAt>>
    ensures { option_copied result ≡ spec.visible_at (slots.modules program.now) place part }
{
    if (place as usize) < program.modules().len() {
        Some(&program.names(place as usize, part).types)
    } else {
        None
    }
}

/// A declaration, where these names are seen, if it is a class.
fn class_with<'a>(visible: &'a Table<DeclAt>, decl: &'a Decl<Parsed>) -> Option<ClassText<'a>>
    ensures { option_map class_said result ≡ spec.class_in (Some visible.now) (declared_of decl.now) }
{
    match decl {
        Decl::Constant(_, _, _) => None,
        Decl::Opaque(_, _, _, _) => None,
        Decl::Record(_, _, _, _, _) => None,
        Decl::Union(_, _, _, _, _) => None,
        Decl::Function(_, _, _) => None,
        Decl::Class(_, _, parameter, methods) => Some(ClassText {
            visible,
            parameter,
            methods,
        }),
        Decl::Instance(_, _, _, _) => None,
        Decl::ConstantBody(_, _, _, _) => None,
        Decl::FunctionBody(_, _, _, _, _) => None,
        Decl::InstanceBody(_, _, _, _, _) => None,
    }
}

/// A declaration, where these names are seen, if they are known and it is a class.
fn class_in<'a>(visible: Option<&'a Table<DeclAt>>, decl: &'a Decl<Parsed>) -> Option<ClassText<'a>>
    ensures { option_map class_said result ≡ spec.class_in (option_copied visible.entry)
        (declared_of decl.now) }
{
    match visible {
        None => None,
        Some(visible) => class_with(visible, decl),
    }
}

/// The class that the declaration of this module and number is, if it is one: its type parameter and its
/// methods, with the names that are seen where it stands.
pub fn class_at<'a>(program: &'a Resolved, at: DeclAt) -> Option<ClassText<'a>>
    ensures { option_map class_said result ≡ spec.class_at (slots.modules program.now) at }
{
    match program.declaration(at) {
        None => None,
        Some(found) => class_in(visible_at(program, found.place, found.part), found.decl),
    }
}
