//! Instances as they are written.

ghost use Rattle.std.specs.Prelude.{◌≡◌, slice_get};
ghost use Rattle.std.specs.Option.{option_map};
ghost use Rattle.au_classes.specs.Texts as spec;
ghost use Rattle.au_classes.specs.InstanceViews.{methods_seen, text_said};
ghost use Rattle.au_promises.specs.Written.{declarations_of, declared_of, declared_seen};

use au_base::Pos;
use au_syntax::{Decl, Generic, Ident, Method, Parsed, Part, TypeText};
use au_types::DeclAt;

/// An instance as it is written.
#[derive(Clone, Copy)]
pub struct InstanceText<'a> {
    /// The place of its first token: of its declaration in the interface, where it's declared there.
    pub at: Pos,
    /// That declaration: its module, and its number among the declarations of the interface and those of the
    /// body behind them.
    pub number: DeclAt,
    /// The part of the module in which it is declared.
    pub part: Part,
    /// Its type parameters.
    pub generics: &'a Vec<Generic<Parsed>>,
    /// The name of its class.
    pub name: &'a Ident<Parsed>,
    /// Its type.
    pub of: &'a TypeText,
    /// Its methods, which stand in the body of the module; `None` for an instance that is shipped.
    pub methods: Option<&'a Vec<Method<Parsed>>>,
}

/// The methods that a declaration of a body has, if it's an instance.
pub(crate) fn methods_in<'a>(found: Option<&'a Decl<Parsed>>) -> Option<&'a Vec<Method<Parsed>>>
    ensures { methods_seen result ≡ spec.methods_in (declared_seen found.entry) }
{
    match found {
        None => None,
        Some(decl) => methods_of(decl),
    }
}

/// The methods that a declaration has, if it's an instance of a body.
fn methods_of(decl: &Decl<Parsed>) -> Option<&Vec<Method<Parsed>>>
    ensures { methods_seen result ≡ spec.methods_in (Some (declared_of decl.now)) }
{
    match decl {
        Decl::Constant(_, _, _) => None,
        Decl::Opaque(_, _, _, _) => None,
        Decl::Record(_, _, _, _, _) => None,
        Decl::Union(_, _, _, _, _) => None,
        Decl::Function(_, _, _) => None,
        Decl::Class(_, _, _, _) => None,
        Decl::Instance(_, _, _, _) => None,
        Decl::ConstantBody(_, _, _, _) => None,
        Decl::FunctionBody(_, _, _, _, _) => None,
        Decl::InstanceBody(_, _, _, _, methods) => Some(methods),
    }
}

/// The declaration of an index, if there is one.
pub(crate) fn declaration_at(decls: &[Decl<Parsed>], index: usize) -> Option<&Decl<Parsed>>
    ensures { declared_seen result ≡ slice_get (declarations_of decls.now) index }
{
    decls.get(index)
}

/// The methods of the declaration of an index of a body, if there is one.
pub(crate) fn methods_at<'a>(
    body: &'a [Decl<Parsed>],
    index: Option<usize>,
) -> Option<&'a Vec<Method<Parsed>>>
    ensures { methods_seen result ≡ spec.methods_at (declarations_of body.now) index }
{
    match index {
        None => None,
        Some(index) => methods_in(declaration_at(body, index)),
    }
}

/// The instance that an interface declares, with these methods, if its declaration of this number is one.
pub(crate) fn promised<'a>(
    number: DeclAt,
    methods: Option<&'a Vec<Method<Parsed>>>,
    decl: &'a Decl<Parsed>,
) -> Option<InstanceText<'a>>
    ensures { option_map text_said result ≡ spec.promised number (methods_seen methods.entry)
        (declared_of decl.now) }
{
    match decl {
        Decl::Constant(_, _, _) => None,
        Decl::Opaque(_, _, _, _) => None,
        Decl::Record(_, _, _, _, _) => None,
        Decl::Union(_, _, _, _, _) => None,
        Decl::Function(_, _, _) => None,
        Decl::Class(_, _, _, _) => None,
        Decl::Instance(at, generics, name, of) => Some(InstanceText {
            at: *at,
            number,
            part: Part::Interface,
            generics,
            name,
            of,
            methods,
        }),
        Decl::ConstantBody(_, _, _, _) => None,
        Decl::FunctionBody(_, _, _, _, _) => None,
        Decl::InstanceBody(_, _, _, _, _) => None,
    }
}

/// The instance that a body defines, if its declaration of this number is one.
pub(crate) fn defined<'a>(number: DeclAt, decl: &'a Decl<Parsed>) -> Option<InstanceText<'a>>
    ensures { option_map text_said result ≡ spec.defined number (declared_of decl.now) }
{
    match decl {
        Decl::Constant(_, _, _) => None,
        Decl::Opaque(_, _, _, _) => None,
        Decl::Record(_, _, _, _, _) => None,
        Decl::Union(_, _, _, _, _) => None,
        Decl::Function(_, _, _) => None,
        Decl::Class(_, _, _, _) => None,
        Decl::Instance(_, _, _, _) => None,
        Decl::ConstantBody(_, _, _, _) => None,
        Decl::FunctionBody(_, _, _, _, _) => None,
        Decl::InstanceBody(at, generics, name, of, methods) => Some(InstanceText {
            at: *at,
            number,
            part: Part::Body,
            generics,
            name,
            of,
            methods: Some(methods),
        }),
    }
}
