//! Interfaces read against texts in the layout of the chapter of `docs/LANGUAGE.md` on the modules that come
//! with the compiler: each call answers what stands behind its part of the text, and nothing where another
//! text stands. Behind nothing stands nothing.

use au_syntax::{
    Access, Decl, Field, Generic, Ident, Module, Parsed, Part, Signature, TypeParameter, TypeText,
    UnionCase, Universe,
};

/// A universe's word.
fn word_of(universe: Universe) -> &'static [u8] {
    match universe {
        Universe::Free => b"Free",
        Universe::Linear => b"Linear",
        Universe::AnyType => b"Type",
        Universe::Region => b"Region",
    }
}

/// What stands before a type behind a reference.
fn sign_of(access: Access) -> &'static [u8] {
    match access {
        Access::Read => b"&[",
        Access::Write => b"&![",
    }
}

/// What stands behind these bytes in a text that begins with them.
pub(crate) fn behind<'a>(text: &'a [u8], bytes: &[u8]) -> &'a [u8] {
    match text.strip_prefix(bytes) {
        Some(rest) => rest,
        None => &[],
    }
}

/// Behind what stands before the part of an index, where parts have this between them.
fn gap<'a>(text: &'a [u8], index: usize, between: &[u8]) -> &'a [u8] {
    if index > 0 {
        behind(text, between)
    } else {
        text
    }
}

/// Behind a written type.
#[cycle(written)]
fn written<'a>(text: &'a [u8], of: &TypeText) -> &'a [u8] {
    match of {
        TypeText::Named(name, arguments) => {
            written_arguments(behind(text, name.name.as_bytes()), arguments)
        }
        TypeText::Reference(_, access, to, region) => {
            let rest = written(behind(text, sign_of(*access)), to);
            behind(behind(behind(rest, b", "), region.name.as_bytes()), b"]")
        }
    }
}

/// Behind the arguments of a type in brackets, where it has some.
#[cycle(written)]
fn written_arguments<'a>(text: &'a [u8], arguments: &Vec<TypeText>) -> &'a [u8] {
    if arguments.is_empty() {
        return text;
    }
    let mut rest = behind(text, b"[");
    for (index, one) in arguments.iter().enumerate() {
        rest = written(gap(rest, index, b", "), one);
    }
    behind(rest, b"]")
}

/// Behind names with dots between.
fn names<'a>(text: &'a [u8], names: &Vec<Ident<Parsed>>) -> &'a [u8] {
    let mut rest = text;
    for (index, one) in names.iter().enumerate() {
        rest = behind(gap(rest, index, b"."), one.name.as_bytes());
    }
    rest
}

/// Behind `NAME: UNIVERSE`.
fn parameter<'a>(text: &'a [u8], parameter: &TypeParameter<Parsed>) -> &'a [u8] {
    let rest = behind(text, parameter.name.name.as_bytes());
    behind(behind(rest, b": "), word_of(parameter.universe))
}

/// Behind type parameters in brackets, where there are some.
fn parameters<'a>(text: &'a [u8], all: &Vec<TypeParameter<Parsed>>) -> &'a [u8] {
    if all.is_empty() {
        return text;
    }
    let mut rest = behind(text, b"[");
    for (index, one) in all.iter().enumerate() {
        rest = parameter(gap(rest, index, b", "), one);
    }
    behind(rest, b"]")
}

/// Behind a type parameter behind `generic`. No shipped one has a constraint.
fn generic<'a>(text: &'a [u8], one: &Generic<Parsed>) -> &'a [u8] {
    if one.classes.is_empty() {
        parameter(text, &one.parameter)
    } else {
        &[]
    }
}

/// Behind `generic [..]` with a space behind, where there are type parameters.
fn generics<'a>(text: &'a [u8], all: &Vec<Generic<Parsed>>) -> &'a [u8] {
    if all.is_empty() {
        return text;
    }
    let mut rest = behind(text, b"generic [");
    for (index, one) in all.iter().enumerate() {
        rest = generic(gap(rest, index, b", "), one);
    }
    behind(rest, b"] ")
}

/// Behind `NAME: TYPE`.
fn field<'a>(text: &'a [u8], field: &Field<Parsed>) -> &'a [u8] {
    let rest = behind(text, field.name.name.as_bytes());
    written(behind(rest, b": "), &field.of)
}

/// Behind fields, each with a space before it and a semicolon behind.
fn fields<'a>(text: &'a [u8], all: &Vec<Field<Parsed>>) -> &'a [u8] {
    let mut rest = text;
    for one in all {
        rest = behind(field(behind(rest, b" "), one), b";");
    }
    rest
}

/// Behind a case, with a space before it.
fn case<'a>(text: &'a [u8], one: &UnionCase<Parsed>) -> &'a [u8] {
    let rest = behind(behind(text, b" case "), one.name.name.as_bytes());
    if one.fields.is_empty() {
        behind(rest, b";")
    } else {
        fields(behind(rest, b" is"), &one.fields)
    }
}

/// Behind cases, and the end of their union.
fn cases<'a>(text: &'a [u8], all: &Vec<UnionCase<Parsed>>) -> &'a [u8] {
    let mut rest = text;
    for one in all {
        rest = case(rest, one);
    }
    behind(rest, b" end;")
}

/// Behind `NAME(NAME: TYPE, ..): TYPE;`.
fn signature<'a>(text: &'a [u8], of: &Signature<Parsed>) -> &'a [u8] {
    let mut rest = behind(behind(text, of.name.name.as_bytes()), b"(");
    for (index, one) in of.parameters.iter().enumerate() {
        rest = field(gap(rest, index, b", "), one);
    }
    behind(written(behind(rest, b"): "), &of.result), b";")
}

/// Behind `NAME[..]: UNIVERSE`.
fn heading<'a>(
    text: &'a [u8],
    name: &Ident<Parsed>,
    all: &Vec<TypeParameter<Parsed>>,
    universe: Universe,
) -> &'a [u8] {
    let rest = parameters(behind(text, name.name.as_bytes()), all);
    behind(behind(rest, b": "), word_of(universe))
}

/// Behind methods, each on a line, and the end of their class.
fn methods<'a>(text: &'a [u8], all: &Vec<Signature<Parsed>>) -> &'a [u8] {
    let mut rest = text;
    for one in all {
        rest = behind(signature(behind(rest, b"        method "), one), b"\n");
    }
    behind(rest, b"    end;")
}

/// Behind a declaration of a kind that a shipped interface has.
fn declaration<'a>(text: &'a [u8], decl: &Decl<Parsed>) -> &'a [u8] {
    match decl {
        Decl::Opaque(_, name, all, universe) => {
            behind(heading(behind(text, b"type "), name, all, *universe), b";")
        }
        Decl::Union(_, name, all, universe, of) => {
            let rest = heading(behind(text, b"union "), name, all, *universe);
            cases(behind(rest, b" is"), of)
        }
        Decl::Function(_, all, of) => signature(behind(generics(text, all), b"function "), of),
        Decl::Class(_, name, of, all) => {
            let rest = behind(behind(text, b"typeclass "), name.name.as_bytes());
            methods(behind(parameter(behind(rest, b"("), of), b") is\n"), all)
        }
        Decl::Instance(_, all, name, of) => {
            let rest = behind(generics(text, all), b"instance ");
            let rest = behind(behind(rest, name.name.as_bytes()), b"(");
            behind(written(rest, of), b");")
        }
        _ => &[],
    }
}

/// Behind declarations, each on a line.
fn declarations<'a>(text: &'a [u8], all: &Vec<Decl<Parsed>>) -> &'a [u8] {
    let mut rest = text;
    for one in all {
        rest = behind(declaration(behind(rest, b"    "), one), b"\n");
    }
    rest
}

/// Whether a text is that of an interface without imports and without a pragma.
pub(crate) fn is_interface(text: &[u8], tree: &Module<Parsed>) -> bool {
    let rest = behind(names(behind(text, b"module "), &tree.name), b" is\n");
    tree.imports.is_empty()
        && tree.pragma.is_none()
        && matches!(tree.part, Part::Interface)
        && declarations(rest, &tree.declarations) == b"end module.\n".as_slice()
}
