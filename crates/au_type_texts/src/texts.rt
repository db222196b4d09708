//! The texts of types.

ghost use Rattle.std.specs.Prelude.{◌≡◌, ◌++◌, IfOk, OnOk};
ghost use Rattle.au_types.specs.Rows.{head_of};
ghost use Rattle.au_types.specs.Views.{argument, argument_all, meaning};
ghost use Rattle.au_type_texts.specs.Texts as texts;
ghost use Rattle.au_type_texts.specs.Texts.{argument_text, arguments_text, head_text, reference_text};
ghost use Rattle.au_type_texts.specs.Texts.{region_text, text_of};

use au_base::{IntKind, Memory, Text};
use au_types::{Arg, DeclAt, Heads, Region, Ty};
use std::alloc::Global;

/// The text of a type: a declared type is its module's name, a colon and its own name, and then its
/// arguments in brackets if it has some. What is built in, type parameters and regions are their names, and
/// `~` stands for the anonymous region. A reference is `&[T, R]`, or `&![T, R]` where it writes.
///
/// The heads are those of the declared types; a type that has none there is told by no bytes.
///
/// # Errors
///
/// `Memory` when memory runs out.
pub fn type_text(alloc: Global, heads: &Heads, of: &Ty) -> Result<Text, Memory>
    ensures { IfOk result (λ text. text ≡ text_of heads.now (meaning of.now)) }
{
    let mut text = Text::new(alloc);
    add_type(&mut text, heads, of)?;
    Ok(text)
}

/// The name of a kind of integers.
fn kind_name(kind: IntKind) -> &'static [u8]
    ensures { result.now ≡ texts.kind_name kind }
{
    match kind {
        IntKind::Nat8 => b"Nat8",
        IntKind::Nat16 => b"Nat16",
        IntKind::Nat32 => b"Nat32",
        IntKind::Nat64 => b"Nat64",
        IntKind::Int8 => b"Int8",
        IntKind::Int16 => b"Int16",
        IntKind::Int32 => b"Int32",
        IntKind::Int64 => b"Int64",
        IntKind::Index => b"Index",
    }
}

/// The text of a declaration without arguments.
fn head_text(heads: &Heads, at: DeclAt) -> &[u8]
    ensures { result.now ≡ head_text (head_of heads.now at) }
{
    match heads.row(at) {
        Some(head) => head.text.as_bytes(),
        None => b"",
    }
}

/// Adds the text of a region.
fn add_region(text: &mut Text, region: &Region) -> Result<(), Memory>
    ensures { OnOk result (text.new ≡ text.old ++ region_text region.now) }
{
    match region {
        Region::Static => text.append(b"Static"),
        Region::Named(name) => text.append(name.as_bytes()),
        Region::Anonymous => text.append(b"~"),
    }
}

/// Adds the text of a type.
#[tactic(auto, using(au_types::proofs::TypeLemmas::type_steps, std::proofs::lemmas::Grind::common_steps))]
#[cycle(add_type)]
fn add_type(text: &mut Text, heads: &Heads, of: &Ty) -> Result<(), Memory>
    ensures { OnOk result (text.new ≡ text.old ++ text_of heads.now (meaning of.now)) }
{
    match of {
        Ty::Unit => text.append(b"Unit"),
        Ty::Bool => text.append(b"Bool"),
        Ty::Int(kind) => text.append(kind_name(*kind)),
        Ty::Text => text.append(b"Span[Nat8, Static]"),
        Ty::Param(name) => text.append(name.as_bytes()),
        Ty::Named { of, args } => {
            text.append(head_text(heads, *of))?;
            add_arguments(text, heads, args)
        }
        Ty::Read { to, region } => add_reference(text, heads, b"&[", to, region),
        Ty::Write { to, region } => add_reference(text, heads, b"&![", to, region),
    }
}

/// Adds what begins a reference, the type behind it, and its region.
#[cycle(add_type)]
fn add_reference(
    text: &mut Text,
    heads: &Heads,
    begin: &[u8],
    to: &Ty,
    region: &Region,
) -> Result<(), Memory>
    ensures { OnOk result (text.new ≡ text.old
        ++ reference_text begin.now (text_of heads.now (meaning to.now)) region.now) }
{
    text.append(begin)?;
    add_type(text, heads, to)?;
    text.append(b", ")?;
    add_region(text, region)?;
    text.append(b"]")
}

/// Adds the text of an argument.
#[tactic(auto, using(au_types::proofs::TypeLemmas::type_steps))]
#[cycle(add_type)]
fn add_argument(text: &mut Text, heads: &Heads, one: &Arg) -> Result<(), Memory>
    ensures { OnOk result (text.new ≡ text.old ++ argument_text heads.now (argument one.now)) }
{
    match one {
        Arg::Of(of) => add_type(text, heads, of),
        Arg::In(region) => add_region(text, region),
    }
}

/// Adds arguments in brackets, and nothing where there is none.
#[cycle(add_type)]
fn add_arguments(text: &mut Text, heads: &Heads, args: &Vec<Arg>) -> Result<(), Memory>
    ensures { OnOk result (text.new ≡ text.old ++ arguments_text heads.now (argument_all args.now.items)) }
{
    if args.is_empty() {
        return Ok(());
    }
    let mut mark: &[u8] = b"[";
    for one in args {
        text.append(mark)?;
        add_argument(text, heads, one)?;
        mark = b", ";
    }
    text.append(b"]")
}
