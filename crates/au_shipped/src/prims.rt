//! The shipped calls.

ghost use Rattle.std.specs.Prelude.{◌≡◌, ◌++◌};
ghost use Rattle.std.specs.Str.{bytes_eq};
ghost use Rattle.au_shipped.specs.Calls as calls;

use au_base::{IntKind, Name};
use au_ints::WrapOp;

/// A shipped call. Each method of a class has one for each sort of types that has instances of the
/// class and its own effect.
#[derive(Clone, Copy, Debug, PartialEq, Eq)]
pub enum ShippedCall {
    /// `print` of a text.
    PrintText,
    /// `print` of an integer.
    PrintInt,
    /// `print` of a Bool.
    PrintBool,
    /// `printLn` of a text.
    PrintLnText,
    /// `printLn` of an integer.
    PrintLnInt,
    /// `printLn` of a Bool.
    PrintLnBool,
    /// `modularAdd`, `modularSubtract` or `modularMultiply` of integers of a kind.
    Wrap(WrapOp, IntKind),
    /// `toNat8` and its like: to integers of this kind.
    Convert(IntKind),
    /// `surrenderRoot`
    SurrenderRoot,
    /// `abort`
    Abort,
    /// `spanLength`
    SpanLength,
    /// `swap`
    Swap,
    /// `makeBox`
    MakeBox,
    /// `unbox`
    Unbox,
    /// `boxGet`
    BoxGet,
    /// `boxGetMut`
    BoxGetMut,
    /// `makeEmpty`
    MakeEmpty,
    /// `destroyEmpty`
    DestroyEmpty,
    /// `length`
    Length,
    /// `insertBack`
    InsertBack,
    /// `removeBack`
    RemoveBack,
    /// `nth`
    Nth,
    /// `replaceNth`
    ReplaceNth,
    /// `acquireTerminal`
    AcquireTerminal,
    /// `readByte`
    ReadByte,
    /// `writeByte`
    WriteByte,
    /// `releaseTerminal`
    ReleaseTerminal,
}

/// Why a run aborts.
#[derive(Clone, Copy, Debug, PartialEq, Eq)]
pub enum AbortKind {
    /// A result out of range, or a division by zero.
    Arithmetic,
    /// `abort` with the text of this number.
    Called(u32),
    /// `destroyEmpty` of a buffer that holds an element.
    NotEmpty,
    /// `removeBack` from a buffer that holds none.
    Empty,
    /// `nth` or `replaceNth` at an index that isn't below the length.
    OutOfRange,
}

fn is_name(bytes: &[u8], name: &[u8]) -> bool
    ensures { result ≡ bytes_eq name.now bytes.now }
{
    name == bytes
}

fn pervasive_call(call: &[u8], of: Option<IntKind>) -> Option<ShippedCall>
    ensures { result ≡ calls.found (calls.pervasive_calls of) call.now }
{
    if is_name(call, b"surrenderRoot") {
        Some(ShippedCall::SurrenderRoot)
    } else if is_name(call, b"abort") {
        Some(ShippedCall::Abort)
    } else if is_name(call, b"spanLength") {
        Some(ShippedCall::SpanLength)
    } else if is_name(call, b"swap") {
        Some(ShippedCall::Swap)
    } else if is_name(call, b"print") {
        Some(print_of(of))
    } else if is_name(call, b"printLn") {
        Some(print_ln_of(of))
    } else {
        modular_call(call, of)
    }
}

fn print_of(of: Option<IntKind>) -> ShippedCall
    ensures { result ≡ calls.print_of of }
{
    match of {
        Some(_) => ShippedCall::PrintInt,
        None => ShippedCall::PrintText,
    }
}

fn print_ln_of(of: Option<IntKind>) -> ShippedCall
    ensures { result ≡ calls.print_ln_of of }
{
    match of {
        Some(_) => ShippedCall::PrintLnInt,
        None => ShippedCall::PrintLnText,
    }
}

fn kind_of(of: Option<IntKind>) -> IntKind
    ensures { result ≡ calls.kind_of of }
{
    match of {
        Some(kind) => kind,
        None => IntKind::Int32,
    }
}

fn modular_call(call: &[u8], of: Option<IntKind>) -> Option<ShippedCall>
    ensures { result ≡ calls.found (calls.modular_calls of ++ calls.conversion_calls) call.now }
{
    if is_name(call, b"modularAdd") {
        Some(ShippedCall::Wrap(WrapOp::Add, kind_of(of)))
    } else if is_name(call, b"modularSubtract") {
        Some(ShippedCall::Wrap(WrapOp::Subtract, kind_of(of)))
    } else if is_name(call, b"modularMultiply") {
        Some(ShippedCall::Wrap(WrapOp::Multiply, kind_of(of)))
    } else {
        conversion_call(call)
    }
}

fn conversion_call(call: &[u8]) -> Option<ShippedCall>
    ensures { result ≡ calls.found calls.conversion_calls call.now }
{
    if is_name(call, b"toNat8") {
        Some(ShippedCall::Convert(IntKind::Nat8))
    } else if is_name(call, b"toNat16") {
        Some(ShippedCall::Convert(IntKind::Nat16))
    } else if is_name(call, b"toNat32") {
        Some(ShippedCall::Convert(IntKind::Nat32))
    } else if is_name(call, b"toNat64") {
        Some(ShippedCall::Convert(IntKind::Nat64))
    } else if is_name(call, b"toInt8") {
        Some(ShippedCall::Convert(IntKind::Int8))
    } else if is_name(call, b"toInt16") {
        Some(ShippedCall::Convert(IntKind::Int16))
    } else if is_name(call, b"toInt32") {
        Some(ShippedCall::Convert(IntKind::Int32))
    } else if is_name(call, b"toInt64") {
        Some(ShippedCall::Convert(IntKind::Int64))
    } else if is_name(call, b"toIndex") {
        Some(ShippedCall::Convert(IntKind::Index))
    } else {
        None
    }
}

fn box_call(call: &[u8]) -> Option<ShippedCall>
    ensures { result ≡ calls.found calls.box_calls call.now }
{
    if is_name(call, b"makeBox") {
        Some(ShippedCall::MakeBox)
    } else if is_name(call, b"unbox") {
        Some(ShippedCall::Unbox)
    } else if is_name(call, b"boxGet") {
        Some(ShippedCall::BoxGet)
    } else if is_name(call, b"boxGetMut") {
        Some(ShippedCall::BoxGetMut)
    } else {
        None
    }
}

fn buffer_call(call: &[u8]) -> Option<ShippedCall>
    ensures { result ≡ calls.found calls.buffer_calls call.now }
{
    if is_name(call, b"makeEmpty") {
        Some(ShippedCall::MakeEmpty)
    } else if is_name(call, b"destroyEmpty") {
        Some(ShippedCall::DestroyEmpty)
    } else if is_name(call, b"length") {
        Some(ShippedCall::Length)
    } else if is_name(call, b"insertBack") {
        Some(ShippedCall::InsertBack)
    } else if is_name(call, b"removeBack") {
        Some(ShippedCall::RemoveBack)
    } else if is_name(call, b"nth") {
        Some(ShippedCall::Nth)
    } else if is_name(call, b"replaceNth") {
        Some(ShippedCall::ReplaceNth)
    } else {
        None
    }
}

fn terminal_call(call: &[u8]) -> Option<ShippedCall>
    ensures { result ≡ calls.found calls.terminal_calls call.now }
{
    if is_name(call, b"acquireTerminal") {
        Some(ShippedCall::AcquireTerminal)
    } else if is_name(call, b"readByte") {
        Some(ShippedCall::ReadByte)
    } else if is_name(call, b"writeByte") {
        Some(ShippedCall::WriteByte)
    } else if is_name(call, b"releaseTerminal") {
        Some(ShippedCall::ReleaseTerminal)
    } else {
        None
    }
}

/// The shipped call of this name in this module, for integers of this kind. `None` exactly where no
/// shipped call has the name. Without a kind, `print` and `printLn` are those of a text, and modular
/// calls those of `Int32`, the kind of a literal of which nothing else is known.
pub fn prim_of(home: &Name, call: &Name, of: Option<IntKind>) -> Option<ShippedCall>
    ensures { result ≡ calls.prim_of home.now call.now of }
{
    let home = home.as_bytes();
    let call = call.as_bytes();
    if is_name(home, b"Austral.Pervasive") {
        pervasive_call(call, of)
    } else if is_name(home, b"Standard.Box") {
        box_call(call)
    } else if is_name(home, b"Standard.Buffer") {
        buffer_call(call)
    } else if is_name(home, b"Standard.IO.Terminal") {
        terminal_call(call)
    } else {
        None
    }
}
