//! The words for kinds, operations, orders and shipped calls.

ghost use Rattle.std.specs.Prelude.{◌≡◌, ◌++◌, OnOk};
ghost use Rattle.au_cprint.specs.Words as spec;
ghost use Rattle.au_shipped.specs.declared.prims.ShippedCall.TheVariants as calls;

use crate::adding::add;
use au_base::{IntKind, Memory};
use au_ints::{IntOp, Order, WrapOp};
use au_low::Mode;
use au_shipped::ShippedCall;

/// The word for a kind of integers.
pub(crate) fn kind_word(of: IntKind) -> &'static [u8]
    ensures { result.now ≡ spec.kind_word of }
{
    match of {
        IntKind::Nat8 => b"NAT8",
        IntKind::Nat16 => b"NAT16",
        IntKind::Nat32 => b"NAT32",
        IntKind::Nat64 => b"NAT64",
        IntKind::Int8 => b"INT8",
        IntKind::Int16 => b"INT16",
        IntKind::Int32 => b"INT32",
        IntKind::Int64 => b"INT64",
        IntKind::Index => b"INDEX",
    }
}

/// The word for a kind of integers, or for truth values where there is none.
pub(crate) fn compared_word(of: Option<IntKind>) -> &'static [u8]
    ensures { result.now ≡ spec.compared_word of }
{
    match of {
        None => b"BOOL",
        Some(kind) => kind_word(kind),
    }
}

/// The word for an operation that traps.
pub(crate) fn exact_word(of: IntOp) -> &'static [u8]
    ensures { result.now ≡ spec.exact_word of }
{
    match of {
        IntOp::Add => b"ADD",
        IntOp::Subtract => b"SUBTRACT",
        IntOp::Multiply => b"MULTIPLY",
        IntOp::Divide => b"DIVIDE",
    }
}

/// The word for an operation that wraps.
pub(crate) fn wrapped_word(of: WrapOp) -> &'static [u8]
    ensures { result.now ≡ spec.wrapped_word of }
{
    match of {
        WrapOp::Add => b"ADD",
        WrapOp::Subtract => b"SUBTRACT",
        WrapOp::Multiply => b"MULTIPLY",
    }
}

/// The word for an order.
pub(crate) fn order_word(of: Order) -> &'static [u8]
    ensures { result.now ≡ spec.order_word of }
{
    match of {
        Order::Equal => b"EQUAL",
        Order::NotEqual => b"NOTEQUAL",
        Order::Less => b"LESS",
        Order::LessEqual => b"LESSEQUAL",
        Order::Greater => b"GREATER",
        Order::GreaterEqual => b"GREATEREQUAL",
    }
}

/// The word for how a slot is borrowed.
pub(crate) fn mode_word(of: Mode) -> &'static [u8]
    ensures { result.now ≡ spec.mode_word of }
{
    match of {
        Mode::Read => b"READ",
        Mode::Write => b"WRITE",
        Mode::Again => b"AGAIN",
    }
}

/// Adds the word for a shipped call.
pub(crate) fn add_call_word(text: &mut Vec<u8>, call: ShippedCall) -> Result<(), Memory>
    ensures { OnOk result (text.new.items ≡ text.old.items ++ spec.call_word call) }
{
    match call {
        ShippedCall::Wrap(op, kind) => add_wrapped_word(text, op, kind),
        ShippedCall::Convert(kind) => add_conversion_word(text, kind),
        ShippedCall::PrintText => add(text, b"PRINT_TEXT"),
        ShippedCall::PrintInt => add(text, b"PRINT_INT"),
        ShippedCall::PrintBool => add(text, b"PRINT_BOOL"),
        ShippedCall::PrintLnText => add(text, b"PRINTLN_TEXT"),
        ShippedCall::PrintLnInt => add(text, b"PRINTLN_INT"),
        ShippedCall::PrintLnBool => add(text, b"PRINTLN_BOOL"),
        ShippedCall::SurrenderRoot => add(text, b"SURRENDER"),
        ShippedCall::Abort => add(text, b"ABORT"),
        ShippedCall::SpanLength => add(text, b"SPAN_LENGTH"),
        ShippedCall::Swap => add(text, b"SWAP"),
        ShippedCall::MakeBox => add(text, b"MAKE_BOX"),
        ShippedCall::Unbox => add(text, b"UNBOX"),
        ShippedCall::BoxGet => add(text, b"BOX_GET"),
        ShippedCall::BoxGetMut => add(text, b"BOX_GET_MUT"),
        ShippedCall::MakeEmpty => add(text, b"MAKE_BUFFER"),
        ShippedCall::DestroyEmpty => add(text, b"DESTROY_EMPTY"),
        ShippedCall::Length => add(text, b"LENGTH"),
        ShippedCall::InsertBack => add(text, b"INSERT_BACK"),
        ShippedCall::RemoveBack => add(text, b"REMOVE_BACK"),
        ShippedCall::Nth => add(text, b"NTH"),
        ShippedCall::ReplaceNth => add(text, b"REPLACE_NTH"),
        ShippedCall::AcquireTerminal => add(text, b"ACQUIRE"),
        ShippedCall::ReadByte => add(text, b"READ_BYTE"),
        ShippedCall::WriteByte => add(text, b"WRITE_BYTE"),
        ShippedCall::ReleaseTerminal => add(text, b"RELEASE"),
    }
}

/// Adds the word for an operation that wraps at a kind.
fn add_wrapped_word(text: &mut Vec<u8>, op: WrapOp, kind: IntKind) -> Result<(), Memory>
    ensures { OnOk result (text.new.items ≡ text.old.items ++ spec.call_word (calls.Wrap op kind)) }
{
    add(text, wrapped_word(op))?;
    add(text, b"_")?;
    add(text, kind_word(kind))
}

/// Adds the word for a conversion to a kind.
fn add_conversion_word(text: &mut Vec<u8>, kind: IntKind) -> Result<(), Memory>
    ensures { OnOk result (text.new.items ≡ text.old.items ++ spec.call_word (calls.Convert kind)) }
{
    add(text, b"TO_")?;
    add(text, kind_word(kind))
}

/// The shipped module that declares a call.
pub(crate) fn call_home(of: ShippedCall) -> &'static [u8]
    ensures { result.now ≡ spec.call_home of }
{
    match of {
        ShippedCall::PrintText => b"Austral.Pervasive",
        ShippedCall::PrintInt => b"Austral.Pervasive",
        ShippedCall::PrintBool => b"Austral.Pervasive",
        ShippedCall::PrintLnText => b"Austral.Pervasive",
        ShippedCall::PrintLnInt => b"Austral.Pervasive",
        ShippedCall::PrintLnBool => b"Austral.Pervasive",
        ShippedCall::Wrap(_, _) => b"Austral.Pervasive",
        ShippedCall::Convert(_) => b"Austral.Pervasive",
        ShippedCall::SurrenderRoot => b"Austral.Pervasive",
        ShippedCall::Abort => b"Austral.Pervasive",
        ShippedCall::SpanLength => b"Austral.Pervasive",
        ShippedCall::Swap => b"Austral.Pervasive",
        ShippedCall::MakeBox => b"Standard.Box",
        ShippedCall::Unbox => b"Standard.Box",
        ShippedCall::BoxGet => b"Standard.Box",
        ShippedCall::BoxGetMut => b"Standard.Box",
        ShippedCall::MakeEmpty => b"Standard.Buffer",
        ShippedCall::DestroyEmpty => b"Standard.Buffer",
        ShippedCall::Length => b"Standard.Buffer",
        ShippedCall::InsertBack => b"Standard.Buffer",
        ShippedCall::RemoveBack => b"Standard.Buffer",
        ShippedCall::Nth => b"Standard.Buffer",
        ShippedCall::ReplaceNth => b"Standard.Buffer",
        ShippedCall::AcquireTerminal => b"Standard.IO.Terminal",
        ShippedCall::ReadByte => b"Standard.IO.Terminal",
        ShippedCall::WriteByte => b"Standard.IO.Terminal",
        ShippedCall::ReleaseTerminal => b"Standard.IO.Terminal",
    }
}
