//! Instructions.

use au_base::{IntKind, Name, Sequence};
use au_ints::{IntOp, Order, WrapOp};
use au_shipped::ShippedCall;

/// How a slot is borrowed.
#[derive(Clone, Copy, Debug, PartialEq, Eq)]
pub enum Mode {
    /// To read.
    Read,
    /// To write.
    Write,
    /// To write again what the reference in the slot reaches.
    Again,
}

/// An instruction. Slots, labels, texts, types and functions are named by their numbers, a path has the
/// numbers of fields, and an order has for each parameter the number of its argument.
#[derive(Drop)]
pub enum Instr {
    /// Pushes a number of a kind.
    Push {
        kind: IntKind,
        value: i128,
    },
    /// Pushes a truth value.
    PushBool(bool),
    /// Pushes Unit.
    PushUnit,
    /// Pushes a text.
    PushText(u32),
    /// Pushes a copy of a part of a slot.
    Look {
        slot: u32,
        path: Sequence<u32>,
    },
    /// Pushes the value of a slot, which is then empty.
    Move(u32),
    /// Pops into a slot.
    Store(u32),
    /// Pops into a part of a slot.
    Set {
        slot: u32,
        path: Sequence<u32>,
    },
    /// Pops.
    Discard,
    /// Pops two numbers, and pushes the exact result or aborts.
    Arith {
        op: IntOp,
        kind: IntKind,
    },
    /// Pops two numbers, and pushes the wrapped result.
    Wrap {
        op: WrapOp,
        kind: IntKind,
        order: Sequence<u32>,
    },
    /// Pops two numbers of a kind, or two truth values where there is no kind, and pushes whether they
    /// stand in an order.
    Compare {
        order: Order,
        kind: Option<IntKind>,
    },
    /// Pops a truth value, and pushes the other one.
    Not,
    /// Pops a number, and pushes the Option of it at a kind.
    Convert(IntKind),
    /// Goes to a label.
    Jump(u32),
    /// Pops a truth value, and goes to a label where it is false.
    JumpNot(u32),
    /// Goes to a label where the number in a slot is above that in another.
    ForTest {
        counter: u32,
        last: u32,
        label: u32,
    },
    /// Where the number in a slot is below that in another, adds one to it and goes to a label.
    ForStep {
        counter: u32,
        last: u32,
        label: u32,
    },
    /// Pops the fields of a case of a type, and pushes its value. The module is the one in whose text this
    /// stands.
    Make {
        of: u32,
        tag: u32,
        order: Sequence<u32>,
        module: Name,
    },
    /// Pops a record, and puts its fields into slots from one on.
    Take(u32),
    /// Pops a union's value, puts its fields into slots from one on, and goes to the label of its case.
    Case {
        slot: u32,
        labels: Sequence<u32>,
    },
    /// Pops arguments, and begins a function in a new frame.
    Call {
        function: u32,
        order: Sequence<u32>,
    },
    /// Pops the arguments of a shipped call, and does it.
    Shipped {
        call: ShippedCall,
        of: Option<u32>,
        order: Sequence<u32>,
    },
    /// Pops the result of a frame, ends the frame, and pushes the result.
    Return,
    /// Pushes a copy of a part of what the reference in a slot reaches.
    Read {
        slot: u32,
        path: Sequence<u32>,
    },
    /// Pops into a part of what the reference in a slot reaches.
    Put {
        slot: u32,
        path: Sequence<u32>,
    },
    /// Pops a reference, and pushes a copy of what it reaches.
    Deref,
    /// Borrows a slot, and pushes the reference.
    Open {
        slot: u32,
        mode: Mode,
    },
    /// Borrows again what the reference in a slot reaches, and pushes the reference.
    Again(u32),
    /// Pushes a reference to a part of what the reference in a slot reaches.
    Part {
        slot: u32,
        path: Sequence<u32>,
    },
    /// Borrows a slot, and puts the reference into another.
    Bind {
        from: u32,
        into: u32,
        mode: Mode,
    },
    /// Closes borrows of the frame, the newest first, until so many are open.
    Close(u32),
}
