//! Cells, and what they hold.

use au_base::Sequence;

/// What a place begins with.
#[derive(Clone, Copy)]
pub enum Start {
    /// A slot of a frame.
    Slot {
        /// How many frames are below the frame.
        frame: usize,
        /// The number of the slot.
        slot: u32,
    },
    /// The content of the box of this birth.
    Content(u64),
}

/// A reference.
#[derive(Drop)]
pub struct Borrowed {
    /// The number of its borrow.
    pub borrow: u64,
    /// What its place begins with.
    pub start: Start,
    /// The numbers of the fields that lead on from there.
    pub path: Sequence<u32>,
}

/// The parts of a value of a record or a union.
#[cycle(cells)]
#[derive(Drop)]
pub struct Parts {
    /// The number of its case; that of a record is 0.
    pub tag: u32,
    /// The number of its birth, where its type is linear.
    pub birth: Option<u64>,
    /// Its fields, in order.
    pub fields: Vec<Cell>,
}

/// A value.
#[cycle(cells)]
#[derive(Drop)]
pub enum Cell {
    Unit,
    Truth(bool),
    Nat8(u8),
    Nat16(u16),
    Nat32(u32),
    Nat64(u64),
    Int8(i8),
    Int16(i16),
    Int32(i32),
    Int64(i64),
    Index(u64),
    /// A text, by its number.
    Text(u32),
    /// A value of a record or a union.
    Made(Box<Parts>),
    Reference(Box<Borrowed>),
    /// A box, by the number of its birth, as the three below.
    BoxOf(u64),
    BufferOf(u64),
    Terminal(u64),
    Root(u64),
}

/// What an operation on values comes to.
#[derive(Drop)]
pub enum Computed {
    /// A value.
    Value(Cell),
    /// The abort of arithmetic.
    Fault,
    /// No rule applies.
    NoRule,
}
