//! What statements are written with.

use std::alloc::Global;

/// What a statement is written with, and where it stands.
#[derive_where(Clone, Copy)]
pub struct Writer<'a, R> {
    /// The allocator.
    pub alloc: Global,
    /// What is looked up in the program.
    pub lookup: &'a R,
    /// How many borrow statements are open round it.
    pub around: u32,
    /// How many slots are in use in front of it.
    pub slot: u32,
}
