//! What is told of a run.

use au_base::Name;

/// An event.
#[derive(Drop)]
pub enum Event {
    /// A value with a birth was made.
    Born {
        /// The number of the birth.
        id: u64,
        /// The number of its type.
        of: u32,
        /// The name of the module in whose text it stands.
        module: Name,
    },
    /// The value of this birth was consumed.
    Consumed(u64),
    /// A borrow was opened.
    Opened(u64),
    /// A borrow was used.
    Used(u64),
    /// A borrow was closed.
    Closed(u64),
}
