//! What a shipped call comes to.

use au_cells::Cell;
use au_shipped::AbortKind;

/// What a shipped call on stores comes to.
#[derive(Drop)]
pub enum Answered {
    /// It gives a value.
    Gives(Cell),
    /// It aborts.
    Aborts(AbortKind),
    /// No rule applies, and the stores are as they were.
    NoRule,
}
