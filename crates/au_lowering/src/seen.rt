//! The rows of closed types, whose cases and fields have numbers of at most 32 bits.

ghost use Rattle.std.specs.Prelude.{◌<◌, length};

use au_closed_trees::ClosedCase;
use au_type_texts::Closed;

/// A case, or a record, whose fields have numbers of at most 32 bits.
#[derive(Drop)]
pub struct SeenCase<'a> {
    /// The case.
    pub case: &'a ClosedCase,
    ghost fits: { length case.now.fields.items < 4294967296 },
}

/// A closed declared type, whose cases have numbers of at most 32 bits.
#[derive(Drop)]
pub struct SeenRow<'a> {
    /// The type.
    pub of: &'a Closed,
    /// Whether it is Linear.
    pub linear: bool,
    /// Its cases in declared order; of a record, the record itself.
    pub cases: Vec<SeenCase<'a>>,
    ghost fits: { length cases.items < 4294967296 },
}
