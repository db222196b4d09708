//! Why the body of a module doesn't keep what its interface promises.

use au_base::{Name, Pos};

/// Why the body of a module doesn't keep what its interface promises. A declaration stands at its first
/// token; an instance goes by the name of its class as it is written.
#[derive(Debug, Drop)]
pub enum PromiseFault {
    /// The body has no definition of what the interface declares at this place under this name.
    NotDefined(Pos, Name),
    /// What the interface declares at the first place, the body defines differently at the second.
    Differs(Pos, Pos, Name),
}
