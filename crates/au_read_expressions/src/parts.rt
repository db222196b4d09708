//! Parts of lists, which are read one by one.

ghost use Rattle.std.specs.Prelude.{◌≡◌, List, Bool, Option};
ghost use Rattle.au_base.specs.declared.tokens.Token.{Token as Read_token};
ghost use Rattle.au_base.specs.declared.tokens.What.{What as Token_what};
ghost use Rattle.au_read_expressions.specs.Reading.{Gives, Read, front};

use crate::faults::Stop;
use au_base::Token;
use std::alloc::Global;

/// A part of a list that is read by itself.
pub trait Part {
    /// What is read.
    type Item: Drop;

    // what contracts see of a part
    ghost Seen: { Type 0 };

    ghost see: { Self.Item → Seen };

    // how a part is read
    ghost read_at: { List Read_token → Read Seen };

    /// Reads a part.
    fn read(alloc: Global, tokens: &[Token]) -> Result<(Self::Item, &[Token]), Stop>
        ensures { Gives (λ x. (see x.0, x.1.now)) result (read_at tokens.now) };
}

/// A part of a list that its first token tells from what stands behind the list.
pub trait Entry {
    /// What is read.
    type Item: Drop;

    // what contracts see of an entry
    ghost Seen: { Type 0 };

    ghost see: { Self.Item → Seen };

    // with which tokens an entry begins
    ghost begins_by: { Option Token_what → Bool };

    // how an entry is read
    ghost read_at: { List Read_token → Read Seen };

    /// Whether an entry begins here.
    fn begins(tokens: &[Token]) -> bool
        ensures { result ≡ begins_by (front tokens.now) };

    /// Reads an entry.
    fn read(alloc: Global, tokens: &[Token]) -> Result<(Self::Item, &[Token]), Stop>
        ensures { Gives (λ x. (see x.0, x.1.now)) result (read_at tokens.now) };
}
