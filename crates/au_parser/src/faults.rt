//! Why tokens are no tree.

use au_base::Limit;
use thiserror::Error;

/// Why tokens were not read.
#[derive(Clone, Copy, Debug, PartialEq, Eq, Error)]
pub enum ParseFault {
    /// The token of this index, counted from 0, doesn't fit. Where it is the number of tokens, they end
    /// too early.
    #[error("a token doesn't fit")]
    Syntax(u32),
    /// What is read passes this limit.
    #[error("a limit is passed")]
    Limit(Limit),
    /// No memory was found.
    #[error("out of memory")]
    Memory,
}
