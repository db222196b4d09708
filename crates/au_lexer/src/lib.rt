//! From the bytes of a file to its tokens.
//!
//! A file is a row of pieces: blanks of one byte, comments from `--` to the end of their line,
//! docstrings from three quotes to the next three, and tokens, which are keywords, signs, names,
//! numbers and texts. Where several pieces could stand, the longest one does. `specs/Pieces.antt` says
//! what the pieces are, `specs/Passing.antt` which token passes a limit, and `specs/Cut.antt` how a
//! file is cut. `lex` answers that cut, and `laws` says that there is no other.
#![tactic(auto)]

mod bytes;
pub mod laws;
mod lexing;
mod limits;
mod numbers;
mod pieces;
mod spellings;
mod strings;

pub use au_base::{Keyword, Sign, Token, What};
pub use lexing::{LexFault, lex};
