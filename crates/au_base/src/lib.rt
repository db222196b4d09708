//! What every crate of the compiler stands on: texts and lists, names, places, tokens, limits, the
//! statuses of the program, and the traits of the outside.
#![tactic(auto)]

pub mod faults;
pub mod kinds;
pub mod limits;
pub mod memory_shelf;
pub mod memory_sink;
pub mod memory_source;
pub mod names;
pub mod null_sink;
pub mod outside;
pub mod places;
pub mod sequences;
pub mod statuses;
pub mod sure;
pub mod texts;
pub mod tokens;
pub mod writing;

pub use faults::Memory;
pub use kinds::IntKind;
pub use limits::{
    Limit, LimitKind, MOST_FILE_BYTES, MOST_LITERAL_DIGITS, MOST_NAME_BYTES, MOST_NESTING,
    MOST_TEXT_BYTES, MOST_TOKENS, MOST_TYPE_DEPTH, MOST_TYPE_NODES,
};
pub use memory_shelf::MemoryShelf;
pub use memory_sink::MemorySink;
pub use memory_source::MemorySource;
pub use names::{Entry, Name};
pub use null_sink::NullSink;
pub use outside::{Fetch, Next, Put, Shelf, Sink, Source};
pub use places::Pos;
pub use sequences::Sequence;
pub use statuses::Status;
pub use sure::{SureShelf, SureSource};
pub use texts::Text;
pub use tokens::{Keyword, Sign, Token, What};
pub use writing::{WriteFault, put_all};
