//! The code of blocks in closed trees, behind other code, with texts and types that stand for themselves,
//! and what it is made of: the variables that statements declare and their slots, statements that hold no
//! block, the jumps to ends that are found later, the fields that are bound, where the arms of cases begin,
//! and how many slots are in use.
#![tactic(auto)]

pub mod arms;
pub mod block_pieces;
pub mod entering;
pub mod jumps;
pub mod pieces;
pub mod rooms;
pub mod simple;
pub mod statements;
pub mod taking;
pub mod writers;

pub use au_lowering_expressions::{Draft, Local, Locals};
pub use entering::{declare, further};
pub use rooms::room_of_block;
pub use statements::write_block;
pub use taking::Taken;
pub use writers::Writer;
