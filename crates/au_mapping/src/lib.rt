//! Trees of one phase as trees of another, copies of trees, and how deep they are nested.
#![tactic(auto)]

pub mod declarations;
mod depths;
pub mod expressions;
pub mod mapped_declarations;
pub mod mapped_expressions;
pub mod mapped_modules;
pub mod mapped_statements;
pub mod mapped_wholes;
pub mod modules;
mod names;
mod parts;
pub mod statements;
pub mod turns;
mod types;
pub mod walks;
mod wholes;

pub use mapped_declarations::map_decl;
pub use mapped_expressions::map_expr;
pub use mapped_modules::map_module;
pub use mapped_statements::{map_block, map_stmt};
pub use mapped_wholes::map_phase;
pub use turns::Turn;
pub use types::copy_type;
pub use walks::Walk;
pub use wholes::{copy_whole, depth_of};
