//! What a file says, without its spelling.
#![tactic(auto)]

pub mod declarations;
pub mod depths;
pub mod expressions;
pub mod laws;
pub mod modules;
pub mod names;
pub mod parsed;
pub mod phases;
pub mod statements;
pub mod types;
pub mod wholes;

pub use declarations::{Decl, Generic, Method, Signature, TypeParameter, UnionCase, Universe};
pub use expressions::{Argument, BinaryOperator, BorrowMode, Expr, Literal, Site};
pub use modules::{Import, Module, Part};
pub use names::{Bind, BorrowNames, Field, Ident, Renamed};
pub use parsed::Parsed;
pub use phases::Phase;
pub use statements::{Arm, Binding, Block, Branch, Stmt};
pub use types::{Access, TypeName, TypeText};
pub use wholes::{FileTree, Whole};
