//! What names mean in the modules of a program: the tables of the names that each part sees, in three spaces,
//! the rows of declared types, and where the declarations of a number stand.
#![tactic(auto)]

pub mod decl_sets;
pub mod declarations;
pub mod declared_types;
pub mod definitions;
pub mod exports;
pub mod imports;
pub mod laws;
mod members;
pub mod methods;
pub mod module_names;
pub mod parameters;
pub mod part_names;
pub mod programs;
mod putting;
mod rows;
pub mod seeing;
pub mod targets;
mod trees;
mod walking;

pub use decl_sets::DeclSet;
pub use declarations::{Declared, declaration};
pub use declared_types::{TypeDeclared, type_declared};
pub use definitions::Definitions;
pub use exports::{Exports, exports_of};
pub use methods::Methods;
pub use module_names::ModuleNames;
pub use part_names::PartNames;
pub use programs::NamedModules;
pub use putting::in_space;
pub use seeing::names_seen;
pub use targets::Target;
pub use walking::heads_of;
