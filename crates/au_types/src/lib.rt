//! Tables by name, the types that declarations mean, and what written types mean.
#![tactic(auto)]

pub mod comparing;
pub mod copying;
pub mod declared_names;
pub mod headings;
pub mod laws;
pub mod meaning;
pub mod name_tables;
pub mod parameters;
pub mod parts;
pub mod region_laws;
pub mod regions;
pub mod scopes;
pub mod senses;
pub mod spaces;
pub mod tables;
pub mod types;
pub mod written_laws;

pub use comparing::{is_same, is_same_region};
pub use copying::{copy_argument, copy_arguments, copy_region, copy_type};
pub use headings::{Head, Heads};
pub use meaning::{region_meant, type_meant};
pub use name_tables::NameTables;
pub use parameters::{Parameter, Params, universe_in};
pub use regions::{Regions, anonymous};
pub use scopes::Scope;
pub use senses::{Sense, sense_of};
pub use spaces::Space;
pub use tables::Table;
pub use types::{Arg, DeclAt, Region, Ty};
