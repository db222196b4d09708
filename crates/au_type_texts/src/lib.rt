//! The texts and limits of types, and closed types, in which no parameter and no region stands.
#![tactic(auto)]

pub mod calls;
pub mod closed_laws;
pub mod closed_limits;
pub mod closed_texts;
pub mod closing;
pub mod comparing;
pub mod copying;
pub mod given_comparing;
pub mod given_copying;
pub mod given_laws;
pub mod given_types;
pub mod key_laws;
pub mod keys;
pub mod laws;
pub mod limits;
pub mod texts;
pub mod types;
pub mod under;

pub use calls::value_under;
pub use closed_limits::{closed_depth_passed, closed_nodes_passed};
pub use closed_texts::closed_text;
pub use closing::closed_of;
pub use comparing::is_same;
pub use copying::copy_closed;
pub use given_comparing::is_same_given;
pub use given_copying::copy_given;
pub use given_types::GivenType;
pub use keys::{add_key, add_number};
pub use limits::{depth_passed, nodes_passed};
pub use texts::type_text;
pub use types::Closed;
pub use under::{closed_under, given_for};
