//! What a call does.

use au_base::Name;
use au_shipped::ShippedCall;
use au_type_texts::Closed;

/// What a call does.
#[derive(Drop)]
pub enum Act {
    /// It calls the function of this number.
    Invokes(u32),
    /// It makes a value of a case of a type.
    Makes {
        /// The type.
        of: Closed,
        /// The number of the case, and 0 for a record.
        tag: u32,
        /// The name of the module in whose text the call stands.
        home: Name,
    },
    /// It is a shipped call, with the type of what is born, if it is a birth.
    Ships(ShippedCall, Option<Closed>),
}

/// What is called.
#[derive(Drop)]
pub struct Called {
    /// The names of its parameters in declared order.
    pub parameters: Vec<Name>,
    /// What the call does.
    pub act: Act,
}

/// A field that was found.
#[derive(Clone, Copy)]
pub struct Found<'a> {
    /// Its number among the fields of its case.
    pub number: u32,
    /// Its type.
    pub of: &'a Closed,
}
