//! Fields and cases whose types are closed.

use au_base::Name;
use au_type_texts::Closed;

/// A parameter or a field with its closed type.
#[derive(Drop)]
pub struct ClosedField {
    /// Its name.
    pub name: Name,
    /// Its type.
    pub of: Closed,
}

/// A case of a union, or a record.
#[derive(Drop)]
pub struct ClosedCase {
    /// Its name.
    pub name: Name,
    /// Its fields in declared order.
    pub fields: Vec<ClosedField>,
}
