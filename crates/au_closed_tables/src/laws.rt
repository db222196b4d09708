//! Laws of the types that a meaning knows, each as the contract of a call that does nothing.

ghost use Rattle.au_closed_tables.specs.Closing.{FieldsClose, UniversesClose};

/// The fields and the universe of a running type are those that the meaning knows of its closed type.
pub fn tables_close()
    ensures fields { FieldsClose }
    ensures universes { UniversesClose }
{}
