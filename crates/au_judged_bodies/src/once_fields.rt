//! The names of fields and cases where no name is declared again.

ghost use Rattle.au_judged_bodies.specs.OnceFieldsApart.{FieldsAreOnce};

/// No two fields of a case, and no two cases, have one name where no name is declared again.
pub fn fields_are_once()
    ensures { FieldsAreOnce }
{}
