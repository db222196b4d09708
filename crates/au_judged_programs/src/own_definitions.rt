//! The types of the names of records and unions are defined by them.

ghost use Rattle.au_judged_programs.specs.Own.{OwnTypesAreDefined};

/// The type of the name of a record or union is defined by it, where no name is declared again.
pub fn own_types_are_defined()
    ensures { OwnTypesAreDefined }
{}
