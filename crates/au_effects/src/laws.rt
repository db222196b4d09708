//! Laws of the definitions, each as the contract of a call that does nothing.

ghost use Rattle.au_effects.specs.Laws.{WhatIsPutIsThere, ListsAreFields};

/// Where a part of a value is there, another that is put in its place is there afterwards.
pub fn what_is_put_is_there()
    ensures { WhatIsPutIsThere }
{}

/// Fields are a list, and a list is fields.
pub fn lists_are_fields()
    ensures { ListsAreFields }
{}
