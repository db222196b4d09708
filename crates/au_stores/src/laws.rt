//! Laws of the definitions, each as the contract of a call that does nothing.

ghost use Rattle.au_stores.specs.Laws.{FillingIsOfTheWorld};

/// An instruction fills slots of the running frame as the world's frame is filled.
pub fn filling_is_of_the_world()
    ensures { FillingIsOfTheWorld }
{}
