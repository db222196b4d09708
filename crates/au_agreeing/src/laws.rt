//! Laws of stores, each as the contract of a call that does nothing.

ghost use Rattle.au_agreeing.specs.Laws.{BirthsAreTold, BirthsBegin, BirthsEnd, BorrowsAreTold, ItemsAreSet};
ghost use Rattle.au_agreeing.specs.Laws.{NamesAreSet, PlacesAreWritten};

/// What is set in a store is set in its memory: names, what stands at places, and elements of buffers.
pub fn stores_are_set<T, B>()
    ensures names { NamesAreSet T B }
    ensures places { PlacesAreWritten T B }
    ensures items { ItemsAreSet T B }
{}

/// Births begin and end in memory.
pub fn stores_bear<T, B>()
    ensures begun { BirthsBegin T B }
    ensures ended { BirthsEnd T B }
{}

/// What is told of births and borrows is told of the store.
pub fn stores_tell<T, B>()
    ensures births { BirthsAreTold T B }
    ensures borrows { BorrowsAreTold T B }
{}
