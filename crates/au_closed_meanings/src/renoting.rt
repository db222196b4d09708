//! Laws of the definitions, each as the contract of a call that does nothing.

ghost use Rattle.std.specs.Prelude.{Bool};
ghost use Rattle.au_closed_trees.specs.Changes.{Change};
ghost use Rattle.au_type_texts.specs.Types.{ClosedType};
ghost use Rattle.au_meaning.specs.Views.{View};
ghost use Rattle.au_closed_meanings.specs.Agreement.{OneMeaning};
ghost use Rattle.au_syntax.specs.Plain.{Bytes};

/// Where two views agree on the types that count, and on mentions and calls, a block has the meaning that it
/// has with other notes.
pub fn blocks_have_one_meaning<I, J, T, C, U, D>()
    ensures { (known : ClosedType → Bool) (change : Change Bytes T C U D)
        (one : View I T C) (two : View J U D)
        → OneMeaning known change one two }
{}
