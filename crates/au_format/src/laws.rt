//! Laws of the definitions: what the layout of a file keeps, and that it is laid out itself.

ghost use Rattle.au_format.specs.Keeping.{LayoutCuts, LayoutKeeps, LayoutSays, LayoutStays, OneLayout};

/// The layout of a file has its tokens and remarks, in order.
pub fn all_is_kept()
    ensures { LayoutKeeps }
{}

/// The layout of a file is cut into the same tokens, their places aside.
pub fn the_tokens_are_the_same()
    ensures { LayoutCuts }
{}

/// The layout of a file that has a tree is cut into the words of this tree, the places aside.
pub fn the_tree_is_the_same()
    ensures { LayoutSays }
{}

/// The layout of a layout is the layout itself.
pub fn a_layout_stays()
    ensures { LayoutStays }
{}

/// No file has two layouts.
pub fn one_layout()
    ensures { OneLayout }
{}
