//! The tree of a file.

ghost use Rattle.std.specs.Prelude.{◌≡◌};

use au_syntax::{Module, Parsed, Whole};

/// The tree of a file.
pub fn tree_of(file: &Whole<Parsed>) -> &Module<Parsed>
    ensures { result.now ≡ file.now.tree }
{
    file.tree()
}
