//! Lists that grow.

ghost use Rattle.std.specs.Prelude.{◌≡◌, ◌∷◌, ◌++◌, [], OnOk};

use au_base::Memory;

/// Puts an item behind others.
pub(crate) fn put<T: Drop>(all: &mut Vec<T>, one: T) -> Result<(), Memory>
    ensures { OnOk result (all.new.items ≡ all.old.items ++ one ∷ []) }
{
    all.push(one)?;
    Ok(())
}
