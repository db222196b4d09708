//! Laws of the keys of closed types.

ghost use Rattle.std.specs.Prelude.{◌≡◌, ◌++◌, ℕ, List};
ghost use Rattle.au_type_texts.specs.Types.{ClosedType};
ghost use Rattle.au_type_texts.specs.Keys.{key_of};

/// Two closed types that have one key are one, also where anything stands behind their keys, and then the
/// same stands behind both.
pub fn keys_tell()
    ensures { (t u : ClosedType) (r s : List ℕ) → key_of t ++ r ≡ key_of u ++ s → (t ≡ u) × (r ≡ s) }
{}
