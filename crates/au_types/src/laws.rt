//! Laws of the definitions.

ghost use Rattle.std.specs.Prelude.{◌≡◌, ◌+◌, ℕ, List, [], ◌++◌, Some, true, false, length};
ghost use Rattle.au_syntax.specs.Plain.{PlainDeclaration};
ghost use Rattle.au_types.specs.DeclaredNames.{numbered};
ghost use Rattle.au_types.specs.Tables.{find, has_name, with_pair, with_all, firsts};

/// What is put under a new name is found there, what is put under an old one changes nothing, and every
/// other name keeps its value.
pub fn put_is_found<V>()
    ensures found { (pairs : List (List ℕ × V)) (name : List ℕ) (value : V) → has_name name pairs ≡ false
        → find name (with_pair pairs name value) ≡ Some value }
    ensures stays { (pairs : List (List ℕ × V)) (name : List ℕ) (value : V) → has_name name pairs ≡ true
        → with_pair pairs name value ≡ pairs }
    ensures others { (pairs : List (List ℕ × V)) (name : List ℕ) (value : V) (other : List ℕ)
        → ¬ (other ≡ name) → find other (with_pair pairs name value) ≡ find other pairs }
{}

/// Pairs that are put in turn make the table of the first pair of each name, in which each name has the
/// value of its first pair.
pub fn puts_are_firsts<V>()
    ensures firsts { (pairs : List (List ℕ × V)) → with_all [] pairs ≡ firsts pairs }
    ensures found { (pairs : List (List ℕ × V)) (name : List ℕ) → find name (firsts pairs) ≡ find name pairs }
{}

/// The declarations of a body are counted on from those of its interface.
pub fn numbers_go_on()
    ensures { (first : ℕ) (interface body : List PlainDeclaration)
        → numbered first (interface ++ body) ≡ numbered first interface
        ++ numbered (first + length interface) body }
{}
