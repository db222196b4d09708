//! Laws of substitutions.

ghost use Rattle.std.specs.Prelude.{◌≡◌, ℕ, List, [], Some};
ghost use Rattle.au_types.specs.Types.{Meaning};
ghost use Rattle.au_matching.specs.Bindings.{Bindings, Extends, IsInOrder, value_of};
ghost use Rattle.au_matching.specs.Composed.{composed};
ghost use Rattle.au_matching.specs.Matched.{Makes, matched};
ghost use Rattle.au_matching.specs.Substituted.{Fixes, SaysNothingOf, Suits, substituted};

/// Substituting twice is substituting once by the composed substitution, which is in order as the second
/// one is.
pub fn two_substitutions_are_one()
    ensures once { (first second : Bindings) (t : Meaning) → Suits first t →
        substituted second (substituted first t) ≡ substituted (composed first second) t }
    ensures ordered { (first second : Bindings) → IsInOrder second → IsInOrder (composed first second) }
{}

/// A substitution that says nothing of a type's names leaves the type as it is; that which lists nothing
/// leaves each type as it is.
pub fn other_names_stay()
    ensures unlisted { (s : Bindings) (t : Meaning) → SaysNothingOf s t → substituted s t ≡ t }
    ensures empty { (t : Meaning) → substituted [] t ≡ t }
{}

/// Where a substitution fixes all names of a type, each one that goes on from it makes the same of the type.
pub fn what_is_fixed_stays()
    ensures fixed { (s r : Bindings) (t : Meaning) → Extends s r →
        Fixes s t → substituted r t ≡ substituted s t }
    ensures suits { (s : Bindings) (t : Meaning) → Fixes s t → Suits s t }
{}

/// Lists in order that answer alike are one list, so of two that go on from each other there is only one.
pub fn answers_decide_lists()
    ensures alike { (s r : Bindings) → IsInOrder s → IsInOrder r →
        ((name : List ℕ) → value_of name s ≡ value_of name r) → s ≡ r }
    ensures both { (s r : Bindings) → IsInOrder s → IsInOrder r → Extends s r → Extends r s → s ≡ r }
{}

/// What the walk over a pattern and a target gathers is the least list that makes them equal, and the walk
/// gathers one where there is any.
pub fn the_walk_finds_the_least()
    ensures sound { (p t : Meaning) (s q : Bindings) → matched p t s ≡ Some q → Makes s p t q }
    ensures found { (p t : Meaning) (s r : Bindings) → Makes s p t r →
        (q : Bindings) × (matched p t s ≡ Some q) × Extends q r }
{}
