//! Laws of the regions in scope.

ghost use Rattle.std.specs.Prelude.{◌≡◌, ◌↔◌, ◌⊎◌, ℕ, List, [], codes};
ghost use Rattle.au_types.specs.Regions.{Knows, entered, left};

/// To leave after a region was entered gives the regions that were in scope before.
pub fn leaving_undoes_entering()
    ensures { (scope : List (List ℕ)) (name : List ℕ) → left (entered scope name) ≡ scope }
{}

/// Of the regions `Static` alone is known where none was entered; and what is entered is known from then on,
/// beside what was known before.
pub fn what_is_entered_is_known()
    ensures first { (name : List ℕ) → Knows [] name ↔ (name ≡ codes "Static") }
    ensures entered { (scope : List (List ℕ)) (name other : List ℕ)
        → Knows (entered scope name) other ↔ (Knows scope other ⊎ (name ≡ other)) }
{}
