//! Laws of what is given for type parameters.

ghost use Rattle.std.specs.Prelude.{◌≡◌, Some, true};
ghost use Rattle.au_types.specs.Types.{Meaning};
ghost use Rattle.au_matching.specs.Bindings.{Bindings};
ghost use Rattle.au_matching.specs.Substituted.{substituted};
ghost use Rattle.au_type_texts.specs.Closing.{closed};
ghost use Rattle.au_type_texts.specs.Given.{Closes, Given, closed_under, same_given};

/// Two lists of what is given are the same exactly where they are equal.
pub fn given_is_told()
    ensures agrees { (given others : Given) → same_given given others ≡ true → given ≡ others }
    ensures itself { (given : Given) → same_given given given ≡ true }
{}

/// Where a substitution puts a type for each type parameter of a type, and what is given is what these types
/// close to, the closed type is that of the type with the substitution put in.
pub fn closing_is_substituting()
    ensures { (given : Given) (s : Bindings) (t : Meaning) → Closes given s t
        → closed (substituted s t) ≡ Some (closed_under given t) }
{}
