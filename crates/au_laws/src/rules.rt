//! What the rules of typing ask by tests is what the rules say in their own words.

ghost use Rattle.std.specs.Prelude.{◌≡◌, ◌↔◌, None, Ok};
ghost use Rattle.au_instances.specs.Instances.{Known};
ghost use Rattle.au_instances.specs.Tables.{IsTable};
ghost use Rattle.au_matching.specs.Bindings.{Bindings};
ghost use Rattle.au_typing.specs.Scopes.{Scope};
ghost use Rattle.au_syntax.specs.Types.{WrittenType};
ghost use Rattle.au_types.specs.Types.{Meaning};
ghost use Rattle.au_typing.specs.Calls.{first_lacking};
ghost use Rattle.au_typing.specs.Lookups.{written_type};
ghost use Rattle.au_laws.specs.Rules.{AllHold, IsFormed};

/// A written type has a type in a scope exactly where it means this type there and the type is well formed.
pub fn written_types_are_formed()
    ensures { (scope : Scope) (written : WrittenType) (t : Meaning)
        → written_type scope written ≡ Ok t ↔ IsFormed scope written t }
{}

/// Nothing of what is wanted lacks exactly where each class that is wanted of a name holds of the type that
/// the name stands for.
pub fn nothing_lacks_where_all_holds()
    ensures { (scope : Scope) (s : Bindings) (wanted : Known)
        → IsTable scope.outside.instances
        → first_lacking scope s wanted ≡ None ↔ AllHold scope s wanted }
{}
