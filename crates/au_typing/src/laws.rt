//! Laws on what a part of a module sees.

ghost use Rattle.std.specs.Prelude.{◌≡◌, ◌==◌, [], ℕ, List, None, Some, codes, false, find as first, map};
ghost use Rattle.std.specs.Prelude.{slice_get};
ghost use Rattle.std.specs.Str.{bytes_eq};
ghost use Rattle.au_judged_types.specs.Bounds.{parameters};
ghost use Rattle.au_modules.specs.Programs.{ModuleParts};
ghost use Rattle.au_names.specs.Owned.{own};
ghost use Rattle.au_names.specs.Standing.{Standing, definition_of, opaque_name, standing_at, whole_name};
ghost use Rattle.au_names.specs.declared.targets.Target.{Target};
ghost use Rattle.au_typing.specs.ClassTexts.{class_text};
ghost use Rattle.au_typing.specs.Called.{as_arguments, callable_at};
ghost use Rattle.au_typing.specs.Examples.{callable_examples, cases_examples, constant_examples};
ghost use Rattle.au_typing.specs.Examples.{field_examples, program, shown, some_type, target_examples};
ghost use Rattle.au_typing.specs.Insides.{cases_of, fields_of, known_definition};
ghost use Rattle.au_typing.specs.Insides.{typed_under, with_arguments};
ghost use Rattle.au_typing.specs.Outsides.{outside_of};
ghost use Rattle.au_typing.specs.Written.{seen_at};
ghost use Rattle.au_typing.specs.Scopes.{Callable, Case, Outside, Typed};
ghost use Rattle.au_syntax.specs.Parts.{Each};
ghost use Rattle.au_syntax.specs.Plain.{Bytes};
ghost use Rattle.au_syntax.specs.declared.modules.Part.TheVariants.{Body};
ghost use Rattle.au_syntax.specs.declared.modules.Part.{Part as ThePart};
ghost use Rattle.au_types.specs.Tables.{find};
ghost use Rattle.au_types.specs.declared.spaces.Space.TheVariants as spaces;
ghost use Rattle.au_types.specs.declared.spaces.Space.{Space as TheSpace};
ghost use Rattle.au_types.specs.Types.{Arguments, named};
ghost use Rattle.au_types.specs.declared.types.DeclAt.{DeclAt};

/// Two names that mean one thing are called alike, wherever they stand in a program.
pub fn one_target_is_called_alike()
    ensures { (program : List ModuleParts) (place other : ℕ) (part another : ThePart) (name alias : Bytes)
        (meaning : Target)
        → (outside_of program place part).target name ≡ Some meaning
        → (outside_of program other another).target alias ≡ Some meaning
        → (outside_of program place part).callable name ≡ (outside_of program other another).callable alias }
{}

/// In a small program that is seen which was found by hand.
pub fn examples_hold()
    ensures calls { Each
        (λ one. (outside_of program one.place one.part).callable one.name ≡ one.is)
        callable_examples }
    ensures constants { Each
        (λ one. (outside_of program one.place one.part).constant one.name ≡ one.is)
        constant_examples }
    ensures targets { Each
        (λ one. (outside_of program one.place one.part).target one.name ≡ one.is)
        target_examples }
    ensures fields { Each (λ one. (outside_of program one.place Body).fields one.of ≡ one.is) field_examples }
    ensures cases { Each (λ one. (outside_of program one.place Body).cases one.of ≡ one.is) cases_examples }
    ensures class { class_text program shown ≡ codes "Austral.Pervasive:Shown" }
    ensures no_class { class_text program some_type ≡ [] }
{}

/// What makes values of a type makes them of the type that the name of the record or the union means in its
/// module: for an opaque type, whose record or union stands in the body, of the one that the interface has.
pub fn makers_make_the_types_of_their_names()
    ensures { (program : List ModuleParts) (place : ℕ) (m : ModuleParts) (name : Bytes)
        (meaning target : Target) (d : Standing) (c : Callable)
        → slice_get program place ≡ Some m → find name (own spaces.Types place m) ≡ Some meaning
        → d.place ≡ place → whole_name d.says ≡ Some name
        → standing_at program target.at ≡ Some d → callable_at program (Some target) ≡ Some c
        → c.result ≡ named meaning.at (as_arguments (parameters c.generics)) }
{}

/// The fields of a record that is known are the parameters of what makes it, with the arguments of the type
/// in the places of its type parameters.
pub fn fields_are_the_parameters_of_makers()
    ensures { (program : List ModuleParts) (place : ℕ) (at : DeclAt) (args : Arguments) (d : Standing)
        (target : Target) (c : Callable) (fields : List Typed)
        → known_definition program place at ≡ Some d
        → fields_of program place (named at args) ≡ Some fields
        → standing_at program target.at ≡ Some d → callable_at program (Some target) ≡ Some c
        → fields ≡ map (typed_under (with_arguments (parameters c.generics) args)) c.parameters }
{}

/// The target of each case of a union that is known leads to the declaration that defines the union.
pub fn cases_lead_to_their_unions()
    ensures { (program : List ModuleParts) (place : ℕ) (at : DeclAt) (args : Arguments) (d : Standing)
        (cases : List Case)
        → known_definition program place at ≡ Some d
        → cases_of program place (named at args) ≡ Some cases
        → Each (λ one. standing_at program one.target.at ≡ Some d) cases }
{}

/// The fields of a case of a union that is known are the parameters of what makes it, with the arguments of
/// the type in the places of its type parameters.
pub fn fields_of_cases_are_the_parameters_of_makers()
    ensures { (program : List ModuleParts) (place : ℕ) (at : DeclAt) (args : Arguments) (d : Standing)
        (target : Target) (c : Callable) (cases : List Case) (one : Case)
        → known_definition program place at ≡ Some d
        → cases_of program place (named at args) ≡ Some cases
        → standing_at program target.at ≡ Some d → callable_at program (Some target) ≡ Some c
        → first (λ (other : Case). bytes_eq target.name other.target.name) cases ≡ Some one
        → one.fields ≡ map (typed_under (with_arguments (parameters c.generics) args)) c.parameters }
{}

/// What another module has as an opaque type has neither fields nor cases.
pub fn opaque_types_are_closed_elsewhere()
    ensures { (program : List ModuleParts) (place : ℕ) (at : DeclAt) (args : Arguments) (d : Standing)
        (name : Bytes)
        → standing_at program at ≡ Some d → opaque_name d.says ≡ Some name → (place == d.place) ≡ false
        → (fields_of program place (named at args) ≡ None)
        × (cases_of program place (named at args) ≡ None) }
{}

/// What a name means that stands in the body of a module, and not in its interface, is of the module itself.
pub fn bodies_are_hidden_elsewhere()
    ensures { (program : List ModuleParts) (place : ℕ) (part : ThePart) (space : TheSpace) (name : Bytes)
        (meaning : Target) (d : Standing)
        → find name (seen_at space program place part) ≡ Some meaning
        → standing_at program meaning.at ≡ Some d → d.part ≡ Body → d.place ≡ place }
{}

/// What makes the values of an opaque type is known in its module alone: the constructor of its record and
/// the cases of its union.
pub fn makers_of_opaque_types_are_hidden_elsewhere()
    ensures { (program : List ModuleParts) (place : ℕ) (part : ThePart) (name owner : Bytes)
        (meaning : Target) (at : DeclAt) (s d : Standing)
        → standing_at program at ≡ Some s → opaque_name s.says ≡ Some owner
        → definition_of program at ≡ Some d
        → (outside_of program place part).target name ≡ Some meaning
        → standing_at program meaning.at ≡ Some d → s.place ≡ place }
{}
