//! Laws of the definitions.

ghost use Rattle.std.specs.Prelude.{◌≡◌, ◌↔◌, List, None, Some, slice_get};
ghost use Rattle.au_imports.specs.Good.{AllNamesAreGood, IsGood};
ghost use Rattle.au_imports.specs.Importing.{refusal_of};
ghost use Rattle.au_imports.specs.NameFaults.{name_fault};
ghost use Rattle.au_modules.specs.Programs.{Entry, ModuleParts};
ghost use Rattle.au_promises.specs.Agreeing.{sight_of};
ghost use Rattle.au_promises.specs.Fulfilled.{Agrees};
ghost use Rattle.au_names.specs.Standing.{Standing, definition_of, opaque_name, standing_at};
ghost use Rattle.au_syntax.specs.Plain.{Bytes};
ghost use Rattle.au_syntax.specs.declared.modules.Part.TheVariants as parts;
ghost use Rattle.au_types.specs.declared.types.DeclAt.{DeclAt};

/// Names are refused for nothing exactly where they are good by the rules.
pub fn good_names_are_not_refused()
    ensures { (program : List ModuleParts) → (name_fault program ≡ None) ↔ AllNamesAreGood program }
{}

/// Modules are refused for nothing exactly where all their names are good and all their promises are kept.
pub fn good_programs_are_not_refused()
    ensures { (program : List ModuleParts) → (refusal_of program ≡ None) ↔ IsGood program }
{}

/// In a good program each opaque type of a module that has a body is defined in it, and its definition agrees
/// with it.
pub fn opaque_types_are_defined()
    ensures { (program : List ModuleParts) (at : DeclAt) (m : ModuleParts)
        (interface body : Entry) (s : Standing) (name : Bytes) → IsGood program
        → slice_get program at.«module» ≡ Some m → m.interface ≡ Some interface
        → m.body ≡ Some body → standing_at program at ≡ Some s → s.part ≡ parts.Interface
        → opaque_name s.says ≡ Some name → (d : Standing) × (definition_of program at ≡ Some d)
        × Agrees (sight_of program at.«module» m) s.says d.says }
{}
