//! Laws of the entry of a program.

ghost use Rattle.std.specs.Prelude.{◌≡◌, ℕ, List, Some};
ghost use Rattle.au_closing.specs.Entries.{Function, entry_of, form_at, formed, function_at};
ghost use Rattle.au_modules.specs.Programs.{ModuleParts};
ghost use Rattle.au_names.specs.Importing.{place_of};
ghost use Rattle.au_names.specs.Owned.{target};

/// A function that has a body, and stands in the body of the module of a name, is found as what a declaration
/// of this module means: it has the form of an entry, or it hasn't.
pub fn a_function_that_stands_is_found()
    ensures { (program : List ModuleParts) (owner name : List ℕ) (place : ℕ) (f : Function)
        → place_of program owner ≡ Some place
        → function_at program place name ≡ Some f
        → (number : ℕ) × (entry_of program owner name
        ≡ formed f.at (target place name number) (form_at program place f)) }
{}
