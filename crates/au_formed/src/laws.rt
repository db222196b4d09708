//! Laws of the definitions.

ghost use Rattle.std.specs.Prelude.{◌≡◌, ◌↔◌, List, None, true};
ghost use Rattle.au_formed.specs.Forms.{form_fault};
ghost use Rattle.au_formed.specs.Good.{IsWellMade};
ghost use Rattle.au_formed.specs.Infinite.{IsInfinite, is_infinite};
ghost use Rattle.au_formed.specs.declared.namings.Naming.{Naming};
ghost use Rattle.au_syntax.specs.Plain.{Bytes, PlainDeclaration};
ghost use Rattle.au_types.specs.declared.headings.Head.{Head};
ghost use Rattle.au_types.specs.declared.types.DeclAt.{DeclAt};

/// A declaration is refused for nothing exactly where it is well made.
pub fn well_made_declarations_are_not_refused()
    ensures { (visible : List (Bytes × DeclAt)) (heads : List (DeclAt × Head)) (d : PlainDeclaration)
        → (form_fault visible heads d ≡ None) ↔ IsWellMade visible heads d }
{}

/// The test finds a type infinite exactly where it leads back to itself.
pub fn infinite_types_are_found()
    ensures { (all : List Naming) (a : DeclAt) → (is_infinite all a ≡ true) ↔ IsInfinite all a }
{}
