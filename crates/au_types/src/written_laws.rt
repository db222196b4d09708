//! Laws of what names and written types mean.

ghost use Rattle.std.specs.Prelude.{◌≡◌, List, [], Some, codes};
ghost use Rattle.au_base.specs.declared.kinds.IntKind.TheVariants as kinds;
ghost use Rattle.au_base.specs.declared.places.Pos.{Pos};
ghost use Rattle.au_syntax.specs.Plain.{Bytes};
ghost use Rattle.au_syntax.specs.Types.{WrittenType};
ghost use Rattle.au_types.specs.Tables.{find};
ghost use Rattle.au_types.specs.declared.headings.Head.{Head};
ghost use Rattle.au_types.specs.declared.parameters.Parameter.{Parameter};
ghost use Rattle.au_types.specs.declared.types.DeclAt.{DeclAt};
ghost use Rattle.au_types.specs.Types.{integer};
ghost use Rattle.au_types.specs.Meant.{meant};
ghost use Rattle.au_types.specs.Moved.{moved};
ghost use Rattle.au_types.specs.Senses.{Sense, a_type, built_in, sense_of};

/// No name that is visible hides one that is built in.
pub fn built_in_names_stay()
    ensures each { (visible : List (Bytes × DeclAt)) (heads : List (DeclAt × Head))
        (name : Bytes) (sense : Sense)
        → find name built_in ≡ Some sense
        → sense_of [] [] visible heads name ≡ Some sense }
    ensures integers { (visible : List (Bytes × DeclAt)) (heads : List (DeclAt × Head))
        → sense_of [] [] visible heads (codes "Nat8") ≡ Some (a_type (integer kinds.Nat8)) }
{}

/// What a written type means doesn't depend on the places of its names.
pub fn places_do_not_count()
    ensures { (opened : List Bytes) (params : List Parameter) (visible : List (Bytes × DeclAt))
        (heads : List (DeclAt × Head)) (at : Pos) (t : WrittenType)
        → meant opened params visible heads (moved at t) ≡ meant opened params visible heads t }
{}
