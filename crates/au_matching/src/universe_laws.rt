//! Laws of universes.

ghost use Rattle.std.specs.Prelude.{◌≡◌, ℕ, List, Some, IsTrue, true};
ghost use Rattle.std.specs.List.{list_all};
ghost use Rattle.au_syntax.specs.declared.declarations.Universe.{Universe};
ghost use Rattle.au_syntax.specs.declared.declarations.Universe.TheVariants as universes;
ghost use Rattle.au_types.specs.declared.headings.Head.{Head};
ghost use Rattle.au_types.specs.declared.parameters.Parameter.{Parameter};
ghost use Rattle.au_types.specs.declared.types.DeclAt.{DeclAt};
ghost use Rattle.au_types.specs.Rows.{head_of};
ghost use Rattle.au_types.specs.Types.{Argument, Arguments, Meaning, named};
ghost use Rattle.au_matching.specs.Erased.{erased};
ghost use Rattle.au_matching.specs.Forming.{IsWellFormed, StandsOver, fits, fits_in_kind};
ghost use Rattle.au_matching.specs.Replaced.{ValuesFit, may_be, replaced};
ghost use Rattle.au_matching.specs.Universes.{argument_universes, is_free, universe_of};

use crate::universes::TypeUniverse;

/// A type that is declared `Type` and whose arguments that aren't regions are all Free is Free.
pub fn free_arguments_make_free()
    ensures { (rows : List (DeclAt × Head)) (params : List Parameter)
        (at : DeclAt) (args : Arguments) (head : Head)
        → head_of rows at ≡ Some head
        → head.universe ≡ universes.AnyType
        → list_all is_free (argument_universes rows params args) ≡ true
        → universe_of rows params (named at args) ≡ TypeUniverse.Free }
{}

/// Two types that differ in their regions alone have one universe.
pub fn regions_do_not_count()
    ensures { (rows : List (DeclAt × Head)) (params : List Parameter) (t u : Meaning)
        → erased t ≡ erased u
        → universe_of rows params t ≡ universe_of rows params u }
{}

/// A parameter of universe `Type` takes what one of universe `Free` or `Linear` takes, and what fits in
/// universe fits in kind.
pub fn type_takes_what_others_take()
    ensures free { (rows : List (DeclAt × Head)) (params : List Parameter) (one : Argument)
        → fits rows params universes.Free one ≡ true
        → fits rows params universes.AnyType one ≡ true }
    ensures linear { (rows : List (DeclAt × Head)) (params : List Parameter) (one : Argument)
        → fits rows params universes.Linear one ≡ true
        → fits rows params universes.AnyType one ≡ true }
    ensures kind { (rows : List (DeclAt × Head)) (params : List Parameter)
        (wanted : Universe) (one : Argument)
        → fits rows params wanted one ≡ true
        → fits_in_kind wanted one ≡ true }
{}

/// A type that is well formed stands over the same rows and type parameters.
pub fn what_is_well_formed_stands()
    ensures { (rows : List (DeclAt × Head)) (params : List Parameter) (t : Meaning)
        → IsWellFormed rows params t
        → StandsOver rows params t }
{}

/// A type that is Free or Linear stays so where its type parameters get values that fit in universe.
pub fn values_keep_universes()
    ensures { (rows : List (DeclAt × Head)) (params others : List Parameter)
        (value : List ℕ → Meaning) (t : Meaning)
        → ValuesFit rows params others value
        → StandsOver rows params t
        → IsTrue (may_be (universe_of rows params t) (universe_of rows others (replaced value t))) }
{}
