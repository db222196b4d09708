//! What substituting keeps: universes, that a type stands over rows and type parameters, and that it is well
//! formed.

ghost use Rattle.std.specs.Prelude.{◌≡◌, List, IsTrue};
ghost use Rattle.au_types.specs.declared.headings.Head.{Head};
ghost use Rattle.au_types.specs.declared.parameters.Parameter.{Parameter};
ghost use Rattle.au_types.specs.declared.types.DeclAt.{DeclAt};
ghost use Rattle.au_types.specs.Types.{Meaning};
ghost use Rattle.au_matching.specs.Bindings.{Bindings};
ghost use Rattle.au_matching.specs.Substituted.{substituted};
ghost use Rattle.au_matching.specs.Fitting.{BindingsAreWellFormed, BindingsFit, BindingsStand};
ghost use Rattle.au_matching.specs.declared.universes.TypeUniverse.TheVariants as universes;
ghost use Rattle.au_matching.specs.Forming.{IsWellFormed, StandsOver};
ghost use Rattle.au_matching.specs.Replaced.{may_be};
ghost use Rattle.au_matching.specs.Universes.{universe_of};

/// Where values fit the type parameters in scope, a type that stands over these has a universe after
/// substituting that it may have before: a type that is Free stays Free, and one that is Linear stays Linear.
pub fn substituting_keeps_universes()
    ensures kept { (rows : List (DeclAt × Head)) (params others : List Parameter)
        (s : Bindings) (t : Meaning)
        → BindingsFit rows params others s
        → StandsOver rows params t
        → IsTrue (may_be (universe_of rows params t) (universe_of rows others (substituted s t))) }
    ensures free { (rows : List (DeclAt × Head)) (params others : List Parameter)
        (s : Bindings) (t : Meaning)
        → BindingsFit rows params others s
        → StandsOver rows params t
        → universe_of rows params t ≡ universes.Free
        → universe_of rows others (substituted s t) ≡ universes.Free }
    ensures linear { (rows : List (DeclAt × Head)) (params others : List Parameter)
        (s : Bindings) (t : Meaning)
        → BindingsFit rows params others s
        → StandsOver rows params t
        → universe_of rows params t ≡ universes.Linear
        → universe_of rows others (substituted s t) ≡ universes.Linear }
{}

/// Where values are of the kinds of the type parameters in scope and stand over other ones, a type that
/// stands over these stands over the others after substituting.
pub fn substituting_keeps_standing()
    ensures { (rows : List (DeclAt × Head)) (params others : List Parameter)
        (s : Bindings) (t : Meaning)
        → BindingsStand rows params others s
        → StandsOver rows params t
        → StandsOver rows others (substituted s t) }
{}

/// Where values fit the type parameters in scope and are well formed over other ones, a type that is well
/// formed over these is well formed over the others after substituting.
pub fn substituting_keeps_formation()
    ensures { (rows : List (DeclAt × Head)) (params others : List Parameter)
        (s : Bindings) (t : Meaning)
        → BindingsAreWellFormed rows params others s
        → IsWellFormed rows params t
        → IsWellFormed rows others (substituted s t) }
{}
