//! Laws of running types, each as the contract of a call that does nothing.

ghost use Rattle.std.specs.Prelude.{List};
ghost use Rattle.au_types.specs.declared.headings.Head.{Head};
ghost use Rattle.au_types.specs.declared.parameters.Parameter.{Parameter};
ghost use Rattle.au_types.specs.declared.types.DeclAt.{DeclAt};
ghost use Rattle.au_matching.specs.Bindings.{Bindings};
ghost use Rattle.au_running_types.specs.Laws.{CalleesRun, CallsKeepTypes, FormationStays, LastingTypesStay};
ghost use Rattle.au_running_types.specs.Laws.{MoreNamesRun, OtherNamesStay, TypesAreDecided, TypesClose};
ghost use Rattle.au_running_types.specs.Laws.{UniversesStay};

/// What is called sees the types of its arguments and its result as the caller does.
pub fn calls_keep_types()
    ensures types { CallsKeepTypes }
    ensures callees { CalleesRun }
    ensures more { MoreNamesRun }
{}

/// A type without `~` is the same in each whole expression, and types that don't name a region stay when it
/// comes or goes.
pub fn types_stay()
    ensures lasting { LastingTypesStay }
    ensures other { OtherNamesStay }
{}

/// A running type has the universe of the written one, is well formed where that is, and is Free or Linear.
pub fn universes_stay()
    ensures universes { (rows : List (DeclAt × Head)) (params others : List Parameter) (s : Bindings)
        → UniversesStay rows params others s }
    ensures formation { (rows : List (DeclAt × Head)) (params others : List Parameter) (s : Bindings)
        → FormationStays rows params others s }
    ensures decided { TypesAreDecided }
{}

/// A running type is the closed type of the meaning, but for its tokens.
pub fn types_close()
    ensures { TypesClose }
{}
