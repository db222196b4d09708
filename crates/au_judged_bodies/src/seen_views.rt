//! What the view of a body sees of records and unions.

ghost use Rattle.std.specs.Prelude.{ℕ, List};
ghost use Rattle.au_syntax.specs.Plain.{Bytes};
ghost use Rattle.au_types.specs.declared.parameters.Parameter.{Parameter};
ghost use Rattle.au_matching.specs.Bindings.{Bindings};
ghost use Rattle.au_type_texts.specs.Given.{Given};
ghost use Rattle.au_modules.specs.Programs.{ModuleParts};
ghost use Rattle.au_names.specs.HeadsOf.{heads_of};
ghost use Rattle.au_typing.specs.Trees.{NotedParts};
ghost use Rattle.au_tables.specs.Tables.{DefinitionsFit};
ghost use Rattle.au_judged_bodies.specs.StandingTypesStanding.{StandsFor};
ghost use Rattle.au_judged_bodies.specs.Views.{DefinitionsAreApart, RecordsAreViewed, UnionsAreViewed};

/// The view of a body sees the records and the unions that the rules of typing know there.
pub fn views_see()
    ensures records { (program : List ModuleParts) (noted : List NotedParts) (fit : DefinitionsFit program)
        (apart : DefinitionsAreApart program) (place : ℕ) (params : List Parameter) (regions : List Bytes)
        (given : Given) (s : Bindings) (z : ℕ) (stands : StandsFor (heads_of program) params given s)
        → RecordsAreViewed program noted fit apart place params regions given s z stands }
    ensures unions { (program : List ModuleParts) (noted : List NotedParts) (fit : DefinitionsFit program)
        (apart : DefinitionsAreApart program) (place : ℕ) (params : List Parameter) (regions : List Bytes)
        (given : Given) (s : Bindings) (z : ℕ) (stands : StandsFor (heads_of program) params given s)
        → UnionsAreViewed program noted fit apart place params regions given s z stands }
{}
