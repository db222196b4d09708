//! Calls that make values of records and unions, as the meaning sees them.

ghost use Rattle.std.specs.Prelude.{ℕ, Bool, List};
ghost use Rattle.au_syntax.specs.Plain.{Bytes};
ghost use Rattle.au_types.specs.declared.parameters.Parameter.{Parameter};
ghost use Rattle.au_matching.specs.Bindings.{Bindings};
ghost use Rattle.au_type_texts.specs.Given.{Given};
ghost use Rattle.au_modules.specs.Programs.{ModuleParts};
ghost use Rattle.au_names.specs.HeadsOf.{heads_of};
ghost use Rattle.au_closing.specs.Instances.{Instance as InstanceSeen};
ghost use Rattle.au_typing.specs.Trees.{NotedParts};
ghost use Rattle.au_tables.specs.Tables.{DefinitionsFit};
ghost use Rattle.au_running_lives.specs.Known.{Callables as Keys};
ghost use Rattle.au_judged_bodies.specs.StandingTypesStanding.{StandsFor};
ghost use Rattle.au_judged_bodies.specs.Makers.{DefinitionsAreApart, MakersAreSeen, OwnTypesAreDefined};

/// A call of a name that means a record, or a case of a union, is seen to make a value of it.
pub fn makers_are_seen<K>()
    ensures { (program : List ModuleParts) (trees : List NotedParts)
        → DefinitionsFit program → DefinitionsAreApart program → OwnTypesAreDefined program
        → (place : ℕ) (params : List Parameter) (regions : List Bytes) (given : Given) (s : Bindings) (z : ℕ)
        → StandsFor (heads_of program) params given s
        → (known : Keys InstanceSeen K) (active : ℕ → Bool)
        → MakersAreSeen program trees place params regions given s z known active }
{}
