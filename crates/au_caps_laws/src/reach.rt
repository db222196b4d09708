//! Laws of what closed types reach.

ghost use Rattle.std.specs.Prelude.{List};
ghost use Rattle.au_caps_laws.specs.Reach.{ArgumentsAreHanded, ParametersAreHeld, ResultIsHanded, TypesReach};
ghost use Rattle.au_caps_laws.specs.Reach.{VariablesAreHeld, WrittenTypesReach};
ghost use Rattle.au_caps_lists.specs.Bodies.{Bodied};
ghost use Rattle.au_modules.specs.Programs.{ModuleParts};
ghost use Rattle.au_type_texts.specs.Given.{Given};

/// What a type reaches, once closed types are given for its type parameters, is reached by what stands in it,
/// as it is meant and as it is written.
pub fn types_reach_by_what_stands_in_them()
    ensures meant { (program : List ModuleParts) → TypesReach program }
    ensures written { (program : List ModuleParts) → WrittenTypesReach program }
{}

/// Where closed types are given for the type parameters of a function or method, what the types of its
/// parameters and variables reach is held by it, and what those of its result and of the arguments of its
/// calls reach is handed on, unless what is given reaches it.
pub fn closed_types_are_listed()
    ensures parameters { (program : List ModuleParts) (b : Bodied) (given : Given)
        → ParametersAreHeld program b given }
    ensures variables { (program : List ModuleParts) (b : Bodied) (given : Given)
        → VariablesAreHeld program b given }
    ensures result { (program : List ModuleParts) (b : Bodied) (given : Given)
        → ResultIsHanded program b given }
    ensures arguments { (program : List ModuleParts) (b : Bodied) (given : Given)
        → ArgumentsAreHanded program b given }
{}
