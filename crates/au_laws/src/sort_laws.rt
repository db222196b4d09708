//! Laws of sorts.

ghost use Rattle.std.specs.Prelude.{◌≡◌, List, [], map};
ghost use Rattle.au_typing.specs.Bodies.{GoodBody};
ghost use Rattle.au_typing.specs.Statements.{GoodBlock};
ghost use Rattle.au_typing.specs.Trees.{NotedStatements, erase_block};
ghost use Rattle.au_laws.specs.Derived.{asked_in, derived_sorts, function_sorts, types_in, types_over};
ghost use Rattle.au_formed.specs.Text.{Spot};
ghost use Rattle.au_promises.specs.Mentions.{generic_parameter, type_parameters};
ghost use Rattle.au_modules.specs.Programs.{ModuleParts};
ghost use Rattle.au_typing.specs.Outsides.{outside_of};
ghost use Rattle.au_lives.specs.Lives.{is_free};
ghost use Rattle.au_lives.specs.Mentions.{counts_in, one_consumption, one_look};
ghost use Rattle.au_program_lives.specs.LinearFaults.{spot_types};
ghost use Rattle.au_typing.specs.Scopes.{Outside, Scope};
ghost use Rattle.au_program_lives.specs.Sorts.{sorts, sorts_of};
ghost use Rattle.au_syntax.specs.Expressions.{Node, path};
ghost use Rattle.au_syntax.specs.Modules.{Constrained, Header};
ghost use Rattle.au_syntax.specs.Names.{Placed};
ghost use Rattle.au_syntax.specs.Plain.{Bytes};
ghost use Rattle.au_types.specs.declared.types.Region.{Region};
ghost use Rattle.au_types.specs.Types.{Meaning, reads, writes};

/// In a block that is good with its notes, each variable asks what the type asks that it has in scope.
pub fn sorts_of_blocks_are_derived()
    ensures { (b : NotedStatements) (sc : Scope) (good : GoodBlock b sc)
        → sorts (erase_block b) (types_in sc) ≡ derived_sorts b sc good }
{}

/// In a function whose body is good with its notes, each parameter and each variable asks what the type asks
/// that it has in scope.
pub fn sorts_of_functions_are_derived()
    ensures { (outside : Outside) (generics : List (Constrained Bytes)) (header : Header Bytes)
        (body : NotedStatements) (good : GoodBody outside generics header body)
        → sorts_of header.parameters (erase_block body) (types_over outside generics)
        ≡ function_sorts outside generics header body good }
{}

/// Where a declaration of a program stands, written types are judged by what typing judges them by there.
pub fn types_are_judged_alike()
    ensures { (program : List ModuleParts) (s : Spot) (generics : List (Constrained Bytes))
        → type_parameters s.says ≡ map generic_parameter generics
        → spot_types program s
        ≡ types_over (outside_of program s.at.«module» s.part) generics }
{}

/// A `case` over a variable that holds a reference looks at one that reads, and consumes one that writes.
pub fn cases_look_at_references_or_consume_them()
    ensures reads { (sc : Scope) (to : Meaning) (region : Region) (node : Node (Unit {0})) (x : Placed Bytes)
        → counts_in x.name (is_free (asked_in sc (reads to region))) (path node x []) ≡ one_look }
    ensures writes { (sc : Scope) (to : Meaning) (region : Region) (node : Node (Unit {0})) (x : Placed Bytes)
        → counts_in x.name (is_free (asked_in sc (writes to region))) (path node x []) ≡ one_consumption }
{}
