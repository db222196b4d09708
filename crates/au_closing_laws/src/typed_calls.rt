//! Laws of the calls of programs with notes.

ghost use Rattle.std.specs.Prelude.{◌≡◌, Contains, List, Some};
ghost use Rattle.au_syntax.specs.declared.declarations.Universe.{Universe};
ghost use Rattle.au_syntax.specs.Plain.{Bytes};
ghost use Rattle.au_types.specs.declared.types.DeclAt.{DeclAt};
ghost use Rattle.au_judged_types.specs.Bounds.{parameters};
ghost use Rattle.au_rules.specs.Good.{AllDeclarationsAreGood};
ghost use Rattle.au_classes.specs.Good.{InstancesAreGood};
ghost use Rattle.au_classes.specs.Rows.{rows_of};
ghost use Rattle.au_closing.specs.Bodies.{BodyOf, body_of};
ghost use Rattle.au_closing_laws.specs.Targets.{Call, HoldsIn, IsTyped, IsTypeOf, calls_listed};
ghost use Rattle.au_typing.specs.Trees.{NotedParts};
ghost use Rattle.au_instances.specs.Tables.{IsTable};
ghost use Rattle.au_modules.specs.Programs.{ModuleParts};
ghost use Rattle.au_names.specs.declared.targets.Target.{Target as TargetSeen};
ghost use Rattle.au_accepted.specs.Faults.{IsDerived};
ghost use Rattle.au_promises.specs.Fulfilled.{AllFulfil};
ghost use Rattle.au_closing_laws.specs.Premises.{Premises};
ghost use Rattle.au_closing_laws.specs.Calls.{AreMeant, IsGoodIn, IsMeant, Suits, put_for};

/// The rows of the instances of a program are a table where the rule on instances holds.
pub fn instances_are_a_table()
    ensures { (program : List ModuleParts) → InstancesAreGood program → IsTable (rows_of program) }
{}

/// Each call in a body of a derived program is good by the rule of calls, in a scope with what the body of
/// its module sees and with the type parameters of the body; and its name means a declaration that has what
/// is called.
pub fn calls_are_meant()
    ensures { (program : List ModuleParts) (noted : List NotedParts)
        → IsDerived program noted
        → (target : TargetSeen) (body : BodyOf)
        → body_of program noted target ≡ Some body
        → (call : Call)
        → Contains (calls_listed body.block) call
        → IsMeant program body call }
{}

/// The type parameters of each body of a derived program mean something where all declarations are good.
pub fn type_parameters_mean_something()
    ensures { (program : List ModuleParts) (noted : List NotedParts)
        → AllDeclarationsAreGood program
        → IsDerived program noted
        → (target : TargetSeen) (body : BodyOf)
        → body_of program noted target ≡ Some body
        → AreMeant program body }
{}

/// What a good call in a body puts for a type parameter of what is called, that isn't a region, suits it; and
/// where a method of a class is called, the class holds of it.
pub fn calls_put_what_fits()
    ensures parameters { (program : List ModuleParts)
        → InstancesAreGood program
        → (body : BodyOf)
        → AreMeant program body
        → (call : Call)
        → (one : IsGoodIn program body call)
        → (p : Bytes) (universe : Universe)
        → IsTypeOf (parameters one.good.called.generics) p universe
        → Suits program body one.good.called.generics p universe (put_for call.0 p) }
    ensures classes { (program : List ModuleParts)
        → InstancesAreGood program
        → (body : BodyOf)
        → AreMeant program body
        → (call : Call)
        → (one : IsGoodIn program body call)
        → (p : Bytes) (universe : Universe) (class : DeclAt)
        → IsTypeOf (parameters one.good.called.generics) p universe
        → one.good.called.class ≡ Some (p, class)
        → HoldsIn program body class (put_for call.0 p) }
{}

/// The calls of a derived program are typed where its declarations and instances are good and its bodies
/// fulfil their interfaces, under what is taken besides: declarations are of their parts, functions that have
/// no body are shipped, methods are there in the rows of their classes, and the types that calls put stand.
pub fn accepted_programs_are_typed()
    ensures { (program : List ModuleParts) (noted : List NotedParts)
        → IsDerived program noted
        → AllDeclarationsAreGood program
        → InstancesAreGood program
        → AllFulfil program
        → Premises program noted
        → IsTyped program noted }
{}
