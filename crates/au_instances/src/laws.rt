//! Laws of instances.

ghost use Rattle.std.specs.Prelude.{◌≡◌, ◌∷◌, ◌↔◌, [], List, None, Some};
ghost use Rattle.std.specs.Option.{option_map};
ghost use Rattle.au_syntax.specs.Parts.{Each};
ghost use Rattle.au_types.specs.declared.headings.Head.{Head};
ghost use Rattle.au_types.specs.declared.parameters.Parameter.{Parameter};
ghost use Rattle.au_types.specs.declared.types.DeclAt.{DeclAt};
ghost use Rattle.au_types.specs.Types.{Meaning};
ghost use Rattle.au_matching.specs.Bindings.{Bindings};
ghost use Rattle.au_matching.specs.Substituted.{substituted};
ghost use Rattle.au_matching.specs.Fitting.{BindingsFit};
ghost use Rattle.au_matching.specs.Forming.{StandsOver};
ghost use Rattle.au_type_texts.specs.Closing.{closed};
ghost use Rattle.au_type_texts.specs.Types.{ClosedType};
ghost use Rattle.au_instances.specs.Becoming.{IsRowFor};
ghost use Rattle.au_instances.specs.ClosedInstances.{ClosedHolds, ClosedInstance, closed_row};
ghost use Rattle.au_instances.specs.Examples as examples;
ghost use Rattle.au_instances.specs.Instances.{Holds, Known};
ghost use Rattle.au_instances.specs.Laws.{ValuesMeet, pairs_below};
ghost use Rattle.au_instances.specs.Pairs.{lacking, pairs};
ghost use Rattle.au_instances.specs.Rows.{Row as InstanceRow};
ghost use Rattle.au_instances.specs.Tables.{IsTable, row_for};

/// In a table of instances at most one row of a class has a head that becomes a type, and at most one gives
/// the instance of a class at a closed type.
pub fn at_most_one_instance_fits()
    ensures whole { (rows : List InstanceRow) (heads : List (DeclAt × Head)) (scope : List Parameter)
        (class : DeclAt) (t : Meaning) (one other : InstanceRow)
        → IsTable rows
        → IsRowFor heads scope rows class t one
        → IsRowFor heads scope rows class t other
        → one ≡ other }
    ensures closed { (rows : List InstanceRow) (heads : List (DeclAt × Head))
        (class : DeclAt) (t : ClosedType) (one other : InstanceRow)
        → IsTable rows
        → ClosedInstance rows heads class t one
        → ClosedInstance rows heads class t other
        → one ≡ other }
{}

/// The row of a class whose head becomes a type at a place with type parameters is the one that gives the
/// instance there once values stand for these and the type is closed.
pub fn closing_keeps_the_row()
    ensures { (rows : List InstanceRow) (heads : List (DeclAt × Head)) (scope : List Parameter)
        (class : DeclAt) (t : Meaning) (s : Bindings) (u : ClosedType) (one other : InstanceRow)
        → IsTable rows
        → IsRowFor heads scope rows class t one
        → closed (substituted s t) ≡ Some u
        → ClosedInstance rows heads class u other
        → one ≡ other }
{}

/// What holds of a type at a place with type parameters holds of what it closes to once values stand for
/// these: values that fit their universes, and of which the known constraints hold.
pub fn closing_keeps_what_holds()
    ensures { (rows : List InstanceRow) (heads : List (DeclAt × Head)) (scope : List Parameter)
        (known : Known) (class : DeclAt) (t : Meaning) (s : Bindings) (u : ClosedType)
        → IsTable rows
        → BindingsFit heads scope [] s
        → ValuesMeet rows heads known s
        → StandsOver heads scope t
        → Holds rows heads scope known class t
        → closed (substituted s t) ≡ Some u
        → ClosedHolds rows heads class u }
{}

/// The tests find the rows of the rule: that of a class whose head becomes a type, and that which gives the
/// instance of a class at a closed type.
pub fn tests_find_the_rows()
    ensures whole { (rows : List InstanceRow) (heads : List (DeclAt × Head)) (scope : List Parameter)
        (class : DeclAt) (t : Meaning) (row : InstanceRow)
        → IsTable rows
        → row_for heads scope rows class t ≡ Some row ↔ IsRowFor heads scope rows class t row }
    ensures closed { (rows : List InstanceRow) (heads : List (DeclAt × Head))
        (class : DeclAt) (t : ClosedType) (row : InstanceRow)
        → IsTable rows
        → closed_row rows heads t class ≡ Some row ↔ ClosedInstance rows heads class t row }
{}

/// No pair is lacking exactly where the class holds: where the type is a type parameter that is known to have
/// it, or a row gives the instance.
pub fn nothing_lacks_where_a_class_holds()
    ensures { (rows : List InstanceRow) (heads : List (DeclAt × Head)) (scope : List Parameter)
        (known : Known) (class : DeclAt) (t : Meaning)
        → IsTable rows
        → lacking rows heads scope known class t ≡ None ↔ Holds rows heads scope known class t }
{}

/// The pairs that come from a class at a type are this one alone, where no row of the class has a head that
/// becomes the type. Where the head of a row becomes it under a substitution, there come besides those of
/// each constraint of the row's parameters at the parameter's value.
pub fn pairs_follow_the_rows()
    ensures alone { (rows : List InstanceRow) (heads : List (DeclAt × Head)) (scope : List Parameter)
        (class : DeclAt) (t : Meaning)
        → IsTable rows
        → ((row : InstanceRow) → ¬ (IsRowFor heads scope rows class t row))
        → pairs rows heads scope t class ≡ (class, t) ∷ [] }
    ensures with_row { (rows : List InstanceRow) (heads : List (DeclAt × Head)) (scope : List Parameter)
        (class : DeclAt) (t : Meaning) (row : InstanceRow)
        → IsTable rows
        → (is : IsRowFor heads scope rows class t row)
        → pairs rows heads scope t class ≡ (class, t) ∷ pairs_below rows heads scope row is.by }
{}

/// Rows, instances and lacking pairs of a table are as they are written by hand.
pub fn examples_hold()
    ensures rows { Each (λ one.
        option_map (λ row. row.instance.decl)
        (row_for examples.declared (examples.scope one.universe) examples.table one.class one.of)
        ≡ one.is) examples.row_examples }
    ensures closed { Each (λ one.
        option_map (λ row. row.instance.decl) (closed_row examples.table examples.declared one.of one.class)
        ≡ one.is) examples.closed_examples }
    ensures lacking { Each (λ one.
        lacking examples.table examples.declared (examples.scope examples.free) one.known one.class one.of
        ≡ one.lacks) examples.lacking_examples }
{}
