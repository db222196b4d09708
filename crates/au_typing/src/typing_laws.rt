//! The search finds what is good, and what it finds is good: so no expression has two good notings in one
//! mode.

ghost use Rattle.std.specs.Prelude.{◌≡◌, ◌↔◌, ℕ, List, true, None, Ok, Err};
ghost use Rattle.au_typing.specs.Scopes.{Scope};
ghost use Rattle.au_syntax.specs.Parts.{Each};
ghost use Rattle.au_syntax.specs.Plain.{Bytes, PlainExpression};
ghost use Rattle.au_typing.specs.Bare.{is_bare};
ghost use Rattle.au_typing.specs.Calls.{GoodCall, by_labels, in_order};
ghost use Rattle.au_typing.specs.TypingExamples as examples;
ghost use Rattle.au_typing.specs.TypingExamples.{call_of, told_of};
ghost use Rattle.au_typing.specs.Faults.{Fault};
ghost use Rattle.au_typing.specs.Good.{AllGood, AllGoodIn, AllGoodLabelled, CallFits, IsNoting};
ghost use Rattle.au_typing.specs.Good.{items_of, shown, values_of};
ghost use Rattle.au_typing.specs.Notes.{Mode, Note, NotedArguments, NotedExpression, NotedExpressions};
ghost use Rattle.au_typing.specs.Notes.{erase, mode_of, type_of};
ghost use Rattle.au_typing.specs.Order.{JudgedNext};
ghost use Rattle.au_typing.specs.Rules.{int32, meets};
ghost use Rattle.au_typing.specs.Search.{note};

/// Whatever is good is found: the search for the notes of its erased tree in its mode gives it.
pub fn what_is_good_is_found()
    ensures { (scope : Scope) (a : NotedExpression)
        → AllGood scope a
        → note scope (erase a) (mode_of a) ≡ Ok a }
{}

/// What is found is a good noting: every expression in it is good, it has the mode that was asked for, and
/// without its notes it is the expression.
pub fn what_is_found_is_good()
    ensures { (scope : Scope) (e : PlainExpression) (mode : Mode) (a : NotedExpression)
        → note scope e mode ≡ Ok a
        → IsNoting scope e mode a }
{}

/// An expression is refused exactly where it has no good noting in the mode.
pub fn what_is_refused_has_no_noting()
    ensures { (scope : Scope) (e : PlainExpression) (mode : Mode)
        → ((fault : Fault) × (note scope e mode ≡ Err fault))
        ↔ (¬ ((a : NotedExpression) × IsNoting scope e mode a)) }
{}

/// No expression has two good notings in one mode.
pub fn one_noting()
    ensures { (scope : Scope) (a b : NotedExpression)
        → AllGood scope a
        → AllGood scope b
        → erase a ≡ erase b
        → mode_of a ≡ mode_of b
        → a ≡ b }
{}

/// Where a type is wanted of a good expression, its type is that: also of a call, whose result is first made
/// equal to the wanted type.
pub fn wanted_types_are_had()
    ensures { (scope : Scope) (a : NotedExpression)
        → AllGood scope a
        → meets (mode_of a) (type_of a) ≡ true }
{}

/// Expressions have the types, or the faults, that are written beside them by hand.
pub fn examples_hold()
    ensures literals { Each (λ one. told_of (note examples.scope one.of one.mode) ≡ one.told)
        examples.literals }
    ensures names { Each (λ one. told_of (note examples.scope one.of one.mode) ≡ one.told) examples.names }
    ensures operations { Each (λ one. told_of (note examples.scope one.of one.mode) ≡ one.told)
        examples.operations }
    ensures calls { Each (λ one. told_of (note examples.scope one.of one.mode) ≡ one.told)
        examples.call_examples }
    ensures substitutions { Each (λ one. call_of (note examples.scope one.of None) ≡ one.gives)
        examples.substitutions }
{}

/// In a good call each argument has the type of its parameter, and the call that of the result, with the
/// noted substitution put in: by position, and by labels.
pub fn arguments_fit()
    ensures positional { (scope : Scope) (n : Note) (name : Bytes) (number : ℕ) (es : NotedExpressions)
        → (good : GoodCall scope n name (in_order number) (shown (items_of es)))
        → AllGoodIn scope es
        → CallFits n good.called good.types (items_of es) }
    ensures labelled { (scope : Scope) (n : Note) (name : Bytes) (labels : List Bytes) (es : NotedArguments)
        → (good : GoodCall scope n name (by_labels labels) (shown (values_of es)))
        → AllGoodLabelled scope es
        → CallFits n good.called good.types (values_of es) }
{}

/// A good bare expression of which nothing is wanted has Int32.
pub fn bare_ones_have_int32()
    ensures { (scope : Scope) (a : NotedExpression)
        → AllGood scope a
        → is_bare a ≡ true
        → mode_of a ≡ None
        → type_of a ≡ int32 }
{}

/// The fault of the part that is judged next, where all parts before it have good notings, is the fault of
/// the whole: so what is wrong of the whole itself, and of the parts after it, isn't told. Of the arguments
/// of a call the two passes say the order.
pub fn faults_come_in_order()
    ensures { (scope : Scope) (e part : PlainExpression) (mode own : Mode) (fault : Fault)
        → JudgedNext scope e mode part own
        → note scope part own ≡ Err fault
        → note scope e mode ≡ Err fault }
{}
