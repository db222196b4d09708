//! What one walk over the scope of a variable may find, without following its paths, and what this shows.

ghost use Rattle.std.specs.Prelude.{◌≡◌, Bool, IsTrue, codes, false};
ghost use Rattle.au_syntax.specs.Parts.{Each};
ghost use Rattle.au_syntax.specs.Plain.{Bytes, PlainExpression, PlainStatement, PlainStatements};
ghost use Rattle.au_lives.specs.declared.lives.Sort.{Sort};
ghost use Rattle.au_lives.specs.declared.lives.Sort.TheVariants as sorts;
ghost use Rattle.au_lives.specs.Lives.{GoodLife, Hold};
ghost use Rattle.au_lives.specs.Mentions.{counts_in};
ghost use Rattle.au_clearing.specs.Touches.{Fits, touched};
ghost use Rattle.au_clearing.specs.Dealings.{deal, deal_block, is_cleared};
ghost use Rattle.au_clearing.specs.Absent.{LeavesAlone, absent, absent_block};
ghost use Rattle.au_clearing.specs.Examples.{judged};

/// What an expression does to a variable says how it mentions it, whether the type of the variable is Free
/// or not: not at all; neither consuming nor write-borrowing it; write-borrowing it once and no more; or
/// consuming it once and no more. Where it may break the variable's life, nothing is said.
pub fn touches_say_how_variables_are_mentioned()
    ensures { (x : Bytes) (free : Bool) (e : PlainExpression)
        → Fits (touched x free false e) (counts_in x free e) }
{}

/// A statement that doesn't mention a name leaves a variable of that name alone, however it is held, and so
/// does a block: by its dealing no step touches the variable, and no path consumes it.
pub fn unmentioned_variables_are_left_alone()
    ensures statement { (x : Bytes) (free : Bool) (s : PlainStatement) (h : Hold)
        → IsTrue (absent x s)
        → LeavesAlone (deal x free s h) }
    ensures block { (x : Bytes) (free : Bool) (b : PlainStatements) (h : Hold)
        → IsTrue (absent_block x b)
        → LeavesAlone (deal_block x free b h) }
{}

/// Where the dealing of the whole scope of a variable clears it, by what its type asks for, its life is
/// good: on every path the variable is used as its type asks for, and it is consumed neither in a loop nor in
/// a part of an expression that may be left out. Where the dealing doesn't clear it, the life may still be
/// good.
pub fn cleared_lives_are_good()
    ensures { (x : Bytes) (sort : Sort) (b : PlainStatements)
        → IsTrue (is_cleared x sort b)
        → GoodLife x sort b }
{}

/// The dealings of small bodies clear a variable that must be consumed where it is said so by hand, and else
/// don't.
pub fn small_bodies_are_judged()
    ensures { Each (λ row. is_cleared (codes "x") sorts.Linear row.0 ≡ row.1) judged }
{}
