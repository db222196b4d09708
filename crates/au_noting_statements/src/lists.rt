//! Noted parts behind one another.

ghost use Rattle.std.specs.Prelude.{◌≡◌, ◌++◌, ◌∷◌, [], MatchOption, OnOk};

use au_base::Memory;
use au_sights::Noted;
use au_syntax::{Arm, Branch, Expr, Stmt};
use std::collections::VecDeque;

/// Puts a test behind the others.
pub fn put_test(
    tests: &mut VecDeque<Box<Expr<Noted>>>,
    test: Box<Expr<Noted>>,
) -> Result<(), Memory>
    ensures { OnOk result (tests.new.items ≡ tests.old.items ++ test ∷ []) }
{
    tests.push_back(test)?;
    Ok(())
}

/// Takes the test that comes next, if one is left.
pub fn next_test(tests: &mut VecDeque<Box<Expr<Noted>>>) -> Option<Box<Expr<Noted>>>
    ensures { MatchOption result (tests.old.items ≡ []) (λ test. tests.old.items ≡ test ∷ tests.new.items) }
{
    tests.pop_front()
}

/// Puts a statement behind the others.
pub fn put_statement(made: &mut Vec<Stmt<Noted>>, one: Stmt<Noted>) -> Result<(), Memory>
    ensures { OnOk result (made.new.items ≡ made.old.items ++ one ∷ []) }
{
    made.push(one)?;
    Ok(())
}

/// Puts a branch behind the others.
pub fn put_branch(made: &mut Vec<Branch<Noted>>, one: Branch<Noted>) -> Result<(), Memory>
    ensures { OnOk result (made.new.items ≡ made.old.items ++ one ∷ []) }
{
    made.push(one)?;
    Ok(())
}

/// Puts an arm behind the others.
pub fn put_arm(made: &mut Vec<Arm<Noted>>, one: Arm<Noted>) -> Result<(), Memory>
    ensures { OnOk result (made.new.items ≡ made.old.items ++ one ∷ []) }
{
    made.push(one)?;
    Ok(())
}
