//! Runs cases, and says which fail.

ghost use Rattle.std.specs.Prelude.{◌≡◌, ◌+◌, IfOk, IsTrue, All, vec_len};
ghost use Rattle.austral_cases.specs.Endings.{Holds};

use crate::calling::ending_of;
use crate::cases::Case;
use crate::comparing::is_wanted;
use crate::reports::report;
use anyhow::Result;

/// How many cases passed, and how many failed.
#[derive(Clone, Copy)]
pub struct Tally {
    /// The cases that passed.
    pub passed: usize,
    /// The cases that failed.
    pub failed: usize,
}

/// Runs cases in order, and prints those that fail.
pub fn run_cases<R: Print + AllocGlobal>(rt: &R, cases: Vec<Case>) -> Result<Tally>
    ensures counted { IfOk result (λ tally. tally.passed + tally.failed ≡ vec_len cases) }
    ensures held { IfOk result (λ tally. tally.failed ≡ 0 → All Holds cases.items) }
{
    let mut tally = Tally {
        passed: 0,
        failed: 0,
    };
    for case in cases {
        if has_passed(rt, case)? {
            tally.passed += 1;
        } else {
            tally.failed += 1;
        }
    }
    Ok(tally)
}

/// Makes the call of a case, and says whether it passed. Prints a case that didn't.
fn has_passed<R: Print + AllocGlobal>(rt: &R, case: Case) -> Result<bool>
    ensures { IfOk result (λ passed. IsTrue passed → Holds case) }
{
    let Case { name, call, wanted } = case;
    let ending = ending_of(rt.alloc(), call)?;
    if is_wanted(&wanted, &ending) {
        return Ok(true);
    }
    report(rt, name.as_str(), &wanted, &ending)?;
    Ok(false)
}
