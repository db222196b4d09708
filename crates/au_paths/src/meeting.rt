//! What the steps of statements do to the states of a variable.

ghost use Rattle.std.specs.Prelude.{◌≡◌};
ghost use Rattle.au_lives.specs.Lives.{unless_hidden, met_counts};
ghost use Rattle.au_lives.specs.Lives as lives;
ghost use Rattle.au_lives.specs.Mentions as mentions;
ghost use Rattle.au_lives.specs.Mentions.{Counts, where_named};
ghost use Rattle.au_lives.specs.Paths.{whole, opening, assignment, assignment_behind};
ghost use Rattle.au_lives.specs.Walks.{walk_step, does, noted, returned};
ghost use Rattle.au_lives.specs.Tallies.{tally_of};
ghost use Rattle.au_paths.specs.Seen.{seen_name, seen_expression};
ghost use Rattle.au_paths.specs.Standing.{hold_of, reach_of, Gives, then_on};

use crate::fates::{effect_of, is_free};
use crate::holds::{Hold, is_named};
use crate::reaches::{Reached, Stop, go_on, noted, returned};
use au_base::Name;
use au_lives::lives::Sort;
use au_lives::{Few, Tally, counts};
use au_syntax::{Access, Expr, Ident, Phase};

const NONE: Tally = Tally {
    consumed: Few::Zero,
    written: Few::Zero,
    read: Few::Zero,
    looked: Few::Zero,
};

/// How often an expression mentions a variable that is held so.
fn tally_at<P: Phase>(x: &Name, sort: Sort, hold: Hold, e: &Expr<P>) -> Tally
    ensures { result
        ≡ tally_of
        (unless_hidden (hold_of hold)
        (met_counts x.now (lives.is_free sort) (whole (seen_expression P.Phase e.now)))) }
{
    match hold {
        Hold::Unlent => counts(x, is_free(sort), e),
        Hold::ReadLent => counts(x, is_free(sort), e),
        Hold::WriteLent => counts(x, is_free(sort), e),
        Hold::Hidden => NONE,
    }
}

/// What a mention counts as, where it is one of the variable.
fn mention_at<P: Phase>(x: &Name, hold: Hold, name: &Ident<P>, one: Tally) -> Tally
    ensures { (k : Counts) → tally_of k ≡ one
        → result
        ≡ tally_of
        (unless_hidden (hold_of hold) (where_named x.now (seen_name P.Phase name.now).name k)) }
{
    match hold {
        Hold::Unlent => where_named(x, name, one),
        Hold::ReadLent => where_named(x, name, one),
        Hold::WriteLent => where_named(x, name, one),
        Hold::Hidden => NONE,
    }
}

/// A mention that counts only where it is one of the variable.
fn where_named<P: Phase>(x: &Name, name: &Ident<P>, one: Tally) -> Tally
    ensures { (k : Counts) → tally_of k ≡ one
        → result ≡ tally_of (where_named x.now (seen_name P.Phase name.now).name k) }
{
    if is_named(x, name) { one } else { NONE }
}

/// The opening of a borrow statement.
fn opening_tally(access: Access) -> Tally
    ensures { result ≡ tally_of (lives.opening_counts access) }
{
    match access {
        Access::Read => {
            Tally {
                consumed: Few::Zero,
                written: Few::Zero,
                read: Few::One,
                looked: Few::Zero,
            }
        }
        Access::Write => write_tally(),
    }
}

/// One write borrow.
fn write_tally() -> Tally
    ensures { result ≡ tally_of mentions.one_write_borrow }
{
    Tally {
        consumed: Few::Zero,
        written: Few::One,
        read: Few::Zero,
        looked: Few::Zero,
    }
}

/// One look.
fn look_tally() -> Tally
    ensures { result ≡ tally_of mentions.one_look }
{
    Tally {
        consumed: Few::Zero,
        written: Few::Zero,
        read: Few::Zero,
        looked: Few::One,
    }
}

/// An expression.
pub(crate) fn meet<P: Phase>(
    x: &Name,
    sort: Sort,
    hold: Hold,
    e: &Expr<P>,
    reach: Reached,
) -> Result<Reached, Stop>
    ensures { Gives result
        (walk_step (does x.now sort (whole (seen_expression P.Phase e.now)) (hold_of hold))
        (reach_of reach)) }
{
    let tally = tally_at(x, sort, hold, e);
    go_on(effect_of(hold, tally), reach)
}

/// The opening of a borrow statement on a variable.
pub(crate) fn meet_opening<P: Phase>(
    x: &Name,
    sort: Sort,
    hold: Hold,
    access: Access,
    name: &Ident<P>,
    reach: Reached,
) -> Result<Reached, Stop>
    ensures { Gives result
        (walk_step (does x.now sort (opening access (seen_name P.Phase name.now).name) (hold_of hold))
        (reach_of reach)) }
{
    let tally = mention_at(x, hold, name, opening_tally(access));
    go_on(effect_of(hold, tally), reach)
}

/// An expression, and an assignment of it to a variable or its part.
pub(crate) fn meet_assignment<P: Phase>(
    x: &Name,
    sort: Sort,
    hold: Hold,
    e: &Expr<P>,
    name: &Ident<P>,
    reach: Reached,
) -> Result<Reached, Stop>
    ensures { Gives result
        (then_on
        (walk_step (does x.now sort (whole (seen_expression P.Phase e.now)) (hold_of hold))
        (reach_of reach))
        (walk_step (does x.now sort (assignment (seen_name P.Phase name.now).name) (hold_of hold)))) }
{
    let behind = meet(x, sort, hold, e, reach)?;
    let tally = mention_at(x, hold, name, write_tally());
    go_on(effect_of(hold, tally), behind)
}

/// An expression, and an assignment of it to what lies behind a variable.
pub(crate) fn meet_assignment_through<P: Phase>(
    x: &Name,
    sort: Sort,
    hold: Hold,
    e: &Expr<P>,
    name: &Ident<P>,
    reach: Reached,
) -> Result<Reached, Stop>
    ensures { Gives result
        (then_on
        (walk_step (does x.now sort (whole (seen_expression P.Phase e.now)) (hold_of hold))
        (reach_of reach))
        (walk_step (does x.now sort (assignment_behind (seen_name P.Phase name.now).name) (hold_of hold)))) }
{
    let behind = meet(x, sort, hold, e, reach)?;
    let tally = mention_at(x, hold, name, look_tally());
    go_on(effect_of(hold, tally), behind)
}

/// An expression on the heap.
pub(crate) fn meet_boxed<P: Phase>(
    x: &Name,
    sort: Sort,
    hold: Hold,
    e: &Box<Expr<P>>,
    reach: Reached,
) -> Result<Reached, Stop>
    ensures { Gives result
        (walk_step (does x.now sort (whole (seen_expression P.Phase e.now.value)) (hold_of hold))
        (reach_of reach)) }
{
    meet(x, sort, hold, e, reach)
}

/// The test of a branch of this number.
pub(crate) fn meet_test<P: Phase>(
    number: usize,
    x: &Name,
    sort: Sort,
    hold: Hold,
    e: &Box<Expr<P>>,
    reach: Reached,
) -> Result<Reached, Stop>
    ensures { Gives result
        (noted number
        (walk_step (does x.now sort (whole (seen_expression P.Phase e.now.value)) (hold_of hold))
        (reach_of reach))) }
{
    noted(number, meet_boxed(x, sort, hold, e, reach))
}

/// Two expressions, one after the other.
pub(crate) fn meet_both<P: Phase>(
    x: &Name,
    sort: Sort,
    hold: Hold,
    one: &Expr<P>,
    other: &Expr<P>,
    reach: Reached,
) -> Result<Reached, Stop>
    ensures { Gives result
        (then_on
        (walk_step (does x.now sort (whole (seen_expression P.Phase one.now)) (hold_of hold))
        (reach_of reach))
        (walk_step (does x.now sort (whole (seen_expression P.Phase other.now)) (hold_of hold)))) }
{
    let behind = meet(x, sort, hold, one, reach)?;
    meet(x, sort, hold, other, behind)
}

/// An expression that is returned.
pub(crate) fn meet_return<P: Phase>(
    x: &Name,
    sort: Sort,
    hold: Hold,
    e: &Expr<P>,
    reach: Reached,
) -> Result<Reached, Stop>
    ensures { Gives result
        (then_on
        (walk_step (does x.now sort (whole (seen_expression P.Phase e.now)) (hold_of hold))
        (reach_of reach))
        (returned sort)) }
{
    let behind = meet(x, sort, hold, e, reach)?;
    returned(sort, behind)
}
