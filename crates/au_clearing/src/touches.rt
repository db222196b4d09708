//! What one step does to a variable, at most.

ghost use Rattle.std.specs.Prelude.{◌≡◌, map};
ghost use Rattle.au_syntax.specs.Views.{placed};
ghost use Rattle.au_syntax.specs.Plain.{plain_name};
ghost use Rattle.au_clearing.specs.Touches as spec;
ghost use Rattle.au_clearing.specs.Touches.{alone};
ghost use Rattle.au_clearing.specs.Dealings.{is_whole};

use au_syntax::{Access, BorrowMode, Ident, Phase};

/// What a step does to a variable, at most. What stands further down is worse.
#[derive(Clone, Copy, Debug)]
pub enum Touch {
    /// It doesn't mention it.
    Untouched,
    /// It borrows it for reading, or looks at it.
    Quiet,
    /// It borrows it once for writing, and does nothing else to it.
    Written,
    /// It consumes it once, and does nothing else to it.
    Consumed,
    /// It may break its life.
    Broken,
}

/// What a step does to a variable, where the variable's type isn't Free, and where it is.
#[derive(Clone, Copy, Debug)]
pub struct Touches {
    /// Where it isn't.
    pub owned: Touch,
    /// Where it is.
    pub free: Touch,
}

/// Two parts of one step.
pub(crate) fn both(one: Touch, other: Touch) -> Touch
    ensures { result ≡ spec.both one other }
{
    match (one, other) {
        (Touch::Untouched, _) => other,
        (Touch::Quiet, Touch::Untouched) => Touch::Quiet,
        (Touch::Quiet, Touch::Quiet) => Touch::Quiet,
        (Touch::Written, Touch::Untouched) => Touch::Written,
        (Touch::Consumed, Touch::Untouched) => Touch::Consumed,
        _ => Touch::Broken,
    }
}

/// The worse of two touches.
pub(crate) fn worse(one: Touch, other: Touch) -> Touch
    ensures { result ≡ spec.worse one other }
{
    match (one, other) {
        (Touch::Untouched, _) => other,
        (Touch::Quiet, Touch::Untouched) => Touch::Quiet,
        (Touch::Quiet, _) => other,
        (Touch::Written, Touch::Untouched) => Touch::Written,
        (Touch::Written, Touch::Quiet) => Touch::Written,
        (Touch::Written, _) => other,
        (Touch::Consumed, Touch::Broken) => Touch::Broken,
        (Touch::Consumed, _) => Touch::Consumed,
        (Touch::Broken, _) => Touch::Broken,
    }
}

/// The same touch, in a loop: there nothing may be consumed.
pub(crate) fn kept(touch: Touch) -> Touch
    ensures { result ≡ spec.kept touch }
{
    match touch {
        Touch::Consumed => Touch::Broken,
        _ => touch,
    }
}

/// Whether a step consumes the variable.
pub(crate) fn is_consumed(touch: Touch) -> bool
    ensures { result ≡ spec.is_consumed touch }
{
    matches!(touch, Touch::Consumed)
}

/// A touch behind a step, by whether the step may have consumed the variable.
pub(crate) fn behind_spent(spent: bool, touch: Touch) -> Touch
    ensures { result ≡ spec.behind_spent spent touch }
{
    match (spent, touch) {
        (false, _) => touch,
        (true, Touch::Untouched) => Touch::Untouched,
        (true, _) => Touch::Broken,
    }
}

/// A borrow statement on the variable round a touch.
pub(crate) fn lent(access: Access, touch: Touch) -> Touch
    ensures { result ≡ spec.lent access touch }
{
    match (access, touch) {
        (Access::Read, Touch::Untouched) => Touch::Quiet,
        (Access::Read, Touch::Quiet) => Touch::Quiet,
        (Access::Write, Touch::Untouched) => Touch::Written,
        _ => Touch::Broken,
    }
}

/// Whether no step breaks the life of the variable.
pub(crate) fn is_whole(touch: Touch) -> bool
    ensures { result ≡ is_whole touch }
{
    !matches!(touch, Touch::Broken)
}

/// What a borrow does.
pub(crate) fn borrowed(mode: BorrowMode) -> Touch
    ensures { result ≡ spec.borrowed mode }
{
    match mode {
        BorrowMode::Read => Touch::Quiet,
        BorrowMode::Write => Touch::Written,
        BorrowMode::Reborrow => Touch::Written,
    }
}

/// What the name of a variable does, alone or with fields, by whether the variable is only looked at, and by
/// whether it stands in a part that may be left out.
pub(crate) fn alone<P: Phase>(looked: bool, part: bool, fields: &Vec<Ident<P>>) -> Touch
    ensures { result
        ≡ alone looked part (map (plain_name P.name_bytes) (map (placed P.Phase) fields.now.items)) }
{
    let whole = fields.is_empty();
    match (looked, part, whole) {
        (false, false, true) => Touch::Consumed,
        (false, true, true) => Touch::Broken,
        _ => Touch::Quiet,
    }
}
