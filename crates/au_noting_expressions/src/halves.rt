//! Arguments between the two passes, and after them.

ghost use Rattle.std.specs.Prelude.{◌≡◌, ◌+◌, ◌<◌, ◌++◌, ◌∷◌, [], OnOk};
ghost use Rattle.std.specs.VecDeque.{deque_len};

use au_base::Memory;
use au_sights::Noted;
use au_syntax::Expr;
use std::collections::VecDeque;

/// An argument after the first pass: noted, or a bare one that waits.
pub(crate) type Half = Option<Expr<Noted>>;

/// Puts an argument behind the others.
pub(crate) fn put_half(halves: &mut VecDeque<Half>, half: Half) -> Result<(), Memory>
    ensures items { OnOk result (halves.new.items ≡ halves.old.items ++ half ∷ []) }
    ensures len { OnOk result (deque_len halves.new ≡ deque_len halves.old + 1) }
{
    halves.push_back(half)?;
    Ok(())
}

/// Takes the argument that comes next.
pub(crate) fn next_half(halves: &mut VecDeque<Half>) -> Half
    requires { 0 < deque_len halves.old }
    ensures items { halves.old.items ≡ result ∷ halves.new.items }
    ensures len { deque_len halves.new + 1 ≡ deque_len halves.old }
{
    match halves.pop_front() {
        Some(half) => half,
        None => None,
    }
}

/// Puts a noted argument behind the others.
pub(crate) fn put_noted(made: &mut Vec<Expr<Noted>>, one: Expr<Noted>) -> Result<(), Memory>
    ensures { OnOk result (made.new.items ≡ made.old.items ++ one ∷ []) }
{
    made.push(one)?;
    Ok(())
}
