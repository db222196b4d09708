//! The borrow statements that are open round a step.

ghost use Rattle.std.specs.Prelude.{◌≡◌, ◌∷◌, [], drop, OnOk, if◌then◌else◌};
ghost use Rattle.au_lives.specs.Lives as lives;
ghost use Rattle.au_lives.specs.Lives.{held_from};
ghost use Rattle.au_paths.specs.Lendings.{around, held_within, lending, lending_said};
ghost use Rattle.au_paths.specs.Standing.{hold_of};

use crate::holds::{Hold, tighter};
use au_base::{Memory, Name};
use au_syntax::Access;
use smallvec::SmallVec;
use std::alloc::Global;
use std::marker::Model;

/// An open borrow statement.
#[derive(Clone, Copy)]
pub(crate) struct OpenBorrow<'a> {
    /// The variable that it lends.
    pub variable: &'a [u8],
    /// How it lends it.
    pub access: Access,
    /// The reference to it.
    pub reference: &'a [u8],
}

impl<'a> Default for OpenBorrow<'a> {
    fn default() -> OpenBorrow<'a> {
        OpenBorrow {
            variable: &[],
            access: Access::Read,
            reference: &[],
        }
    }
}

/// How a variable is held inside a borrow statement, where it is held so outside.
fn held_inside(x: &Name, one: &OpenBorrow, outside: Hold) -> Hold
    ensures { hold_of result ≡ held_from x.now (around (lending_said one.now ∷ [])) (hold_of outside) }
{
    if one.reference == x.as_bytes() {
        Hold::Hidden
    } else if one.variable == x.as_bytes() {
        tighter(one.access, outside)
    } else {
        outside
    }
}

/// How a variable is held where no borrow statement is open.
fn held_outside(hidden: bool) -> Hold
    ensures { hold_of result ≡ (if hidden then lives.hidden else lives.unlent) }
{
    if hidden { Hold::Hidden } else { Hold::Unlent }
}

/// The open borrow statements round a step. As many as 8 need no allocation. Contracts see them with the
/// innermost first.
#[derive(Drop)]
pub(crate) struct OpenBorrows<'a> {
    opened: SmallVec<OpenBorrow<'a>, 8>,
}

impl<'a> Model for OpenBorrows<'a> {
    ghost use Rattle.std.specs.Prelude.{List};
    ghost use Rattle.au_paths.specs.Lendings.{Lending, innermost_first};

    ghost Value = { List Lending };

    ghost view = { λ all. innermost_first all.opened.items };
}

impl<'a> OpenBorrows<'a> {
    /// None is open.
    pub(crate) fn new(alloc: Global) -> OpenBorrows<'a>
        ensures { result ≡ [] }
    {
        OpenBorrows {
            opened: SmallVec::new(alloc),
        }
    }

    /// Opens a borrow statement, which is the innermost then.
    ///
    /// # Errors
    ///
    /// `Memory` when more than 8 are open and memory runs out.
    pub(crate) fn push(
        &mut self,
        variable: &'a [u8],
        access: Access,
        reference: &'a [u8],
    ) -> Result<(), Memory>
        ensures { OnOk result (self.new ≡ lending variable.now access reference.now ∷ self.old) }
    {
        self.opened.push(OpenBorrow {
            variable,
            access,
            reference,
        })?;
        Ok(())
    }

    /// Closes the innermost.
    pub(crate) fn pop(&mut self)
        ensures { self.new ≡ drop 1 self.old }
    {
        let _closed = self.opened.pop();
    }

    /// How they hold a variable, whose name is that of another by now or not.
    pub(crate) fn hold(&self, x: &Name, hidden: bool) -> Hold
        ensures { hold_of result ≡ held_within x.now hidden self.now }
    {
        let mut hold = held_outside(hidden);
        for one in self.opened.as_slice() {
            hold = held_inside(x, one, hold);
        }
        hold
    }
}
