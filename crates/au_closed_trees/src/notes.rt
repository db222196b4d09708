//! What is noted in a tree whose types are closed.

ghost use Rattle.std.specs.Prelude.{◌≡◌, IfOk};
ghost use Rattle.au_closed_trees.specs.TreeViews.{callee, closed_note};

use au_base::{IntKind, Memory, Text};
use au_shipped::ShippedCall;
use au_type_texts::{Closed, copy_closed};
use std::alloc::Global;

/// The literal that is the value of a constant.
#[derive(Drop)]
pub enum Literal {
    /// An integer of a kind.
    Int(IntKind, i128),
    /// `true` or `false`.
    Bool(bool),
    /// `nil`.
    Unit,
    /// A text, by the bytes that it means.
    Text(Text),
}

/// What is noted at an expression.
#[derive(Drop)]
pub struct ClosedNote {
    /// Its type.
    pub of: Closed,
    /// Where a variable or a part of one is mentioned, whether that was Free before closed types were put for
    /// type parameters.
    pub free: Option<bool>,
    /// Where a constant is mentioned, its literal.
    pub literal: Option<Literal>,
}

/// What a call leads to.
#[derive(Drop)]
pub enum Callee {
    /// The instance of this number.
    Instance(u32),
    /// The constructor of a record, or of a case of a union.
    Constructor {
        /// The type.
        of: Closed,
        /// The place of the case among those of the union, and 0 for a record.
        tag: u32,
    },
    /// A shipped call.
    Shipped(ShippedCall),
}

/// An equal literal.
fn copy_literal(alloc: Global, of: &Literal) -> Result<Literal, Memory>
    ensures { IfOk result (λ copy. copy ≡ of.now) }
{
    match of {
        Literal::Int(kind, value) => Ok(Literal::Int(*kind, *value)),
        Literal::Bool(value) => Ok(Literal::Bool(*value)),
        Literal::Unit => Ok(Literal::Unit),
        Literal::Text(text) => Ok(Literal::Text(text.copy(alloc)?)),
    }
}

impl ClosedNote {
    /// A note that says the same.
    ///
    /// # Errors
    ///
    /// Only for want of memory.
    pub fn copy(&self, alloc: Global) -> Result<ClosedNote, Memory>
        ensures { IfOk result (λ copy. closed_note copy ≡ closed_note self.now) }
    {
        let of = copy_closed(alloc, &self.of)?;
        let free = self.free;
        match &self.literal {
            None => Ok(ClosedNote {
                of,
                free,
                literal: None,
            }),
            Some(literal) => {
                let literal = Some(copy_literal(alloc, literal)?);
                Ok(ClosedNote { of, free, literal })
            }
        }
    }
}

impl Callee {
    /// What says the same.
    ///
    /// # Errors
    ///
    /// Only for want of memory.
    pub fn copy(&self, alloc: Global) -> Result<Callee, Memory>
        ensures { IfOk result (λ copy. callee copy ≡ callee self.now) }
    {
        match self {
            Callee::Instance(number) => Ok(Callee::Instance(*number)),
            Callee::Constructor { of, tag } => {
                let of = copy_closed(alloc, of)?;
                Ok(Callee::Constructor { of, tag: *tag })
            }
            Callee::Shipped(call) => Ok(Callee::Shipped(*call)),
        }
    }
}
