//! The state of a machine that runs lowered code, and its instructions.
//!
//! - A state is a machine of the definitions (`specs/States.antt`, `machine_of`). Operands and open borrows
//!   of all frames lie in piles, and a frame that waits notes its function and the place where it goes on.
//! - Each instruction is a method. Its contract says that the turn that it answers, and the state after it,
//!   are what the definitions make of the state before it (`turned`; `came` where the run may end).
//! - A turn holds no value: what is pushed stays on the operands, and what is written is in the state.
//! - Where no rule applies, the answer is `Stuck`, and nothing was told; the state isn't used again but for
//!   its events.
#![tactic(auto)]

pub mod answering;
pub mod borrowing;
pub mod boxing;
pub mod buffering;
pub mod calling_shipped;
pub mod counting;
pub mod jumping;
pub mod making;
pub mod operating;
pub mod parting;
pub mod popping;
pub mod printing;
pub mod referring;
pub mod returning;
pub mod slotting;
pub mod states;
pub mod terminals;

pub use states::{State, Turn};
