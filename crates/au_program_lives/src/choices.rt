//! The choices of a path.

ghost use Rattle.std.specs.Prelude.{◌≡◌};

use std::marker::Model;

/// The numbers of the choices that a path makes, from the scope of its variable on, up to the last that isn't
/// 0. Contracts see them as a list.
#[derive(Debug, Drop)]
pub struct Choices {
    numbers: Vec<usize>,
}

impl Model for Choices {
    ghost use Rattle.std.specs.Prelude.{List, ℕ};

    ghost Value = { List ℕ };

    ghost view = { λ c. c.numbers.items };
}

impl Choices {
    /// These choices.
    pub(crate) fn of(numbers: Vec<usize>) -> Choices
        ensures { result ≡ numbers.items }
    {
        Choices { numbers }
    }

    /// The numbers in order.
    pub fn as_slice(&self) -> &[usize]
        ensures { result.now ≡ self.now }
    {
        self.numbers.as_slice()
    }
}
