//! How often a variable is mentioned.

ghost use Rattle.std.specs.Prelude.{◌≡◌};
ghost use Rattle.au_lives.specs.Tallies.{few_and, tally_and};

/// How often something is done.
#[derive(Clone, Copy, Debug, PartialEq, Eq)]
pub enum Few {
    /// Not at all.
    Zero,
    /// Once.
    One,
    /// Twice or more often.
    More,
}

/// How often a variable is mentioned, in each of four ways.
#[derive(Clone, Copy, Debug, PartialEq, Eq)]
pub struct Tally {
    /// How often it is consumed.
    pub consumed: Few,
    /// How often it is borrowed for writing.
    pub written: Few,
    /// How often it is borrowed for reading.
    pub read: Few,
    /// How often it is looked at.
    pub looked: Few,
}

/// Both together.
fn few_and(one: Few, other: Few) -> Few
    ensures { result ≡ few_and one other }
{
    match one {
        Few::Zero => other,
        Few::One => match other {
            Few::Zero => Few::One,
            Few::One => Few::More,
            Few::More => Few::More,
        },
        Few::More => Few::More,
    }
}

/// Both together.
pub(crate) fn tally_and(one: Tally, other: Tally) -> Tally
    ensures { result ≡ tally_and one other }
{
    Tally {
        consumed: few_and(one.consumed, other.consumed),
        written: few_and(one.written, other.written),
        read: few_and(one.read, other.read),
        looked: few_and(one.looked, other.looked),
    }
}
