//! The laws of the definitions, each as the contract of a call that does nothing.

ghost use Rattle.au_ints.specs.Laws.{BoundsAreNumerals, DivisionGoesTowardsZero, TrappedIsExact};
ghost use Rattle.au_ints.specs.Laws.{WrappedIsUnique, ConvertedIsSame, TruthIsExact, DecimalsReadBack};

/// The least and the greatest number of each kind are the numerals that one expects.
pub fn bounds_are_numerals()
    ensures { BoundsAreNumerals }
{}

/// Division leaves less than its divisor, and goes no further from 0 than the dividend.
pub fn division_goes_towards_zero()
    ensures { DivisionGoesTowardsZero }
{}

/// A trapping operation gives the exact result exactly where it lies in the range and no divisor
/// is 0.
pub fn trapped_is_exact()
    ensures { TrappedIsExact }
{}

/// A wrapped number lies in the range, differs by a multiple, and is the only one.
pub fn wrapped_is_unique()
    ensures { WrappedIsUnique }
{}

/// A number goes to another kind exactly where that kind has it, and stays the same.
pub fn converted_is_same()
    ensures { ConvertedIsSame }
{}

/// The truth value of an order says whether the order holds.
#[tactic(auto, unfolding(crate::specs::Orders::truth_of))]
pub fn truth_is_exact()
    ensures { TruthIsExact }
{}

/// A number of a kind that is printed as a decimal is read back.
pub fn decimals_read_back()
    ensures { DecimalsReadBack }
{}
