//! The range of a kind, and one body for each operation on numbers of a kind.

ghost use Rattle.std.specs.Prelude.{◌≡◌, ◌<◌, ◌≤◌, ◌^◌, pos, ◌↔◌, IsTrue, SomeIff};
ghost use Rattle.au_ints.specs.Operations.{exact, unwrapped, HasResult, IsCongruent, IsTurned};
ghost use Rattle.au_ints.specs.Ranges.{IsShape, IsWithin, least_number, greatest_number};

use crate::operations::{IntOp, WrapOp};

/// The integers of `BITS` bits, with a sign where `SIGN` is 1 and without one where it is 0.
pub struct Kind<const BITS: u32, const SIGN: u32>;

/// 2 to a power.
fn power_of_two(exponent: u32) -> u128
    requires { exponent ≤ 64 }
    ensures { result ≡ 2 ^ exponent }
{
    1 << exponent
}

impl<const BITS: u32, const SIGN: u32> Kind<BITS, SIGN> {
    /// The least number.
    pub fn least() -> i128
        requires { IsShape BITS SIGN }
        ensures { result ≡ least_number BITS SIGN }
    {
        if SIGN == 0 {
            0
        } else {
            -(power_of_two(BITS - 1) as i128)
        }
    }

    /// The greatest number.
    pub fn greatest() -> i128
        requires { IsShape BITS SIGN }
        ensures { result ≡ greatest_number BITS SIGN }
    {
        power_of_two(BITS - SIGN) as i128 - 1
    }

    /// Whether a number lies in the range.
    pub fn holds(number: i128) -> bool
        requires { IsShape BITS SIGN }
        ensures { IsTrue result ↔ IsWithin BITS SIGN number }
    {
        Self::least() <= number && number <= Self::greatest()
    }

    /// The number itself where it lies in the range.
    pub fn convert(number: i128) -> Option<i128>
        requires { IsShape BITS SIGN }
        ensures { SomeIff result (IsWithin BITS SIGN number) number }
    {
        if Self::holds(number) {
            Some(number)
        } else {
            None
        }
    }

    /// The exact result of an operation, where there is one and it lies in the range.
    pub fn trap(op: IntOp, a: i128, b: i128) -> Option<i128>
        requires shape { IsShape BITS SIGN }
        requires first { IsWithin BITS SIGN a }
        requires second { IsWithin BITS SIGN b }
        ensures { SomeIff result
            (HasResult op b × IsWithin BITS SIGN (exact op a b)) (exact op a b) }
    {
        match op {
            IntOp::Add => Self::convert(a + b),
            IntOp::Subtract => Self::convert(a - b),
            IntOp::Multiply => Self::convert(a.checked_mul(b)?),
            IntOp::Divide if b == 0 => None,
            IntOp::Divide => Self::convert(a / b),
        }
    }

    /// The number of the range that differs from the exact result by a multiple of 2 to the bits.
    pub fn wrap(op: WrapOp, a: i128, b: i128) -> i128
        requires shape { IsShape BITS SIGN }
        requires first { IsWithin BITS SIGN a }
        requires second { IsWithin BITS SIGN b }
        ensures { IsTurned BITS SIGN (exact (unwrapped op) a b) result }
    {
        Self::from_residue(Self::combine(op, Self::residue(a), Self::residue(b)))
    }

    /// What is left of a number without the multiples of 2 to the bits.
    fn residue(number: i128) -> u128
        requires { IsShape BITS SIGN }
        ensures small { result < 2 ^ BITS }
        ensures congruent { IsCongruent (2 ^ BITS) number (pos result) }
    {
        number.rem_euclid(power_of_two(BITS) as i128) as u128
    }

    /// What is left of a result, by what is left of the two numbers.
    fn combine(op: WrapOp, first: u128, second: u128) -> u128
        requires shape { IsShape BITS SIGN }
        requires first { first < 2 ^ BITS }
        requires second { second < 2 ^ BITS }
        ensures small { result < 2 ^ BITS }
        ensures congruent { IsCongruent (2 ^ BITS)
            (exact (unwrapped op) (pos first) (pos second)) (pos result) }
    {
        let size = power_of_two(BITS);
        match op {
            WrapOp::Add => (first + second) % size,
            WrapOp::Subtract => (first + (size - second)) % size,
            WrapOp::Multiply => first * second % size,
        }
    }

    /// The number of the range that a residue stands for.
    fn from_residue(residue: u128) -> i128
        requires shape { IsShape BITS SIGN }
        requires small { residue < 2 ^ BITS }
        ensures { IsTurned BITS SIGN (pos residue) result }
    {
        let number = residue as i128;
        let most = Self::greatest();
        if number <= most {
            number
        } else {
            number - power_of_two(BITS) as i128
        }
    }
}
