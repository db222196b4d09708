//! Numbers of steps.

ghost use Rattle.std.specs.Prelude.{◌≡◌, ◌^◌, ◌<◌, IsTrue};
ghost use Rattle.std.specs.List.{list_all};
ghost use Rattle.std.specs.Str.Parse.{digits_value};
ghost use Rattle.au_lexer.specs.Bytes as kinds;
ghost use Rattle.au_words.specs.Reading as read;

use crate::jobs::WordsFault;
use crate::names::is_digit;

/// The most steps.
const MOST_STEPS: u64 = 1_000_000_000_000;

/// The number that digits write.
fn number(digits: &[u8]) -> u64
    requires digits { IsTrue (list_all kinds.is_digit digits.now) }
    requires fits { digits_value 10 digits.now < 2 ^ 64 }
    ensures { result ≡ digits_value 10 digits.now }
{
    let mut value: u64 = 0;
    for digit in digits {
        value = value * 10 + (*digit - b'0') as u64;
    }
    value
}

/// Whether all bytes are digits.
fn are_all_digits(bytes: &[u8]) -> bool
    ensures { result ≡ list_all kinds.is_digit bytes.now }
{
    bytes.iter().all(|byte| is_digit(*byte))
}

/// Whether bytes are one to thirteen digits, the first of them no zero.
fn are_digits(bytes: &[u8]) -> bool
    ensures { result ≡ read.are_digits bytes.now }
{
    bytes.len() <= 13 && are_all_digits(bytes) && !bytes.starts_with(b"0")
}

/// The number of steps that a value spells.
#[tactic(auto, using(crate::proofs::StepLemmas::few_digits), unfolding(crate::specs::Reading::steps_at))]
pub fn steps(value: &[u8]) -> Result<u64, WordsFault>
    ensures { read.Finds result (read.steps_at value.now) }
{
    if !are_digits(value) {
        return Err(WordsFault::NoJob);
    }
    let steps = number(value);
    if 1 <= steps && steps <= MOST_STEPS {
        Ok(steps)
    } else {
        Err(WordsFault::NoJob)
    }
}
