//! Whether what a call left is what is wanted.

ghost use Rattle.std.specs.Prelude.{◌≡◌, ◌↔◌, ◌∷◌, ℕ, List, false, IsTrue};
ghost use Rattle.std.specs.Option.{option_map_or};
ghost use Rattle.austral_cases.specs.Endings.{IsWanted};
ghost use Rattle.austral_cases.specs.Patterns.{is_of_numbers, is_told};

use crate::calling::Ending;
use crate::cases::Wanted;

/// Whether a call ended as wanted: the same bytes stand on `out`, what is told on `err`, and the status
/// is the same.
pub fn is_wanted(wanted: &Wanted, ending: &Ending) -> bool
    ensures { IsTrue result
        ↔ IsWanted wanted.now ending.now.out.written ending.now.err.written ending.now.status }
{
    ending.out.written() == wanted.out.as_slice()
        && is_told(wanted.err.as_slice(), ending.err.written())
        && ending.status.number() == wanted.status
}

/// Whether a pattern tells these bytes. In it `[*]` stands for any list of numbers in brackets.
pub fn is_told(pattern: &[u8], bytes: &[u8]) -> bool
    ensures { result ≡ is_told false pattern.now bytes.now }
{
    let mut place = Some((false, pattern));
    for byte in bytes {
        match place {
            Some((inside, left)) => place = place_behind(inside, left, *byte),
            None => return false,
        }
    }
    match place {
        Some((inside, left)) => !inside && left.is_empty(),
        None => false,
    }
}

/// Where a pattern stands behind a byte, if it tells that byte: whether that's inside of a list of numbers,
/// and what is left of the pattern.
fn place_behind(inside: bool, pattern: &[u8], byte: u8) -> Option<(bool, &[u8])>
    ensures { (bytes : List ℕ) → is_told inside pattern.now (byte ∷ bytes)
        ≡ option_map_or (λ place. is_told place.0 place.1.now bytes) result false }
{
    if inside {
        if byte == b']' {
            Some((false, pattern))
        } else if is_of_numbers(byte) {
            Some((true, pattern))
        } else {
            None
        }
    } else if let Some(left) = pattern.strip_prefix(b"[*]") {
        if byte == b'[' {
            Some((true, left))
        } else {
            None
        }
    } else {
        match pattern.strip_prefix(&[byte]) {
            Some(left) => Some((false, left)),
            None => None,
        }
    }
}

/// Whether a byte stands in a list of numbers.
fn is_of_numbers(byte: u8) -> bool
    ensures { result ≡ is_of_numbers byte }
{
    byte.is_ascii_digit() || byte == b',' || byte == b' '
}
