//! Numbers, which are digits.

ghost use Rattle.std.specs.Prelude.{◌≡◌, ◌^◌, ◌<◌, pos, IsTrue};
ghost use Rattle.std.specs.List.{prefix_len, list_all};
ghost use Rattle.std.specs.Str.Parse.{digits_value};
ghost use Rattle.au_lexer.specs.Bytes as kinds;

use crate::bytes::is_digit;

/// How many bytes at the front belong to a number.
pub fn number_size(bytes: &[u8]) -> usize
    ensures { result ≡ prefix_len kinds.is_digit bytes.now }
{
    for (index, byte) in bytes.iter().enumerate() {
        if !is_digit(*byte) {
            return index;
        }
    }
    bytes.len()
}

/// The number that digits write.
pub fn number_value(digits: &[u8]) -> i128
    requires digits { IsTrue (list_all kinds.is_digit digits.now) }
    requires fits { digits_value 10 digits.now < 2 ^ 127 }
    ensures { result ≡ pos (digits_value 10 digits.now) }
{
    let mut value: u128 = 0;
    for digit in digits {
        value = value * 10 + (*digit - b'0') as u128;
    }
    value as i128
}
