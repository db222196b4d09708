//! Comments without the blanks at their end.

ghost use Rattle.std.specs.Prelude.{◌≡◌};
ghost use Rattle.au_format.specs.Layout as spec;

/// Whether a byte is a space, a tab or a carriage return.
fn is_trailing(byte: u8) -> bool
    ensures { result ≡ spec.is_trailing byte }
{
    byte == b' ' || byte == b'\t' || byte == b'\r'
}

/// The bytes without the blanks at their end.
#[tactic(auto, using(crate::proofs::RemarkLemmas::trim_keeps, crate::proofs::RemarkLemmas::trim_grows))]
pub fn trimmed(bytes: &[u8]) -> &[u8]
    ensures { result.now ≡ spec.trimmed bytes.now }
{
    let mut size = 0;
    for (index, byte) in bytes.iter().enumerate() {
        if !is_trailing(*byte) {
            size = index + 1;
        }
    }
    &bytes[..size]
}
