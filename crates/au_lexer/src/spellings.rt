//! Which keyword a word is, and which sign bytes begin with.

ghost use Rattle.std.specs.Prelude.{◌≡◌};
ghost use Rattle.au_lexer.specs.Reading.{keyword_of, sign_of, first_spelled, first_begun};

use au_base::{Keyword, Sign};

/// The keyword that a word is.
pub fn keyword(word: &[u8]) -> Option<Keyword>
    ensures { result ≡ keyword_of word.now }
{
    keyword_among(&Keyword::ALL, word)
}

/// The first of these keywords that is spelled as the word is.
fn keyword_among(keywords: &[Keyword], word: &[u8]) -> Option<Keyword>
    ensures { result ≡ first_spelled keywords.now word.now }
{
    for keyword in keywords {
        if keyword.spelling() == word {
            return Some(*keyword);
        }
    }
    None
}

/// The longest sign that the bytes begin with.
pub fn sign(bytes: &[u8]) -> Option<Sign>
    ensures { result ≡ sign_of bytes.now }
{
    sign_among(&Sign::ALL, bytes)
}

/// The first of these signs that the bytes begin with.
fn sign_among(signs: &[Sign], bytes: &[u8]) -> Option<Sign>
    ensures { result ≡ first_begun signs.now bytes.now }
{
    for sign in signs {
        if bytes.starts_with(sign.spelling()) {
            return Some(*sign);
        }
    }
    None
}
