//! Whether the same is given.

ghost use Rattle.std.specs.Prelude.{◌≡◌};
ghost use Rattle.au_type_texts.specs.Given.{same_given};
ghost use Rattle.au_type_texts.specs.GivenViews.{given_said};

use crate::given_types::GivenType;
use crate::is_same;

/// Whether the same closed types are given for the same type parameters in the same order.
pub fn is_same_given(given: &[GivenType], others: &[GivenType]) -> bool
    ensures { result ≡ same_given (given_said given.now) (given_said others.now) }
{
    if given.len() != others.len() {
        return false;
    }
    for (index, one) in given.iter().enumerate() {
        let other = &others[index];
        if one.name.as_bytes() != other.name.as_bytes() || !is_same(&one.of, &other.of) {
            return false;
        }
    }
    true
}
