//! No two codes have one C text, as laws: contracts of calls that do nothing.

ghost use Rattle.std.specs.Prelude.{◌≡◌};
ghost use Rattle.au_cprint.specs.Programs.{c_text};
ghost use Rattle.au_told.specs.Names.{HasPlainNames};
ghost use Rattle.au_told.specs.Programs.{IsAcceptedCode};

use crate::codes::code_is_told;
use crate::names::code_has_plain_names;
use au_cprint::laws::one_code_a_text;
use au_low::Code;

/// No two codes with plain names have one C text.
pub fn no_two_codes_have_one_text(one: &Code, other: &Code)
    ensures { HasPlainNames one.now → HasPlainNames other.now → c_text one.now ≡ c_text other.now
        → one.now ≡ other.now }
{
    code_is_told(one);
    code_is_told(other);
    one_code_a_text();
}

/// No two codes that accepted files are lowered to have one C text.
pub fn no_two_accepted_codes_have_one_text(one: &Code, other: &Code)
    ensures { IsAcceptedCode one.now → IsAcceptedCode other.now → c_text one.now ≡ c_text other.now
        → one.now ≡ other.now }
{
    code_has_plain_names();
    no_two_codes_have_one_text(one, other);
}
