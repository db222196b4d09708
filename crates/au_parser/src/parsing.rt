//! From the tokens of a file to its tree.

ghost use Rattle.std.specs.Prelude.{◌≡◌, ◌<◌, ℕ, IfOk, IsTrue, MatchResult, length};
ghost use Rattle.au_base.specs.declared.limits.Limit.{Limit};
ghost use Rattle.au_parser.specs.Fronts.{IsFaultPlace};
ghost use Rattle.au_parser.specs.Passing.{IsPassed, PassesNone};
ghost use Rattle.au_read_expressions.specs.Bounds.{usual, ModulePasses};
ghost use Rattle.au_syntax.specs.Files.{says};
ghost use Rattle.au_syntax.specs.Forms.{formed_module};
ghost use Rattle.au_syntax.specs.Plain.{PlainModule};
ghost use Rattle.au_syntax.specs.Sizes.{fits};
ghost use Rattle.au_syntax.specs.Words.{Spells};

use crate::faults::ParseFault;
use crate::file;
use au_base::Token;
use au_read_expressions::{Fault, Stop};
use au_syntax::{Parsed, Phase, Whole};
use std::alloc::Global;

/// The one tree whose words these tokens are. It has the form that the grammar asks for and is within
/// the limits, as is known of every `Whole`.
///
/// # Errors
///
/// `ParseFault::Syntax` where no tree has these words: the index is that of the first token with which no
/// file goes on, or the number of tokens where they end too early. `ParseFault::Limit` where some file that
/// begins with tokens before that one passes this limit, with one of these: if a tree has these words, it
/// passes the limit, but what is behind may be no tree. `ParseFault::Memory` where no memory was found, in
/// place of any other answer.
pub fn parse(alloc: Global, tokens: &[Token]) -> Result<Whole<Parsed>, ParseFault>
    requires fewer { length tokens.now < 4294967296 }
    // What is read is spelled so.
    ensures tree { IfOk result (λ whole. Spells (says ⟦<Parsed as Phase>⟧ whole.tree) tokens.now) }
    // The tokens before the index begin some file, those through it begin none, and where no token is left
    // they are no file, however large; and they pass no limit.
    ensures syntax { (index : ℕ) → result ≡ Err (ParseFault.Syntax index)
        → IsFaultPlace tokens.now index × PassesNone usual tokens.now }
    // This limit is passed first, and a tree that has these words passes it.
    ensures limit { (l : Limit) → result ≡ Err (ParseFault.Limit l) → IsPassed usual tokens.now l
        × ((m : PlainModule) → IsTrue (formed_module m) → Spells m tokens.now → ModulePasses usual m l) }
    // The tree that has these words is returned, if it is within the limits.
    ensures only { (m : PlainModule) → IsTrue (formed_module m) → Spells m tokens.now → IsTrue (fits m)
        → MatchResult result (λ whole. says ⟦<Parsed as Phase>⟧ whole.tree ≡ m)
        (λ e. e ≡ ParseFault.Memory) }
{
    match file(alloc, tokens) {
        Ok(tree) => Ok(Whole::new(tree)),
        Err(Stop::Memory) => Err(ParseFault::Memory),
        Err(Stop::Fault(Fault::Passed(limit, _))) => Err(ParseFault::Limit(limit)),
        Err(Stop::Fault(Fault::Syntax(left))) => {
            Err(ParseFault::Syntax(tokens.len().saturating_sub(left) as u32))
        }
    }
}
