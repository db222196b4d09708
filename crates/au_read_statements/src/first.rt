//! What the first tokens tell.

ghost use Rattle.std.specs.Prelude.{◌≡◌, ◌∷◌, [], Some};
ghost use Rattle.au_base.specs.declared.tokens.Keyword.TheVariants as keyword;
ghost use Rattle.au_base.specs.declared.tokens.Sign.TheVariants as sign;
ghost use Rattle.au_base.specs.declared.tokens.What.TheVariants as what;
ghost use Rattle.au_read_statements.specs.StatementReading as spec;
ghost use Rattle.au_read_expressions.specs.Bounds.{usual};
ghost use Rattle.au_read_expressions.specs.Reading.{Gives, Stops, front, tokens_at};

use au_base::limits::MOST_NESTING;
use au_base::{Keyword, Limit, LimitKind, Sign, Token, What};
use au_read_expressions::{Expected, Fault, Stop, after, expect, is_word, stop_before};
use au_syntax::Access;

/// Whether a statement begins here.
pub(crate) fn begins(tokens: &[Token]) -> bool
    ensures { result ≡ spec.begins_statement (front tokens.now) }
{
    match tokens {
        [] => false,
        [first, ..] => match &first.what {
            What::Name(_) => true,
            What::Word(word) => begins_by(*word),
            _ => false,
        },
    }
}

/// Whether a statement begins with this word.
fn begins_by(word: Keyword) -> bool
    ensures { result ≡ spec.begins_statement (Some (what.Word word)) }
{
    matches!(
        word,
        Keyword::KwSkip
            | Keyword::KwLet
            | Keyword::KwVar
            | Keyword::KwIf
            | Keyword::KwCase
            | Keyword::KwWhile
            | Keyword::KwFor
            | Keyword::KwBorrow
            | Keyword::KwReturn
    )
}

/// Whether the next two tokens are `else if`.
pub(crate) fn else_if(tokens: &[Token]) -> bool
    ensures { result ≡ spec.else_if tokens.now }
{
    is_word(Keyword::KwElse, tokens) && is_word(Keyword::KwIf, after(tokens))
}

/// Why nothing is read where no level is left.
#[tactic(auto, unfolding(crate::specs::StatementReading::statement_at))]
pub(crate) fn too_deep(tokens: &[Token]) -> Stop
    ensures { Stops result (spec.statement_at usual 0 tokens.now) }
{
    if !begins(tokens) {
        return stop_before(tokens);
    }
    let most = u64::from(MOST_NESTING);
    let limit = Limit {
        kind: LimitKind::Nesting,
        count: most + 1,
        most,
    };
    Stop::Fault(Fault::Passed(limit, tokens.len()))
}

/// Reads `end`, this word and `;`.
pub(crate) fn closing(word: Keyword, tokens: &[Token]) -> Result<&[Token], Stop>
    ensures { Gives (λ rest. rest.now) result
        (tokens_at (what.Word keyword.KwEnd ∷ what.Word word ∷ what.Sign sign.Semicolon ∷ []) tokens.now) }
{
    let known = [
        Expected::Word(Keyword::KwEnd),
        Expected::Word(word),
        Expected::Sign(Sign::Semicolon),
    ];
    expect(&known, tokens)
}

/// Reads `borrow`, or `borrow!`.
pub(crate) fn borrowing(access: Access, tokens: &[Token]) -> Result<&[Token], Stop>
    ensures { Gives (λ rest. rest.now) result (tokens_at (spec.borrow_whats access) tokens.now) }
{
    match access {
        Access::Read => expect(&[Expected::Word(Keyword::KwBorrow)], tokens),
        Access::Write => {
            let known = [
                Expected::Word(Keyword::KwBorrow),
                Expected::Sign(Sign::Exclamation),
            ];
            expect(&known, tokens)
        }
    }
}
