//! Names of modules, and imports.

ghost use Rattle.std.specs.Prelude.{◌≡◌, ◌<◌, ◌∷◌, [], List, ℕ, length, map};
ghost use Rattle.au_read_expressions.specs.Reading.{Gives};
ghost use Rattle.au_read_expressions.specs.Reading as steps;
ghost use Rattle.au_read_expressions.specs.Bounds.{usual, bytes_limit};
ghost use Rattle.au_read_expressions.specs.declared.faults.Fault.TheVariants as fault;
ghost use Rattle.au_read_expressions.specs.declared.faults.Stop.TheVariants as stop;
ghost use Rattle.au_base.specs.declared.tokens.Keyword.TheVariants as word;
ghost use Rattle.au_base.specs.declared.tokens.Sign.TheVariants as sign;
ghost use Rattle.au_base.specs.declared.tokens.What.TheVariants as what;
ghost use Rattle.au_read_statements.specs.StatementReading.{renaming_at};
ghost use Rattle.au_parser.specs.ModuleReading.{import_at, imports_at, module_name_at};
ghost use Rattle.au_syntax.specs.Modules.{Importing};
ghost use Rattle.au_syntax.specs.Views as views;

use au_base::{Keyword, Limit, LimitKind, MOST_NAME_BYTES, Sign, Token};
use au_read_expressions::{
    Entry, Expected, Fault, Stop, after, expect, is_sign, is_word, listed, name, place, repeated,
    stop_before,
};
use au_read_statements::RenamingPart;
use au_syntax::{Ident, Import, Parsed, Phase, Renamed};
use std::alloc::Global;

/// The name of a module passes its limit before these tokens.
fn too_long(tokens: &[Token]) -> Stop
    ensures { result ≡ stop.Fault (fault.Passed (bytes_limit usual) (length tokens.now)) }
{
    let limit = Limit {
        kind: LimitKind::NameBytes,
        count: 65,
        most: 64,
    };
    Stop::Fault(Fault::Passed(limit, tokens.len()))
}

/// Reads a module's name: names with dots between, at most 64 bytes with their dots.
///
/// # Errors
///
/// `Fault::Syntax` where a name is missing, and `Fault::Passed` behind the name with which the limit is
/// passed.
pub fn module_name(alloc: Global, tokens: &[Token]) -> Result<(Vec<Ident<Parsed>>, &[Token]), Stop>
    ensures { Gives (λ x. (map (views.placed ⟦<Parsed as Phase>⟧) x.0.items, x.1.now)) result
        (module_name_at usual tokens.now) }
{
    let mut names = Vec::new(alloc);
    let mut rest = tokens;
    let mut used = 0;
    for _ in 0..tokens.len() {
        let (one, next) = name(alloc, rest)?;
        let bytes = used + one.name.as_bytes().len();
        if bytes > MOST_NAME_BYTES {
            return Err(too_long(next));
        }
        names.push(one)?;
        if !is_sign(Sign::Dot, next) {
            return Ok((names, next));
        }
        used = bytes + 1;
        rest = after(next);
    }
    Err(stop_before(rest))
}

/// Reads the names of an import in their parentheses, and `;`.
fn imported(alloc: Global, tokens: &[Token]) -> Result<(Vec<Renamed<Parsed>>, &[Token]), Stop>
    ensures { Gives (λ x. (map (views.renaming ⟦<Parsed as Phase>⟧) x.0.items, x.1.now)) result
        (steps.behind_tokens (what.Sign sign.LeftParenthesis ∷ [])
        (steps.closed (what.Sign sign.RightParenthesis ∷ what.Sign sign.Semicolon ∷ [])
        (steps.listed renaming_at)) tokens.now) }
{
    let rest = expect(&[Expected::Sign(Sign::LeftParenthesis)], tokens)?;
    let (items, rest) = listed::<RenamingPart>(alloc, rest)?;
    let closing = [
        Expected::Sign(Sign::RightParenthesis),
        Expected::Sign(Sign::Semicolon),
    ];
    match expect(&closing, rest) {
        Ok(rest) => Ok((items, rest)),
        Err(stop) => Err(stop),
    }
}

/// An import.
pub struct ImportEntry;

impl Entry for ImportEntry {
    type Item = Import<Parsed>;

    ghost Seen = { Importing (List ℕ) };

    ghost see = { views.importing ⟦<Parsed as Phase>⟧ };

    ghost begins_by = { steps.is_front (what.Word word.KwImport) };

    ghost read_at = { import_at usual };

    fn begins(tokens: &[Token]) -> bool {
        is_word(Keyword::KwImport, tokens)
    }

    #[tactic(auto, unfolding(crate::specs::ModuleReading::import_at))]
    fn read(alloc: Global, tokens: &[Token]) -> Result<(Import<Parsed>, &[Token]), Stop> {
        let at = place(tokens);
        let rest = expect(&[Expected::Word(Keyword::KwImport)], tokens)?;
        let (module, rest) = module_name(alloc, rest)?;
        match imported(alloc, rest) {
            Ok((items, rest)) => Ok((Import { at, module, items }, rest)),
            Err(stop) => Err(stop),
        }
    }
}

/// Reads the imports at the top of a file, or none.
///
/// # Errors
///
/// The fault of the first import that isn't read.
pub fn imports(alloc: Global, tokens: &[Token]) -> Result<(Vec<Import<Parsed>>, &[Token]), Stop>
    ensures { Gives (λ x. (map (views.importing ⟦<Parsed as Phase>⟧) x.0.items, x.1.now)) result
        (imports_at usual tokens.now) }
{
    repeated::<ImportEntry>(alloc, tokens)
}
