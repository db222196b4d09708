//! From the bytes of files to their trees.

ghost use Rattle.std.specs.Prelude.{◌≡◌, ◌≤◌, ◌<◌, ◌+◌, ◌^◌, All, false, map, length};
ghost use Rattle.au_base.specs.Limits.{most_file_bytes, most_tokens};
ghost use Rattle.au_syntax.specs.Files.{says};
ghost use Rattle.au_syntax.specs.Words.{Spells};
ghost use Rattle.au_outcomes.specs.Halts.{Says, bytes_in, is_read_halt};
ghost use Rattle.au_accepted.specs.Files.{most_files};
ghost use Rattle.au_outcomes.specs.Reading.{AreKept, IsKept, TokensHalt};
ghost use Rattle.au_outcomes.specs.Trees.{FirstHalts, Halts, place_or};

use crate::Refusal;
use crate::halts::{CheckFault, Halt};
use crate::outcomes::Outcome;
use au_base::{Pos, Token};
use au_lexer::lex;
use au_parser::{ParseFault, parse};
use au_syntax::{FileTree, Parsed, Phase, Whole};
use std::alloc::Global;

/// Reads files in order, up to the first that can't be read. The number of the first is 0.
///
/// # Errors
///
/// What the program comes to where a file can't be read, and else that memory ran out.
pub fn read_all(alloc: Global, all: &[Vec<u8>]) -> Result<Vec<FileTree>, Halt>
    requires few { length all.now ≤ most_files }
    requires small { All (λ bytes. length bytes.items ≤ most_file_bytes) all.now }
    ensures comes { Says result
        (λ trees. AreKept 0 (map bytes_in all.now) trees.items)
        (FirstHalts 0 (map bytes_in all.now)) }
    ensures is_read { is_read_halt result ≡ false }
{
    let mut trees = Vec::new(alloc);
    for (index, bytes) in all.iter().enumerate() {
        let tree = read_file(alloc, index as u16, bytes.as_slice())?;
        trees.push(tree)?;
    }
    Ok(trees)
}

/// Reads the file of a number.
fn read_file(alloc: Global, file: u16, bytes: &[u8]) -> Result<FileTree, Halt>
    requires { length bytes.now ≤ most_file_bytes }
    ensures comes { Says result (IsKept file bytes.now) (Halts file bytes.now) }
    ensures is_read { is_read_halt result ≡ false }
{
    let tokens = lex(alloc, file, bytes)?;
    let end = Pos::start(file).after(bytes);
    let tree = tree_of(alloc, tokens.as_slice(), end)?;
    Ok(FileTree { file, tree })
}

/// The tree whose words the tokens of a file are, whose end is this place.
pub fn tree_of(alloc: Global, tokens: &[Token], end: Pos) -> Result<Whole<Parsed>, Halt>
    requires { length tokens.now ≤ most_tokens }
    ensures comes { Says result (λ whole. Spells (says ⟦<Parsed as Phase>⟧ whole.tree) tokens.now)
        (TokensHalt tokens.now end) }
    ensures is_read { is_read_halt result ≡ false }
{
    match parse(alloc, tokens) {
        Ok(tree) => Ok(tree),
        Err(ParseFault::Syntax(index)) => {
            let at = place_at(tokens, index, end);
            Err(Halt::Known(Outcome::Refused(Refusal::Syntax(at))))
        }
        Err(ParseFault::Limit(limit)) => Err(Halt::Known(Outcome::Passes(limit))),
        Err(ParseFault::Memory) => Err(Halt::Unknown(CheckFault::Memory)),
    }
}

/// The place of a token, or the end of the file behind the last one.
fn place_at(tokens: &[Token], index: u32, end: Pos) -> Pos
    ensures { result ≡ place_or end tokens.now index }
{
    match tokens.get(index as usize) {
        Some(token) => token.at,
        None => end,
    }
}
