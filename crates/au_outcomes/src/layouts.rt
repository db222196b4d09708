//! From the bytes of files to their layout.

ghost use Rattle.std.specs.Prelude.{◌≡◌, ◌≤◌, All, false, map, length};
ghost use Rattle.au_base.specs.Limits.{most_file_bytes, most_tokens};
ghost use Rattle.au_outcomes.specs.Halts.{Says, bytes_in, is_read_halt};
ghost use Rattle.au_outcomes.specs.Layouts.{AreLaidOut, IsLaidOut};
ghost use Rattle.au_accepted.specs.Files.{most_files};
ghost use Rattle.au_outcomes.specs.Outcomes.{BytesCome};
ghost use Rattle.au_outcomes.specs.Reading.{TokensHalt};
ghost use Rattle.au_accepted.specs.Trees.{HasTree};
ghost use Rattle.au_outcomes.specs.Trees.{FirstHalts, Halts};
ghost use Rattle.au_outcomes.specs.declared.outcomes.Aim.TheVariants as aims;

use crate::halts::Halt;
use crate::outcomes::Outcome;
use crate::reading::tree_of;
use au_base::{Pos, Text, Token};
use au_format::lay_out;
use au_lexer::lex;
use std::alloc::Global;

/// What files of these bytes come to that are to be laid out: all are read, and their layouts stand one
/// behind another.
///
/// # Errors
///
/// What the files come to where one can't be read, and else that memory ran out.
pub fn laid_outcome(alloc: Global, all: &[Vec<u8>]) -> Result<Outcome, Halt>
    requires few { length all.now ≤ most_files }
    requires small { All (λ bytes. length bytes.items ≤ most_file_bytes) all.now }
    ensures comes { Says result (BytesCome aims.Format (map bytes_in all.now))
        (BytesCome aims.Format (map bytes_in all.now)) }
    ensures is_read { is_read_halt result ≡ false }
{
    let text = lay_out_all(alloc, all)?;
    Ok(Outcome::Laid(Text::from_vec(text)))
}

/// Reads files in order, up to the first that can't be read, and lays each out. The number of the first is 0.
fn lay_out_all(alloc: Global, all: &[Vec<u8>]) -> Result<Vec<u8>, Halt>
    requires few { length all.now ≤ most_files }
    requires small { All (λ bytes. length bytes.items ≤ most_file_bytes) all.now }
    ensures comes { Says result
        (λ text. AreLaidOut 0 (map bytes_in all.now) text.items)
        (FirstHalts 0 (map bytes_in all.now)) }
    ensures is_read { is_read_halt result ≡ false }
{
    let mut text = Vec::new(alloc);
    for (index, bytes) in all.iter().enumerate() {
        let one = lay_out_file(alloc, index as u16, bytes.as_slice())?;
        text.extend_from_slice(one.as_slice())?;
    }
    Ok(text)
}

/// Reads the file of a number, and lays it out.
fn lay_out_file(alloc: Global, file: u16, bytes: &[u8]) -> Result<Vec<u8>, Halt>
    requires { length bytes.now ≤ most_file_bytes }
    ensures comes { Says result (λ text. IsLaidOut file bytes.now text.items) (Halts file bytes.now) }
    ensures is_read { is_read_halt result ≡ false }
{
    let tokens = lex(alloc, file, bytes)?;
    let end = Pos::start(file).after(bytes);
    let list = tokens.as_slice();
    has_tree(alloc, list, end)?;
    let text = lay_out(alloc, file, bytes, list)?;
    Ok(text)
}

/// The tokens of a file, whose end is this place, are the words of a tree.
fn has_tree(alloc: Global, tokens: &[Token], end: Pos) -> Result<(), Halt>
    requires { length tokens.now ≤ most_tokens }
    ensures comes { Says result (λ _. HasTree tokens.now) (TokensHalt tokens.now end) }
    ensures is_read { is_read_halt result ≡ false }
{
    tree_of(alloc, tokens, end)?;
    Ok(())
}
