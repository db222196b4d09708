//! The names in words: of files, of modules and of functions.

ghost use Rattle.std.specs.Prelude.{◌≡◌, ◌<◌, ◌≤◌, length, map, IfOk};
ghost use Rattle.std.specs.List.{list_all, list_any};
ghost use Rattle.std.specs.String.{string_bytes};
ghost use Rattle.au_lexer.specs.Bytes as kinds;
ghost use Rattle.au_words.specs.Jobs as asked;
ghost use Rattle.au_words.specs.Reading as read;

use crate::jobs::WordsFault;
use au_base::{Entry, Keyword, MOST_NAME_BYTES, Name};
use std::alloc::{AllocError, Global};

/// Whether a byte is a letter.
fn is_letter(byte: u8) -> bool
    ensures { result ≡ kinds.is_letter byte }
{
    b'A' <= byte && byte <= b'Z' || b'a' <= byte && byte <= b'z'
}

/// Whether a byte is a decimal digit.
pub fn is_digit(byte: u8) -> bool
    ensures { result ≡ kinds.is_digit byte }
{
    b'0' <= byte && byte <= b'9'
}

/// Whether a byte may follow the first one in a name.
fn is_name_byte(byte: u8) -> bool
    ensures { result ≡ kinds.is_name_byte byte }
{
    is_letter(byte) || is_digit(byte) || byte == b'_'
}

/// Whether all bytes may follow the first one in a name.
fn are_name_bytes(bytes: &[u8]) -> bool
    ensures { result ≡ list_all kinds.is_name_byte bytes.now }
{
    bytes.iter().all(|byte| is_name_byte(*byte))
}

/// Whether bytes are a letter, and then letters, digits and `_`.
#[tactic(auto, using(crate::proofs::NameLemmas::spelled))]
fn is_spelled_as_name(bytes: &[u8]) -> bool
    ensures { result ≡ asked.is_spelled_as_name bytes.now }
{
    !bytes.is_empty() && is_letter(bytes[0]) && are_name_bytes(&bytes[1..])
}

/// Whether bytes are the spelling of a keyword.
#[tactic(auto, unfolding(crate::specs::Jobs::is_keyword))]
fn is_keyword(bytes: &[u8]) -> bool
    ensures { result ≡ asked.is_keyword bytes.now }
{
    is_among(&Keyword::ALL, bytes)
}

/// Whether bytes are the spelling of one of these keywords.
fn is_among(keywords: &[Keyword], bytes: &[u8]) -> bool
    ensures { result ≡ asked.is_spelled_among keywords.now bytes.now }
{
    for keyword in keywords {
        if keyword.spelling() == bytes {
            return true;
        }
    }
    false
}

/// Whether bytes are a name.
fn is_name(bytes: &[u8]) -> bool
    ensures { result ≡ asked.is_name bytes.now }
{
    is_spelled_as_name(bytes) && !is_keyword(bytes)
}

/// What stands between the commas in a word.
fn pieces(alloc: Global, word: &str) -> Result<Vec<&str>, AllocError>
    ensures { IfOk result (λ names. map (λ name. name.now) names.items ≡ read.between 44 word.now) }
{
    word.split(',').collect(alloc)
}

/// Whether one of these names is empty.
fn has_empty(names: &[&str]) -> bool
    ensures { result ≡ list_any read.is_empty (map (λ name. name.now) names.now) }
{
    names.iter().any(|name| name.is_empty())
}

/// Copies of texts, in order.
fn copies(alloc: Global, texts: &[&str]) -> Result<Vec<String>, AllocError>
    ensures { IfOk result (λ copies. map string_bytes copies.items ≡ map (λ text. text.now) texts.now) }
{
    let mut copies = Vec::new(alloc);
    for text in texts {
        copies.push(String::from_str(alloc, *text)?)?;
    }
    Ok(copies)
}

/// The file names of a part.
#[tactic(auto, unfolding(crate::specs::Reading::part_at))]
pub fn part(alloc: Global, word: &str) -> Result<Vec<String>, WordsFault>
    ensures { read.FindsFiles result (read.part_at word.now) }
{
    let names = pieces(alloc, word)?;
    if has_empty(names.as_slice()) {
        return Err(WordsFault::NoJob);
    }
    Ok(copies(alloc, names.as_slice())?)
}

/// How many bytes stand before the first colon.
fn home_size(bytes: &[u8]) -> usize
    ensures size { result ≡ read.home_size bytes.now }
    ensures within { result ≤ length bytes.now }
{
    for (index, byte) in bytes.iter().enumerate() {
        if *byte == b':' {
            return index;
        }
    }
    bytes.len()
}

/// Whether bytes are a name of at most 64 bytes.
fn is_function(bytes: &[u8]) -> bool
    ensures { result ≡ read.is_function bytes.now }
{
    bytes.len() <= MOST_NAME_BYTES && is_name(bytes)
}

/// Whether all that stands between dots are names.
fn are_names(bytes: &[u8]) -> bool
    ensures { result ≡ list_all asked.is_name (read.between 46 bytes.now) }
{
    bytes.split(|byte| *byte == b'.').all(|name| is_name(name))
}

/// Whether bytes are a module's name of at most 64 bytes.
fn is_home(bytes: &[u8]) -> bool
    ensures { result ≡ read.is_home bytes.now }
{
    bytes.len() <= MOST_NAME_BYTES && are_names(bytes)
}

/// The entry that a value spells.
#[tactic(auto, using(crate::proofs::NameLemmas::home_some, crate::proofs::NameLemmas::function_some), unfolding(crate::specs::Reading::entry_at))]
pub fn entry(alloc: Global, value: &[u8]) -> Result<Entry, WordsFault>
    ensures { read.Finds result (read.entry_at value.now) }
{
    let size = home_size(value);
    if size == value.len() {
        return Err(WordsFault::NoJob);
    }
    let home = &value[..size];
    let function = &value[size + 1..];
    if !is_home(home) || !is_function(function) {
        return Err(WordsFault::NoJob);
    }
    Ok(Entry {
        module: Name::copy_of(alloc, home)?,
        function: Name::copy_of(alloc, function)?,
    })
}
