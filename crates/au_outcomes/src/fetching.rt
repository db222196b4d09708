//! The bytes of a program's files, in order.

ghost use Rattle.std.specs.Prelude.{◌≡◌, ◌≤◌, IfOk, IsTrue, map, length, position};
ghost use Rattle.std.specs.Str.{bytes_eq};
ghost use Rattle.std.specs.String.{string_bytes};
ghost use Rattle.au_base.specs.Outside.{Counts};
ghost use Rattle.au_outcomes.specs.Halts.{AreFilesOf, Extends, FirstUnhad, IsUnhad, Says, StopsIn, Tells};
ghost use Rattle.au_outcomes.specs.Halts.{bytes_in, is_missing, is_read_halt};
ghost use Rattle.au_accepted.specs.Files.{IsFile, most_files};

use crate::halts::{CheckFault, Halt};
use crate::outcomes::Outcome;
use au_base::{Fetch, Limit, LimitKind, MOST_FILE_BYTES, Shelf, Text};
use std::alloc::{AllocError, Global};

/// The bytes of the files of these names, up to the first that can't be had.
pub fn fetch_all<S: Shelf>(
    alloc: Global,
    shelf: &mut S,
    names: &[String],
) -> Result<Vec<Vec<u8>>, Halt>
    requires { length names.now ≤ most_files }
    ensures comes { Says result
        (λ all. AreFilesOf (S.files shelf.old) (map string_bytes names.now) (map bytes_in all.items))
        (FirstUnhad (S.files shelf.old) (map string_bytes names.now)) }
    ensures stops { IsTrue (is_read_halt result) → StopsIn (S.files shelf.old) (map string_bytes names.now) }
    ensures faults { Counts (is_read_halt result) (S.faults shelf.old) (S.faults shelf.new) }
    ensures misses { Says result (λ _. S.misses shelf.new ≡ S.misses shelf.old)
        (λ arisen. Counts (is_missing arisen) (S.misses shelf.old) (S.misses shelf.new)) }
    ensures misses_stay { S.misses shelf.old ≤ S.misses shelf.new }
    ensures files { S.files shelf.new ≡ S.files shelf.old }
{
    let mut all = Vec::new(alloc);
    for (index, name) in names.iter().enumerate() {
        let bytes = fetch_next(alloc, shelf, &names[..index], all.as_slice(), name.as_str())?;
        all.push(bytes)?;
    }
    Ok(all)
}

/// The bytes of the file of a name behind others. A name that stands before has the bytes that it had there.
fn fetch_next<S: Shelf>(
    alloc: Global,
    shelf: &mut S,
    before: &[String],
    all: &[Vec<u8>],
    name: &str,
) -> Result<Vec<u8>, Halt>
    requires { length all.now ≡ length before.now }
    ensures comes { Says result
        (λ bytes. Extends (S.files shelf.old) (map string_bytes before.now) (map bytes_in all.now)
        (λ files. IsFile files name.now bytes.items))
        (λ arisen. Extends (S.files shelf.old) (map string_bytes before.now) (map bytes_in all.now)
        (λ files. IsUnhad files name.now arisen)) }
    ensures faults { Counts (is_read_halt result) (S.faults shelf.old) (S.faults shelf.new) }
    ensures misses { Says result (λ _. S.misses shelf.new ≡ S.misses shelf.old)
        (λ arisen. Counts (is_missing arisen) (S.misses shelf.old) (S.misses shelf.new)) }
    ensures misses_stay { S.misses shelf.old ≤ S.misses shelf.new }
    ensures files { S.files shelf.new ≡ S.files shelf.old }
{
    match place_of(before, name) {
        Some(index) => {
            let bytes = copy_of(alloc, all[index].as_slice())?;
            Ok(bytes)
        }
        None => fetched(alloc, shelf, name),
    }
}

/// The same bytes.
fn copy_of(alloc: Global, bytes: &[u8]) -> Result<Vec<u8>, AllocError>
    ensures { IfOk result (λ copy. copy.items ≡ bytes.now) }
{
    bytes.to_vec(alloc)
}

/// The index of a name among others.
fn place_of(names: &[String], name: &str) -> Option<usize>
    ensures { result ≡ position (λ one. bytes_eq name.now (string_bytes one)) names.now }
{
    names.iter().position(|one| name == one.as_str())
}

/// The bytes of a file.
fn fetched<S: Shelf>(alloc: Global, shelf: &mut S, name: &str) -> Result<Vec<u8>, Halt>
    ensures comes { Says result
        (λ bytes. Tells (S.files shelf.old) name.now (λ files. IsFile files name.now bytes.items))
        (λ arisen. Tells (S.files shelf.old) name.now (λ files. IsUnhad files name.now arisen)) }
    ensures faults { Counts (is_read_halt result) (S.faults shelf.old) (S.faults shelf.new) }
    ensures misses { Says result (λ _. S.misses shelf.new ≡ S.misses shelf.old)
        (λ arisen. Counts (is_missing arisen) (S.misses shelf.old) (S.misses shelf.new)) }
    ensures misses_stay { S.misses shelf.old ≤ S.misses shelf.new }
    ensures files { S.files shelf.new ≡ S.files shelf.old }
{
    let mut bytes = Vec::new(alloc);
    match shelf.fetch(name, &mut bytes) {
        Fetch::Whole => Ok(bytes),
        Fetch::TooLarge => Err(Halt::Known(Outcome::Passes(Limit {
            kind: LimitKind::FileBytes,
            count: MOST_FILE_BYTES as u64 + 1,
            most: MOST_FILE_BYTES as u64,
        }))),
        Fetch::Missing => {
            let missing = Text::copy_of(alloc, name.as_bytes())?;
            Err(Halt::Known(Outcome::Missing(missing)))
        }
        Fetch::Failed => Err(Halt::Unknown(CheckFault::Read)),
        Fetch::Memory => Err(Halt::Unknown(CheckFault::Memory)),
    }
}
