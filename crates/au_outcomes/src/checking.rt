//! What a program of files comes to of which this or that is asked, in the order of refusals.

ghost use Rattle.std.specs.Prelude.{◌≡◌, ◌≤◌, ◌<◌, All, false, map, length, IfOk, IsTrue};
ghost use Rattle.std.specs.String.{string_bytes};
ghost use Rattle.au_base.specs.Limits.{most_file_bytes};
ghost use Rattle.au_base.specs.Outside.{Counts};
ghost use Rattle.au_outcomes.specs.Outcomes.{BytesCome, JudgedCome, files_limit, judges};
ghost use Rattle.au_outcomes.specs.Halts.{ComesTo, Says, StopsIn, bytes_in, is_missing, is_read_fault};
ghost use Rattle.au_outcomes.specs.Halts.{is_read_halt};
ghost use Rattle.au_accepted.specs.Files.{most_files};
ghost use Rattle.au_outcomes.specs.declared.outcomes.Outcome.TheVariants as outcome;

use crate::fetching::fetch_all;
use crate::halts::{CheckFault, Halt};
use crate::judging::{accepted_outcome, judge};
use crate::layouts::laid_outcome;
use crate::outcomes::{Aim, Outcome};
use crate::reading::read_all;
use au_base::{Limit, LimitKind, Shelf};
use std::alloc::Global;

/// The most files of a program.
pub const MOST_FILES: usize = 128;

/// What the program of files of these names comes to, of which this is asked.
pub fn check<S: Shelf>(
    alloc: Global,
    aim: Aim,
    shelf: &mut S,
    names: &[String],
) -> Result<Outcome, CheckFault>
    ensures comes { IfOk result (ComesTo aim (S.files shelf.old) (map string_bytes names.now)) }
    // Where the shelf failed, it failed behind files that can be had.
    ensures stops { IsTrue (is_read_fault result) → StopsIn (S.files shelf.old) (map string_bytes names.now) }
    // Where the files are too many, none is fetched.
    ensures crowded { most_files < length names.now
        → (S.faults shelf.new ≡ S.faults shelf.old) × (S.misses shelf.new ≡ S.misses shelf.old) }
    ensures faults { Counts (is_read_fault result) (S.faults shelf.old) (S.faults shelf.new) }
    ensures misses { IfOk result
        (λ outcome. Counts (is_missing outcome) (S.misses shelf.old) (S.misses shelf.new)) }
    ensures misses_stay { S.misses shelf.old ≤ S.misses shelf.new }
    ensures files { S.files shelf.new ≡ S.files shelf.old }
{
    match program(alloc, aim, shelf, names) {
        Ok(outcome) => Ok(outcome),
        Err(Halt::Known(outcome)) => Ok(outcome),
        Err(Halt::Unknown(fault)) => Err(fault),
    }
}

/// The same. The order of refusals is that of these steps: the files are counted, all are fetched, and then
/// they are read and judged.
fn program<S: Shelf>(
    alloc: Global,
    aim: Aim,
    shelf: &mut S,
    names: &[String],
) -> Result<Outcome, Halt>
    ensures comes { Says result (ComesTo aim (S.files shelf.old) (map string_bytes names.now))
        (ComesTo aim (S.files shelf.old) (map string_bytes names.now)) }
    ensures stops { IsTrue (is_read_halt result) → StopsIn (S.files shelf.old) (map string_bytes names.now) }
    ensures crowded { most_files < length names.now
        → (S.faults shelf.new ≡ S.faults shelf.old) × (S.misses shelf.new ≡ S.misses shelf.old) }
    ensures faults { Counts (is_read_halt result) (S.faults shelf.old) (S.faults shelf.new) }
    ensures misses { Says result
        (λ arisen. Counts (is_missing arisen) (S.misses shelf.old) (S.misses shelf.new))
        (λ arisen. Counts (is_missing arisen) (S.misses shelf.old) (S.misses shelf.new)) }
    ensures misses_stay { S.misses shelf.old ≤ S.misses shelf.new }
    ensures files { S.files shelf.new ≡ S.files shelf.old }
{
    few_enough(names.len())?;
    let all = fetch_all(alloc, shelf, names)?;
    outcome_of(alloc, aim, all.as_slice())
}

/// The files are as few as a program may have.
fn few_enough(count: usize) -> Result<(), Halt>
    ensures comes { Says result (λ _. count ≤ most_files)
        (λ arisen. (most_files < count) × (arisen ≡ outcome.Passes (files_limit count))) }
    ensures is_read { is_read_halt result ≡ false }
{
    if count > MOST_FILES {
        return Err(Halt::Known(Outcome::Passes(Limit {
            kind: LimitKind::Files,
            count: count as u64,
            most: MOST_FILES as u64,
        })));
    }
    Ok(())
}

/// What the files of these bytes come to, of which this is asked: they are laid out, or judged.
fn outcome_of(alloc: Global, aim: Aim, all: &[Vec<u8>]) -> Result<Outcome, Halt>
    requires few { length all.now ≤ most_files }
    requires small { All (λ bytes. length bytes.items ≤ most_file_bytes) all.now }
    ensures comes { Says result (BytesCome aim (map bytes_in all.now))
        (BytesCome aim (map bytes_in all.now)) }
    ensures is_read { is_read_halt result ≡ false }
{
    if !is_judged(aim) {
        return laid_outcome(alloc, all);
    }
    judged_outcome(alloc, aim, all)
}

/// Whether files of which this is asked are judged as those of a program.
fn is_judged(aim: Aim) -> bool
    ensures { result ≡ judges aim }
{
    match aim {
        Aim::Run => true,
        Aim::Compile => true,
        Aim::Check => true,
        Aim::Explain => true,
        Aim::Format => false,
        Aim::Caps => true,
    }
}

/// The same where the files are judged: all are read, then their modules are judged, and then comes what is
/// asked.
fn judged_outcome(alloc: Global, aim: Aim, all: &[Vec<u8>]) -> Result<Outcome, Halt>
    requires few { length all.now ≤ most_files }
    requires small { All (λ bytes. length bytes.items ≤ most_file_bytes) all.now }
    ensures comes { Says result (JudgedCome aim (map bytes_in all.now))
        (JudgedCome aim (map bytes_in all.now)) }
    ensures is_read { is_read_halt result ≡ false }
{
    let trees = read_all(alloc, all)?;
    let noted = judge(alloc, trees)?;
    accepted_outcome(alloc, aim, noted)
}
