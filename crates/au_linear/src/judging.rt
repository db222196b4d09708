//! What is told of one variable.

ghost use Rattle.std.specs.Prelude.{◌≡◌, ◌≤◌, IfOk, drop, take, length};
ghost use Rattle.std.specs.Option.{option_map};
ghost use Rattle.au_lives.specs.Trimming.{without_zeros};
ghost use Rattle.au_lives.specs.Walks.{checked};
ghost use Rattle.au_lives.specs.Refusals.{by_walk, refusal};
ghost use Rattle.au_paths.specs.Seen.{seen_statements};
ghost use Rattle.au_linear.specs.Telling.{refusal_of};

use crate::faults::Why;
use crate::placing::{first_in_loop, first_in_part};
use au_base::{Memory, Name};
use au_lives::lives::Sort;
use au_paths::{Broken, Stop, check_paths};
use au_syntax::{Block, Phase};
use std::alloc::Global;

/// How many numbers there are up to the last that isn't 0.
#[tactic(auto, using(crate::proofs::RefusalSteps::zero_goes, crate::proofs::RefusalSteps::other_stays))]
fn kept(path: &Vec<usize>) -> usize
    ensures { without_zeros path.now.items ≡ take result path.now.items }
{
    let mut count = path.len();
    while count > 0 {
        if path[count - 1] != 0 {
            return count;
        }
        count -= 1;
    }
    count
}

/// The numbers up to the last that isn't 0.
fn trimmed(path: Vec<usize>) -> Vec<usize>
    ensures { result.items ≡ without_zeros path.items }
{
    let mut left = path;
    let count = kept(&left);
    left.truncate(count);
    left
}

/// What the walk tells of a variable that lives over the statements from this number on.
fn told_by_walk<P: Phase>(
    alloc: Global,
    x: &Name,
    sort: Sort,
    block: &Block<P>,
    from: usize,
) -> Result<Option<Why>, Memory>
    requires { from ≤ length block.now.statements.items }
    ensures { IfOk result (λ told. option_map refusal_of told
        ≡ by_walk (checked x.now sort (seen_statements P.Phase (drop from block.now.statements.items)))) }
{
    match check_paths(alloc, x, sort, block, from) {
        Ok(_) => Ok(None),
        Err(Stop::Memory) => Err(Memory),
        Err(Stop::Breach(Broken { kind, path })) => Ok(Some(Why::OnPath(kind, trimmed(path)))),
    }
}

/// What is told of a variable that lives over the statements from this number on.
#[tactic(auto, using(crate::proofs::RefusalSteps::by_firsts))]
pub(crate) fn told<P: Phase>(
    alloc: Global,
    x: &Name,
    sort: Sort,
    block: &Block<P>,
    from: usize,
) -> Result<Option<Why>, Memory>
    requires { from ≤ length block.now.statements.items }
    ensures { IfOk result (λ told. option_map refusal_of told
        ≡ refusal x.now sort (seen_statements P.Phase (drop from block.now.statements.items))) }
{
    if let Some(at) = first_in_loop(x, sort, block, from) {
        return Ok(Some(Why::InLoop(at)));
    }
    if let Some(at) = first_in_part(x, sort, block, from) {
        return Ok(Some(Why::InPart(at)));
    }
    told_by_walk(alloc, x, sort, block, from)
}
