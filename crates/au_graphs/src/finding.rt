//! The walk that lists what is reached.

ghost use Rattle.std.specs.Prelude.{◌≡◌, map, position, IfOk, OnOk};
ghost use Rattle.std.specs.Str.{bytes_eq};
ghost use Rattle.au_graphs.specs.Finding.{Finds_all, Gives, IsKeyed, Refuses, adds_to, by_key, found_in};
ghost use Rattle.au_graphs.specs.Finding.{numbers, puts_to, walks};
ghost use Rattle.au_graphs.specs.Reached.{Lists};
ghost use Rattle.au_graphs.specs.Walks.{IsWithin};

use crate::faults::WalkFault;
use crate::grounds::Ground;
use au_base::Limit;
use indexmap::IndexSet;
use std::alloc::Global;

/// Elements in the order in which they were found, each once, and their keys.
#[derive(Drop)]
pub struct Finds<I> {
    list: Vec<I>,
    keys: IndexSet<Vec<u32>>,
}

impl<I> Finds<I> {
    /// The elements in the order in which they were found.
    pub fn list(&self) -> &[I]
        ensures { result.now ≡ self.now.list.items }
    {
        self.list.as_slice()
    }

    /// The place of the element of a key, if there is one. It is found without a walk through the elements.
    pub fn place(&self, key: &Vec<u32>) -> Option<usize>
        ensures { result ≡ position (bytes_eq key.now.items) (map numbers self.now.keys.keys) }
    {
        self.keys.get_index_of(key)
    }
}

/// What is reached from the starts, breadth first, each element once: the starts, and then what follows the
/// elements of the list in their order. An element is found by its key and not by comparing it with all.
///
/// # Errors
///
/// `Limit` exactly where an element passes a limit by itself, or the list would have more elements than the
/// most, with what is told of the first such element, breadth first; `Memory` when memory runs out.
pub fn reach<G: Ground>(
    alloc: Global,
    ground: &G,
    starts: Vec<G::Item>,
    full: Limit,
    most: usize,
) -> Result<Finds<G::Item>, WalkFault>
    ensures keyed { IfOk result (IsKeyed G.see G.key_of) }
    ensures lists { IfOk result (λ finds.
        Lists (by_key G.key_of) (G.next_of ground.now) (map G.see starts.items) (found_in G.see finds)) }
    ensures within { IfOk result (λ finds. IsWithin (by_key G.key_of) G.told_of most (found_in G.see finds)) }
    ensures finds { Finds_all (found_in G.see) result (by_key G.key_of) G.told_of most
        (G.next_of ground.now) (map G.see starts.items) }
    ensures refuses { Refuses result (by_key G.key_of) G.told_of full most
        (G.next_of ground.now) (map G.see starts.items) }
{
    walk_from(alloc, ground, starts, full, most)
}

/// The walk, as the definition of its answer has it.
fn walk_from<G: Ground>(
    alloc: Global,
    ground: &G,
    starts: Vec<G::Item>,
    full: Limit,
    most: usize,
) -> Result<Finds<G::Item>, WalkFault>
    ensures keyed { IfOk result (IsKeyed G.see G.key_of) }
    ensures gives { Gives (found_in G.see) result
        (walks G.key_of G.told_of full most (G.next_of ground.now) (map G.see starts.items)) }
{
    let mut finds = Finds {
        list: Vec::new(alloc),
        keys: IndexSet::new(alloc),
    };
    put_all::<G>(alloc, &mut finds, starts, full, most)?;
    let mut at = 0;
    while at < finds.list.len() {
        let next = ground.next(alloc, &finds.list[at])?;
        put_all::<G>(alloc, &mut finds, next, full, most)?;
        at += 1;
    }
    Ok(finds)
}

/// Puts elements at the end in their order, each if it isn't there yet.
fn put_all<G: Ground>(
    alloc: Global,
    finds: &mut Finds<G::Item>,
    items: Vec<G::Item>,
    full: Limit,
    most: usize,
) -> Result<(), WalkFault>
    requires keyed { IsKeyed G.see G.key_of finds.old }
    ensures keyed { OnOk result (IsKeyed G.see G.key_of finds.new) }
    ensures gives { Gives (λ _. found_in G.see finds.new) result
        (adds_to G.key_of G.told_of full most (found_in G.see finds.old) (map G.see items.items)) }
{
    for item in items {
        put::<G>(alloc, finds, item, full, most)?;
    }
    Ok(())
}

/// Puts an element at the end, if it isn't there yet.
fn put<G: Ground>(
    alloc: Global,
    finds: &mut Finds<G::Item>,
    item: G::Item,
    full: Limit,
    most: usize,
) -> Result<(), WalkFault>
    requires keyed { IsKeyed G.see G.key_of finds.old }
    ensures keyed { OnOk result (IsKeyed G.see G.key_of finds.new) }
    ensures gives { Gives (λ _. found_in G.see finds.new) result
        (puts_to G.key_of G.told_of full most (found_in G.see finds.old) (G.see item)) }
{
    let key = G::key(alloc, &item)?;
    let (_, is_new) = finds.keys.insert_full(key)?;
    if !is_new {
        return Ok(());
    }
    if let Some(limit) = G::told(&item) {
        return Err(WalkFault::Limit(limit));
    }
    if finds.list.len() == most {
        return Err(WalkFault::Limit(full));
    }
    finds.list.push(item)?;
    Ok(())
}
