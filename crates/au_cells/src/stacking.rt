//! Piles of items.

ghost use Rattle.std.specs.Prelude.{◌≡◌, ◌<◌, ◌++◌, ◌∷◌, [], List, length, take, drop, reverse, vec_len, ◌-◌};
ghost use Rattle.std.specs.Prelude.{◌≤◌, slice_index, slice_get, slice_set, OnOk, OnErr, MatchOption, Some};
ghost use Rattle.std.specs.Option.{option_copied};
ghost use Rattle.au_cells.specs.Piles.{next_top, end_at, pile_at, with_below};

use au_base::Memory;
use std::alloc::Global;
use std::marker::Model;
use std::mem;

/// Piles of items, one upon another. Contracts see the items of the pile at the top, and the piles below
/// it, the next one first. There is always one pile.
#[derive(Drop)]
pub struct Piles<T> {
    items: Vec<T>,
    base: usize,
    bases: Vec<usize>,
}

impl<T> Model for Piles<T> {
    ghost use Rattle.std.specs.Prelude.{List, ◌∷◌, reverse, vec_len};
    ghost use Rattle.au_cells.specs.Piles.{piles_in, IsRising};

    ghost Value = { List T × List (List T) };

    ghost view = { λ p. piles_in p.items.items p.base (reverse p.bases.items) };

    ghost invariant = { λ p. IsRising (p.base ∷ reverse p.bases.items) (vec_len p.items) };
}

impl<T> Piles<T> {
    /// One empty pile.
    pub fn new(alloc: Global) -> Piles<T>
        ensures { result ≡ ([], []) }
    {
        Piles {
            items: Vec::new(alloc),
            base: 0,
            bases: Vec::new(alloc),
        }
    }

    /// How many piles are below the top.
    #[inline(always)]
    pub fn depth(&self) -> usize
        ensures { result ≡ length self.now.1 }
    {
        self.bases.len()
    }

    /// The items of the pile at the top.
    #[inline(always)]
    pub fn top(&self) -> &[T]
        ensures { result.now ≡ self.now.0 }
    {
        &self.items[self.base..]
    }

    /// Puts an item on the pile at the top.
    ///
    /// # Errors
    ///
    /// `Memory` when memory runs out; nothing changes then.
    #[inline(always)]
    pub fn push(&mut self, item: T) -> Result<(), Memory>
    where
        T: Drop,
        ensures ok { OnOk result (self.new ≡ (self.old.0 ++ item ∷ [], self.old.1)) }
        ensures err { OnErr result (self.new ≡ self.old) }
    {
        self.items.push(item)?;
        Ok(())
    }

    /// Takes the last item of the pile at the top.
    #[inline(always)]
    pub fn pop(&mut self) -> Option<T>
        ensures { MatchOption result
            ((self.old.0 ≡ []) × (self.new ≡ self.old))
            (λ x. (self.old.0 ≡ self.new.0 ++ x ∷ []) × (self.new.1 ≡ self.old.1)) }
    {
        if self.items.len() <= self.base {
            return None;
        }
        self.items.pop()
    }

    /// Puts an item in the place of one of the pile at the top, and gives that one.
    #[inline(always)]
    pub fn put(&mut self, index: usize, item: T) -> T
        requires { index < length self.old.0 }
        ensures new { self.new ≡ (slice_set self.old.0 index item, self.old.1) }
        ensures old { slice_get self.old.0 index ≡ Some result }
    {
        mem::replace(&mut self.items[self.base + index], item)
    }

    /// Begins an empty pile upon the top.
    ///
    /// # Errors
    ///
    /// `Memory` when memory runs out; nothing changes then.
    #[inline(always)]
    pub fn begin(&mut self) -> Result<(), Memory>
        ensures ok { OnOk result (self.new ≡ ([], self.old.0 ∷ self.old.1)) }
        ensures err { OnErr result (self.new ≡ self.old) }
    {
        self.bases.push(self.base)?;
        self.base = self.items.len();
        Ok(())
    }

    /// Drops the pile at the top; where it is the only one, an empty one is left.
    #[inline(always)]
    pub fn end(&mut self)
    where
        T: Drop,
        ensures { self.new ≡ next_top self.old.1 }
    {
        self.items.truncate(self.base);
        if let Some(base) = self.bases.pop() {
            self.base = base;
        }
    }

    /// The items of a pile below the top: 0 is the next one.
    pub fn below(&self, index: usize) -> Option<&[T]>
        ensures { option_copied result ≡ slice_get self.now.1 index }
    {
        if self.bases.len() <= index {
            return None;
        }
        let start = start_of(&self.bases, index);
        let end = end_of(&self.bases, self.base, index);
        Some(part_of(&self.items, start, end))
    }

    /// Puts an item in the place of one of a pile below the top, and gives that one.
    pub fn put_below(&mut self, pile: usize, index: usize, item: T) -> T
        requires pile { pile < length self.old.1 }
        requires index { index < length (pile_at self.old.1 pile) }
        ensures new { self.new ≡ with_below self.old pile index item }
        ensures old { slice_get (pile_at self.old.1 pile) index ≡ Some result }
    {
        let start = start_of(&self.bases, pile);
        mem::replace(&mut self.items[start + index], item)
    }
}

/// Where a pile below the top begins.
fn start_of(bases: &Vec<usize>, index: usize) -> usize
    requires { index < vec_len bases.now }
    ensures { result ≡ slice_index (reverse bases.now.items) index }
{
    bases[bases.len() - 1 - index]
}

/// Where it ends.
fn end_of(bases: &Vec<usize>, base: usize, index: usize) -> usize
    requires { index < vec_len bases.now }
    ensures { result ≡ end_at (reverse bases.now.items) base index }
{
    if index == 0 {
        base
    } else {
        start_of(bases, index - 1)
    }
}

fn part_of<T>(items: &Vec<T>, start: usize, end: usize) -> &[T]
    requires order { start ≤ end }
    requires within { end ≤ vec_len items.now }
    ensures { result.now ≡ take (end - start) (drop start items.now.items) }
{
    &items[start..end]
}
