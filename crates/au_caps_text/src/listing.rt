//! Lists that are sets.

ghost use Rattle.std.specs.Prelude.{◌≡◌, Contains, IfOk, List, ℕ};
ghost use Rattle.std.specs.Borrow.{Bor};
ghost use Rattle.std.specs.List.{Any};
ghost use Rattle.std.specs.List.Sorted.{IsStrictlySortedBy};
ghost use Rattle.std.specs.Ordering.{nat_cmp};
ghost use Rattle.std.specs.Cmp.Lexicographic.{slice_cmp};
ghost use Rattle.au_caps_text.specs.Lists.{IsListOf};
ghost use Rattle.au_caps_text.specs.Views.{texts_in};

use au_base::{Memory, Sequence, Text};
use std::alloc::Global;

/// Puts texts in the order of bytes and leaves one of each.
fn order(texts: &mut Vec<&[u8]>)
    ensures ascends { IsStrictlySortedBy (λ x y. slice_cmp nat_cmp x.now y.now) texts.new.items }
    ensures all { (x : Bor (List ℕ)) → Contains texts.old.items x
        → Any (λ y. x.now ≡ y.now) texts.new.items }
    ensures only { (x : Bor (List ℕ)) → Contains texts.new.items x → Contains texts.old.items x }
{
    texts.sort_unstable();
    texts.dedup();
}

/// Texts of the same bytes, each in its place.
fn copies(alloc: Global, texts: &[&[u8]]) -> Result<Vec<Text>, Memory>
    ensures { IfOk result (λ made. made.items ≡ texts_in texts.now) }
{
    let mut made = Vec::new(alloc);
    for one in texts {
        let copy = Text::copy_of(alloc, *one)?;
        made.push(copy)?;
    }
    Ok(made)
}

/// The list of some texts: each of them once, in the order of bytes.
///
/// # Errors
///
/// Only for want of memory.
pub fn list_of(alloc: Global, texts: Vec<&[u8]>) -> Result<Sequence<Text>, Memory>
    ensures { IfOk result (λ list. IsListOf (Contains (texts_in texts.entry.items)) list) }
{
    let mut texts = texts;
    order(&mut texts);
    let made = copies(alloc, texts.as_slice())?;
    Ok(Sequence::from_vec(made))
}
