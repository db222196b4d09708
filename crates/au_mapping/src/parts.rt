//! What can be walked alone: lists and parts that stand beside each other, by walks of their items.

ghost use Rattle.std.specs.Prelude.{◌≡◌, List, IfOk, map};

use au_base::Memory;
use au_syntax::Phase;
use std::alloc::Global;

/// A part of a tree, which a walk makes one of another phase.
pub(crate) trait Part<Q: Phase, W> {
    type New: Drop;

    // what is kept of a part: its words, and that each note is allowed
    ghost Kept: { Type 0 };

    ghost old: { Self → Kept };

    ghost new: { Self.New → Kept };

    /// The part in the new phase.
    fn walked(&self, alloc: Global, walk: &mut W) -> Result<Self::New, Memory>
        ensures { IfOk result (λ made. new made ≡ old self.now) };
}

impl<Q: Phase, W, T: Part<Q, W>> Part<Q, W> for Vec<T> {
    type New = Vec<T::New>;

    ghost Kept = { List T.Kept };

    ghost old = { λ items. map T.old items.items };

    ghost new = { λ items. map T.new items.items };

    fn walked(&self, alloc: Global, walk: &mut W) -> Result<Vec<T::New>, Memory> {
        walked_all(alloc, self, walk)
    }
}

/// The items of a vector, each in its place.
fn walked_all<Q: Phase, W, T: Part<Q, W>>(
    alloc: Global,
    items: &Vec<T>,
    walk: &mut W,
) -> Result<Vec<T::New>, Memory>
    ensures { IfOk result (λ made. map T.new made.items ≡ map T.old items.now.items) }
{
    let mut made = Vec::new(alloc);
    for one in items {
        let new = one.walked(alloc, walk)?;
        made.push(new)?;
    }
    Ok(made)
}

/// Two parts.
pub(crate) fn walked_two<Q: Phase, W, A: Part<Q, W>, B: Part<Q, W>>(
    alloc: Global,
    first: &A,
    second: &B,
    walk: &mut W,
) -> Result<(A::New, B::New), Memory>
    ensures first { IfOk result (λ made. A.new made.0 ≡ A.old first.now) }
    ensures second { IfOk result (λ made. B.new made.1 ≡ B.old second.now) }
{
    let first = first.walked(alloc, walk)?;
    let second = second.walked(alloc, walk)?;
    Ok((first, second))
}

/// Three parts.
pub(crate) fn walked_three<Q: Phase, W, A: Part<Q, W>, B: Part<Q, W>, C: Part<Q, W>>(
    alloc: Global,
    first: &A,
    second: &B,
    third: &C,
    walk: &mut W,
) -> Result<(A::New, B::New, C::New), Memory>
    ensures first { IfOk result (λ made. A.new made.0 ≡ A.old first.now) }
    ensures second { IfOk result (λ made. B.new made.1 ≡ B.old second.now) }
    ensures third { IfOk result (λ made. C.new made.2 ≡ C.old third.now) }
{
    let first = first.walked(alloc, walk)?;
    let second = second.walked(alloc, walk)?;
    let third = third.walked(alloc, walk)?;
    Ok((first, second, third))
}

/// Four parts.
pub(crate) fn walked_four<Q: Phase, W, A: Part<Q, W>, B: Part<Q, W>, C: Part<Q, W>, D: Part<Q, W>>(
    alloc: Global,
    first: &A,
    second: &B,
    third: &C,
    fourth: &D,
    walk: &mut W,
) -> Result<(A::New, B::New, C::New, D::New), Memory>
    ensures first { IfOk result (λ made. A.new made.0 ≡ A.old first.now) }
    ensures second { IfOk result (λ made. B.new made.1 ≡ B.old second.now) }
    ensures third { IfOk result (λ made. C.new made.2 ≡ C.old third.now) }
    ensures fourth { IfOk result (λ made. D.new made.3 ≡ D.old fourth.now) }
{
    let (first, second) = walked_two(alloc, first, second, walk)?;
    let (third, fourth) = walked_two(alloc, third, fourth, walk)?;
    Ok((first, second, third, fourth))
}
