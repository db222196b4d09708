//! Names, and what is declared by a name and a type.

ghost use Rattle.std.specs.Prelude.{◌≡◌, IfOk};
ghost use Rattle.au_syntax.specs.Names.{Placed, Renaming};
ghost use Rattle.au_syntax.specs.Types.{Bound, Labelled, WrittenType};
ghost use Rattle.au_syntax.specs.Views.{placed, renaming, labelled, bound, written};
ghost use Rattle.au_mapping.specs.Seen.{before, after};

use crate::parts::{Part, walked_two};
use crate::types::copy_type;
use crate::walks::Walk;
use au_base::Memory;
use au_syntax::{Bind, Field, Ident, Phase, Renamed, TypeText};
use std::alloc::Global;

impl<Q: Phase, W> Part<Q, W> for TypeText {
    type New = TypeText;

    ghost Kept = { WrittenType };

    ghost old = { written };

    ghost new = { written };

    fn walked(&self, alloc: Global, _walk: &mut W) -> Result<TypeText, Memory> {
        copy_type(alloc, self)
    }
}

impl<P: Phase, Q: Phase, W: Walk<P, Q>> Part<Q, W> for Ident<P> {
    type New = Ident<Q>;

    ghost Kept = { Placed W.KeptName };

    ghost old = { placed (before W.Walk) };

    ghost new = { placed (after W.Walk) };

    fn walked(&self, alloc: Global, walk: &mut W) -> Result<Ident<Q>, Memory> {
        let name = walk.name(alloc, &self.name)?;
        Ok(Ident { name, at: self.at })
    }
}

impl<P: Phase, Q: Phase, W: Walk<P, Q>> Part<Q, W> for Renamed<P> {
    type New = Renamed<Q>;

    ghost Kept = { Renaming W.KeptName };

    ghost old = { renaming (before W.Walk) };

    ghost new = { renaming (after W.Walk) };

    fn walked(&self, alloc: Global, walk: &mut W) -> Result<Renamed<Q>, Memory> {
        let name = self.name.walked(alloc, walk)?;
        match &self.alias {
            Some(alias) => {
                let alias = Some(alias.walked(alloc, walk)?);
                Ok(Renamed { name, alias })
            }
            None => Ok(Renamed { name, alias: None }),
        }
    }
}

impl<P: Phase, Q: Phase, W: Walk<P, Q>> Part<Q, W> for Field<P> {
    type New = Field<Q>;

    ghost Kept = { Labelled W.KeptName };

    ghost old = { labelled (before W.Walk) };

    ghost new = { labelled (after W.Walk) };

    fn walked(&self, alloc: Global, walk: &mut W) -> Result<Field<Q>, Memory> {
        let (name, of) = walked_two(alloc, &self.name, &self.of, walk)?;
        Ok(Field { name, of })
    }
}

impl<P: Phase, Q: Phase, W: Walk<P, Q>> Part<Q, W> for Bind<P> {
    type New = Bind<Q>;

    ghost Kept = { Bound W.KeptName };

    ghost old = { bound (before W.Walk) };

    ghost new = { bound (after W.Walk) };

    fn walked(&self, alloc: Global, walk: &mut W) -> Result<Bind<Q>, Memory> {
        let (name, of) = walked_two(alloc, &self.name, &self.of, walk)?;
        Ok(Bind { name, of })
    }
}
