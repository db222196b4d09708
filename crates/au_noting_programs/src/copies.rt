//! Copies of the parts of declarations that hold no expression, for a tree with notes.

ghost use Rattle.std.specs.Prelude.{◌≡◌, ℕ, IfOk, List, map};
ghost use Rattle.au_sights.specs.contracts.noted.NotedPhase.TheImpl.{ghosts as noted};
ghost use Rattle.au_syntax.specs.contracts.parsed.ParsedPhase.TheImpl.{ghosts as parsed};
ghost use Rattle.au_syntax.specs.Modules.{Constrained, Header, Importing, InUniverse, Variant};
ghost use Rattle.au_syntax.specs.Names.{Placed, Renaming};
ghost use Rattle.au_syntax.specs.Types.{Labelled};
ghost use Rattle.au_syntax.specs.Views.{constrained, header, importing, in_universe, labelled, placed};
ghost use Rattle.au_syntax.specs.Views.{renaming, variant};

use au_base::Memory;
use au_sights::{Noted, copy_name, copy_names, copy_renamed, copy_text_of_type};
use au_syntax::{
    Field, Generic, Ident, Import, Parsed, Renamed, Signature, TypeParameter, UnionCase,
};
use std::alloc::Global;

/// What can be copied alone for a tree with notes, so that a vector of it can be copied by one loop.
pub(crate) trait Copied {
    /// The same in a tree with notes.
    type Made: Drop;

    // what contracts see of both
    ghost Seen: { Type 0 };

    ghost see: { Self → Seen };

    ghost see_made: { Self.Made → Seen };

    /// The same in a tree with notes.
    fn copy(&self, alloc: Global) -> Result<Self::Made, Memory>
        ensures { IfOk result (λ made. see_made made ≡ see self.now) };
}

/// A vector whose items say the same, each in its place.
pub(crate) fn copy_all<T: Copied>(alloc: Global, items: &Vec<T>) -> Result<Vec<T::Made>, Memory>
    ensures { IfOk result (λ copies. map T.see_made copies.items ≡ map T.see items.now.items) }
{
    let mut copies = Vec::new(alloc);
    for one in items {
        let copy = one.copy(alloc)?;
        copies.push(copy)?;
    }
    Ok(copies)
}

impl Copied for Ident<Parsed> {
    type Made = Ident<Noted>;

    ghost Seen = { Placed (List ℕ) };

    ghost see = { placed parsed };

    ghost see_made = { placed noted };

    fn copy(&self, alloc: Global) -> Result<Ident<Noted>, Memory> {
        copy_name(alloc, self)
    }
}

impl Copied for Renamed<Parsed> {
    type Made = Renamed<Noted>;

    ghost Seen = { Renaming (List ℕ) };

    ghost see = { renaming parsed };

    ghost see_made = { renaming noted };

    fn copy(&self, alloc: Global) -> Result<Renamed<Noted>, Memory> {
        copy_renamed(alloc, self)
    }
}

impl Copied for Field<Parsed> {
    type Made = Field<Noted>;

    ghost Seen = { Labelled (List ℕ) };

    ghost see = { labelled parsed };

    ghost see_made = { labelled noted };

    fn copy(&self, alloc: Global) -> Result<Field<Noted>, Memory> {
        let name = copy_name(alloc, &self.name)?;
        let of = copy_text_of_type(alloc, &self.of)?;
        Ok(Field { name, of })
    }
}

impl Copied for TypeParameter<Parsed> {
    type Made = TypeParameter<Noted>;

    ghost Seen = { InUniverse (List ℕ) };

    ghost see = { in_universe parsed };

    ghost see_made = { in_universe noted };

    fn copy(&self, alloc: Global) -> Result<TypeParameter<Noted>, Memory> {
        let name = copy_name(alloc, &self.name)?;
        let universe = self.universe;
        Ok(TypeParameter { name, universe })
    }
}

impl Copied for Generic<Parsed> {
    type Made = Generic<Noted>;

    ghost Seen = { Constrained (List ℕ) };

    ghost see = { constrained parsed };

    ghost see_made = { constrained noted };

    fn copy(&self, alloc: Global) -> Result<Generic<Noted>, Memory> {
        let parameter = self.parameter.copy(alloc)?;
        let classes = copy_names(alloc, &self.classes)?;
        Ok(Generic { parameter, classes })
    }
}

impl Copied for Signature<Parsed> {
    type Made = Signature<Noted>;

    ghost Seen = { Header (List ℕ) };

    ghost see = { header parsed };

    ghost see_made = { header noted };

    fn copy(&self, alloc: Global) -> Result<Signature<Noted>, Memory> {
        let name = copy_name(alloc, &self.name)?;
        let parameters = copy_all(alloc, &self.parameters)?;
        let result = copy_text_of_type(alloc, &self.result)?;
        Ok(Signature {
            name,
            parameters,
            result,
        })
    }
}

impl Copied for UnionCase<Parsed> {
    type Made = UnionCase<Noted>;

    ghost Seen = { Variant (List ℕ) };

    ghost see = { variant parsed };

    ghost see_made = { variant noted };

    fn copy(&self, alloc: Global) -> Result<UnionCase<Noted>, Memory> {
        let name = copy_name(alloc, &self.name)?;
        let fields = copy_all(alloc, &self.fields)?;
        Ok(UnionCase { name, fields })
    }
}

impl Copied for Import<Parsed> {
    type Made = Import<Noted>;

    ghost Seen = { Importing (List ℕ) };

    ghost see = { importing parsed };

    ghost see_made = { importing noted };

    fn copy(&self, alloc: Global) -> Result<Import<Noted>, Memory> {
        let at = self.at;
        let module = copy_names(alloc, &self.module)?;
        let items = copy_all(alloc, &self.items)?;
        Ok(Import { at, module, items })
    }
}
