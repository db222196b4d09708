//! What a row is found by.

ghost use Rattle.std.specs.Prelude.{◌++◌};
ghost use Rattle.std.specs.Hash as fed;
ghost use Rattle.std.proofs.Common.{rules};
ghost use Rattle.std.specs.Cmp.Rules.{hashing};
ghost use Rattle.au_instances.specs.Hashes.{constructor_input};

use crate::constructors::Constructor;
use crate::rows::ClassAt;
use std::hash::{Hash, Hasher};

/// A class and what heads the type of an instance of it.
#[derive(Clone, Copy, Debug, PartialEq, Eq, Hash)]
pub(crate) struct Key {
    pub class: ClassAt,
    pub constructor: Constructor,
}

impl Hash for Constructor {
    ghost hash_input = { constructor_input };

    ghost respects_eq = { Prim.search (hashing, rules) };

    fn hash<H: Hasher>(&self, state: &mut H) {
        match self {
            Constructor::Unit => state.write_u8(0),
            Constructor::Bool => state.write_u8(1),
            Constructor::Int(_) => state.write_u8(2),
            Constructor::Text => state.write_u8(3),
            Constructor::Declared(at) => {
                state.write_u8(4);
                at.module.hash(state);
                at.decl.hash(state);
            }
        }
    }
}
