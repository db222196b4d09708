//! Whole files.

ghost use Rattle.std.specs.Prelude.{◌≡◌, IsTrue};
ghost use Rattle.au_syntax.specs.Files.{is_formed, is_within, is_allowed};

use crate::modules::Module;
use crate::parsed::Parsed;
use crate::phases::Phase;

/// The module of a file, of which is known that it has the form that the grammar asks for (operands
/// are atoms, and the last block of a conditional doesn't begin with an `if`), that it is within the
/// limits of nesting, of types and of module names, and that the phase allows each of its notes.
#[derive(Drop)]
pub struct Whole<P: Phase> {
    tree: Module<P>,
    pub ghost formed: { IsTrue (is_formed P.Phase tree) },
    pub ghost within: { IsTrue (is_within P.Phase tree) },
    pub ghost allowed: { IsTrue (is_allowed P.Phase tree) },
}

/// The whole file of a number.
#[derive(Drop)]
pub struct FileTree {
    /// The number that places name the file by.
    pub file: u16,
    /// What it holds.
    pub tree: Whole<Parsed>,
}

impl<P: Phase> Whole<P> {
    /// The whole file of a module that is one.
    pub fn new(tree: Module<P>) -> Whole<P>
        requires formed { IsTrue (is_formed P.Phase tree) }
        requires within { IsTrue (is_within P.Phase tree) }
        requires allowed { IsTrue (is_allowed P.Phase tree) }
        ensures { result.tree ≡ tree }
    {
        Whole { tree }
    }

    /// Its module.
    pub fn tree(&self) -> &Module<P>
        ensures same { result.now ≡ self.now.tree }
        ensures formed { IsTrue (is_formed P.Phase result.now) }
        ensures within { IsTrue (is_within P.Phase result.now) }
        ensures allowed { IsTrue (is_allowed P.Phase result.now) }
    {
        &self.tree
    }

    /// Its module, by value.
    pub fn into_tree(self) -> Module<P>
        ensures same { result ≡ self.tree }
        ensures formed { IsTrue (is_formed P.Phase result) }
        ensures within { IsTrue (is_within P.Phase result) }
        ensures allowed { IsTrue (is_allowed P.Phase result) }
    {
        self.tree
    }
}
