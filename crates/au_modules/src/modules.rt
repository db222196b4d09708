//! The modules of a program.

ghost use Rattle.std.specs.Prelude.{◌≤◌, IsTrue, length, map};
ghost use Rattle.au_modules.specs.Counts.{are_few, most_files};
ghost use Rattle.au_modules.specs.Programs.{entry};

use au_base::Name;
use au_syntax::{FileTree, Parsed, Part, Whole};

/// A module: its name, and which files hold its interface and its body, by their indices.
#[derive(Drop)]
pub struct Slot {
    /// Its name.
    pub name: Name,
    /// The file of its interface, if it has one.
    pub interface: Option<usize>,
    /// The file of its body, if it has one.
    pub body: Option<usize>,
}

/// The modules of a program, by their places: the shipped ones first, and then those of the user in
/// the order of their bodies. Their files are as few as those of a program, and the declarations in each too.
#[derive(Drop)]
pub struct Modules {
    /// The files.
    pub files: Vec<FileTree>,
    /// The modules by place.
    pub slots: Vec<Slot>,
    pub ghost few: { IsTrue (are_few (map entry files.items)) },
    pub ghost placed: { length slots.items ≤ most_files },
}

impl Modules {
    ghost use Rattle.std.specs.Prelude.{◌≡◌, ◌<◌, Some, length, map, slice_get};
    ghost use Rattle.au_modules.specs.Programs.{entry};
    ghost use Rattle.au_modules.specs.Seen.{body_tree, interface_tree, name_of, part_tree, tree_at};
    ghost use Rattle.au_modules.specs.Seen.{tree_seen};
    ghost use Rattle.au_modules.specs.Slots.{modules};

    /// How many modules there are.
    #[tactic(auto, using(crate::proofs::PlaceLemmas::place_steps, std::proofs::lemmas::Grind::common_steps))]
    pub fn len(&self) -> usize
        ensures { result ≡ length (modules self.now) }
    {
        self.slots.len()
    }

    /// The name of the module at a place.
    #[tactic(auto, using(crate::proofs::PlaceLemmas::place_steps, std::proofs::lemmas::Grind::common_steps))]
    pub fn name(&self, place: usize) -> &Name
        requires { place < length (modules self.now) }
        ensures { name_of (slice_get (modules self.now) place) ≡ Some result.now }
    {
        &self.slots[place].name
    }

    /// The interface of the module at a place, if it has one.
    #[tactic(auto, using(crate::proofs::PlaceLemmas::place_steps, std::proofs::lemmas::Grind::common_steps))]
    pub fn interface(&self, place: usize) -> Option<&Whole<Parsed>>
        requires { place < length (modules self.now) }
        ensures { tree_seen result ≡ interface_tree (slice_get (modules self.now) place) }
    {
        self.tree_at(self.slots[place].interface)
    }

    /// The body of the module at a place, if it has one.
    #[tactic(auto, using(crate::proofs::PlaceLemmas::place_steps, std::proofs::lemmas::Grind::common_steps))]
    pub fn body(&self, place: usize) -> Option<&Whole<Parsed>>
        requires { place < length (modules self.now) }
        ensures { tree_seen result ≡ body_tree (slice_get (modules self.now) place) }
    {
        self.tree_at(self.slots[place].body)
    }

    /// A part of the module at a place, if it has it.
    pub fn part(&self, place: usize, part: Part) -> Option<&Whole<Parsed>>
        requires { place < length (modules self.now) }
        ensures { tree_seen result ≡ part_tree part (slice_get (modules self.now) place) }
    {
        match part {
            Part::Interface => self.interface(place),
            Part::Body => self.body(place),
        }
    }

    /// What the file of an index holds.
    #[tactic(auto, using(crate::proofs::PlaceLemmas::place_steps, std::proofs::lemmas::Grind::common_steps))]
    fn tree_at(&self, index: Option<usize>) -> Option<&Whole<Parsed>>
        ensures { tree_seen result ≡ tree_at (map entry self.now.files.items) index }
    {
        match index {
            None => None,
            Some(index) => match self.files.get(index) {
                None => None,
                Some(file) => Some(&file.tree),
            },
        }
    }
}
