//! The regions in scope.

ghost use Rattle.std.specs.Prelude.{◌≡◌, ◌<◌, ◌↔◌, ℕ, List, [], length, IsTrue, OnOk, OnErr, codes};
ghost use Rattle.std.specs.List.{list_any};
ghost use Rattle.std.specs.Str.{bytes_eq};
ghost use Rattle.au_types.specs.Regions.{Knows, entered, knows, left};

use crate::Region;
use au_base::{Memory, Name};
use std::alloc::Global;
use std::marker::Model;

/// The regions in scope besides `Static`, each by its name, seen by contracts as the list of these names in
/// the order in which they were entered.
#[derive(Drop)]
pub struct Regions {
    names: Vec<Name>,
}

impl Model for Regions {
    ghost use Rattle.std.specs.Prelude.{List, ℕ};

    ghost Value = { List (List ℕ) };

    ghost view = { λ r. r.names.items };
}

impl Regions {
    /// No region but `Static`.
    pub fn new(alloc: Global) -> Regions
        ensures { result ≡ [] }
    {
        Regions {
            names: Vec::new(alloc),
        }
    }

    /// Enters a region, which is the newest then.
    ///
    /// # Errors
    ///
    /// `Memory` when memory runs out, and the regions are as they were.
    pub fn enter(&mut self, name: Name) -> Result<(), Memory>
        ensures ok { OnOk result (self.new ≡ entered self.old name) }
        ensures err { OnErr result (self.new ≡ self.old) }
    {
        self.names.push(name)?;
        Ok(())
    }

    /// Leaves the newest region. One has to be entered.
    pub fn leave(&mut self)
        requires { 0 < length self.old }
        ensures { self.new ≡ left self.old }
    {
        let _ = self.names.pop();
    }

    /// The names of the regions, the newest last.
    pub fn as_slice(&self) -> &[Name]
        ensures { result.now ≡ self.now }
    {
        self.names.as_slice()
    }

    /// Whether a region of this name is in scope: it is `Static`, or it was entered and not left. The regions
    /// are looked at one by one, since at most a hundred statements are open at once.
    pub fn knows(&self, name: &Name) -> bool
        ensures test { result ≡ knows self.now name.now }
        ensures exact { IsTrue result ↔ Knows self.now name.now }
    {
        is_known(&self.names, name)
    }
}

/// Whether the name is that of the region that is always in scope, or one of these.
fn is_known(names: &Vec<Name>, name: &Name) -> bool
    ensures { result ≡ knows names.now.items name.now }
{
    is_static(name) || is_among(names, name)
}

/// Whether this is the name of the region that is always in scope.
fn is_static(name: &Name) -> bool
    ensures { result ≡ bytes_eq name.now (codes "Static") }
{
    name.as_bytes() == b"Static".as_slice()
}

/// Whether the name is one of these.
fn is_among(names: &Vec<Name>, name: &Name) -> bool
    ensures { result ≡ list_any (bytes_eq name.now) names.now.items }
{
    names.iter().any(|one| name.as_bytes() == one.as_bytes())
}

/// The region of what is borrowed for one statement alone. It has no name, so it's none of those that are
/// entered.
pub fn anonymous() -> Region
    ensures value { result ≡ Region.Anonymous }
    ensures other { (name : List ℕ) → ¬ (result ≡ Region.Named name) }
{
    Region::Anonymous
}
