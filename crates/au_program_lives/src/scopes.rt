//! What written types are judged by at a place of a function.

ghost use Rattle.std.specs.Prelude.{◌≡◌, OnErr, OnOk};
ghost use Rattle.au_program_lives.specs.Scopes.{closed_in, opened_in, scope_said};

use au_base::{Memory, Name};
use au_types::{DeclAt, Heads, Params, Scope, Table};

/// What written types are judged by at a place of a function.
#[derive(Drop)]
pub struct TypeScope<'a> {
    /// The regions of the borrow statements that are open, the innermost first.
    pub regions: Vec<Name>,
    /// The type parameters.
    pub params: &'a Params,
    /// The names of types and classes that are visible.
    pub names: &'a Table<DeclAt>,
    /// The declared types of the program.
    pub heads: &'a Heads,
}

impl<'a> TypeScope<'a> {
    /// What stands for names in written types.
    pub fn written<'s>(&'s self) -> Scope<'s>
        ensures regions { result.regions.now ≡ (scope_said self.now).regions }
        ensures params { result.params.now ≡ (scope_said self.now).params }
        ensures names { result.names.now ≡ (scope_said self.now).visible }
        ensures heads { result.heads.now ≡ (scope_said self.now).heads }
    {
        Scope {
            regions: self.regions.as_slice(),
            params: self.params,
            names: self.names,
            heads: self.heads,
        }
    }

    /// Opens a region, which is the innermost then.
    ///
    /// # Errors
    ///
    /// Only for want of memory; nothing changes then.
    pub fn enter_region(&mut self, region: Name) -> Result<(), Memory>
        ensures ok { OnOk result (scope_said self.new ≡ opened_in region (scope_said self.old)) }
        ensures err { OnErr result (scope_said self.new ≡ scope_said self.old) }
    {
        self.regions.insert(0, region)?;
        Ok(())
    }

    /// Closes the innermost region, if one is open.
    pub fn leave_region(&mut self)
        ensures { scope_said self.new ≡ closed_in (scope_said self.old) }
    {
        if !self.regions.is_empty() {
            let _left = self.regions.remove(0);
        }
    }
}
