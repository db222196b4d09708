//! A module whose names are judged.

use crate::brought::Brought;
use crate::offers::Offers;
use au_names::NamedModules as Resolved;

/// A module of a program whose names are judged.
#[derive(Clone, Copy)]
pub struct Judged<'a> {
    /// The program.
    pub resolved: &'a Resolved,
    /// What its interfaces offer.
    pub offers: &'a Offers,
    /// What the imports of the module's interface bring.
    pub interface: &'a Brought,
    /// What the imports of its body bring.
    pub body: &'a Brought,
    /// The place of the module.
    pub place: usize,
}
