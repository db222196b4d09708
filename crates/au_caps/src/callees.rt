//! What calls lead to.

use au_base::Text;
use au_instances::Constructor;
use au_types::DeclAt;

/// What a call leads to.
#[derive(Drop)]
pub(crate) enum Callee {
    /// A value of this declared type is born.
    Birth(DeclAt),
    /// The function of a name in the module at a place.
    Function(u16, Text),
    /// The method of a name of all instances of a class.
    Method(DeclAt, Text),
    /// The methods of the instance of a class whose head has this constructor.
    Instance(DeclAt, Constructor),
    /// The methods of all instances of a class.
    Class(DeclAt),
}
