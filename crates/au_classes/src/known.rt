//! Rows of instances with the places of these in the text.

ghost use Rattle.std.specs.Prelude.{◌≡◌, length};

use au_base::Pos;
use au_instances::Instances;

/// The instances that are known, in order, with their places.
#[derive(Drop)]
pub struct Known {
    /// Their rows.
    pub rows: Instances,
    /// The places of their first tokens.
    pub places: Vec<Pos>,
    pub ghost many: { length places.items ≡ length rows },
}
