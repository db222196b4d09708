//! Where the name of a variable is that of another.

ghost use Rattle.std.specs.Prelude.{◌≡◌, ◌∷◌, [], List};
ghost use Rattle.au_lives.specs.Lives.{held_from};
ghost use Rattle.au_lives.specs.Paths.{declared, declared_by, bound_names};
ghost use Rattle.au_paths.specs.Lendings.{Lending, held_within};
ghost use Rattle.au_paths.specs.Seen.{seen_name, seen_binds, seen_statement};

use crate::holds::{binds, declares, is_named};
use au_base::Name;
use au_syntax::{Bind, Ident, Phase, Stmt};

/// Whether the variable is hidden where this name is declared.
pub(crate) fn hidden_beside<P: Phase>(x: &Name, name: &Ident<P>, hidden: bool) -> bool
    ensures { (lendings : List Lending) → held_within x.now result lendings
        ≡ held_from x.now (declared (seen_name P.Phase name.now).name ∷ [])
        (held_within x.now hidden lendings) }
{
    let here = is_named(x, name);
    hidden || here
}

/// Whether the variable is hidden where these are bound.
pub(crate) fn hidden_beside_binds<P: Phase>(x: &Name, all: &Vec<Bind<P>>, hidden: bool) -> bool
    ensures { (lendings : List Lending) → held_within x.now result lendings
        ≡ held_from x.now (bound_names (seen_binds P.Phase all.now.items))
        (held_within x.now hidden lendings) }
{
    let here = binds(x, all);
    hidden || here
}

/// Whether the variable is hidden behind a statement of its block.
pub(crate) fn hidden_after<P: Phase>(x: &Name, stmt: &Stmt<P>, hidden: bool) -> bool
    ensures { (lendings : List Lending) → held_within x.now result lendings
        ≡ held_from x.now (declared_by (seen_statement P.Phase stmt.now))
        (held_within x.now hidden lendings) }
{
    let here = declares(x, stmt);
    hidden || here
}
