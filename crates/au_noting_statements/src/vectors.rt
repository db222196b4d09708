//! Judgements over the items of vectors.

ghost use Rattle.au_typing.specs.DerivationSearch as spec;
ghost use Rattle.au_judgements.specs.Said.{binds_said, cases_said, heads_said};
ghost use Rattle.au_noting.specs.Giving.{Gives};
ghost use Rattle.au_noting.specs.Said.{all_typed, fields_said};
ghost use Rattle.au_noting.specs.Scopes.{scope_said};
ghost use Rattle.au_types.specs.Views.{meaning};

use au_base::Name;
use au_judgements::{arms, assigning, binding};
use au_noting::{Fault, Scope};
use au_sights::{Case, Typed};
use au_syntax::{Arm, Bind, Ident, Parsed};
use au_types::Ty;
use std::alloc::Global;

/// That each field is bound once, with its type.
pub fn judge_binds(
    alloc: Global,
    scope: &Scope,
    all: &Vec<Typed>,
    binds: &Vec<Bind<Parsed>>,
) -> Result<(), Fault>
    ensures { Gives (λ _. tt) result (spec.judge_binds (scope_said scope.now)
        (all_typed all.now.items) (binds_said binds.now.items)) }
{
    binding::judge_binds(alloc, scope, all.as_slice(), binds.as_slice())
}

/// That arms are those for the cases of a union.
pub fn judge_heads(
    alloc: Global,
    scope: &Scope,
    all: &Vec<Case>,
    arms: &Vec<Arm<Parsed>>,
) -> Result<(), Fault>
    ensures { Gives (λ _. tt) result (spec.judge_heads (scope_said scope.now)
        (cases_said all.now.items) (heads_said arms.now.items)) }
{
    arms::judge_heads(alloc, scope, all.as_slice(), arms.as_slice())
}

/// The type of a variable, or of a part of one, that is assigned to.
pub fn judge_assigned(
    alloc: Global,
    scope: &Scope,
    name: &Name,
    path: &Vec<Ident<Parsed>>,
) -> Result<Ty, Fault>
    ensures { Gives meaning result
        (spec.judge_assigned (scope_said scope.now) name.now (fields_said path.now.items)) }
{
    assigning::judge_assigned(alloc, scope, name, path.as_slice())
}

/// The type of a part behind a write reference that is assigned to.
pub fn judge_put(
    alloc: Global,
    scope: &Scope,
    name: &Name,
    path: &Vec<Ident<Parsed>>,
) -> Result<Ty, Fault>
    ensures { Gives meaning result
        (spec.judge_put (scope_said scope.now) name.now (fields_said path.now.items)) }
{
    assigning::judge_put(alloc, scope, name, path.as_slice())
}
