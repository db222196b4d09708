//! Notes of fixed types.

ghost use Rattle.au_matching.specs.Matched.{matched};
ghost use Rattle.au_matching.specs.Substituted.{substituted};
ghost use Rattle.au_noting.specs.Giving.{Gives};
ghost use Rattle.au_noting.specs.Modes.{wanted};
ghost use Rattle.au_sights.specs.Views.{note};
ghost use Rattle.au_types.specs.Types as mean;
ghost use Rattle.au_types.specs.Views.{meaning};
ghost use Rattle.au_typing.specs.Faults as faults;
ghost use Rattle.au_typing.specs.Rules.{int32, noted};

use crate::argument_types::taken_as;
use au_base::IntKind;
use au_matching::Substitution;
use au_noting::Fault;
use au_noting::rules::noted;
use au_sights::Notes;
use au_types::Ty;
use std::alloc::Global;

/// The note of a text.
pub(crate) fn text_note(alloc: Global, mode: Option<&Ty>) -> Result<Notes, Fault>
    ensures { Gives note result (noted (wanted mode.entry) mean.text) }
{
    noted(alloc, mode, &Ty::Text)
}

/// The note of a Bool.
pub(crate) fn truth_note(alloc: Global, mode: Option<&Ty>) -> Result<Notes, Fault>
    ensures { Gives note result (noted (wanted mode.entry) mean.truth) }
{
    noted(alloc, mode, &Ty::Bool)
}

/// The note of a Unit.
pub(crate) fn unit_note(alloc: Global, mode: Option<&Ty>) -> Result<Notes, Fault>
    ensures { Gives note result (noted (wanted mode.entry) mean.unit) }
{
    noted(alloc, mode, &Ty::Unit)
}

/// The substitution in which the type of an argument's parameter becomes `Int32`.
pub(crate) fn taken_as_int32(
    alloc: Global,
    param: &Ty,
    s: &Substitution,
) -> Result<Substitution, Fault>
    ensures { Gives (λ r. r) result (faults.known_or
        (faults.different (substituted s.now (meaning param.now)) int32)
        (matched (meaning param.now) int32 s.now)) }
{
    taken_as(alloc, param, &Ty::Int(IntKind::Int32), s)
}
