//! Which constraint is lacking first.

ghost use Rattle.std.specs.Prelude.{◌≡◌, Some, option_copied};
ghost use Rattle.std.specs.Option.{option_map};
ghost use Rattle.au_types.specs.Views.{argument, argument_all, meaning};
ghost use Rattle.au_instances.specs.Forms as forms;
ghost use Rattle.au_instances.specs.Instances as rule;
ghost use Rattle.au_instances.specs.Pairs.{wanted};
ghost use Rattle.au_instances.specs.Views.{lacking_among, lacking_at, lacking_below};
ghost use Rattle.au_instances.specs.Views.{lacking_from, lacking_in, lacking_of};

use crate::finding::row_in;
use crate::forms::{arguments_of, is_called};
use crate::instances::Instances;
use crate::rows::{ClassAt, Row};
use au_base::Name;
use au_types::{Arg, Heads, Params, Ty};

/// What is known where a constraint is asked for.
#[derive(Clone, Copy)]
pub(crate) struct Sight<'a> {
    /// The instances.
    pub instances: &'a Instances,
    /// The rows of declared types.
    pub heads: &'a Heads,
    /// The type parameters in scope.
    pub scope: &'a Params,
    /// The constraints that are known of them.
    pub known: &'a [(Name, ClassAt)],
}

/// The first lacking pair that comes from a class at a type, if one is lacking.
#[tactic(auto, using(au_types::proofs::TypeLemmas::type_steps))]
#[cycle(lacking)]
pub(crate) fn lacking_in<'a>(of: &'a Ty, sight: &Sight, class: ClassAt) -> Option<(ClassAt, &'a Ty)>
    ensures { option_map wanted result ≡ lacking_in sight.now class (meaning of.now) }
{
    if let Ty::Param(name) = of {
        return if is_known(sight.known, name, class) {
            None
        } else {
            Some((class, of))
        };
    }
    match row_in(sight.instances, sight.heads, sight.scope, class, of) {
        Some(row) => lacking_below(of, sight, row),
        None => Some((class, of)),
    }
}

/// The first lacking pair that comes from the constraints of a row whose head becomes a type.
#[tactic(auto, using(au_types::proofs::TypeLemmas::type_steps))]
#[cycle(lacking)]
fn lacking_below<'a>(of: &'a Ty, sight: &Sight, row: &Row) -> Option<(ClassAt, &'a Ty)>
    ensures { option_map wanted result
        ≡ lacking_below sight.now row.now.generics (meaning row.now.head) (meaning of.now) }
{
    match of {
        Ty::Named { args, .. } => lacking_among(args, sight, row),
        _ => None,
    }
}

/// The first lacking pair that comes from the constraints of a row, whose head becomes a type with these
/// arguments.
#[cycle(lacking)]
fn lacking_among<'a>(args: &'a Vec<Arg>, sight: &Sight, row: &Row) -> Option<(ClassAt, &'a Ty)>
    ensures { option_map wanted result
        ≡ lacking_among sight.now row.now.generics
        (forms.arguments_of (meaning row.now.head)) (argument_all args.now.items) }
{
    let names = arguments_of(&row.head);
    for index in 0..row.generics.len() {
        let name = &row.generics.params().at(index).name;
        let Some(classes) = row.generics.classes_of(name) else {
            continue;
        };
        if let Some(found) = lacking_from(args, sight, names, name, classes) {
            return Some(found);
        }
    }
    None
}

/// The first lacking pair that comes from these classes at the argument in the place of a name.
#[cycle(lacking)]
fn lacking_from<'a>(
    args: &'a Vec<Arg>,
    sight: &Sight,
    names: &[Arg],
    name: &Name,
    classes: &[ClassAt],
) -> Option<(ClassAt, &'a Ty)>
    ensures { option_map wanted result
        ≡ lacking_from sight.now name.now classes.now
        (argument_all names.now) (argument_all args.now.items) }
{
    for class in classes {
        if let Some(found) = lacking_at(args, sight, names, name, *class) {
            return Some(found);
        }
    }
    None
}

/// The first lacking pair that comes from a class at the argument in the place of a name.
#[cycle(lacking)]
fn lacking_at<'a>(
    args: &'a Vec<Arg>,
    sight: &Sight,
    names: &[Arg],
    name: &Name,
    class: ClassAt,
) -> Option<(ClassAt, &'a Ty)>
    ensures { option_map wanted result
        ≡ lacking_at sight.now name.now class (argument_all names.now) (argument_all args.now.items) }
{
    for (index, one) in args.iter().enumerate() {
        if index < names.len() && is_called(name, &names[index]) {
            return lacking_of(one, sight, class);
        }
    }
    None
}

/// The first lacking pair that comes from a class at an argument. A region leads to none.
#[tactic(auto, using(au_types::proofs::TypeLemmas::type_steps))]
#[cycle(lacking)]
fn lacking_of<'a>(one: &'a Arg, sight: &Sight, class: ClassAt) -> Option<(ClassAt, &'a Ty)>
    ensures { option_map wanted result ≡ lacking_of sight.now class (argument one.now) }
{
    match one {
        Arg::Of(of) => lacking_in(of, sight, class),
        Arg::In(_) => None,
    }
}

/// Whether a class is known to constrain a type parameter.
fn is_known(known: &[(Name, ClassAt)], name: &Name, class: ClassAt) -> bool
    ensures { result ≡ rule.is_known known.now name.now class }
{
    for one in known {
        if name.as_bytes() == one.0.as_bytes() && class == one.1 {
            return true;
        }
    }
    false
}
