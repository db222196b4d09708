//! What stands in types: declared types and type parameters.

ghost use Rattle.std.specs.Prelude.{◌≡◌, ◌++◌, ◌∷◌, [], OnOk, Some, option_to_list};
ghost use Rattle.au_caps_lists.specs.Mentions as spec;
ghost use Rattle.au_caps_lists.specs.Views.{mentions_said};
ghost use Rattle.au_syntax.specs.Views.{written, written_all};
ghost use Rattle.au_types.specs.Views.{argument, argument_all, meaning};
ghost use Rattle.au_types.specs.WrittenViews.{said, sense_in};

use au_base::{Memory, Name};
use au_syntax::TypeText;
use au_types::{Arg, DeclAt, Scope, Sense, Ty, sense_of};

/// What stands in a type.
#[derive(Clone, Copy)]
pub(crate) enum Mention<'a> {
    /// A declared type.
    Declared(DeclAt),
    /// A type parameter.
    Parameter(&'a Name),
}

/// Puts one more.
fn push_one<'a>(made: &mut Vec<Mention<'a>>, one: Mention<'a>) -> Result<(), Memory>
    ensures { OnOk result (mentions_said made.new.items
        ≡ mentions_said made.old.items ++ mentions_said (one.entry ∷ [])) }
{
    made.push(one)?;
    Ok(())
}

/// Puts what stands in a type, in the order of its text.
#[tactic(auto, using(au_types::proofs::TypeLemmas::type_steps, crate::proofs::MentionLemmas::mention_steps, std::proofs::lemmas::Grind::common_steps))]
#[cycle(push_type)]
pub(crate) fn push_type<'a>(made: &mut Vec<Mention<'a>>, of: &'a Ty) -> Result<(), Memory>
    ensures { OnOk result (mentions_said made.new.items
        ≡ mentions_said made.old.items ++ spec.mentions (meaning of.now)) }
{
    match of {
        Ty::Unit => Ok(()),
        Ty::Bool => Ok(()),
        Ty::Int(_) => Ok(()),
        Ty::Text => Ok(()),
        Ty::Param(name) => push_one(made, Mention::Parameter(name)),
        Ty::Named { of, args } => {
            push_one(made, Mention::Declared(*of))?;
            push_arguments(made, args)
        }
        Ty::Read { to, .. } => push_type(made, to),
        Ty::Write { to, .. } => push_type(made, to),
    }
}

/// Puts what stands in an argument.
#[tactic(auto, using(au_types::proofs::TypeLemmas::type_steps, crate::proofs::MentionLemmas::mention_steps, std::proofs::lemmas::Grind::common_steps))]
#[cycle(push_type)]
fn push_argument<'a>(made: &mut Vec<Mention<'a>>, one: &'a Arg) -> Result<(), Memory>
    ensures { OnOk result (mentions_said made.new.items
        ≡ mentions_said made.old.items ++ spec.mentions_in (argument one.now)) }
{
    match one {
        Arg::Of(of) => push_type(made, of),
        Arg::In(_) => Ok(()),
    }
}

/// Puts what stands in arguments.
#[cycle(push_type)]
fn push_arguments<'a>(made: &mut Vec<Mention<'a>>, args: &'a Vec<Arg>) -> Result<(), Memory>
    ensures { OnOk result (mentions_said made.new.items
        ≡ mentions_said made.old.items ++ spec.mentions_in_all (argument_all args.now.items)) }
{
    for one in args {
        push_argument(made, one)?;
    }
    Ok(())
}

/// What a name is that has this sense, if it is a declared type or a type parameter.
fn mention_of<'a>(name: &'a Name, sense: &Sense) -> Option<Mention<'a>>
    ensures { mentions_said (option_to_list result) ≡ spec.mentions_of (Some (said name.now sense.now)) }
{
    match sense {
        Sense::Unit => None,
        Sense::Bool => None,
        Sense::Int(_) => None,
        Sense::Param => Some(Mention::Parameter(name)),
        Sense::Span => None,
        Sense::Static => None,
        Sense::Region => None,
        Sense::Declared(at, _) => Some(Mention::Declared(*at)),
        Sense::Class(_) => None,
    }
}

/// What a name means, if it means a declared type or a type parameter.
fn named<'a>(scope: &Scope, name: &'a Name) -> Option<Mention<'a>>
    ensures { mentions_said (option_to_list result) ≡ spec.mentions_of (sense_in scope.now name.now) }
{
    match sense_of(scope, name) {
        None => None,
        Some(sense) => mention_of(name, &sense),
    }
}

/// Puts what a name means, if it means a declared type or a type parameter.
fn push_named<'a>(made: &mut Vec<Mention<'a>>, scope: &Scope, name: &'a Name) -> Result<(), Memory>
    ensures { OnOk result (mentions_said made.new.items
        ≡ mentions_said made.old.items ++ spec.mentions_of (sense_in scope.now name.now)) }
{
    match named(scope, name) {
        None => Ok(()),
        Some(one) => push_one(made, one),
    }
}

/// Puts what stands in a written type, in the order of the text.
#[tactic(auto, using(au_syntax::proofs::TypeLemmas::type_steps, crate::proofs::MentionLemmas::written_steps, std::proofs::lemmas::Grind::common_steps))]
#[cycle(push_written)]
pub(crate) fn push_written<'a>(
    made: &mut Vec<Mention<'a>>,
    scope: &Scope,
    node: &'a TypeText,
) -> Result<(), Memory>
    ensures { OnOk result (mentions_said made.new.items
        ≡ mentions_said made.old.items ++ spec.written_mentions (sense_in scope.now) (written node.now)) }
{
    match node {
        TypeText::Named(name, args) => {
            push_named(made, scope, &name.name)?;
            push_all_written(made, scope, args)
        }
        TypeText::Reference(_, _, target, _) => push_written(made, scope, target),
    }
}

/// Puts what stands in written types.
#[cycle(push_written)]
fn push_all_written<'a>(
    made: &mut Vec<Mention<'a>>,
    scope: &Scope,
    nodes: &'a Vec<TypeText>,
) -> Result<(), Memory>
    ensures { OnOk result (mentions_said made.new.items
        ≡ mentions_said made.old.items
        ++ spec.all_written (sense_in scope.now) (written_all nodes.now.items)) }
{
    for one in nodes {
        push_written(made, scope, one)?;
    }
    Ok(())
}
