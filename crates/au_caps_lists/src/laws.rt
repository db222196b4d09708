//! Laws of the definitions.

ghost use Rattle.std.specs.Prelude.{◌≡◌, codes, false, true};
ghost use Rattle.au_base.specs.declared.places.Pos.{Pos};
ghost use Rattle.au_caps_lists.specs.Examples.{any, free, in_looped, in_maybe_boxed, looped, maybe_boxed};
ghost use Rattle.au_caps_lists.specs.Examples.{means};
ghost use Rattle.au_caps_lists.specs.Holding.{held_in_block};
ghost use Rattle.au_caps_lists.specs.Mentions.{mentions};
ghost use Rattle.au_caps_types.specs.Heads.{may_stand};
ghost use Rattle.au_syntax.specs.declared.statements.Binding.{Binding};
ghost use Rattle.au_typing.specs.Notes.{NotedExpression};

/// What stands in types, and in those of variables, is what was worked out by hand.
pub fn examples_hold()
    ensures types { mentions maybe_boxed ≡ in_maybe_boxed }
    ensures kept { may_stand any (codes "T") ≡ true }
    ensures free { may_stand free (codes "T") ≡ false }
    ensures variables { (at : Pos) (binding : Binding) (e : NotedExpression)
        → held_in_block means (looped at binding e) ≡ in_looped }
{}
