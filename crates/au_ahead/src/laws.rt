//! Laws of lives by structure, each as the contract of a call that does nothing.

ghost use Rattle.au_ahead.specs.Laws.{ActionsAreReady, GoodLivesAreAhead, PartsMayBeSkipped, StepsAreReady};

/// A variable with a good life gets through what lies ahead of it.
pub fn good_lives_are_ahead()
    ensures { GoodLivesAreAhead }
{}

/// What a step asks of a variable is what each action in it asks, one after another.
pub fn steps_are_ready()
    ensures steps { StepsAreReady }
    ensures actions { ActionsAreReady }
    ensures parts { PartsMayBeSkipped }
{}
