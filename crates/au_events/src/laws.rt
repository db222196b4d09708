//! Laws of events, each as the contract of a call that does nothing.

ghost use Rattle.au_events.specs.Laws.{HomesGoOn, LivesEnd, LivesGoOn, OnceIsAtMostOnce, UsesGoOn};

/// Each id is born and consumed at most once as long as each further event fits; and once where each birth
/// has its end.
pub fn lives_go_on<B>()
    ensures on { LivesGoOn B }
    ensures ended { LivesEnd B }
    ensures once { OnceIsAtMostOnce B }
{}

/// Uses stay inside of their borrows as long as each further event fits.
pub fn uses_go_on<B>()
    ensures { UsesGoOn B }
{}

/// What has an owner is made in its own module as long as each further event fits.
pub fn homes_go_on<B>()
    ensures { HomesGoOn B }
{}
