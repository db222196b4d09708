//! The laws of the walk that lists what is reached.

ghost use Rattle.std.specs.Prelude.{◌≡◌, ℕ, Bool, List, Option, Ok, Err};
ghost use Rattle.au_graphs.specs.Reached.{Lists, TellsSame};
ghost use Rattle.au_graphs.specs.Walks.{IsWithin, Refused, listed};

/// A list that the walk gives is that of what is reached from the starts, breadth first, and passes no limit.
pub fn a_walk_lists<A, W>()
    ensures { (same : A → A → Bool) (over : A → Option W) (full : W) (most : ℕ)
        (next : A → List A) (starts ks : List A)
        → TellsSame same
        → listed same over full most next starts ≡ Ok ks
        → Lists same next starts ks × IsWithin same over most ks }
{}

/// Where the list of what is reached from the starts passes no limit, the walk gives it.
pub fn a_walk_finds<A, W>()
    ensures { (same : A → A → Bool) (over : A → Option W) (full : W) (most : ℕ)
        (next : A → List A) (starts ks : List A)
        → TellsSame same
        → Lists same next starts ks
        → IsWithin same over most ks
        → listed same over full most next starts ≡ Ok ks }
{}

/// Where the walk gives no list, it says what is wrong with the first element that passes a limit.
pub fn a_walk_refuses<A, W>()
    ensures { (same : A → A → Bool) (over : A → Option W) (full : W) (most : ℕ)
        (next : A → List A) (starts : List A) (w : W)
        → TellsSame same
        → listed same over full most next starts ≡ Err w
        → Refused same over full most next starts w }
{}

/// There is one list of what is reached from the starts.
pub fn there_is_one_list<A>()
    ensures { (same : A → A → Bool) (next : A → List A) (starts ks others : List A)
        → TellsSame same
        → Lists same next starts ks
        → Lists same next starts others
        → ks ≡ others }
{}
