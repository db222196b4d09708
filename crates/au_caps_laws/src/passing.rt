//! The law of what calls are passed, whatever they do, and of what functions return.

ghost use Rattle.au_caps_laws.specs.Passing.{AcceptedCallsAreListed};

/// In each run of an accepted program whatever a function or method passes to a call, be it one of a function
/// or a method, a shipped one, or one that makes a value of a case, is of types that reach only what the
/// report says that it hands on, or what is given for its type parameters reaches; what is passed to a
/// function or method is of types that it holds so; and what it returns is of a type that it hands on so.
pub fn what_is_passed_is_held()
    ensures { AcceptedCallsAreListed }
{}
