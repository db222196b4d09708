//! Fields as the meaning of a program sees them.

ghost use Rattle.au_judged_bodies.specs.Seen.{RecordsAreSeen, UnionsAreSeen};

/// The meaning sees the fields of records and of the cases of unions as the rules of typing know them.
pub fn fields_are_seen()
    ensures records { RecordsAreSeen }
    ensures unions { UnionsAreSeen }
{}
