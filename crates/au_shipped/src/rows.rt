//! The declarations of a shipped interface as rows of a table.

use au_syntax::Universe;

/// A type that isn't a reference.
pub(crate) enum Shape {
    /// `NAME`
    Simple(&'static [u8]),
    /// `NAME[TYPE]`
    Applied(&'static [u8], &'static [u8]),
    /// `NAME[TYPE, TYPE]`
    AppliedToTwo(&'static [u8], &'static [u8], &'static [u8]),
}

/// A type.
pub(crate) enum Form {
    /// `TYPE`
    Plain(Shape),
    /// `&[TYPE, R]`
    Reads(Shape),
    /// `&![TYPE, R]`
    Writes(Shape),
}

/// `NAME: TYPE`, a parameter or a field.
pub(crate) struct Takes {
    pub(crate) name: &'static [u8],
    pub(crate) of: Form,
}

/// `NAME: UNIVERSE`, a type parameter.
pub(crate) struct Over {
    pub(crate) name: &'static [u8],
    pub(crate) universe: Universe,
}

/// `case NAME is FIELD ..`
pub(crate) struct Case {
    pub(crate) name: &'static [u8],
    pub(crate) fields: &'static [Takes],
}

/// `NAME(PARAMETER, ..): TYPE`
pub(crate) struct Call {
    pub(crate) name: &'static [u8],
    pub(crate) parameters: &'static [Takes],
    pub(crate) gives: Form,
}

/// A declaration.
pub(crate) enum Row {
    /// `type NAME[PARAMETER, ..]: UNIVERSE;`
    Opaque(&'static [u8], &'static [Over], Universe),
    /// `union NAME[PARAMETER, ..]: UNIVERSE is CASE .. end;`
    Union(&'static [u8], &'static [Over], Universe, &'static [Case]),
    /// `generic [PARAMETER, ..] function NAME(PARAMETER, ..): TYPE;`
    Function(&'static [Over], Call),
    /// `typeclass NAME(PARAMETER) is method SIGNATURE; .. end;`
    Class(&'static [u8], Over, &'static [Call]),
    /// `instance NAME(TYPE);`
    Instance(&'static [u8], Shape),
}
