//! Laws of the texts of types, of their depth and of their nodes.

ghost use Rattle.std.specs.Prelude.{◌≡◌};
ghost use Rattle.au_syntax.specs.Parts.{Each};
ghost use Rattle.au_type_texts.specs.Examples.{cases, examples, rows};
ghost use Rattle.au_type_texts.specs.Sizes.{depth_limit, depth_of, nodes_limit, nodes_of};
ghost use Rattle.au_type_texts.specs.Texts.{text_of};
ghost use Rattle.au_type_texts.specs.Told.{AreTold, Stands, TextsTell};
ghost use Rattle.au_type_texts.specs.Written.{SizesAreWritten};

/// Two types with one text are one type, where both stand over rows of which the texts tell declarations
/// apart.
pub fn texts_tell()
    ensures { TextsTell }
{}

/// The type that a written type means is as deep as the written one, and has as many nodes.
pub fn sizes_are_written()
    ensures { SizesAreWritten }
{}

/// Types of each form have the texts, the depths and the nodes that are written for them by hand, and types
/// at the limits pass them exactly where it is written. The rows of the examples tell declarations apart,
/// and the types stand over them.
pub fn examples_hold()
    ensures told { AreTold rows }
    ensures stand { Each (λ one. Stands rows one.of) examples }
    ensures texts { Each (λ one. text_of rows one.of ≡ one.says) examples }
    ensures depths { Each (λ one. depth_of one.of ≡ one.depth) examples }
    ensures nodes { Each (λ one. nodes_of one.of ≡ one.nodes) examples }
    ensures deep { Each (λ one. depth_limit one.of ≡ one.deep) cases }
    ensures large { Each (λ one. nodes_limit one.of ≡ one.large) cases }
{}
