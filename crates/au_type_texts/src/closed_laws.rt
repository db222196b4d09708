//! Laws of closed types and of their texts.

ghost use Rattle.std.specs.Prelude.{◌≡◌, is_some, not};
ghost use Rattle.au_syntax.specs.Parts.{Each};
ghost use Rattle.au_types.specs.Types.{Meaning};
ghost use Rattle.au_type_texts.specs.Examples.{rows};
ghost use Rattle.au_type_texts.specs.Closing.{closed};
ghost use Rattle.au_type_texts.specs.ClosedExamples.{cases, closings, examples};
ghost use Rattle.au_type_texts.specs.Parameters.{has_parameter};
ghost use Rattle.au_type_texts.specs.ClosedSizes.{depth_limit, depth_of, nodes_limit, nodes_of};
ghost use Rattle.au_type_texts.specs.ClosedTexts.{text_of};
ghost use Rattle.au_type_texts.specs.ClosedTold.{ClosedTextsTell, HasRows};

/// A type closes exactly where no type parameter stands in it.
pub fn what_closes()
    ensures { (t : Meaning) → is_some (closed t) ≡ not (has_parameter t) }
{}

/// Two closed types with one text are one type, where each declared type in them has a row, and the texts of
/// the rows tell declarations apart.
pub fn closed_texts_tell()
    ensures { ClosedTextsTell }
{}

/// Types of each form close as it is written for them by hand, and closed types have the texts, the depths
/// and the nodes that are written for them by hand. The rows of the examples are there.
pub fn closed_examples_hold()
    ensures closings { Each (λ one. closed one.of ≡ one.to) closings }
    ensures stand { Each (λ one. HasRows rows one.of) examples }
    ensures texts { Each (λ one. text_of rows one.of ≡ one.says) examples }
    ensures depths { Each (λ one. depth_of one.of ≡ one.depth) examples }
    ensures nodes { Each (λ one. nodes_of one.of ≡ one.nodes) examples }
    ensures deep { Each (λ one. depth_limit one.of ≡ one.deep) cases }
    ensures large { Each (λ one. nodes_limit one.of ≡ one.large) cases }
{}
