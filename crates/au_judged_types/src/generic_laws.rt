//! Laws of what type parameters mean.

ghost use Rattle.std.specs.Prelude.{◌≡◌, List, Some, codes, false, map, true};
ghost use Rattle.au_judged_types.specs.Bounds.{Bounded, constrains, parameters};
ghost use Rattle.au_judged_types.specs.declared.reading.Meant.TheVariants.{Are};
ghost use Rattle.au_judged_types.specs.Examples.{examples, ordered, rows, seen, two};
ghost use Rattle.au_judged_types.specs.Meanings.{class_meant, generics_meant, named_classes, written_params};
ghost use Rattle.au_syntax.specs.Modules.{Constrained};
ghost use Rattle.au_syntax.specs.Parts.{Each};
ghost use Rattle.au_syntax.specs.Plain.{Bytes};
ghost use Rattle.au_types.specs.declared.headings.Head.{Head};
ghost use Rattle.au_types.specs.declared.types.DeclAt.{DeclAt};

/// Type parameters that mean something have the names and the universes that are written.
pub fn parameters_are_as_written()
    ensures { (visible : List (Bytes × DeclAt)) (heads : List (DeclAt × Head))
        (written : List (Constrained Bytes)) (generics : List Bounded)
        → generics_meant visible heads written ≡ Are generics
        → parameters generics ≡ written_params written }
{}

/// Type parameters that mean something have a class for each name in their constraints, in order: the one
/// that the name means.
pub fn constraints_are_kept()
    ensures { (visible : List (Bytes × DeclAt)) (heads : List (DeclAt × Head))
        (written : List (Constrained Bytes)) (generics : List Bounded)
        → generics_meant visible heads written ≡ Are generics
        → map (λ g. map Some g.classes) generics
        ≡ named_classes (class_meant (written_params written) visible heads) written }
{}

/// A few lists of type parameters mean what is written for them by hand, and classes constrain those type
/// parameters alone that have them.
pub fn examples_hold()
    ensures meant { Each (λ one. generics_meant seen rows one.written ≡ one.means) examples }
    ensures first { constrains two (codes "T") ordered ≡ true }
    ensures second { constrains two (codes "R") ordered ≡ false }
    ensures none { constrains two (codes "U") ordered ≡ false }
{}
