//! Laws of judging: it says no more and no less than what is meant and what is well formed.

ghost use Rattle.std.specs.Prelude.{◌≡◌, ◌↔◌, List, Some};
ghost use Rattle.au_syntax.specs.Plain.{Bytes};
ghost use Rattle.au_syntax.specs.Types.{WrittenType};
ghost use Rattle.au_types.specs.declared.headings.Head.{Head};
ghost use Rattle.au_types.specs.declared.parameters.Parameter.{Parameter};
ghost use Rattle.au_types.specs.declared.types.DeclAt.{DeclAt};
ghost use Rattle.au_types.specs.declared.types.Region.{Region};
ghost use Rattle.au_types.specs.Types.{Meaning};
ghost use Rattle.au_matching.specs.Forming.{IsWellFormed};
ghost use Rattle.au_types.specs.Meant.{meant, region_meant};
ghost use Rattle.au_judged_types.specs.Agreement.{found, only_formed};
ghost use Rattle.au_judged_types.specs.Judging.{judged, region_judged};
ghost use Rattle.au_judged_types.specs.Reasons.{means};

/// A written type is judged to mean a type exactly where it means this type and the type is well formed, and
/// a region exactly where it means this region. So what is meant is what is judged, with the reasons and the
/// universes forgotten.
pub fn what_is_judged_is_meant()
    ensures types { (opened : List Bytes) (params : List Parameter) (visible : List (Bytes × DeclAt))
        (heads : List (DeclAt × Head)) (w : WrittenType) (t : Meaning)
        → (judged opened params visible heads w ≡ means t)
        ↔ ((meant opened params visible heads w ≡ Some t) × IsWellFormed heads params t) }
    ensures regions { (opened : List Bytes) (params : List Parameter) (visible : List (Bytes × DeclAt))
        (heads : List (DeclAt × Head)) (w : WrittenType) (r : Region)
        → (region_judged opened params visible heads w ≡ means r)
        ↔ (region_meant opened params visible heads w ≡ Some r) }
    ensures reasons { (opened : List Bytes) (params : List Parameter) (visible : List (Bytes × DeclAt))
        (heads : List (DeclAt × Head)) (w : WrittenType)
        → found (judged opened params visible heads w)
        ≡ only_formed heads params (meant opened params visible heads w) }
{}
