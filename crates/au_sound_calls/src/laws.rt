//! Laws of shipped calls, each as the contract of a call that does nothing.

ghost use Rattle.std.specs.Prelude.{ℕ, List, Option};
ghost use Rattle.au_effects.specs.Worlds.{World};
ghost use Rattle.au_types.specs.Types.{Meaning};
ghost use Rattle.au_memory.specs.Forests.{Holds, Made};
ghost use Rattle.au_memory.specs.Loans.{Types};
ghost use Rattle.au_borrows.specs.Orders.{Act};
ghost use Rattle.au_borrows.specs.Told.{Open};
ghost use Rattle.au_sound_calls.specs.Boxing.{GetsContents, LendsContents, MakesBoxes, Swaps, Unboxes};
ghost use Rattle.au_sound_calls.specs.Buffering.{CopiesElements, EndsBuffers, HaveLengths, Inserts};
ghost use Rattle.au_sound_calls.specs.Buffering.{MakesBuffers, Removes, Replaces};
ghost use Rattle.au_sound_calls.specs.Granting.{AcquiresTerminals, ReadsBytes, ReleasesTerminals};
ghost use Rattle.au_sound_calls.specs.Granting.{SurrendersRoots, WritesBytes};
ghost use Rattle.au_sound_calls.specs.Operating.{Compares, ComparesTruths, Computes, Converts, Negates};
ghost use Rattle.au_sound_calls.specs.Operating.{Wraps};
ghost use Rattle.au_sound_calls.specs.Printing.{Aborts, PrintsNumbers, PrintsTexts, PrintsTruths};
ghost use Rattle.au_sound_calls.specs.Printing.{SpansHaveLengths};

/// Texts, truth values and numbers are printed, a call of `abort` aborts, and a text has a length.
pub fn printing_goes_well<B>()
    ensures texts { (types : Types) (owner : B → Option (List ℕ)) (acts : List Act) (hold : Holds)
        (names : ℕ → ℕ → Meaning) (under : Made) (lying : List Open) (sizes : List ℕ) (w : World (List ℕ) B)
        → PrintsTexts B types owner acts hold names under lying sizes w }
    ensures truths { (types : Types) (owner : B → Option (List ℕ)) (acts : List Act) (hold : Holds)
        (names : ℕ → ℕ → Meaning) (under : Made) (lying : List Open) (sizes : List ℕ) (w : World (List ℕ) B)
        → PrintsTruths B types owner acts hold names under lying sizes w }
    ensures numbers { (types : Types) (owner : B → Option (List ℕ)) (acts : List Act) (hold : Holds)
        (names : ℕ → ℕ → Meaning) (under : Made) (lying : List Open) (sizes : List ℕ) (w : World (List ℕ) B)
        → PrintsNumbers B types owner acts hold names under lying sizes w }
    ensures aborted { (types : Types) (owner : B → Option (List ℕ)) (acts : List Act) (hold : Holds)
        (names : ℕ → ℕ → Meaning) (under : Made) (lying : List Open) (sizes : List ℕ) (w : World (List ℕ) B)
        → Aborts B types owner acts hold names under lying sizes w }
    ensures spans { (types : Types) (owner : B → Option (List ℕ)) (acts : List Act) (hold : Holds)
        (names : ℕ → ℕ → Meaning) (under : Made) (lying : List Open) (sizes : List ℕ) (w : World (List ℕ) B)
        → SpansHaveLengths B types owner acts hold names under lying sizes w }
{}

/// What stands behind references is exchanged, boxes are made and opened, and contents are reached.
pub fn boxes_go_well<B>()
    ensures swapped { (types : Types) (owner : B → Option (List ℕ)) (acts : List Act) (hold : Holds)
        (names : ℕ → ℕ → Meaning) (under : Made) (lying : List Open) (sizes : List ℕ) (w : World (List ℕ) B)
        → Swaps B types owner acts hold names under lying sizes w }
    ensures made { (types : Types) (owner : B → Option (List ℕ)) (acts : List Act) (hold : Holds)
        (names : ℕ → ℕ → Meaning) (under : Made) (lying : List Open) (sizes : List ℕ) (w : World (List ℕ) B)
        → MakesBoxes B types owner acts hold names under lying sizes w }
    ensures opened { (types : Types) (owner : B → Option (List ℕ)) (acts : List Act) (hold : Holds)
        (names : ℕ → ℕ → Meaning) (under : Made) (lying : List Open) (sizes : List ℕ) (w : World (List ℕ) B)
        → Unboxes B types owner acts hold names under lying sizes w }
    ensures got { (types : Types) (owner : B → Option (List ℕ)) (acts : List Act) (hold : Holds)
        (names : ℕ → ℕ → Meaning) (under : Made) (lying : List Open) (sizes : List ℕ) (w : World (List ℕ) B)
        → GetsContents B types owner acts hold names under lying sizes w }
    ensures lent { (types : Types) (owner : B → Option (List ℕ)) (acts : List Act) (hold : Holds)
        (names : ℕ → ℕ → Meaning) (under : Made) (lying : List Open) (sizes : List ℕ) (w : World (List ℕ) B)
        → LendsContents B types owner acts hold names under lying sizes w }
{}

/// Buffers are made and end, and elements are counted, put, taken, copied and exchanged.
pub fn buffers_go_well<B>()
    ensures made { (types : Types) (owner : B → Option (List ℕ)) (acts : List Act) (hold : Holds)
        (names : ℕ → ℕ → Meaning) (under : Made) (lying : List Open) (sizes : List ℕ) (w : World (List ℕ) B)
        → MakesBuffers B types owner acts hold names under lying sizes w }
    ensures ended { (types : Types) (owner : B → Option (List ℕ)) (acts : List Act) (hold : Holds)
        (names : ℕ → ℕ → Meaning) (under : Made) (lying : List Open) (sizes : List ℕ) (w : World (List ℕ) B)
        → EndsBuffers B types owner acts hold names under lying sizes w }
    ensures counted { (types : Types) (owner : B → Option (List ℕ)) (acts : List Act) (hold : Holds)
        (names : ℕ → ℕ → Meaning) (under : Made) (lying : List Open) (sizes : List ℕ) (w : World (List ℕ) B)
        → HaveLengths B types owner acts hold names under lying sizes w }
    ensures inserted { (types : Types) (owner : B → Option (List ℕ)) (acts : List Act) (hold : Holds)
        (names : ℕ → ℕ → Meaning) (under : Made) (lying : List Open) (sizes : List ℕ) (w : World (List ℕ) B)
        → Inserts B types owner acts hold names under lying sizes w }
    ensures removed { (types : Types) (owner : B → Option (List ℕ)) (acts : List Act) (hold : Holds)
        (names : ℕ → ℕ → Meaning) (under : Made) (lying : List Open) (sizes : List ℕ) (w : World (List ℕ) B)
        → Removes B types owner acts hold names under lying sizes w }
    ensures copied { (types : Types) (owner : B → Option (List ℕ)) (acts : List Act) (hold : Holds)
        (names : ℕ → ℕ → Meaning) (under : Made) (lying : List Open) (sizes : List ℕ) (w : World (List ℕ) B)
        → CopiesElements B types owner acts hold names under lying sizes w }
    ensures replaced { (types : Types) (owner : B → Option (List ℕ)) (acts : List Act) (hold : Holds)
        (names : ℕ → ℕ → Meaning) (under : Made) (lying : List Open) (sizes : List ℕ) (w : World (List ℕ) B)
        → Replaces B types owner acts hold names under lying sizes w }
{}

/// The root is surrendered, terminals are acquired and released, and bytes are written and read.
pub fn grants_go_well<B>()
    ensures surrendered { (types : Types) (owner : B → Option (List ℕ)) (acts : List Act) (hold : Holds)
        (names : ℕ → ℕ → Meaning) (under : Made) (lying : List Open) (sizes : List ℕ) (w : World (List ℕ) B)
        → SurrendersRoots B types owner acts hold names under lying sizes w }
    ensures acquired { (types : Types) (owner : B → Option (List ℕ)) (acts : List Act) (hold : Holds)
        (names : ℕ → ℕ → Meaning) (under : Made) (lying : List Open) (sizes : List ℕ) (w : World (List ℕ) B)
        → AcquiresTerminals B types owner acts hold names under lying sizes w }
    ensures released { (types : Types) (owner : B → Option (List ℕ)) (acts : List Act) (hold : Holds)
        (names : ℕ → ℕ → Meaning) (under : Made) (lying : List Open) (sizes : List ℕ) (w : World (List ℕ) B)
        → ReleasesTerminals B types owner acts hold names under lying sizes w }
    ensures written { (types : Types) (owner : B → Option (List ℕ)) (acts : List Act) (hold : Holds)
        (names : ℕ → ℕ → Meaning) (under : Made) (lying : List Open) (sizes : List ℕ) (w : World (List ℕ) B)
        → WritesBytes B types owner acts hold names under lying sizes w }
    ensures read { (types : Types) (owner : B → Option (List ℕ)) (acts : List Act) (hold : Holds)
        (names : ℕ → ℕ → Meaning) (under : Made) (lying : List Open) (sizes : List ℕ) (w : World (List ℕ) B)
        → ReadsBytes B types owner acts hold names under lying sizes w }
{}

/// Numbers are computed with, wrapped, compared and converted, and truth values are compared and negated.
pub fn operations_come_well<B>()
    ensures computed { (types : Types) (owner : B → Option (List ℕ)) (acts : List Act) (hold : Holds)
        (names : ℕ → ℕ → Meaning) (under : Made) (lying : List Open) (sizes : List ℕ) (w : World (List ℕ) B)
        → Computes B types owner acts hold names under lying sizes w }
    ensures wrapped { (types : Types) (owner : B → Option (List ℕ)) (acts : List Act) (hold : Holds)
        (names : ℕ → ℕ → Meaning) (under : Made) (lying : List Open) (sizes : List ℕ) (w : World (List ℕ) B)
        → Wraps B types owner acts hold names under lying sizes w }
    ensures compared { (types : Types) (owner : B → Option (List ℕ)) (acts : List Act) (hold : Holds)
        (names : ℕ → ℕ → Meaning) (under : Made) (lying : List Open) (sizes : List ℕ) (w : World (List ℕ) B)
        → Compares B types owner acts hold names under lying sizes w }
    ensures truths { (types : Types) (owner : B → Option (List ℕ)) (acts : List Act) (hold : Holds)
        (names : ℕ → ℕ → Meaning) (under : Made) (lying : List Open) (sizes : List ℕ) (w : World (List ℕ) B)
        → ComparesTruths B types owner acts hold names under lying sizes w }
    ensures negated { (types : Types) (owner : B → Option (List ℕ)) (acts : List Act) (hold : Holds)
        (names : ℕ → ℕ → Meaning) (under : Made) (lying : List Open) (sizes : List ℕ) (w : World (List ℕ) B)
        → Negates B types owner acts hold names under lying sizes w }
    ensures converted { (types : Types) (owner : B → Option (List ℕ)) (acts : List Act) (hold : Holds)
        (names : ℕ → ℕ → Meaning) (under : Made) (lying : List Open) (sizes : List ℕ) (w : World (List ℕ) B)
        → Converts B types owner acts hold names under lying sizes w }
{}
