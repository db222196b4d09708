//! Laws over the definitions alone.

ghost use Rattle.std.specs.Prelude.{◌≡◌, ◌⊎◌, ◌<◌, ◌-◌, ◌++◌, ℕ, List, Err, IsTrue, length, take};
ghost use Rattle.au_base.specs.declared.limits.Limit.{Limit};
ghost use Rattle.au_base.specs.declared.tokens.Token.{Token};
ghost use Rattle.au_parser.specs.Fronts.{IsFaultPlace};
ghost use Rattle.au_parser.specs.Measures.{measures, words_of};
ghost use Rattle.au_parser.specs.Passing.{Agree, KeepsLimits, PassesAt};
ghost use Rattle.au_parser.specs.ModuleReading.{file_at};
ghost use Rattle.au_read_expressions.specs.Bounds.{Bounds};
ghost use Rattle.au_read_expressions.specs.declared.faults.Fault.TheVariants.{Syntax, Passed};
ghost use Rattle.au_syntax.specs.Forms.{formed_module};
ghost use Rattle.au_syntax.specs.Plain.{PlainModule};
ghost use Rattle.au_syntax.specs.Words.{Spells, words};

/// Tokens are those of one tree at most, however large.
pub fn one_tree()
    ensures { (m u : PlainModule) → IsTrue (formed_module m) → IsTrue (formed_module u)
        → (tokens : List Token) → Spells m tokens → Spells u tokens → m ≡ u }
{}

/// Where the reader of files stops with a fault, the tokens before begin some file, those through it begin
/// none, and where none is left they are no file yet. And what has such a place is told with it, or with a
/// limit, which is passed before.
pub fn faults_are_where_no_file_goes_on()
    ensures syntax { (b : Bounds) (tokens : List Token) (left : ℕ) → file_at b tokens ≡ Err (Syntax left)
        → IsFaultPlace tokens (length tokens - left) }
    ensures told { (b : Bounds) (tokens : List Token) (place : ℕ) → IsFaultPlace tokens place
        → (file_at b tokens ≡ Err (Syntax (length tokens - place)))
        ⊎ ((l : Limit) × (left : ℕ) × (file_at b tokens ≡ Err (Passed l left))
        × ((at : ℕ) × PassesAt b tokens at l × (at < place))) }
{}

/// Tokens have one place of a fault at most.
pub fn one_place()
    ensures { (tokens : List Token) (a b : ℕ) → IsFaultPlace tokens a → IsFaultPlace tokens b → a ≡ b }
{}

/// The words that tell of limits are the words of the file, and what they tell depends on no token behind.
pub fn words_measure_as_they_come()
    ensures words { (m : PlainModule) → words_of (measures m) ≡ words m }
    ensures behind { (m u : PlainModule) (p c d : List Token) → IsTrue (formed_module m) → Spells m (p ++ c)
        → IsTrue (formed_module u) → Spells u (p ++ d) → Agree p (measures m) (measures u) }
{}

/// Where the reader of files tells a limit, some file passes it first, with a token, and this is told of
/// it. Where it stops with a fault, the tokens before begin some file and pass no limit in it. And a limit
/// that some file passes first, with a token of these, is told.
pub fn limits_are_told()
    ensures passed { (b : Bounds) (tokens : List Token) (l : Limit) (left : ℕ)
        → file_at b tokens ≡ Err (Passed l left) → (at : ℕ) × PassesAt b tokens at l }
    ensures kept { (b : Bounds) (tokens : List Token) (left : ℕ) → file_at b tokens ≡ Err (Syntax left)
        → KeepsLimits b (take (length tokens - left) tokens) }
    ensures told { (b : Bounds) (tokens : List Token) (at : ℕ) (l : Limit) → PassesAt b tokens at l
        → (left : ℕ) × (file_at b tokens ≡ Err (Passed l left)) }
{}

/// One limit is passed first, at one token.
pub fn one_limit()
    ensures { (b : Bounds) (tokens : List Token) (i j : ℕ) (l other : Limit) → PassesAt b tokens i l
        → PassesAt b tokens j other → (i ≡ j) × (l ≡ other) }
{}
