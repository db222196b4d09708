//! Laws of the definitions.

ghost use Rattle.std.specs.Prelude.{◌≡◌, ℕ, List, [], ◌∷◌, Option, None, is_some, map, codes};
ghost use Rattle.au_base.specs.declared.kinds.IntKind.{IntKind};
ghost use Rattle.au_syntax.specs.declared.modules.Part.TheVariants.{Interface};
ghost use Rattle.au_syntax.specs.Plain.{Bytes, PlainModule};
ghost use Rattle.au_syntax.specs.Sizes.{joined};
ghost use Rattle.au_shipped.specs.Calls.{calls, prim_of, names_in};
ghost use Rattle.au_shipped.specs.Shipped.{shipped_calls, shipped_files, is_shipped};

/// The tables of calls have the functions and methods of the shipped interfaces, in the same order.
pub fn tables_are_the_interfaces()
    ensures { (of : Option IntKind) → map names_in (calls of) ≡ shipped_calls }
{}

/// Each function and method of the shipped interfaces is a shipped call, and nothing else is one.
pub fn only_shipped_calls_are_known()
    ensures { (home call : Bytes) (of : Option IntKind)
        → is_some (prim_of home call of) ≡ is_shipped home call }
{}

/// The shipped files are interfaces of the four shipped modules, in order, which import nothing and have
/// no pragma.
pub fn shipped_are_four_interfaces()
    ensures names { map (λ (file : ℕ × PlainModule). joined file.1.name) shipped_files
        ≡ codes "Austral.Pervasive" ∷ codes "Standard.Box" ∷ codes "Standard.Buffer"
        ∷ codes "Standard.IO.Terminal" ∷ [] }
    ensures parts { map (λ (file : ℕ × PlainModule). file.1.part) shipped_files
        ≡ Interface ∷ Interface ∷ Interface ∷ Interface ∷ [] }
    ensures imports { map (λ (file : ℕ × PlainModule). file.1.imports) shipped_files
        ≡ [] ∷ [] ∷ [] ∷ [] ∷ [] }
    ensures pragmas { map (λ (file : ℕ × PlainModule). file.1.pragma) shipped_files
        ≡ None ∷ None ∷ None ∷ None ∷ [] }
{}
