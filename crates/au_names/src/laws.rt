//! Laws of the definitions.

ghost use Rattle.std.specs.Prelude.{◌≡◌, ◌++◌, ◌∷◌, [], ℕ, List, Some, map, slice_get};
ghost use Rattle.au_modules.specs.Programs.{ModuleParts};
ghost use Rattle.au_names.specs.HeadsOf.{counting, heads_of};
ghost use Rattle.au_names.specs.Meanings.{Means, seen};
ghost use Rattle.au_names.specs.Owned.{own};
ghost use Rattle.au_names.specs.Standing.{Standing, definition_of};
ghost use Rattle.au_names.specs.declared.targets.Target.{Target};
ghost use Rattle.au_syntax.specs.Plain.{Bytes, PlainDeclaration};
ghost use Rattle.au_syntax.specs.Types.{WrittenType};
ghost use Rattle.au_syntax.specs.declared.modules.Part.{Part as ThePart};
ghost use Rattle.au_types.specs.DeclaredNames.{table_of, type_names};
ghost use Rattle.au_types.specs.Tables.{find, firsts, with_all};
ghost use Rattle.au_types.specs.declared.spaces.Space.TheVariants as spaces;
ghost use Rattle.au_types.specs.declared.spaces.Space.{Space as TheSpace};
ghost use Rattle.au_types.specs.Rows.{head_of};
ghost use Rattle.au_types.specs.Types.{Arguments, named};
ghost use Rattle.au_types.specs.declared.headings.Head.{Head};
ghost use Rattle.au_types.specs.declared.parameters.Parameter.{Parameter};
ghost use Rattle.au_types.specs.declared.types.DeclAt.{DeclAt};
ghost use Rattle.au_types.specs.Meant.{meant};

/// What is found under a name it means, and something is found under a name that means something.
pub fn seen_is_meant()
    ensures meant { (program : List ModuleParts) (place : ℕ) (m : ModuleParts) (part : ThePart)
        (space : TheSpace) (name : Bytes) (meaning : Target)
        → find name (seen space program place m part) ≡ Some meaning
        → Means program place m part space name meaning }
    ensures found { (program : List ModuleParts) (place : ℕ) (m : ModuleParts) (part : ThePart)
        (space : TheSpace) (name : Bytes) (meaning : Target) → Means program place m part space name meaning
        → (first : Target) × (find name (seen space program place m part) ≡ Some first) }
{}

/// Pairs are put one list after another, and the first of each name as all of them.
pub fn puts_go_on<V>()
    ensures turns { (table pairs more : List (List ℕ × V))
        → with_all table (pairs ++ more) ≡ with_all (with_all table pairs) more }
    ensures firsts { (table pairs : List (List ℕ × V))
        → with_all table (firsts pairs) ≡ with_all table pairs }
{}

/// No two rows are of one declaration: at the declaration of each row that row's head is found.
pub fn rows_stand_once()
    ensures { (program : List ModuleParts) (index : ℕ) (row : DeclAt × Head)
        → slice_get (heads_of program) index ≡ Some row → head_of (heads_of program) row.0 ≡ Some row.1 }
{}

/// Of numbered declarations those count that stand in the table of the space of types, in its order.
pub fn those_of_the_table_count()
    ensures { (ds : List (ℕ × PlainDeclaration))
        → map (λ d. d.0) (counting ds) ≡ map (λ p. p.1) (table_of spaces.Types ds) }
{}

/// A declared type that a written type means has a row.
pub fn declared_types_have_rows()
    ensures { (opened : List Bytes) (params : List Parameter) (visible : List (Bytes × DeclAt))
        (heads : List (DeclAt × Head)) (t : WrittenType) (at : DeclAt) (args : Arguments)
        → meant opened params visible heads t ≡ Some (named at args)
        → (head : Head) × (head_of heads at ≡ Some head) }
{}

/// What defines a type has the type's name and stands in its module. So its constructor, its cases and its
/// fields are those of the type that this name means there, which for an opaque type has the number of the
/// interface's declaration.
pub fn definitions_have_the_names_of_their_types()
    ensures { (program : List ModuleParts) (place : ℕ) (m : ModuleParts) (name : Bytes) (meaning : Target)
        (d : Standing) → slice_get program place ≡ Some m
        → find name (own spaces.Types place m) ≡ Some meaning → definition_of program meaning.at ≡ Some d
        → (d.place ≡ place) × (type_names d.says ≡ name ∷ []) }
{}
