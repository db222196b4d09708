//! Laws of programs that are gathered of the shipped files and of parsed ones.

ghost use Rattle.std.specs.Prelude.{◌≡◌, ◌∷◌, [], ℕ, Contains, List, Some};
ghost use Rattle.au_base.specs.Outside.{Files};
ghost use Rattle.au_classes.specs.Good.{InstancesAreGood};
ghost use Rattle.au_classes.specs.Rows.{rows_of};
ghost use Rattle.au_type_texts.specs.Types.{ClosedType};
ghost use Rattle.au_closing.specs.Bodies.{BodyOf, body_of};
ghost use Rattle.au_closing.specs.Closes.{calls_of};
ghost use Rattle.au_closing.specs.Instances.{Instance as InstanceSeen, same_instance};
ghost use Rattle.au_closing.specs.Leading.{a_method, call_leads, called_standing, method_by_row};
ghost use Rattle.au_closing_laws.specs.Calls.{put_for};
ghost use Rattle.au_closing_laws.specs.Gathered.{IsGathered};
ghost use Rattle.au_closing_laws.specs.Premises.{AreOfParts, FunctionsAreShipped, MethodsAreThere};
ghost use Rattle.au_closing_laws.specs.Premises.{PutTypesStand};
ghost use Rattle.au_closing_laws.specs.Resolved.{IsTheInstance, Resolves};
ghost use Rattle.au_closing_laws.specs.Sound.{IsSomewhere};
ghost use Rattle.au_closing_laws.specs.Standing.{FieldsStand, OwnTypesStand, SeenStands};
ghost use Rattle.au_closing_laws.specs.Targets.{Call, IsEntry, IsTyped, calls_listed};
ghost use Rattle.au_typing.specs.Trees.{NotedParts};
ghost use Rattle.au_type_texts.specs.Given.{Given, closed_under};
ghost use Rattle.au_imports.specs.Good.{AllNamesAreGood};
ghost use Rattle.au_instances.specs.Rows.{Row as RowSeen};
ghost use Rattle.au_instances.specs.Tables.{IsTable};
ghost use Rattle.au_modules.specs.Programs.{ModuleParts};
ghost use Rattle.au_names.specs.Standing.{standing_at};
ghost use Rattle.au_names.specs.declared.targets.Target.{Target as TargetSeen};
ghost use Rattle.au_accepted.specs.Faults.{IsDerived};
ghost use Rattle.au_accepted.specs.Accepted.{AreAcceptedAs};
ghost use Rattle.au_accepted.specs.Programs.{program_modules};
ghost use Rattle.au_accepted.specs.Trees.{ReadFile};
ghost use Rattle.au_typing.specs.Written.{seen_at};
ghost use Rattle.au_promises.specs.Fulfilled.{AllFulfil};
ghost use Rattle.au_graphs.specs.Reached.{Reached};
ghost use Rattle.au_rules.specs.Good.{AllDeclarationsAreGood};
ghost use Rattle.au_syntax.specs.Plain.{Bytes};
ghost use Rattle.au_syntax.specs.declared.modules.Part.TheVariants.{Body};
ghost use Rattle.au_types.specs.Tables as tables;
ghost use Rattle.au_types.specs.declared.spaces.Space.TheVariants.{Callables};
ghost use Rattle.au_types.specs.declared.types.DeclAt.{DeclAt};
ghost use Rattle.au_typing.specs.Notes.{Note};

/// The modules of accepted files are gathered of the shipped files and of files of the user's that were
/// parsed.
pub fn accepted_programs_are_gathered()
    ensures { (files : Files) (names all : List (List ℕ)) (reads : List ReadFile)
        → AreAcceptedAs files names all reads
        → IsGathered (program_modules reads) }
{}

/// In a gathered program each declaration is one that its part may have, and each function of a module that
/// has no body is a shipped call.
pub fn gathered_declarations_are_known()
    ensures parts { (program : List ModuleParts) → IsGathered program → AreOfParts program }
    ensures functions { (program : List ModuleParts) → IsGathered program → FunctionsAreShipped program }
{}

/// In a gathered program that is derived, of which declarations and instances are good and each body fulfils
/// its interface, each row that gives a class at a closed type has each method of the class there: it is
/// shipped, or its body is there.
pub fn rows_have_the_methods_of_their_classes()
    ensures { (program : List ModuleParts) (noted : List NotedParts)
        → IsDerived program noted
        → AllDeclarationsAreGood program
        → InstancesAreGood program
        → AllFulfil program
        → IsGathered program
        → MethodsAreThere program noted }
{}

/// What each call in a derived program puts for a type parameter stands over those in scope, where what the
/// bodies of modules see outside of functions stands: so it does in a gathered program of which the names and
/// declarations are good and each body fulfils its interface.
pub fn types_that_calls_put_stand()
    ensures put { (program : List ModuleParts) (noted : List NotedParts)
        → IsDerived program noted
        → AllDeclarationsAreGood program
        → SeenStands program
        → PutTypesStand program noted }
    ensures seen { (program : List ModuleParts)
        → IsGathered program
        → AllNamesAreGood program
        → AllDeclarationsAreGood program
        → AllFulfil program
        → SeenStands program }
{}

/// In a gathered program, of which the names are good and each body fulfils its interface, the fields of a
/// type that stands over type parameters stand over them.
pub fn fields_of_types_stand()
    ensures { (program : List ModuleParts)
        → IsGathered program
        → AllNamesAreGood program
        → AllFulfil program
        → FieldsStand program }
{}

/// In a gathered program, of which the names and declarations are good and each body fulfils its interface,
/// the type of each record and union stands over its own type parameters: no two of these have one name, and
/// its name leads to the declaration itself or to the opaque type that it defines, of which the row has the
/// same type parameters.
pub fn own_types_stand()
    ensures { (program : List ModuleParts)
        → IsGathered program
        → AllNamesAreGood program
        → AllDeclarationsAreGood program
        → AllFulfil program
        → OwnTypesStand program }
{}

/// A method of a class at a closed type leads to that of the one instance of the class there, by the rule of
/// instances, and to nothing where the class has none. So a call of a name that means a method leads to that
/// of the one instance at what stands for the class's parameter.
pub fn methods_lead_by_the_rule_of_instances()
    ensures classes { (program : List ModuleParts)
        → IsTable (rows_of program)
        → (class : DeclAt) (name : Bytes) (t : ClosedType)
        → Resolves program class name t }
    ensures calls { (program : List ModuleParts)
        → IsTable (rows_of program)
        → (place : ℕ) (given : Given) (note : Note) (name method param : Bytes) (target : TargetSeen)
        → tables.find name (seen_at Callables program place Body) ≡ Some target
        → called_standing target.name (standing_at program target.at) ≡ Some (a_method method param)
        → (row : RowSeen)
        → IsTheInstance program target.at (closed_under given (put_for note param)) row
        → call_leads program place given note name
        ≡ method_by_row program method (closed_under given (put_for note param)) row }
{}

/// Each call of each instance that is reached from an entry of an accepted program leads somewhere: its calls
/// are typed.
pub fn calls_of_accepted_programs_lead_somewhere()
    ensures typed { (files : Files) (names all : List (List ℕ)) (reads : List ReadFile)
        (accepted : AreAcceptedAs files names all reads)
        → IsTyped (program_modules reads) accepted.noted }
    ensures calls { (files : Files) (names all : List (List ℕ)) (reads : List ReadFile)
        (accepted : AreAcceptedAs files names all reads)
        → (entry : InstanceSeen)
        → IsEntry (program_modules reads) accepted.noted entry
        → (one : InstanceSeen)
        → Reached same_instance (calls_of (program_modules reads) accepted.noted) (entry ∷ []) one
        → (body : BodyOf)
        → body_of (program_modules reads) accepted.noted one.of ≡ Some body
        → (call : Call)
        → Contains (calls_listed body.block) call
        → IsSomewhere (program_modules reads) accepted.noted
        (call_leads (program_modules reads) body.place one.given call.0 call.1) }
{}
