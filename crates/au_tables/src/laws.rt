//! Laws of the types of a program, each as the contract of a call that does nothing.

ghost use Rattle.std.specs.Prelude.{List};
ghost use Rattle.au_modules.specs.Programs.{ModuleParts};
ghost use Rattle.au_tables.specs.Laws.{FieldsRun, FormsAreAlone, TypesAreDeclared, TypesAreLawful};

/// Only declared types have forms, and each form is its own.
pub fn forms_are_alone()
    ensures declared { (program : List ModuleParts) → TypesAreDeclared program }
    ensures alone { (program : List ModuleParts) → FormsAreAlone program }
{}

/// Fields of Free types are Free, and what has births isn't.
pub fn types_are_lawful()
    ensures { (program : List ModuleParts) → TypesAreLawful program }
{}

/// The fields of a type where it runs are those of the written type where they run.
pub fn fields_run()
    ensures { (program : List ModuleParts) → FieldsRun program }
{}
