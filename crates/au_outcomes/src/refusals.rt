//! Refusals.

use au_base::{Entry, Pos};
use au_classes::ClassFault;
use au_imports::ImportFault;
use au_modules::ModuleFault;
use au_program_lives::LinearFault;
use au_rules::DeclFault;
use au_sights::TypeFault;

/// Why what the words ask for is refused.
#[derive(Debug, Drop)]
pub enum Refusal {
    /// The byte at this place begins no token.
    Byte(Pos),
    /// The token at this place stands where no file has it, or the file ends too early.
    Syntax(Pos),
    /// The files are not those of modules.
    Pair(ModuleFault),
    /// A name or a promise of the modules is not good.
    Import(ImportFault),
    /// A declaration is not good.
    Declaration(DeclFault),
    /// An instance is not good.
    Instance(ClassFault),
    /// A statement is not well typed.
    Typing(TypeFault),
    /// A variable has no good life.
    Linear(LinearFault),
    /// The program has no function or test of this name to begin with, or it hasn't the form of one.
    Entry(Entry),
}
