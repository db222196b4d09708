//! Modules with notes.

use au_base::Name;
use au_sights::Noted;
use au_syntax::Module;

/// A file with notes.
#[derive(Drop)]
pub struct NotedFile {
    /// The number that places name the file by.
    pub file: u16,
    /// What it holds, with a note at each expression.
    pub tree: Module<Noted>,
}

/// A module with notes.
#[derive(Drop)]
pub struct NotedModule {
    /// Its name.
    pub name: Name,
    /// Its interface, if it has one.
    pub interface: Option<NotedFile>,
    /// Its body, if it has one.
    pub body: Option<NotedFile>,
}
