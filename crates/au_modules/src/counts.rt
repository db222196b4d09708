//! How many files and declarations there are, so that places and numbers fit.

ghost use Rattle.std.specs.Prelude.{◌≡◌, map};
ghost use Rattle.std.specs.List.{list_all};
ghost use Rattle.au_modules.specs.Counts as spec;
ghost use Rattle.au_modules.specs.Programs.{entry};

use au_syntax::FileTree;

/// The most files of a program, those that are shipped among them.
pub const MOST_FILES: usize = 132;

/// The most declarations of a file: it has no more of them than tokens.
pub const MOST_DECLARATIONS: usize = 262_144;

/// Whether a file has no more declarations than it may have.
fn has_few(file: &FileTree) -> bool
    ensures { result ≡ spec.has_few (entry file.now) }
{
    file.tree.tree().declarations.len() <= MOST_DECLARATIONS
}

/// Whether each of these files has no more declarations than it may have.
fn have_few(files: &Vec<FileTree>) -> bool
    ensures { result ≡ list_all spec.has_few (map entry files.now.items) }
{
    for one in files {
        if !has_few(one) {
            return false;
        }
    }
    true
}

/// Whether files are as few as those of a program, and the declarations in each too.
pub fn are_few(files: &Vec<FileTree>) -> bool
    ensures { result ≡ spec.are_few (map entry files.now.items) }
{
    files.len() <= MOST_FILES && have_few(files)
}
