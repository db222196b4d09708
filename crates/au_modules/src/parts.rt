//! Which part of which module a file gives.

ghost use Rattle.std.specs.Prelude.{◌≡◌, ◌<◌, IfOk, length};
ghost use Rattle.std.specs.List.{flat_map};
ghost use Rattle.au_modules.specs.Names.{dotted};
ghost use Rattle.au_modules.specs.Programs as spec;
ghost use Rattle.au_modules.specs.Programs.{entry};

use au_base::{Memory, Name, Text};
use au_syntax::{FileTree, Ident, Parsed, Part};
use std::alloc::Global;

/// The number of the first file that is shipped.
pub const FIRST_SHIPPED: u16 = 65_532;

/// What a file gives: a part of the module of this name.
#[derive(Debug, Drop)]
pub struct Given {
    /// The module's name.
    pub name: Name,
    /// Which part of it.
    pub part: Part,
    /// Whether the file is shipped with the compiler.
    pub shipped: bool,
}

/// The parts of a name, a dot before each of them.
///
/// # Errors
///
/// Only for want of memory.
pub fn dotted_text(alloc: Global, names: &Vec<Ident<Parsed>>) -> Result<Text, Memory>
    ensures text { IfOk result (λ text. text ≡ flat_map dotted names.now.items) }
    ensures some { IfOk result (λ text. 0 < length names.now.items → 1 < length text) }
{
    let mut text = Text::new(alloc);
    for one in names {
        text.push(b'.')?;
        text.append(one.name.as_bytes())?;
    }
    Ok(text)
}

/// What a file gives.
pub fn given_by(alloc: Global, file: &FileTree) -> Result<Given, Memory>
    ensures { IfOk result (λ given. given ≡ spec.given (entry file.now)) }
{
    let tree = file.tree.tree();
    let text = dotted_text(alloc, &tree.name)?;
    let name = Name::copy_of(alloc, &text.as_bytes()[1..])?;
    Ok(Given {
        name,
        part: tree.part,
        shipped: FIRST_SHIPPED <= file.file,
    })
}
