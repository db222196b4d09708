//! The texts of classes.

ghost use Rattle.std.specs.Prelude.{◌≡◌, Some, IfOk, slice_get};
ghost use Rattle.std.specs.Option.{option_copied};
ghost use Rattle.au_modules.specs.Slots as slots;
ghost use Rattle.au_names.specs.Walks.{written};
ghost use Rattle.au_typing.specs.ClassTexts as texts;

use au_base::{Memory, Name, Text};
use au_modules::Modules;
use au_names::declaration;
use au_syntax::{Decl, Parsed};
use au_types::DeclAt;
use std::alloc::Global;

/// The name of a declaration, if it is a class.
fn class_name(decl: &Decl<Parsed>) -> Option<&Name>
    ensures { option_copied result ≡ texts.class_name (written decl.now) }
{
    match decl {
        Decl::Constant(_, _, _) => None,
        Decl::Opaque(_, _, _, _) => None,
        Decl::Record(_, _, _, _, _) => None,
        Decl::Union(_, _, _, _, _) => None,
        Decl::Function(_, _, _) => None,
        Decl::Class(_, name, _, _) => Some(&name.name),
        Decl::Instance(_, _, _, _) => None,
        Decl::ConstantBody(_, _, _, _) => None,
        Decl::FunctionBody(_, _, _, _, _) => None,
        Decl::InstanceBody(_, _, _, _, _) => None,
    }
}

/// A name with that of the module at a place, if there is one.
fn full_name(alloc: Global, modules: &Modules, place: u16, name: &Name) -> Result<Text, Memory>
    ensures { IfOk result (λ text. text
        ≡ texts.full_name (slice_get (slots.modules modules.now) place) (Some name.now)) }
{
    if (place as usize) < modules.len() {
        let mut text = Text::copy_of(alloc, modules.name(place as usize).as_bytes())?;
        text.push(b':')?;
        text.append(name.as_bytes())?;
        Ok(text)
    } else {
        Ok(Text::new(alloc))
    }
}

/// The text of a class: the name of its module, a colon and its own. What is no class has none.
///
/// # Errors
///
/// `Memory` when memory runs out.
pub fn class_text(alloc: Global, modules: &Modules, at: DeclAt) -> Result<Text, Memory>
    ensures { IfOk result (λ text. text ≡ texts.class_text (slots.modules modules.now) at) }
{
    match declaration(modules, at) {
        None => Ok(Text::new(alloc)),
        Some(found) => match class_name(found.decl) {
            None => Ok(Text::new(alloc)),
            Some(name) => full_name(alloc, modules, found.place, name),
        },
    }
}
