//! The files and the modules of a program with their notes.

ghost use Rattle.std.specs.Prelude.{◌≡◌, ◌<◌, IfOk, length, map};
ghost use Rattle.std.specs.Option.{option_copied, option_map};
ghost use Rattle.au_classes.specs.Rows.{rows_of};
ghost use Rattle.au_typing.specs.ProgramSearch as spec;
ghost use Rattle.au_judgements.specs.Refusing.{Judges};
ghost use Rattle.au_modules.specs.Programs.{entry};
ghost use Rattle.au_modules.specs.Slots as slots;
ghost use Rattle.au_sights.specs.contracts.noted.NotedPhase.TheImpl.{ghosts as noted};
ghost use Rattle.au_noting_programs.specs.Said.{file_said, made_said, module_said, part_said};
ghost use Rattle.au_noting_programs.specs.Steps as steps;
ghost use Rattle.au_typing.specs.Outsides.{outside_of};
ghost use Rattle.au_sights.specs.Sights.{outside_seen};
ghost use Rattle.au_syntax.specs.contracts.parsed.ParsedPhase.TheImpl.{ghosts as parsed};
ghost use Rattle.au_syntax.specs.Views.{declaration, module_tree};

use crate::copies::copy_all;
use crate::declarations::note_declarations;
use crate::lists::put;
use crate::modules::{NotedFile, NotedModule};
use crate::sights::sight;
use au_base::Memory;
use au_imports::Resolved;
use au_instances::Instances;
use au_judgements::Refused;
use au_modules::modules::Slot;
use au_sights::{Noted, Surroundings};
use au_syntax::{Decl, FileTree, Module, Parsed, Part};
use std::alloc::Global;

/// The file of an index, if there is one.
fn file_at(files: &Vec<FileTree>, index: Option<usize>) -> Option<&FileTree>
    ensures { option_map entry (option_copied result) ≡ slots.file_at (map entry files.now.items) index }
{
    match index {
        None => None,
        Some(index) => files.get(index),
    }
}

/// What a file holds, with these declarations.
fn tree_with(
    alloc: Global,
    tree: &Module<Parsed>,
    declarations: Vec<Decl<Noted>>,
) -> Result<Module<Noted>, Memory>
    ensures { IfOk result (λ made. module_tree noted made
        ≡ steps.tree_with (module_tree parsed tree.now) (map (declaration noted) declarations.items)) }
{
    let imports = copy_all(alloc, &tree.imports)?;
    let name = copy_all(alloc, &tree.name)?;
    Ok(Module {
        imports,
        at: tree.at,
        part: tree.part,
        name,
        pragma: tree.pragma,
        declarations,
    })
}

/// What a file holds, with the notes of its declarations.
fn note_tree(
    alloc: Global,
    outside: &Surroundings,
    tree: &Module<Parsed>,
) -> Result<Module<Noted>, Refused>
    ensures { Judges (module_tree noted) result
        (steps.note_tree (outside_seen outside.now) (module_tree parsed tree.now)) }
{
    let declarations = note_declarations(alloc, outside, tree.declarations.as_slice())?;
    Ok(tree_with(alloc, tree, declarations)?)
}

/// A file with the notes of its declarations.
fn note_file(alloc: Global, outside: &Surroundings, file: &FileTree) -> Result<NotedFile, Refused>
    ensures { Judges file_said result (steps.note_entry (outside_seen outside.now) (entry file.now)) }
{
    let tree = note_tree(alloc, outside, file.tree.tree())?;
    Ok(NotedFile {
        file: file.file,
        tree,
    })
}

/// A part of a module with its notes, if the module has it.
fn note_part(
    alloc: Global,
    outside: &Surroundings,
    file: Option<&FileTree>,
) -> Result<Option<NotedFile>, Refused>
    ensures { Judges part_said result
        (spec.note_part (outside_seen outside.now) (option_map entry (option_copied file.entry))) }
{
    match file {
        None => Ok(None),
        Some(file) => {
            let made = note_file(alloc, outside, file)?;
            Ok(Some(made))
        }
    }
}

/// A part of the module at a place with its notes, if the module has it: the file of this index.
fn note_at(
    alloc: Global,
    program: &Resolved,
    instances: &Instances,
    place: usize,
    part: Part,
    index: Option<usize>,
) -> Result<Option<NotedFile>, Refused>
    requires place { place < length (slots.modules program.now) }
    requires instances { instances.now ≡ rows_of (slots.modules program.now) }
    ensures { Judges part_said result (spec.note_part (outside_of (slots.modules program.now) place part)
        (slots.file_at (map entry program.now.files.items) index)) }
{
    let outside = sight(program, instances, place, part);
    let file = file_at(&program.modules().files, index);
    note_part(alloc, &outside, file)
}

/// The module at a place with its notes.
fn note_module(
    alloc: Global,
    program: &Resolved,
    instances: &Instances,
    place: usize,
    slot: &Slot,
) -> Result<NotedModule, Refused>
    requires place { place < length (slots.modules program.now) }
    requires instances { instances.now ≡ rows_of (slots.modules program.now) }
    ensures { Judges module_said result (spec.note_module (outside_of (slots.modules program.now)) place
        (slots.parts_at (map entry program.now.files.items) slot.now)) }
{
    let interface = note_at(
        alloc,
        program,
        instances,
        place,
        Part::Interface,
        slot.interface,
    )?;
    let body = note_at(alloc, program, instances, place, Part::Body, slot.body)?;
    let name = slot.name.copy(alloc)?;
    Ok(NotedModule {
        name,
        interface,
        body,
    })
}

/// The modules of a program with their notes.
pub(crate) fn note_modules(
    alloc: Global,
    program: &Resolved,
    instances: &Instances,
) -> Result<Vec<NotedModule>, Refused>
    requires { instances.now ≡ rows_of (slots.modules program.now) }
    ensures { Judges made_said result
        (spec.note_program (outside_of (slots.modules program.now)) (slots.modules program.now)) }
{
    let mut all = Vec::new(alloc);
    let slots = program.modules().slots.as_slice();
    for (place, slot) in slots.iter().enumerate() {
        let made = note_module(alloc, program, instances, place, slot)?;
        put(&mut all, made)?;
    }
    Ok(all)
}
