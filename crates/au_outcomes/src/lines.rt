//! The lines on `err`.

ghost use Rattle.std.specs.Prelude.{◌≡◌, ◌++◌, ◌∷◌, [], IfOk, IsTrue, OnOk, codes, map, slice_get, unwrap_or};
ghost use Rattle.std.specs.String.{string_bytes};
ghost use Rattle.au_sights.specs.Lines.{why_text};
ghost use Rattle.au_program_lives.specs.Lines.{linear_text};
ghost use Rattle.au_outcomes.specs.Lines as lines;
ghost use Rattle.au_outcomes.specs.Refusals.{is_class_refusal, is_declaration_refusal, is_import_refusal};
ghost use Rattle.au_outcomes.specs.Refusals.{is_life_refusal, is_module_refusal, is_refusal, is_type_refusal};

use crate::refusals::Refusal;
use au_base::{Entry, Limit, LimitKind, Memory, Name, Pos, Text};
use au_classes::ClassFault;
use au_imports::ImportFault;
use au_modules::ModuleFault;
use au_program_lives::{LinearFault, linear_text};
use au_rules::DeclFault;
use au_sights::{TypeFault, Why, why_text};
use itoa::Buffer;
use std::alloc::{AllocError, Global};

/// The line of a refusal on `err`, with its end. The files are those of the program, in order.
pub fn refusal_text(alloc: Global, refusal: &Refusal, files: &[String]) -> Result<Vec<u8>, Memory>
    requires { IsTrue (is_refusal refusal.now) }
    ensures { IfOk result (λ text. text.items ≡ lines.refusal_line (map string_bytes files.now) refusal.now) }
{
    let mut text = Vec::new(alloc);
    add_refusal(alloc, &mut text, refusal, files)?;
    text.extend_from_slice(b"\n")?;
    Ok(text)
}

/// Adds the line of a refusal, without its end.
fn add_refusal(
    alloc: Global,
    text: &mut Vec<u8>,
    refusal: &Refusal,
    files: &[String],
) -> Result<(), Memory>
    requires { IsTrue (is_refusal refusal.now) }
    ensures { OnOk result (text.new.items
        ≡ text.old.items ++ lines.refusal_text (map string_bytes files.now) refusal.now) }
{
    match refusal {
        Refusal::Byte(at) => add_placed(text, *at, files, b": byte"),
        Refusal::Syntax(at) => add_placed(text, *at, files, b": syntax"),
        Refusal::Pair(fault) => add_pair(text, fault, files),
        Refusal::Import(fault) => add_import(text, fault, files),
        Refusal::Declaration(fault) => add_declaration(text, fault, files),
        Refusal::Instance(fault) => add_instance(text, fault, files),
        Refusal::Typing(fault) => add_typing(alloc, text, fault, files),
        Refusal::Linear(fault) => add_life(alloc, text, fault, files),
        Refusal::Entry(entry) => add_entry(text, entry),
    }
}

/// Adds why files are not those of modules.
fn add_pair(text: &mut Vec<u8>, fault: &ModuleFault, files: &[String]) -> Result<(), Memory>
    requires { IsTrue (is_module_refusal fault.now) }
    ensures { OnOk result (text.new.items
        ≡ text.old.items ++ lines.pair_text (map string_bytes files.now) fault.now) }
{
    match fault {
        ModuleFault::TwiceGiven(name) => add_module(text, name, b": given twice"),
        ModuleFault::NoBody(name) => add_module(text, name, b": no body"),
        ModuleFault::Unsafe(at) => add_placed(text, *at, files, b": unsafe module"),
        ModuleFault::Limit(_) => unreachable!(),
        ModuleFault::Memory => unreachable!(),
    }
}

/// Adds which name or promise of the modules is not good.
fn add_import(text: &mut Vec<u8>, fault: &ImportFault, files: &[String]) -> Result<(), Memory>
    requires { IsTrue (is_import_refusal fault.now) }
    ensures { OnOk result (text.new.items
        ≡ text.old.items ++ lines.import_text (map string_bytes files.now) fault.now) }
{
    match fault {
        ImportFault::NoModule(at, name) => add_naming(text, *at, files, b": no module ", name),
        ImportFault::Late(at, name) => add_late(text, *at, files, name),
        ImportFault::NotVisible(at, name) => add_naming(
            text,
            *at,
            files,
            b": name not visible: ",
            name,
        ),
        ImportFault::NameTwice(at, name) => add_naming(text, *at, files, b": name twice: ", name),
        ImportFault::NotDefined(at, name) => add_naming(text, *at, files, b": not defined: ", name),
        ImportFault::Differs(at, other, name) => add_differing(text, *at, *other, files, name),
        ImportFault::Memory => unreachable!(),
    }
}

/// Adds what is wrong with a declaration.
fn add_declaration(text: &mut Vec<u8>, fault: &DeclFault, files: &[String]) -> Result<(), Memory>
    requires { IsTrue (is_declaration_refusal fault.now) }
    ensures { OnOk result (text.new.items ≡ text.old.items
        ++ lines.declaration_text (map string_bytes files.now) fault.now) }
{
    match fault {
        DeclFault::Again(at, name) => add_naming(text, *at, files, b": declared again: ", name),
        DeclFault::Malformed(at) => add_placed(text, *at, files, b": malformed type"),
        DeclFault::EmptyUnion(at) => add_placed(text, *at, files, b": empty union"),
        DeclFault::UniverseBelow(at) => {
            add_placed(text, *at, files, b": field above its universe")
        }
        DeclFault::Infinite(at) => add_placed(text, *at, files, b": infinite type"),
        DeclFault::Memory => unreachable!(),
    }
}

/// Adds what is wrong with an instance.
fn add_instance(text: &mut Vec<u8>, fault: &ClassFault, files: &[String]) -> Result<(), Memory>
    requires { IsTrue (is_class_refusal fault.now) }
    ensures { OnOk result (text.new.items ≡ text.old.items
        ++ lines.instance_text (map string_bytes files.now) fault.now) }
{
    match fault {
        ClassFault::BadHead(at) => add_placed(text, *at, files, b": bad instance head"),
        ClassFault::Orphan(at) => add_placed(text, *at, files, b": orphan instance"),
        ClassFault::Overlap(at, other) => add_overlapping(text, *at, *other, files),
        ClassFault::MethodDiffers(at) => add_placed(text, *at, files, b": method differs"),
        ClassFault::Memory => unreachable!(),
    }
}

/// Adds which statement is not well typed, and why.
fn add_typing(
    alloc: Global,
    text: &mut Vec<u8>,
    fault: &TypeFault,
    files: &[String],
) -> Result<(), Memory>
    requires { IsTrue (is_type_refusal fault.now) }
    ensures { OnOk result (text.new.items
        ≡ text.old.items ++ lines.type_text (map string_bytes files.now) fault.now) }
{
    match fault {
        TypeFault::Statement { at, why } => add_statement(alloc, text, *at, why, files),
        TypeFault::Limit(_) => unreachable!(),
        TypeFault::Memory => unreachable!(),
    }
}

/// Adds the place of a statement, and why it is not well typed.
fn add_statement(
    alloc: Global,
    text: &mut Vec<u8>,
    at: Pos,
    why: &Why<Text, Text>,
    files: &[String],
) -> Result<(), Memory>
    ensures { OnOk result (text.new.items
        ≡ text.old.items ++ (lines.place_text (map string_bytes files.now) at
        ++ codes ": type: " ++ why_text why.now)) }
{
    let told = why_text(alloc, why)?;
    add_placed(text, at, files, b": type: ")?;
    text.extend_from_slice(told.as_slice())?;
    Ok(())
}

/// Adds which variable has no good life, and why.
fn add_life(
    alloc: Global,
    text: &mut Vec<u8>,
    fault: &LinearFault,
    files: &[String],
) -> Result<(), Memory>
    requires { IsTrue (is_life_refusal fault.now) }
    ensures { OnOk result (text.new.items
        ≡ text.old.items ++ lines.life_text (map string_bytes files.now) fault.now) }
{
    match fault {
        LinearFault::Life { at, .. } => add_variable(alloc, text, *at, fault, files),
        LinearFault::InLoop { at, .. } => add_variable(alloc, text, *at, fault, files),
        LinearFault::InPart { at, .. } => add_variable(alloc, text, *at, fault, files),
        LinearFault::Memory => unreachable!(),
    }
}

/// Adds the place of a variable, and why it has no good life.
fn add_variable(
    alloc: Global,
    text: &mut Vec<u8>,
    at: Pos,
    fault: &LinearFault,
    files: &[String],
) -> Result<(), Memory>
    ensures { OnOk result (text.new.items
        ≡ text.old.items ++ (lines.place_text (map string_bytes files.now) at
        ++ codes ": " ++ linear_text fault.now)) }
{
    let told = linear_text(alloc, fault)?;
    add_placed(text, at, files, b": ")?;
    text.extend_from_slice(told.as_slice())?;
    Ok(())
}

/// Adds the entry that a program doesn't have, or that hasn't the form of one.
fn add_entry(text: &mut Vec<u8>, entry: &Entry) -> Result<(), Memory>
    ensures { OnOk result (text.new.items ≡ text.old.items ++ lines.entry_text entry.now) }
{
    text.extend_from_slice(b"entry: ")?;
    text.extend_from_slice(entry.module.as_bytes())?;
    text.extend_from_slice(b":")?;
    text.extend_from_slice(entry.function.as_bytes())?;
    Ok(())
}

/// Adds the name of a module, and what is said of it.
fn add_module(text: &mut Vec<u8>, name: &Name, words: &[u8]) -> Result<(), Memory>
    ensures { OnOk result (text.new.items ≡ text.old.items ++ (codes "module " ++ name.now ++ words.now)) }
{
    text.extend_from_slice(b"module ")?;
    text.extend_from_slice(name.as_bytes())?;
    text.extend_from_slice(words)?;
    Ok(())
}

/// Adds a place, and what is said of it.
fn add_placed(text: &mut Vec<u8>, at: Pos, files: &[String], words: &[u8]) -> Result<(), Memory>
    ensures { OnOk result (text.new.items
        ≡ text.old.items ++ (lines.place_text (map string_bytes files.now) at ++ words.now)) }
{
    add_place(text, at, files)?;
    text.extend_from_slice(words)?;
    Ok(())
}

/// Adds a place, and what is said of a name there.
fn add_naming(
    text: &mut Vec<u8>,
    at: Pos,
    files: &[String],
    words: &[u8],
    name: &Name,
) -> Result<(), Memory>
    ensures { OnOk result (text.new.items
        ≡ text.old.items ++ (lines.place_text (map string_bytes files.now) at ++ words.now ++ name.now)) }
{
    add_placed(text, at, files, words)?;
    text.extend_from_slice(name.as_bytes())?;
    Ok(())
}

/// Adds the place of an import, and the name of a module that stands later.
fn add_late(text: &mut Vec<u8>, at: Pos, files: &[String], name: &Name) -> Result<(), Memory>
    ensures { OnOk result (text.new.items
        ≡ text.old.items ++ (lines.place_text (map string_bytes files.now) at
        ++ codes ": module " ++ name.now ++ codes " stands later")) }
{
    add_naming(text, at, files, b": module ", name)?;
    text.extend_from_slice(b" stands later")?;
    Ok(())
}

/// Adds the place of a declaration, that of the definition that differs from it, and the name.
fn add_differing(
    text: &mut Vec<u8>,
    at: Pos,
    other: Pos,
    files: &[String],
    name: &Name,
) -> Result<(), Memory>
    ensures { OnOk result (text.new.items
        ≡ text.old.items ++ (lines.place_text (map string_bytes files.now) at
        ++ codes ": differs from " ++ lines.place_text (map string_bytes files.now) other
        ++ codes ": " ++ name.now)) }
{
    add_placed(text, at, files, b": differs from ")?;
    add_naming(text, other, files, b": ", name)
}

/// Adds the place of an instance, and that of the earlier one that it overlaps.
fn add_overlapping(text: &mut Vec<u8>, at: Pos, other: Pos, files: &[String]) -> Result<(), Memory>
    ensures { OnOk result (text.new.items
        ≡ text.old.items ++ (lines.place_text (map string_bytes files.now) at
        ++ codes ": instance overlaps " ++ lines.place_text (map string_bytes files.now) other)) }
{
    add_placed(text, at, files, b": instance overlaps ")?;
    add_place(text, other, files)
}

/// Adds a place, with the name of its file.
fn add_place(text: &mut Vec<u8>, at: Pos, files: &[String]) -> Result<(), Memory>
    ensures { OnOk result (text.new.items
        ≡ text.old.items ++ lines.place_text (map string_bytes files.now) at) }
{
    let mut digits = Buffer::new();
    text.extend_from_slice(name_of(files, at.file))?;
    text.extend_from_slice(b":")?;
    text.extend_from_slice(digits.format(at.line).as_bytes())?;
    text.extend_from_slice(b":")?;
    text.extend_from_slice(digits.format(at.column).as_bytes())?;
    Ok(())
}

/// The name of the file of a number, or no bytes.
fn name_of(files: &[String], file: u16) -> &[u8]
    ensures { result.now ≡ unwrap_or (slice_get (map string_bytes files.now) file) [] }
{
    match files.get(file as usize) {
        Some(name) => name.as_bytes(),
        None => b"",
    }
}

/// What a limit counts, as its line says it.
fn limit_word(kind: LimitKind) -> &'static [u8]
    ensures { result.now ≡ lines.limit_word kind }
{
    match kind {
        LimitKind::FileBytes => b"file bytes",
        LimitKind::Files => b"files",
        LimitKind::Tokens => b"tokens",
        LimitKind::NameBytes => b"name bytes",
        LimitKind::LiteralDigits => b"literal digits",
        LimitKind::TextBytes => b"text bytes",
        LimitKind::Nesting => b"nesting",
        LimitKind::TypeDepth => b"type depth",
        LimitKind::TypeNodes => b"type nodes",
        LimitKind::Parameters => b"parameters",
        LimitKind::Fields => b"fields",
        LimitKind::Cases => b"cases",
        LimitKind::TypeParameters => b"type parameters",
        LimitKind::Instances => b"instances",
        LimitKind::Code => b"code",
    }
}

/// The line of a limit that is passed.
pub fn limit_line(alloc: Global, limit: &Limit) -> Result<Vec<u8>, Memory>
    ensures { IfOk result (λ text. text.items ≡ lines.limit_line limit.now) }
{
    let mut text = Vec::from_slice(alloc, b"limit: ")?;
    let mut digits = Buffer::new();
    text.extend_from_slice(limit_word(limit.kind))?;
    text.extend_from_slice(b" ")?;
    text.extend_from_slice(digits.format(limit.count).as_bytes())?;
    text.extend_from_slice(b" above ")?;
    text.extend_from_slice(digits.format(limit.most).as_bytes())?;
    text.extend_from_slice(b"\n")?;
    Ok(text)
}

/// The line of a file that is missing.
pub fn missing_line(alloc: Global, name: &[u8]) -> Result<Vec<u8>, Memory>
    ensures { IfOk result (λ text. text.items ≡ lines.missing_line name.now) }
{
    let mut text = Vec::from_slice(alloc, b"missing: ")?;
    text.extend_from_slice(name)?;
    text.extend_from_slice(b"\n")?;
    Ok(text)
}

/// The line of a program that aborted, for a cause that is told in these words.
pub fn abort_line(alloc: Global, words: &[u8]) -> Result<Vec<u8>, Memory>
    ensures { IfOk result (λ text. text.items ≡ lines.abort_line words.now) }
{
    let mut text = Vec::from_slice(alloc, b"abort: ")?;
    text.extend_from_slice(words)?;
    text.extend_from_slice(b"\n")?;
    Ok(text)
}

/// The line of a run that has spent its steps, by how many there were.
pub fn steps_line(alloc: Global, steps: u64) -> Result<Vec<u8>, Memory>
    ensures { IfOk result (λ text. text.items ≡ lines.steps_line steps) }
{
    let mut text = Vec::from_slice(alloc, b"steps: ")?;
    let mut digits = Buffer::new();
    text.extend_from_slice(digits.format(steps).as_bytes())?;
    text.extend_from_slice(b" spent\n")?;
    Ok(text)
}
