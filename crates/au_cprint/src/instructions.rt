//! Puts the line of an instruction behind a text.

ghost use Rattle.std.specs.Prelude.{◌≡◌, ◌++◌, ◌∷◌, [], OnOk, codes, decimal};
ghost use Rattle.std.specs.List.{flat_map};
ghost use Rattle.au_cprint.specs.Instructions as spec;
ghost use Rattle.au_cprint.specs.Programs.{numbered};
ghost use Rattle.au_cprint.specs.Words.{applied, plain, number, name};
ghost use Rattle.au_cprint.specs.Words as words;
ghost use Rattle.au_low.specs.declared.instructions.Instr.TheVariants as instr;

use crate::adding::{
    add, add_further, add_further_label, add_further_number, add_further_quoted, add_label,
    add_labels, add_number, add_numbers, add_signed,
};
use crate::words::{
    add_call_word, call_home, compared_word, exact_word, kind_word, mode_word, order_word,
    wrapped_word,
};
use au_base::{IntKind, Memory, Name, Sequence};
use au_low::{Instr, Mode};
use au_shipped::ShippedCall;

/// Adds a word without operands.
fn add_plain(text: &mut Vec<u8>, word: &[u8]) -> Result<(), Memory>
    ensures { OnOk result (text.new.items ≡ text.old.items ++ applied word.now []) }
{
    add(text, word)?;
    add(text, b"()")
}

/// Adds a word and its operand.
pub(crate) fn add_word(text: &mut Vec<u8>, word: &[u8], operand: &[u8]) -> Result<(), Memory>
    ensures { OnOk result (text.new.items ≡ text.old.items ++ applied word.now (plain operand.now ∷ [])) }
{
    add(text, word)?;
    add(text, b"(")?;
    add(text, operand)?;
    add(text, b")")
}

/// Adds a word and two operands.
fn add_words(text: &mut Vec<u8>, word: &[u8], a: &[u8], b: &[u8]) -> Result<(), Memory>
    ensures { OnOk result (text.new.items ≡ text.old.items ++ applied word.now
        (plain a.now ∷ plain b.now ∷ [])) }
{
    add_opened(text, word, a)?;
    add_further(text, b)?;
    add(text, b")")
}

/// Adds a word, a parenthesis and an operand.
fn add_opened(text: &mut Vec<u8>, word: &[u8], operand: &[u8]) -> Result<(), Memory>
    ensures { OnOk result (text.new.items ≡ text.old.items ++ (word.now ++ 40 ∷ operand.now)) }
{
    add(text, word)?;
    add(text, b"(")?;
    add(text, operand)
}

/// Adds a word, a parenthesis and a number.
pub(crate) fn add_opened_number(text: &mut Vec<u8>, word: &[u8], n: u64) -> Result<(), Memory>
    ensures { OnOk result (text.new.items ≡ text.old.items ++ (word.now ++ 40 ∷ decimal n)) }
{
    add(text, word)?;
    add(text, b"(")?;
    add_number(text, n)
}

/// Adds a word and a number.
pub(crate) fn add_one(text: &mut Vec<u8>, word: &[u8], n: u64) -> Result<(), Memory>
    ensures { OnOk result (text.new.items ≡ text.old.items ++ applied word.now (number n ∷ [])) }
{
    add_opened_number(text, word, n)?;
    add(text, b")")
}

/// Adds a word, a number and others.
fn add_many(text: &mut Vec<u8>, word: &[u8], n: u32, others: &Sequence<u32>) -> Result<(), Memory>
    ensures { OnOk result (text.new.items
        ≡ text.old.items ++ applied word.now (number n ∷ spec.numbers others.now)) }
{
    add_opened_number(text, word, u64::from(n))?;
    add_numbers(text, others.as_slice())?;
    add(text, b")")
}

/// Adds a word and a label.
fn add_target(text: &mut Vec<u8>, word: &[u8], label: u32) -> Result<(), Memory>
    ensures { OnOk result (text.new.items ≡ text.old.items ++ applied word.now (words.label label ∷ [])) }
{
    add(text, word)?;
    add(text, b"(")?;
    add_label(text, u64::from(label))?;
    add(text, b")")
}

/// Adds the word of an instruction of a loop, two slots and a label.
fn add_loop(text: &mut Vec<u8>, word: &[u8], a: u32, b: u32, label: u32) -> Result<(), Memory>
    ensures { OnOk result (text.new.items ≡ text.old.items
        ++ applied word.now (number a ∷ number b ∷ words.label label ∷ [])) }
{
    add_opened_number(text, word, u64::from(a))?;
    add_further_number(text, b)?;
    add_further_label(text, label)?;
    add(text, b")")
}

/// Adds the push of a number of a kind.
fn add_push(text: &mut Vec<u8>, kind: IntKind, value: i128) -> Result<(), Memory>
    ensures { OnOk result (text.new.items
        ≡ text.old.items ++ spec.instruction_text (instr.Push kind value)) }
{
    add_opened(text, b"PUSH", kind_word(kind))?;
    add(text, b", ")?;
    add_signed(text, value)?;
    add(text, b")")
}

/// Adds a wrapping operation.
fn add_wrap(
    text: &mut Vec<u8>,
    op: &[u8],
    kind: IntKind,
    order: &Sequence<u32>,
) -> Result<(), Memory>
    ensures { OnOk result (text.new.items ≡ text.old.items
        ++ applied (codes "WRAP") (plain op.now ∷ plain (words.kind_word kind) ∷ spec.numbers order.now)) }
{
    add_opened(text, b"WRAP", op)?;
    add_further(text, kind_word(kind))?;
    add_numbers(text, order.as_slice())?;
    add(text, b")")
}

/// Adds the making of a value of a type and a case.
fn add_make(
    text: &mut Vec<u8>,
    of: u32,
    tag: u32,
    order: &Sequence<u32>,
    module: &Name,
) -> Result<(), Memory>
    ensures { OnOk result (text.new.items ≡ text.old.items
        ++ spec.instruction_text (instr.Make of tag order.now module.now)) }
{
    add_opened_number(text, b"MAKE", u64::from(of))?;
    add_further_number(text, tag)?;
    add_placed_order(text, order, module.as_bytes())
}

/// Adds an order, the module that is behind it, and a parenthesis.
fn add_placed_order(text: &mut Vec<u8>, order: &Sequence<u32>, module: &[u8]) -> Result<(), Memory>
    ensures { OnOk result (text.new.items ≡ text.old.items
        ++ (flat_map words.further (spec.numbers order.now ++ name module.now ∷ []) ++ 41 ∷ [])) }
{
    add_numbers(text, order.as_slice())?;
    add_further_quoted(text, module)?;
    add(text, b")")
}

/// Adds the choice of a case.
fn add_case(text: &mut Vec<u8>, slot: u32, targets: &Sequence<u32>) -> Result<(), Memory>
    ensures { OnOk result (text.new.items ≡ text.old.items
        ++ spec.instruction_text (instr.Case slot targets.now)) }
{
    add_opened_number(text, b"CASE", u64::from(slot))?;
    add_labels(text, targets.as_slice())?;
    add(text, b")")
}

/// Adds a shipped call.
fn add_shipped(
    text: &mut Vec<u8>,
    call: ShippedCall,
    of: Option<u32>,
    order: &Sequence<u32>,
) -> Result<(), Memory>
    ensures { OnOk result (text.new.items ≡ text.old.items
        ++ spec.instruction_text (instr.Shipped call of order.now)) }
{
    add(text, b"PRIM(")?;
    add_call_word(text, call)?;
    add_call_operands(text, call, of, order)
}

/// Adds the operands of a shipped call behind its word, and a parenthesis.
fn add_call_operands(
    text: &mut Vec<u8>,
    call: ShippedCall,
    of: Option<u32>,
    order: &Sequence<u32>,
) -> Result<(), Memory>
    ensures { OnOk result (text.new.items ≡ text.old.items
        ++ (flat_map words.further (spec.call_operands call of order.now) ++ 41 ∷ [])) }
{
    match of {
        None => {
            add_numbers(text, order.as_slice())?;
            add(text, b")")
        }
        Some(of) => {
            add_further_number(text, of)?;
            add_placed_order(text, order, call_home(call))
        }
    }
}

/// Adds the borrow of a slot.
fn add_open(text: &mut Vec<u8>, slot: u32, mode: Mode) -> Result<(), Memory>
    ensures { OnOk result (text.new.items ≡ text.old.items
        ++ spec.instruction_text (instr.Open slot mode)) }
{
    add_opened_number(text, b"OPEN", u64::from(slot))?;
    add_further(text, mode_word(mode))?;
    add(text, b")")
}

/// Adds the borrow of a slot into another.
fn add_bind(text: &mut Vec<u8>, from: u32, into: u32, mode: Mode) -> Result<(), Memory>
    ensures { OnOk result (text.new.items ≡ text.old.items
        ++ spec.instruction_text (instr.Bind from into mode)) }
{
    add_opened_number(text, b"BIND", u64::from(from))?;
    add_further_number(text, into)?;
    add_further(text, mode_word(mode))?;
    add(text, b")")
}

/// A truth value.
pub(crate) fn flag(truth: bool) -> &'static [u8]
    ensures { result.now ≡ words.flag truth }
{
    if truth { b"1" } else { b"0" }
}

/// Adds an instruction.
fn add_instruction(text: &mut Vec<u8>, one: &Instr) -> Result<(), Memory>
    ensures { OnOk result (text.new.items ≡ text.old.items ++ spec.instruction_text one.now) }
{
    match one {
        Instr::Push { kind, value } => add_push(text, *kind, *value),
        Instr::PushBool(value) => add_word(text, b"PUSHBOOL", flag(*value)),
        Instr::PushUnit => add_plain(text, b"PUSHUNIT"),
        Instr::PushText(n) => add_one(text, b"PUSHTEXT", u64::from(*n)),
        Instr::Look { slot, path } => add_many(text, b"LOOK", *slot, path),
        Instr::Move(slot) => add_one(text, b"MOVE", u64::from(*slot)),
        Instr::Store(slot) => add_one(text, b"STORE", u64::from(*slot)),
        Instr::Set { slot, path } => add_many(text, b"SET", *slot, path),
        Instr::Discard => add_plain(text, b"DROP"),
        Instr::Arith { op, kind } => {
            add_words(text, b"ARITH", exact_word(*op), kind_word(*kind))
        }
        Instr::Wrap { op, kind, order } => add_wrap(text, wrapped_word(*op), *kind, order),
        Instr::Compare { order, kind } => {
            add_words(text, b"COMPARE", order_word(*order), compared_word(*kind))
        }
        Instr::Not => add_plain(text, b"NOT"),
        Instr::Convert(kind) => add_word(text, b"CONVERT", kind_word(*kind)),
        Instr::Jump(label) => add_target(text, b"JUMP", *label),
        Instr::JumpNot(label) => add_target(text, b"JUMPNOT", *label),
        Instr::ForTest {
            counter,
            last,
            label,
        } => { add_loop(text, b"FORTEST", *counter, *last, *label) }
        Instr::ForStep {
            counter,
            last,
            label,
        } => { add_loop(text, b"FORSTEP", *counter, *last, *label) }
        Instr::Make {
            of,
            tag,
            order,
            module,
        } => add_make(text, *of, *tag, order, module),
        Instr::Take(slot) => add_one(text, b"TAKE", u64::from(*slot)),
        Instr::Case { slot, labels } => add_case(text, *slot, labels),
        Instr::Call { function, order } => add_many(text, b"CALL", *function, order),
        Instr::Shipped { call, of, order } => add_shipped(text, *call, *of, order),
        Instr::Return => add_plain(text, b"RETURN"),
        Instr::Read { slot, path } => add_many(text, b"READ", *slot, path),
        Instr::Put { slot, path } => add_many(text, b"PUT", *slot, path),
        Instr::Deref => add_plain(text, b"DEREF"),
        Instr::Open { slot, mode } => add_open(text, *slot, *mode),
        Instr::Again(slot) => add_one(text, b"AGAIN", u64::from(*slot)),
        Instr::Part { slot, path } => add_many(text, b"PART", *slot, path),
        Instr::Bind { from, into, mode } => add_bind(text, *from, *into, *mode),
        Instr::Close(count) => add_one(text, b"CLOSE", u64::from(*count)),
    }
}

/// Adds the line of an instruction.
fn add_instruction_line(text: &mut Vec<u8>, n: u64, one: &Instr) -> Result<(), Memory>
    ensures { OnOk result (text.new.items ≡ text.old.items ++ spec.instruction_line n one.now) }
{
    add_label(text, n)?;
    add(text, b": ")?;
    add_instruction(text, one)?;
    add(text, b";\n")
}

/// Adds the lines of instructions.
pub(crate) fn add_instructions(text: &mut Vec<u8>, all: &[Instr]) -> Result<(), Memory>
    ensures { OnOk result (text.new.items
        ≡ text.old.items ++ numbered spec.instruction_line 0 all.now) }
{
    for (index, one) in all.iter().enumerate() {
        add_instruction_line(text, index as u64, one)?;
    }
    Ok(())
}
