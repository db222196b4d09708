//! Codes with plain names are told by their C texts, since their numbers are as wide as their types. The
//! calls do nothing: they only read what their contracts speak of.

ghost use Rattle.std.specs.List.{AllByRecursion};
ghost use Rattle.au_cprint.specs.Told.{IsShort, IsToldCode, IsToldFunction, IsToldInstruction, IsToldText};
ghost use Rattle.au_cprint.specs.Told.{IsWide};
ghost use Rattle.au_told.specs.Names.{HasPlainNames, IsPlainFunction, IsPlainInstruction};

use au_base::Text;
use au_low::{Code, Function, Instr};

/// A number has 32 bits.
fn number_is_told(n: u32)
    ensures { IsShort n }
{}

/// A number that may be below 0 has 128 bits.
fn value_is_told(value: i128)
    ensures { IsWide value }
{}

/// Numbers have 32 bits each.
fn numbers_are_told(all: &[u32])
    ensures { AllByRecursion IsShort all.now }
{}

/// The length of a text has 64 bits.
fn text_is_told(text: &Text)
    ensures { IsToldText text.now }
{
    let _length = text.as_bytes().len();
}

/// The numbers of an instruction are as wide as their types make them, and its names are plain.
#[tactic(auto, using(crate::proofs::ToldLemmas::told_steps))]
fn instruction_is_told(one: &Instr)
    ensures { IsPlainInstruction one.now → IsToldInstruction one.now }
{
    match one {
        Instr::Push { kind: _, value } => value_is_told(*value),
        Instr::PushBool(_) => {}
        Instr::PushUnit => {}
        Instr::PushText(n) => number_is_told(*n),
        Instr::Look { slot, path } => {
            number_is_told(*slot);
            numbers_are_told(path.as_slice());
        }
        Instr::Move(slot) => number_is_told(*slot),
        Instr::Store(slot) => number_is_told(*slot),
        Instr::Set { slot, path } => {
            number_is_told(*slot);
            numbers_are_told(path.as_slice());
        }
        Instr::Discard => {}
        Instr::Arith { op: _, kind: _ } => {}
        Instr::Wrap {
            op: _,
            kind: _,
            order,
        } => numbers_are_told(order.as_slice()),
        Instr::Compare { order: _, kind: _ } => {}
        Instr::Not => {}
        Instr::Convert(_) => {}
        Instr::Jump(label) => number_is_told(*label),
        Instr::JumpNot(label) => number_is_told(*label),
        Instr::ForTest {
            counter,
            last,
            label,
        } => {
            number_is_told(*counter);
            number_is_told(*last);
            number_is_told(*label);
        }
        Instr::ForStep {
            counter,
            last,
            label,
        } => {
            number_is_told(*counter);
            number_is_told(*last);
            number_is_told(*label);
        }
        Instr::Make {
            of,
            tag,
            order,
            module: _,
        } => {
            number_is_told(*of);
            number_is_told(*tag);
            numbers_are_told(order.as_slice());
        }
        Instr::Take(slot) => number_is_told(*slot),
        Instr::Case { slot, labels } => {
            number_is_told(*slot);
            numbers_are_told(labels.as_slice());
        }
        Instr::Call { function, order } => {
            number_is_told(*function);
            numbers_are_told(order.as_slice());
        }
        Instr::Shipped {
            call: _,
            of: None,
            order,
        } => numbers_are_told(order.as_slice()),
        Instr::Shipped {
            call: _,
            of: Some(of),
            order,
        } => {
            number_is_told(*of);
            numbers_are_told(order.as_slice());
        }
        Instr::Return => {}
        Instr::Read { slot, path } => {
            number_is_told(*slot);
            numbers_are_told(path.as_slice());
        }
        Instr::Put { slot, path } => {
            number_is_told(*slot);
            numbers_are_told(path.as_slice());
        }
        Instr::Deref => {}
        Instr::Open { slot, mode: _ } => number_is_told(*slot),
        Instr::Again(slot) => number_is_told(*slot),
        Instr::Part { slot, path } => {
            number_is_told(*slot);
            numbers_are_told(path.as_slice());
        }
        Instr::Bind {
            from,
            into,
            mode: _,
        } => {
            number_is_told(*from);
            number_is_told(*into);
        }
        Instr::Close(count) => number_is_told(*count),
    }
}

/// The same of instructions.
fn instructions_are_told(all: &[Instr])
    ensures { AllByRecursion IsPlainInstruction all.now → AllByRecursion IsToldInstruction all.now }
{
    for one in all {
        instruction_is_told(one);
    }
}

/// The same of a function.
fn function_is_told(one: &Function)
    ensures { IsPlainFunction one.now → IsToldFunction one.now }
{
    number_is_told(one.params);
    number_is_told(one.slots);
    instructions_are_told(one.code.as_slice());
}

/// The same of functions.
fn functions_are_told(all: &[Function])
    ensures { AllByRecursion IsPlainFunction all.now → AllByRecursion IsToldFunction all.now }
{
    for one in all {
        function_is_told(one);
    }
}

/// The same of texts.
fn texts_are_told(all: &[Text])
    ensures { AllByRecursion IsToldText all.now }
{
    for one in all {
        text_is_told(one);
    }
}

/// Each code with plain names is told by its text.
pub fn code_is_told(code: &Code)
    ensures { HasPlainNames code.now → IsToldCode code.now }
{
    texts_are_told(code.texts.as_slice());
    functions_are_told(code.functions.as_slice());
}
