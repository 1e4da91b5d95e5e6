// The printed form of the code, for people and tests.

mod instructions;

ghost use Rattle.std.specs.Prelude.{◌≡◌, ◌+◌, ◌<◌, ◌^◌, ◌++◌, length, Some, IfOk, OnOk};
ghost use Rattle.std.specs.String.{string_bytes};
ghost use Rattle.tac_code.specs.Printed.{operator_sign, bit_operator_sign, relation_sign, printed_operand};
ghost use Rattle.tac_code.specs.Printed.{printed_base, printed_operands, printed_bytes, or_error, printed, numbered};
ghost use Rattle.tac_code.specs.Printed.{instruction_line, count_line, printed_routine, type_line, printed_code};

use crate::code::{
    Base, BitOperator, Constant, Instruction, Operand, Operands, Operator, OutOfMemory, Relation,
    TacRoutine,
};
use crate::print::instructions::{
    error_at, write_arithmetic, write_branch, write_call, write_copied, write_literal, write_load,
    write_named, write_new, write_offset, write_operation, write_pointer_check, write_range_check,
    write_store, write_text, write_trap,
};
use crate::tac::Tac;
use std::alloc::Global;
use std::fmt;

impl fmt::Display for Operator {
    ghost output = { λ a. Some (operator_sign a) };

    fn fmt<W: fmt::Write>(&self, f: &mut fmt::Formatter<W>) -> fmt::Result {
        f.write_str(match self {
            Operator::Add => "+",
            Operator::Subtract => "-",
            Operator::Multiply => "*",
            Operator::Divide => "div",
            Operator::Modulo => "mod",
        })
    }
}

// How a bit operator is written.
fn sign_of_bits(operator: BitOperator) -> &'static str
    ensures { result.now ≡ bit_operator_sign operator }
{
    match operator {
        BitOperator::And => "and",
        BitOperator::Or => "or",
        BitOperator::AndNot => "and not",
        BitOperator::ShiftLeft => "shift left",
        BitOperator::Plus => "plus",
    }
}

impl fmt::Display for BitOperator {
    ghost output = { λ a. Some (bit_operator_sign a) };

    fn fmt<W: fmt::Write>(&self, f: &mut fmt::Formatter<W>) -> fmt::Result {
        f.write_str(sign_of_bits(*self))
    }
}

// How a relation is written.
fn sign_of_relation(relation: Relation) -> &'static str
    ensures { result.now ≡ relation_sign relation }
{
    match relation {
        Relation::Equal => "=",
        Relation::NotEqual => "<>",
        Relation::Less => "<",
        Relation::LessEqual => "<=",
        Relation::Greater => ">",
        Relation::GreaterEqual => ">=",
    }
}

impl fmt::Display for Relation {
    ghost output = { λ a. Some (relation_sign a) };

    fn fmt<W: fmt::Write>(&self, f: &mut fmt::Formatter<W>) -> fmt::Result {
        f.write_str(sign_of_relation(*self))
    }
}

impl fmt::Display for Operands {
    ghost output = { λ o. Some (printed_operands o) };

    fn fmt<W: fmt::Write>(&self, f: &mut fmt::Formatter<W>) -> fmt::Result {
        for temporary in self.as_slice() {
            write!(f, " t{temporary}")?;
        }
        Ok(())
    }
}

impl fmt::Display for Operand {
    ghost output = { λ o. Some (printed_operand o) };

    fn fmt<W: fmt::Write>(&self, f: &mut fmt::Formatter<W>) -> fmt::Result {
        match self {
            Operand::Temporary(temporary) => write!(f, "t{temporary}"),
            Operand::Number(number) => write!(f, "{number}"),
        }
    }
}

impl fmt::Display for Base {
    ghost output = { λ b. Some (printed_base b) };

    fn fmt<W: fmt::Write>(&self, f: &mut fmt::Formatter<W>) -> fmt::Result {
        match self {
            Base::Frame => f.write_str("frame"),
            Base::Scratch => f.write_str("scratch"),
            Base::Program => f.write_str("program"),
            Base::Temporary(temporary) => write!(f, "t{temporary}"),
        }
    }
}

impl fmt::Display for Constant {
    ghost output = { λ c. Some (printed_bytes c) };

    fn fmt<W: fmt::Write>(&self, f: &mut fmt::Formatter<W>) -> fmt::Result {
        for byte in self.as_slice() {
            write!(f, " {byte}")?;
        }
        Ok(())
    }
}

// The error that an instruction may end with, and its line; nothing is written if its test can't fail.
#[derive(Clone, Copy)]
struct Otherwise {
    error: u8,
    line: u16,
}

#[tactic(auto, unfolding(crate::specs::Printed::or_error))]
impl fmt::Display for Otherwise {
    ghost output = { λ o. Some (or_error o.error o.line) };

    fn fmt<W: fmt::Write>(&self, f: &mut fmt::Formatter<W>) -> fmt::Result {
        let (error, line) = (self.error, self.line);
        if error == 0 {
            return Ok(());
        }
        write!(f, ", else error {error} at line {line}")
    }
}

impl fmt::Display for Instruction {
    ghost output = { λ a. Some (printed a) };

    fn fmt<W: fmt::Write>(&self, f: &mut fmt::Formatter<W>) -> fmt::Result {
        match self {
            Instruction::Literal { to, value } => write_literal(f, *to, *value),
            Instruction::Copy { to, from } => write_copied(f, "t", *from, *to),
            Instruction::Arithmetic {
                operator,
                to,
                left,
                right,
                error,
                line,
            } => write_arithmetic(f, *operator, *to, *left, *right, error_at(*error, *line)),
            Instruction::Bits {
                operator,
                to,
                left,
                right,
            } => write_operation(f, *left, sign_of_bits(*operator), *right, *to),
            Instruction::Compare {
                relation,
                to,
                left,
                right,
            } => write_operation(f, *left, sign_of_relation(*relation), *right, *to),
            Instruction::CheckRange {
                value,
                low,
                high,
                error,
                line,
            } => write_range_check(f, *value, *low, *high, error_at(*error, *line)),
            Instruction::CheckPointer {
                pointer,
                error,
                line,
            } => write_pointer_check(f, *pointer, error_at(*error, *line)),
            Instruction::Text { to, bytes } => write_text(f, *to, bytes),
            Instruction::Offset {
                to,
                base,
                bytes,
                extent,
            } => write_offset(f, *to, *base, *bytes, *extent),
            Instruction::Index {
                to,
                base,
                index,
                low,
                high,
                width,
                error,
                line,
            } => {
                let or_error = error_at(*error, *line);
                write!(
                    f,
                    "{base} + (t{index} in {low}..{high}) * {width} -> t{to}{or_error}"
                )
            }
            Instruction::RoutineValue { to, routine } => write_copied(f, "routine ", *routine, *to),
            Instruction::Load { to, base, offset } => write_load(f, "word", *to, *base, *offset),
            Instruction::Store { base, offset, from } => write_store(
                f, "word", *base, *offset, *from,
            ),
            Instruction::LoadByte { to, base, offset } => write_load(
                f, "byte", *to, *base, *offset,
            ),
            Instruction::StoreByte { base, offset, from } => write_store(
                f, "byte", *base, *offset, *from,
            ),
            Instruction::Jump { forward } => write_named(f, "jump forward ", *forward),
            Instruction::JumpBack { back } => write_named(f, "jump back ", *back),
            Instruction::Branch {
                relation,
                left,
                right,
                forward,
            } => write_branch(f, "jump forward ", *forward, *relation, *left, *right),
            Instruction::BranchBack {
                relation,
                left,
                right,
                back,
            } => write_branch(f, "jump back ", *back, *relation, *left, *right),
            Instruction::Call {
                to,
                routine,
                operands,
                line,
            } => write_call(f, "", *routine, *line, operands, *to),
            Instruction::CallValue {
                to,
                callee,
                operands,
                line,
            } => write_call(f, "t", *callee, *line, operands, *to),
            Instruction::Return { from } => write_named(f, "return t", u64::from(*from)),
            Instruction::Trap { error, line } => write_trap(f, *error, *line),
            Instruction::Take { to } => write_named(f, "take -> t", u64::from(*to)),
            Instruction::Put { from } => write_named(f, "put t", u64::from(*from)),
            Instruction::New {
                to,
                object_type,
                line,
            } => write_new(f, *to, *object_type, *line),
            Instruction::End => f.write_str("end"),
        }
    }
}

// Adds a line for each instruction.
fn add_instructions(
    alloc: Global,
    text: &mut String,
    body: &[Instruction],
) -> Result<(), OutOfMemory>
    ensures { OnOk result (string_bytes text.new ≡ string_bytes text.old ++ numbered instruction_line 0 body.now) }
{
    for (place, instruction) in body.iter().enumerate() {
        let line = format!(in alloc; "{place}: {instruction}\n")?;
        text.push_str(line.as_str())?;
    }
    Ok(())
}

// Adds a line with a count.
#[tactic(auto, unfolding(crate::specs::Printed::count_line))]
fn add_count(alloc: Global, text: &mut String, name: &str, n: u64) -> Result<(), OutOfMemory>
    ensures { OnOk result (string_bytes text.new ≡ string_bytes text.old ++ count_line name.now n) }
{
    let line = format!(in alloc; "{name} {n}\n")?;
    text.push_str(line.as_str())?;
    Ok(())
}

fn add_routine(
    alloc: Global,
    text: &mut String,
    number: usize,
    routine: &TacRoutine,
) -> Result<(), OutOfMemory>
    ensures { OnOk result (string_bytes text.new ≡ string_bytes text.old ++ printed_routine number routine.now) }
{
    add_count(alloc, text, "routine", number as u64)?;
    add_count(alloc, text, "parameters", u64::from(routine.parameters))?;
    add_count(alloc, text, "temporaries", u64::from(routine.temporaries))?;
    add_count(alloc, text, "frame", u64::from(routine.frame))?;
    add_count(alloc, text, "scratch", u64::from(routine.scratch))?;
    add_count(alloc, text, "line", u64::from(routine.line))?;
    add_instructions(alloc, text, routine.body.as_slice())?;
    Ok(())
}

// Adds routines, numbered from the first on.
fn add_routines(
    alloc: Global,
    text: &mut String,
    first: usize,
    routines: &[TacRoutine],
) -> Result<(), OutOfMemory>
    requires { first + length routines.now < 2 ^ 64 }
    ensures { OnOk result (string_bytes text.new ≡ string_bytes text.old
        ++ numbered printed_routine first routines.now) }
{
    for (place, routine) in routines.iter().enumerate() {
        add_routine(alloc, text, first + place, routine)?;
    }
    Ok(())
}

fn add_types(alloc: Global, text: &mut String, objects: &[u32]) -> Result<(), OutOfMemory>
    ensures { OnOk result (string_bytes text.new ≡ string_bytes text.old ++ numbered type_line 0 objects.now) }
{
    for (number, bytes) in objects.iter().enumerate() {
        let line = format!(in alloc; "type {number}: {bytes} bytes\n")?;
        text.push_str(line.as_str())?;
    }
    Ok(())
}

/// The whole code as text: its routines with numbered instructions, and the bytes of its object types.
pub fn print(alloc: Global, tac: &Tac) -> Result<String, OutOfMemory>
    ensures { IfOk result (λ text. string_bytes text ≡ printed_code tac.now) }
{
    let mut text = String::new(alloc);
    let program = tac.program();
    add_routines(alloc, &mut text, 0, program)?;
    add_routines(alloc, &mut text, program.len(), tac.run_time())?;
    add_types(alloc, &mut text, tac.objects())?;
    Ok(text)
}
