// The printed form of an instruction.

ghost use Rattle.std.specs.Prelude.{◌≡◌, IfOk, IfSome, Some};
ghost use Rattle.std.specs.Fmt.{DisplaysOnOk, signed_decimal};
ghost use Rattle.std.specs.String.{string_bytes};
ghost use Rattle.risc_word.specs.declared.instr.Instr.TheVariants as instr;
ghost use Rattle.risc_word.specs.Printed.{printed, printed_register, printed_operand, printed_target, with_three};
ghost use Rattle.risc_word.specs.Printed.{operation_name, condition_name, load_name, store_name, branch_name};

use crate::field::{Offset, Register};
use crate::instr::{Condition, Instr, Operand, Operation, Target, Width};
use std::alloc::{AllocError, Global};
use std::fmt;

/// Returned if the host refuses memory.
pub type OutOfMemory = AllocError;

/// The printed form of an instruction, as `ADD R1, R1, 1` or `BL T, -12`: its name, followed by its operands.
/// Immediates and offsets are signed decimal numbers.
pub fn print(alloc: Global, instr: Instr) -> Result<String, OutOfMemory>
    ensures { IfOk result (λ text. string_bytes text ≡ printed instr) }
{
    format!(in alloc; "{instr}")
}

impl fmt::Display for Register {
    ghost output = { λ a. Some (printed_register a) };

    fn fmt<W: fmt::Write>(&self, f: &mut fmt::Formatter<W>) -> fmt::Result {
        let number = self.number();
        match name_of_register(number) {
            Some(name) => f.write_str(name),
            None => write!(f, "R{number}"),
        }
    }
}

impl fmt::Display for Operand {
    ghost output = { λ n. Some (printed_operand n) };

    fn fmt<W: fmt::Write>(&self, f: &mut fmt::Formatter<W>) -> fmt::Result {
        match *self {
            Operand::Content(register) => write!(f, "{register}"),
            Operand::Constant(immediate) => {
                let value = immediate.value();
                write!(f, "{value}")
            }
        }
    }
}

impl fmt::Display for Target {
    ghost output = { λ n. Some (printed_target n) };

    fn fmt<W: fmt::Write>(&self, f: &mut fmt::Formatter<W>) -> fmt::Result {
        match *self {
            Target::Relative(distance) => {
                let value = distance.value();
                write!(f, "{value}")
            }
            Target::Absolute(register) => write!(f, "{register}"),
        }
    }
}

impl fmt::Display for Instr {
    ghost output = { λ i. Some (printed i) };

    fn fmt<W: fmt::Write>(&self, f: &mut fmt::Formatter<W>) -> fmt::Result {
        match *self {
            Instr::Move { to, operand } => write!(f, "MOV {to}, {operand}"),
            Instr::MoveTop { to, top } => write!(f, "MOVH {to}, {top}"),
            Instr::MoveHigh { to } => write!(f, "MOV {to}, H"),
            Instr::Operate {
                operation,
                to,
                left,
                right,
            } => write_operation(f, operation, to, left, right),
            Instr::Load {
                width,
                to,
                base,
                offset,
            } => write_access(f, name_of_load(width), to, base, offset),
            Instr::Store {
                width,
                from,
                base,
                offset,
            } => write_access(f, name_of_store(width), from, base, offset),
            Instr::Branch {
                condition,
                link,
                target,
            } => write_branch(f, condition, link, target),
        }
    }
}

fn write_operation<W: fmt::Write>(
    f: &mut fmt::Formatter<W>,
    operation: Operation,
    to: Register,
    left: Register,
    right: Operand,
) -> fmt::Result
    ensures { DisplaysOnOk W.write_str_gives f.old result
        (Some (printed (instr.Operate operation to left right))) f.new }
{
    let name = name_of_operation(operation);
    write!(f, "{name} {to}, {left}, {right}")
}

// A load or a store.
fn write_access<W: fmt::Write>(
    f: &mut fmt::Formatter<W>,
    name: &str,
    register: Register,
    base: Register,
    offset: Offset,
) -> fmt::Result
    ensures { DisplaysOnOk W.write_str_gives f.old result
        (Some (with_three name.now (printed_register register) (printed_register base) (signed_decimal offset))) f.new }
{
    let distance = offset.value();
    write!(f, "{name} {register}, {base}, {distance}")
}

fn write_branch<W: fmt::Write>(
    f: &mut fmt::Formatter<W>,
    condition: Condition,
    link: bool,
    target: Target,
) -> fmt::Result
    ensures { DisplaysOnOk W.write_str_gives f.old result (Some (printed (instr.Branch condition link target))) f.new }
{
    let name = if link { "BL" } else { "B" };
    let when = name_of_condition(condition);
    write!(f, "{name} {when}, {target}")
}

// The printed register with this number, if there is one. (A listing has millions of them.)
fn name_of_register(number: u8) -> Option<&'static str>
    ensures { IfSome result (λ name. name.now ≡ printed_register number) }
{
    match number {
        0 => Some("R0"),
        1 => Some("R1"),
        2 => Some("R2"),
        3 => Some("R3"),
        4 => Some("R4"),
        5 => Some("R5"),
        6 => Some("R6"),
        7 => Some("R7"),
        8 => Some("R8"),
        9 => Some("R9"),
        10 => Some("R10"),
        11 => Some("R11"),
        12 => Some("R12"),
        13 => Some("R13"),
        14 => Some("R14"),
        15 => Some("R15"),
        _ => None,
    }
}

fn name_of_operation(operation: Operation) -> &'static str
    ensures { result.now ≡ operation_name operation }
{
    match operation {
        Operation::Lsl => "LSL",
        Operation::Asr => "ASR",
        Operation::Ror => "ROR",
        Operation::And => "AND",
        Operation::Ann => "ANN",
        Operation::Ior => "IOR",
        Operation::Xor => "XOR",
        Operation::Add => "ADD",
        Operation::Sub => "SUB",
        Operation::Mul => "MUL",
        Operation::Div => "DIV",
        Operation::Adc => "ADC",
        Operation::Sbc => "SBC",
    }
}

fn name_of_load(width: Width) -> &'static str
    ensures { result.now ≡ load_name width }
{
    match width {
        Width::Word => "LD",
        Width::Byte => "LDB",
    }
}

fn name_of_store(width: Width) -> &'static str
    ensures { result.now ≡ store_name width }
{
    match width {
        Width::Word => "ST",
        Width::Byte => "STB",
    }
}

fn name_of_condition(condition: Condition) -> &'static str
    ensures { result.now ≡ condition_name condition }
{
    match condition {
        Condition::Minus => "MI",
        Condition::Equal => "EQ",
        Condition::CarrySet => "CS",
        Condition::OverflowSet => "VS",
        Condition::Less => "LT",
        Condition::LessEqual => "LE",
        Condition::Always => "T",
        Condition::Plus => "PL",
        Condition::NotEqual => "NE",
        Condition::CarryClear => "CC",
        Condition::OverflowClear => "VC",
        Condition::GreaterEqual => "GE",
        Condition::Greater => "GT",
        Condition::Never => "F",
    }
}
