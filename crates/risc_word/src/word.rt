// Between instructions and words.

ghost use Rattle.std.specs.Prelude.{◌≡◌, ◌≢◌, ℕ, ◌+◌, ◌-◌, ◌*◌, ◌/◌, ◌%◌, ◌^◌, ◌<◌, ◌≤◌, pos, negsuc, ◌≤ℤ◌, nat_eq};
ghost use Rattle.std.specs.Prelude.{IfNone, IfSome, Some};
ghost use Rattle.risc_word.specs.declared.instr.Instr.{Instr};
ghost use Rattle.risc_word.specs.declared.instr.Target.TheVariants.{Relative};
ghost use Rattle.risc_word.specs.declared.instr.Instr.TheVariants.{Branch};
ghost use Rattle.risc_word.specs.Words.{code_of, carry_of, condition_code, byte_of, bits_of, with_operand, form_2};
ghost use Rattle.risc_word.specs.Words.{word_of, operation_at, condition_at, immediate_at, signed_at, register_form};
ghost use Rattle.risc_word.specs.Words.{immediate_form, absolute_form, branch, instr_at, Denotes};

use crate::field::{Displacement, Immediate, Offset, Register};
use crate::instr::{Condition, Instr, Operand, Operation, Target, Width};

/// The word of an instruction.
pub fn encode(instr: Instr) -> u32
    ensures value { result ≡ word_of instr }
    ensures denotes { Denotes result instr }
    ensures back { instr_at result ≡ Some instr }
{
    word_for(instr)
}

fn word_for(instr: Instr) -> u32
    ensures value { result ≡ word_of instr }
    ensures denotes { Denotes result instr }
{
    match instr {
        Instr::Move { to, operand } => operand_word(0, to, 0, 0, operand),
        Instr::MoveTop { to, top } => fields(6, to.number(), 0, 0, top),
        Instr::MoveHigh { to } => fields(2, to.number(), 0, 0, 0),
        Instr::Operate {
            operation,
            to,
            left,
            right,
        } => {
            let (code, carry) = operation_bits(operation);
            operand_word(carry, to, left.number(), code, right)
        }
        Instr::Load {
            width,
            to,
            base,
            offset,
        } => memory_word(0, width, to, base, offset),
        Instr::Store {
            width,
            from,
            base,
            offset,
        } => memory_word(1, width, from, base, offset),
        Instr::Branch {
            condition,
            link,
            target,
        } => branch_word(condition, link, target),
    }
}

// A word of five fields.
fn fields(top: u8, a: u8, b: u8, op: u8, low: u16) -> u32
    requires top { top < 16 }
    requires a { a < 16 }
    requires b { b < 16 }
    requires op { op < 16 }
    ensures { result ≡ (((top * 16 + a) * 16 + b) * 16 + op) * 65536 + low }
{
    (((u32::from(top) * 16 + u32::from(a)) * 16 + u32::from(b)) * 16 + u32::from(op)) * 65536
        + u32::from(low)
}

// F0 with a register, or F1 with a number.
fn operand_word(u: u8, to: Register, b: u8, op: u8, operand: Operand) -> u32
    requires u { u < 2 }
    requires b { b < 16 }
    requires op { op < 16 }
    ensures { result ≡ with_operand u to b op operand }
{
    match operand {
        Operand::Content(register) => {
            fields(2 * u, to.number(), b, op, u16::from(register.number()))
        }
        Operand::Constant(immediate) => {
            let value = immediate.value();
            if value < 0 {
                fields(2 * u + 5, to.number(), b, op, (value + 65536) as u16)
            } else {
                fields(2 * u + 4, to.number(), b, op, value as u16)
            }
        }
    }
}

// The number and the bit u of an operation.
fn operation_bits(operation: Operation) -> (u8, u8)
    ensures code { result.0 ≡ code_of operation }
    ensures carry { result.1 ≡ carry_of operation }
    ensures code_range { result.0 < 16 }
    ensures carry_range { result.1 < 2 }
{
    match operation {
        Operation::Lsl => (1, 0),
        Operation::Asr => (2, 0),
        Operation::Ror => (3, 0),
        Operation::And => (4, 0),
        Operation::Ann => (5, 0),
        Operation::Ior => (6, 0),
        Operation::Xor => (7, 0),
        Operation::Add => (8, 0),
        Operation::Sub => (9, 0),
        Operation::Mul => (10, 0),
        Operation::Div => (11, 0),
        Operation::Adc => (8, 1),
        Operation::Sbc => (9, 1),
    }
}

fn width_bit(width: Width) -> u8
    ensures value { result ≡ byte_of width }
    ensures range { result < 2 }
{
    match width {
        Width::Word => 0,
        Width::Byte => 1,
    }
}

// F2.
fn memory_word(u: u8, width: Width, a: Register, b: Register, offset: Offset) -> u32
    requires { u < 2 }
    ensures { result ≡ form_2 u (byte_of width) a b (bits_of (2 ^ 20) offset) }
{
    let top = u32::from(8 + 2 * u + width_bit(width));
    let value = offset.value();
    let bits = if value < 0 {
        (value + 1048576) as u32
    } else {
        value as u32
    };
    ((top * 16 + u32::from(a.number())) * 16 + u32::from(b.number())) * 1048576 + bits
}

fn condition_bits(condition: Condition) -> u8
    ensures value { result ≡ condition_code condition }
    ensures range { result < 16 }
{
    match condition {
        Condition::Minus => 0,
        Condition::Equal => 1,
        Condition::CarrySet => 2,
        Condition::OverflowSet => 3,
        Condition::Less => 5,
        Condition::LessEqual => 6,
        Condition::Always => 7,
        Condition::Plus => 8,
        Condition::NotEqual => 9,
        Condition::CarryClear => 10,
        Condition::OverflowClear => 11,
        Condition::GreaterEqual => 13,
        Condition::Greater => 14,
        Condition::Never => 15,
    }
}

// F3.
fn branch_word(condition: Condition, link: bool, target: Target) -> u32
    ensures { result ≡ word_of (Branch condition link target) }
{
    let top: u8 = if link { 1 } else { 0 };
    let code = condition_bits(condition);
    match target {
        Target::Absolute(register) => { fields(12 + top, code, 0, 0, u16::from(register.number())) }
        Target::Relative(distance) => {
            let value = distance.value();
            let bits = if value < 0 {
                (value + 16777216) as u32
            } else {
                value as u32
            };
            (u32::from(14 + top) * 16 + u32::from(code)) * 16777216 + bits
        }
    }
}

// In a loop of steps decoding is inlined, so that no instruction is ever built.
/// The instruction of a word, if it has one.
#[inline(always)]
pub fn decode(word: u32) -> Option<Instr>
    ensures value { result ≡ instr_at word }
    ensures denotes { IfSome result (Denotes word) }
    ensures none { IfNone result ((i : Instr) → Denotes word i → ⊥) }
{
    instruction_of(word)
}

#[inline(always)]
fn instruction_of(word: u32) -> Option<Instr>
    ensures { result ≡ instr_at word }
{
    let a = register(word, 24);
    let b = register(word, 20);
    let op = ((word >> 16) % 16) as u8;
    let low = (word % 65536) as u16;
    match word >> 28 {
        0 => decode_register_form(false, a, b, op, low),
        2 => decode_register_form(true, a, b, op, low),
        1 | 3 => None,
        4 => decode_immediate_form(false, false, a, b, op, low),
        5 => decode_immediate_form(false, true, a, b, op, low),
        6 => decode_immediate_form(true, false, a, b, op, low),
        7 => decode_immediate_form(true, true, a, b, op, low),
        8 => Some(Instr::Load {
            width: Width::Word,
            to: a,
            base: b,
            offset: offset(word),
        }),
        9 => Some(Instr::Load {
            width: Width::Byte,
            to: a,
            base: b,
            offset: offset(word),
        }),
        10 => Some(Instr::Store {
            width: Width::Word,
            from: a,
            base: b,
            offset: offset(word),
        }),
        11 => Some(Instr::Store {
            width: Width::Byte,
            from: a,
            base: b,
            offset: offset(word),
        }),
        12 => decode_absolute(false, a.number(), word % 16777216),
        13 => decode_absolute(true, a.number(), word % 16777216),
        14 => decode_relative(false, a.number(), word),
        // 15, the largest number of four bits
        _ => decode_relative(true, a.number(), word),
    }
}

// The register whose number begins at this bit.
fn register(word: u32, from: u32) -> Register
    requires { from < 32 }
    ensures { result ≡ word / 2 ^ from % 16 }
{
    Register::new(((word >> from) % 16) as u8)
}

fn offset(word: u32) -> Offset
    ensures { result ≡ signed_at 524288 (word % 1048576) }
{
    let bits = (word % 1048576) as i32;
    Offset::new(if bits < 524288 { bits } else { bits - 1048576 })
}

fn displacement(word: u32) -> Displacement
    ensures { result ≡ signed_at 8388608 (word % 16777216) }
{
    let bits = (word % 16777216) as i32;
    Displacement::new(if bits < 8388608 {
        bits
    } else {
        bits - 16777216
    })
}

fn immediate(sign: bool, low: u16) -> Immediate
    ensures { result ≡ immediate_at sign low }
{
    let bits = i32::from(low);
    Immediate::new(if sign { bits - 65536 } else { bits })
}

fn decode_operation(carry: bool, op: u8) -> Option<Operation>
    ensures { result ≡ operation_at carry op }
{
    match (carry, op) {
        (true, 8) => Some(Operation::Adc),
        (true, 9) => Some(Operation::Sbc),
        (false, 1) => Some(Operation::Lsl),
        (false, 2) => Some(Operation::Asr),
        (false, 3) => Some(Operation::Ror),
        (false, 4) => Some(Operation::And),
        (false, 5) => Some(Operation::Ann),
        (false, 6) => Some(Operation::Ior),
        (false, 7) => Some(Operation::Xor),
        (false, 8) => Some(Operation::Add),
        (false, 9) => Some(Operation::Sub),
        (false, 10) => Some(Operation::Mul),
        (false, 11) => Some(Operation::Div),
        _ => None,
    }
}

fn decode_condition(code: u8) -> Option<Condition>
    ensures { result ≡ condition_at code }
{
    match code {
        0 => Some(Condition::Minus),
        1 => Some(Condition::Equal),
        2 => Some(Condition::CarrySet),
        3 => Some(Condition::OverflowSet),
        5 => Some(Condition::Less),
        6 => Some(Condition::LessEqual),
        7 => Some(Condition::Always),
        8 => Some(Condition::Plus),
        9 => Some(Condition::NotEqual),
        10 => Some(Condition::CarryClear),
        11 => Some(Condition::OverflowClear),
        13 => Some(Condition::GreaterEqual),
        14 => Some(Condition::Greater),
        15 => Some(Condition::Never),
        _ => None,
    }
}

fn decode_register_form(carry: bool, a: Register, b: Register, op: u8, low: u16) -> Option<Instr>
    ensures { result ≡ register_form carry a b op low }
{
    if op == 0 {
        if b.number() != 0 {
            None
        } else if carry {
            if low == 0 {
                Some(Instr::MoveHigh { to: a })
            } else {
                None
            }
        } else if low < 16 {
            Some(Instr::Move {
                to: a,
                operand: Operand::Content(Register::new(low as u8)),
            })
        } else {
            None
        }
    } else if low < 16 {
        let operation = decode_operation(carry, op)?;
        Some(Instr::Operate {
            operation,
            to: a,
            left: b,
            right: Operand::Content(Register::new(low as u8)),
        })
    } else {
        None
    }
}

fn decode_immediate_form(
    carry: bool,
    sign: bool,
    a: Register,
    b: Register,
    op: u8,
    low: u16,
) -> Option<Instr>
    ensures { result ≡ immediate_form carry sign a b op low }
{
    if op == 0 {
        if b.number() != 0 {
            None
        } else if carry {
            if sign {
                None
            } else {
                Some(Instr::MoveTop { to: a, top: low })
            }
        } else {
            Some(Instr::Move {
                to: a,
                operand: Operand::Constant(immediate(sign, low)),
            })
        }
    } else {
        let operation = decode_operation(carry, op)?;
        Some(Instr::Operate {
            operation,
            to: a,
            left: b,
            right: Operand::Constant(immediate(sign, low)),
        })
    }
}

fn decode_absolute(link: bool, code: u8, low: u32) -> Option<Instr>
    ensures { result ≡ absolute_form link code low }
{
    if low < 16 {
        let condition = decode_condition(code)?;
        Some(Instr::Branch {
            condition,
            link,
            target: Target::Absolute(Register::new(low as u8)),
        })
    } else {
        None
    }
}

fn decode_relative(link: bool, code: u8, word: u32) -> Option<Instr>
    ensures { result ≡ branch (condition_at code) link (Relative (signed_at 8388608 (word % 16777216))) }
{
    let condition = decode_condition(code)?;
    Some(Instr::Branch {
        condition,
        link,
        target: Target::Relative(displacement(word)),
    })
}
