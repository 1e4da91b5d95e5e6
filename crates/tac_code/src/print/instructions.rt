// The parts of an instruction, as they are printed.

ghost use Rattle.std.specs.Prelude.{◌≡◌, ◌+◌, ◌++◌, Some, codes, decimal};
ghost use Rattle.std.specs.Fmt.{DisplaysOnOk};
ghost use Rattle.tac_code.specs.declared.code.Instruction.TheVariants as instruction;
ghost use Rattle.tac_code.specs.Printed.{relation_sign, printed_operand};
ghost use Rattle.tac_code.specs.Printed.{printed_base, printed_operands, or_error, printed};

use crate::code::{Base, Constant, Operand, Operands, Operator, Relation};
use crate::print::Otherwise;
use std::fmt;

pub(super) fn error_at(error: u8, line: u16) -> Otherwise
    ensures { result ≡ record { error = error; line = line } }
{
    Otherwise { error, line }
}

// A number after its name.
pub(super) fn write_named<W: fmt::Write>(
    f: &mut fmt::Formatter<W>,
    name: &str,
    number: u64,
) -> fmt::Result
    ensures { DisplaysOnOk W.write_str_gives f.old result (Some (name.now ++ decimal number)) f.new }
{
    write!(f, "{name}{number}")
}

// The same, into a temporary.
pub(super) fn write_copied<W: fmt::Write>(
    f: &mut fmt::Formatter<W>,
    name: &str,
    number: u32,
    to: u32,
) -> fmt::Result
    ensures { DisplaysOnOk W.write_str_gives f.old result
        (Some (name.now ++ decimal number ++ codes " -> t" ++ decimal to)) f.new }
{
    write!(f, "{name}{number} -> t{to}")
}

pub(super) fn write_literal<W: fmt::Write>(
    f: &mut fmt::Formatter<W>,
    to: u32,
    value: i32,
) -> fmt::Result
    ensures { DisplaysOnOk W.write_str_gives f.old result (Some (printed (instruction.Literal to value))) f.new }
{
    write!(f, "{value} -> t{to}")
}

pub(super) fn write_text<W: fmt::Write>(
    f: &mut fmt::Formatter<W>,
    to: u32,
    bytes: &Constant,
) -> fmt::Result
    ensures { DisplaysOnOk W.write_str_gives f.old result (Some (printed (instruction.Text to bytes.now))) f.new }
{
    write!(f, "text{bytes} -> t{to}")
}

pub(super) fn write_trap<W: fmt::Write>(
    f: &mut fmt::Formatter<W>,
    error: u8,
    line: u16,
) -> fmt::Result
    ensures { DisplaysOnOk W.write_str_gives f.old result (Some (printed (instruction.Trap error line))) f.new }
{
    write!(f, "error {error} at line {line}")
}

// The result of an operation on two operands, into a temporary.
pub(super) fn write_operation<W: fmt::Write>(
    f: &mut fmt::Formatter<W>,
    left: u32,
    sign: &str,
    right: Operand,
    to: u32,
) -> fmt::Result
    ensures { DisplaysOnOk W.write_str_gives f.old result
        (Some (codes "t" ++ decimal left ++ codes " " ++ sign.now ++ codes " " ++ printed_operand right ++ codes " -> t"
        ++ decimal to)) f.new }
{
    write!(f, "t{left} {sign} {right} -> t{to}")
}

pub(super) fn write_arithmetic<W: fmt::Write>(
    f: &mut fmt::Formatter<W>,
    operator: Operator,
    to: u32,
    left: u32,
    right: Operand,
    or_error: Otherwise,
) -> fmt::Result
    ensures { DisplaysOnOk W.write_str_gives f.old result
        (Some (printed (instruction.Arithmetic operator to left right or_error.error or_error.line))) f.new }
{
    write!(f, "t{left} {operator} {right} -> t{to}{or_error}")
}

pub(super) fn write_range_check<W: fmt::Write>(
    f: &mut fmt::Formatter<W>,
    value: u32,
    low: i32,
    high: i32,
    or_error: Otherwise,
) -> fmt::Result
    ensures { DisplaysOnOk W.write_str_gives f.old result
        (Some (printed (instruction.CheckRange value low high or_error.error or_error.line))) f.new }
{
    write!(f, "check t{value} in {low}..{high}{or_error}")
}

pub(super) fn write_pointer_check<W: fmt::Write>(
    f: &mut fmt::Formatter<W>,
    pointer: u32,
    or_error: Otherwise,
) -> fmt::Result
    ensures { DisplaysOnOk W.write_str_gives f.old result
        (Some (printed (instruction.CheckPointer pointer or_error.error or_error.line))) f.new }
{
    write!(f, "check t{pointer} <> nil{or_error}")
}

pub(super) fn write_offset<W: fmt::Write>(
    f: &mut fmt::Formatter<W>,
    to: u32,
    base: Base,
    bytes: u32,
    extent: u32,
) -> fmt::Result
    ensures { DisplaysOnOk W.write_str_gives f.old result
        (Some (printed (instruction.Offset to base bytes extent))) f.new }
{
    write!(f, "{base} + {bytes} -> t{to}, {extent} bytes")
}

// A load of a word or of a byte, by its name.
pub(super) fn write_load<W: fmt::Write>(
    f: &mut fmt::Formatter<W>,
    width: &str,
    to: u32,
    base: Base,
    offset: u32,
) -> fmt::Result
    ensures { DisplaysOnOk W.write_str_gives f.old result
        (Some (width.now ++ codes " " ++ printed_base base ++ codes " + " ++ decimal offset ++ codes " -> t"
        ++ decimal to)) f.new }
{
    write!(f, "{width} {base} + {offset} -> t{to}")
}

// A store of a word or of a byte.
pub(super) fn write_store<W: fmt::Write>(
    f: &mut fmt::Formatter<W>,
    width: &str,
    base: Base,
    offset: u32,
    from: u32,
) -> fmt::Result
    ensures { DisplaysOnOk W.write_str_gives f.old result
        (Some (codes "t" ++ decimal from ++ codes " -> " ++ width.now ++ codes " " ++ printed_base base ++ codes " + "
        ++ decimal offset)) f.new }
{
    write!(f, "t{from} -> {width} {base} + {offset}")
}

// A branch so far, after the name of its kind.
pub(super) fn write_branch<W: fmt::Write>(
    f: &mut fmt::Formatter<W>,
    name: &str,
    distance: u64,
    relation: Relation,
    left: u32,
    right: Operand,
) -> fmt::Result
    ensures { DisplaysOnOk W.write_str_gives f.old result
        (Some (name.now ++ decimal distance ++ codes " if t" ++ decimal left ++ codes " " ++ relation_sign relation
        ++ codes " " ++ printed_operand right)) f.new }
{
    write!(f, "{name}{distance} if t{left} {relation} {right}")
}

// A call of a routine by its number, or by the temporary that holds it, with a t before it.
pub(super) fn write_call<W: fmt::Write>(
    f: &mut fmt::Formatter<W>,
    before: &str,
    callee: u32,
    line: u16,
    operands: &Operands,
    to: u32,
) -> fmt::Result
    ensures { DisplaysOnOk W.write_str_gives f.old result
        (Some (codes "call " ++ before.now ++ decimal callee ++ codes " at line " ++ decimal line ++ codes " ("
        ++ printed_operands operands.now ++ codes " ) -> t" ++ decimal to)) f.new }
{
    write!(
        f,
        "call {before}{callee} at line {line} ({operands} ) -> t{to}"
    )
}

pub(super) fn write_new<W: fmt::Write>(
    f: &mut fmt::Formatter<W>,
    to: u32,
    object_type: u32,
    line: u16,
) -> fmt::Result
    ensures { DisplaysOnOk W.write_str_gives f.old result (Some (printed (instruction.New to object_type line))) f.new }
{
    write!(f, "new {object_type} at line {line} -> t{to}")
}
