// What becomes of operands, and where addresses may point.

ghost use Rattle.std.specs.Prelude.{◌≡◌, ◌≤◌};
ghost use Rattle.tac_pass.specs.Acts as act;
ghost use Rattle.tac_pass.specs.Tables as table;

use crate::table::{Reach, Rows};
use tac_code::code::{Base, Operand};

/// The new temporary that holds what an old one holds.
pub fn holder(rows: &Rows, temporary: u32) -> Option<u32>
    ensures { result ≡ act.holder rows.now temporary }
{
    rows.known(temporary).holder
}

/// A right operand of the new code.
pub fn renamed_right(rows: &Rows, right: Operand) -> Option<Operand>
    ensures { result ≡ act.renamed_right rows.now right }
{
    match right {
        Operand::Temporary(temporary) => Some(Operand::Temporary(holder(rows, temporary)?)),
        Operand::Number(_) => Some(right),
    }
}

/// A base of the new code.
pub fn renamed_base(rows: &Rows, base: Base) -> Option<Base>
    ensures { result ≡ act.renamed_base rows.now base }
{
    match base {
        Base::Temporary(temporary) => Some(Base::Temporary(holder(rows, temporary)?)),
        _ => Some(base),
    }
}

/// The word of the own frame that a base and an offset are, if they are one.
pub fn own_word(base: Base, offset: u32) -> Option<u32>
    ensures { result ≡ act.own_word base offset }
{
    match base {
        Base::Frame if offset % 4 == 0 => Some(offset / 4),
        _ => None,
    }
}

/// Where a base of a routine may point.
pub fn base_reach(routine: usize, base: Base, rows: &Rows) -> Reach
    ensures { result ≡ table.base_reach routine base rows.now }
{
    match base {
        Base::Frame => Reach::Within(0, 1),
        Base::Scratch => Reach::Within(0, 0),
        Base::Program => {
            if routine == 0 {
                Reach::Within(0, 1)
            } else {
                Reach::Within(0, 0)
            }
        }
        Base::Temporary(temporary) => rows.known(temporary).reach,
    }
}

// Bounds are words.
fn bounded(low: u64, high: u64) -> Reach
    requires { low ≤ high }
    ensures { result ≡ act.bounded low high }
{
    if high < 4_294_967_296 {
        Reach::Within(low as u32, high as u32)
    } else {
        Reach::Anywhere
    }
}

/// This many bytes further.
pub fn shifted(bytes: u32, reach: Reach) -> Reach
    ensures { result ≡ act.shifted bytes reach }
{
    match reach {
        Reach::Anywhere => Reach::Anywhere,
        Reach::Within(low, high) => {
            if low < high {
                bounded(low as u64 + bytes as u64, high as u64 + bytes as u64)
            } else {
                Reach::Within(0, 0)
            }
        }
    }
}

/// Up to `bytes` bytes further.
pub fn stretched(bytes: u64, reach: Reach) -> Reach
    ensures { result ≡ act.stretched bytes reach }
{
    match reach {
        Reach::Anywhere => Reach::Anywhere,
        Reach::Within(low, high) => {
            if low >= high {
                return Reach::Within(0, 0);
            }
            match (high as u64).checked_add(bytes) {
                Some(end) => bounded(low as u64, end),
                None => Reach::Anywhere,
            }
        }
    }
}
