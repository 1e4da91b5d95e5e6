// Signed overflow of sums and differences of words.

ghost use Rattle.std.specs.Prelude.{◌≡◌, ◌+◌, ◌%◌, ◌^◌, ◌≤◌, unsigned_abs, pos, ◌+ℤ◌, ◌-ℤ◌};
ghost use Rattle.std.specs.Int.{from_bool};
ghost use Rattle.risc_machine.specs.Step.{signed, overflows};

use crate::limits::SIGN_BIT;

// Whether a signed number leaves 32 bits.
fn leaves_word(value: i64) -> bool
    ensures { result ≡ overflows value }
{
    value < i64::from(i32::MIN) || value > i64::from(i32::MAX)
}

// A word as a signed number, of 64 bits.
fn widened(word: u32) -> i64
    ensures value { result ≡ signed word }
    ensures small { unsigned_abs result ≤ SIGN_BIT }
{
    i64::from(word.cast_signed())
}

// Whether the signed sum with a carry leaves 32 bits.
pub(crate) fn sum_overflows(left: u32, right: u32, carry: bool) -> bool
    ensures { result ≡ overflows (signed left +ℤ signed right +ℤ pos (from_bool carry)) }
{
    let sum = widened(left) + widened(right);
    let carried = sum + carry as i64;
    leaves_word(carried)
}

// Whether the signed difference with a borrow leaves 32 bits.
pub(crate) fn difference_overflows(left: u32, right: u32, borrow: bool) -> bool
    ensures { result ≡ overflows (signed left -ℤ signed right -ℤ pos (from_bool borrow)) }
{
    let difference = widened(left) - widened(right);
    let borrowed = difference - borrow as i64;
    leaves_word(borrowed)
}

// A number moved by the sign bit. A function, since LLVM must see the sum of two words before it sees this one.
fn moved(number: u64) -> u64
    ensures { result ≡ (number + SIGN_BIT) % 2 ^ 64 }
{
    number.wrapping_add(u64::from(SIGN_BIT))
}

// Whether the signed sum of two words exceeds 32 bits. Put this way, it is the host's own overflow.
pub(crate) fn words_overflow(left: u32, right: u32) -> bool
    ensures { result ≡ overflows (signed left +ℤ signed right +ℤ pos 0) }
{
    let sum = widened(left) + widened(right);
    moved(sum.cast_unsigned()) > 4294967295
}

// Whether the signed difference of two words leaves 32 bits: whether its sign is not that of its low 32 bits.
pub(crate) fn words_underflow(left: u32, right: u32) -> bool
    ensures { result ≡ overflows (signed left -ℤ signed right -ℤ pos 0) }
{
    let is_less = left.cast_signed() < right.cast_signed();
    let difference = left.wrapping_sub(right);
    is_less != (difference >= SIGN_BIT)
}
