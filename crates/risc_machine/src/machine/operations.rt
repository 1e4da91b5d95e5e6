// The operations of the processor on words.

ghost use Rattle.std.specs.Prelude.{◌≡◌, ◌<◌, pos};
ghost use Rattle.std.specs.Prelude.{◌<ℤ◌};
ghost use Rattle.std.specs.Int.{from_bool};
ghost use Rattle.risc_machine.specs.Step.{signed};
ghost use Rattle.risc_machine.specs.Step.{with_carries, added, subtracted};
ghost use Rattle.risc_machine.specs.Step.{multiplied, divided, operated};
ghost use Rattle.risc_machine.specs.Exec.{AfterOperation};

use crate::arithmetic::{difference_overflows, sum_overflows, words_overflow, words_underflow};
use crate::machine::Machine;
use crate::stop::{Fault, Stop};
use risc_word::{Operation, Register};

impl Machine {
    // The flags C and V.
    fn set_carries(&mut self, carry: bool, overflow: bool)
        ensures { self.new ≡ with_carries carry overflow self.old }
    {
        self.carry = carry;
        self.overflow = overflow;
    }

    // A sum, with a carry.
    pub(super) fn add(&mut self, to: Register, left: u32, right: u32, carry: bool)
        ensures { self.new ≡ added to left right (from_bool carry) self.old }
    {
        let sum = u64::from(left) + u64::from(right) + carry as u64;
        self.set_carries(sum >= 4294967296, sum_overflows(left, right, carry));
        self.set_result(to, (sum % 4294967296) as u32);
    }

    // A difference, with a borrow.
    pub(super) fn subtract(&mut self, to: Register, left: u32, right: u32, borrow: bool)
        ensures { self.new ≡ subtracted to left right (from_bool borrow) self.old }
    {
        let taken = u64::from(right) + borrow as u64;
        self.set_carries(
            u64::from(left) < taken,
            difference_overflows(left, right, borrow),
        );
        self.set_result(
            to,
            ((u64::from(left) + 8589934592 - taken) % 4294967296) as u32,
        );
    }

    // A sum, without a carry.
    #[inline(always)]
    pub(super) fn add_words(&mut self, to: Register, left: u32, right: u32)
        ensures { self.new ≡ added to left right 0 self.old }
    {
        let sum = left.wrapping_add(right);
        self.set_carries(sum < left, words_overflow(left, right));
        self.set_result(to, sum);
    }

    // A difference, without a borrow.
    #[inline(always)]
    pub(super) fn subtract_words(&mut self, to: Register, left: u32, right: u32)
        ensures { self.new ≡ subtracted to left right 0 self.old }
    {
        let difference = left.wrapping_sub(right);
        self.set_carries(left < right, words_underflow(left, right));
        self.set_result(to, difference);
    }

    // A signed product, its high word in H.
    pub(super) fn multiply(&mut self, to: Register, left: u32, right: u32)
        ensures { self.new ≡ multiplied to left right self.old }
    {
        let product = (i64::from(left.cast_signed())
            * i64::from(right.cast_signed())).cast_unsigned();
        self.high = (product / 4294967296) as u32;
        self.set_result(to, (product % 4294967296) as u32);
    }

    // A floored quotient, its remainder in H.
    pub(super) fn divide(&mut self, to: Register, left: u32, right: u32)
        requires { pos 0 <ℤ signed right }
        ensures { self.new ≡ divided to left right self.old }
    {
        let dividend = left.cast_signed();
        let divisor = right.cast_signed();
        self.high = dividend.rem_euclid(divisor).cast_unsigned();
        self.set_result(to, dividend.div_euclid(divisor).cast_unsigned());
    }

    // An operation on two words.
    pub(super) fn operate(
        &mut self,
        operation: Operation,
        to: Register,
        left: u32,
        right: u32,
    ) -> Option<Stop>
        ensures { AfterOperation (operated operation to left right self.old) self.old self.new result }
    {
        match operation {
            Operation::Lsl => self.set_result(to, left.wrapping_shl(right)),
            Operation::Asr => self.set_result(
                to,
                left.cast_signed().wrapping_shr(right).cast_unsigned(),
            ),
            Operation::Ror => self.set_result(to, left.rotate_right(right)),
            Operation::And => self.set_result(to, left & right),
            Operation::Ann => self.set_result(to, left & !right),
            Operation::Ior => self.set_result(to, left | right),
            Operation::Xor => self.set_result(to, left ^ right),
            Operation::Add => self.add(to, left, right, false),
            Operation::Sub => self.subtract(to, left, right, false),
            Operation::Mul => self.multiply(to, left, right),
            Operation::Div => {
                if right.cast_signed() <= 0 {
                    return Some(Stop::Fault(Fault::BadDivisor));
                }
                self.divide(to, left, right)
            }
            Operation::Adc => self.add(to, left, right, self.carry),
            Operation::Sbc => self.subtract(to, left, right, self.carry),
        }
        self.advance();
        None
    }
}
