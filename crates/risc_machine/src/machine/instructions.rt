// Instructions, each executed completely: branches, loads, stores, and what the device page reads and writes.

ghost use Rattle.std.specs.Prelude.{◌≡◌, ◌<◌, Some, None};
ghost use Rattle.risc_machine.specs.Step.{Goes};
ghost use Rattle.risc_machine.specs.Step.{operand_value, address, load_word, store_word};
ghost use Rattle.risc_machine.specs.Step.{load_byte, store_byte, holds, target_of, act_at};
ghost use Rattle.risc_machine.specs.Exec.{Performs, AfterOperation};

use crate::console::Console;
use crate::limits::{ADDRESSES, PLACES, SIGN_BIT};
use crate::machine::Machine;
use crate::machine::quick_parts::link_of;
use crate::stop::{Fault, Stop};
use risc_word::{Condition, Instr, Offset, Operand, Register, Target, Width};

// The addresses of the device page: a word stored at STOP stops the machine, and CONSOLE takes and puts bytes.
const STOP: usize = 0xFF_FFC4;

const CONSOLE: usize = 0xFF_FFC8;

impl Machine {
    // A second operand's value.
    fn operand(&self, operand: Operand) -> u32
        ensures { result ≡ operand_value self.now operand }
    {
        match operand {
            Operand::Content(register) => self.register(register),
            Operand::Constant(immediate) => immediate.value().cast_unsigned(),
        }
    }

    // Whether a condition holds.
    #[inline(always)]
    pub(super) fn holds(&self, condition: Condition) -> bool
        ensures { result ≡ holds self.now condition }
    {
        let negative = self.last >= SIGN_BIT;
        let equal = self.last == 0;
        match condition {
            Condition::Minus => negative,
            Condition::Equal => equal,
            Condition::CarrySet => self.carry,
            Condition::OverflowSet => self.overflow,
            Condition::Less => negative != self.overflow,
            Condition::LessEqual => negative != self.overflow || equal,
            Condition::Always => true,
            Condition::Plus => !negative,
            Condition::NotEqual => !equal,
            Condition::CarryClear => !self.carry,
            Condition::OverflowClear => !self.overflow,
            Condition::GreaterEqual => negative == self.overflow,
            Condition::Greater => negative == self.overflow && !equal,
            Condition::Never => false,
        }
    }

    // The address of a load or a store.
    fn address(&self, base: Register, offset: Offset) -> usize
        ensures value { result ≡ address self.now base offset }
        ensures range { result < ADDRESSES }
    {
        (self
            .register(base)
            .wrapping_add(offset.value().cast_unsigned())
            % ADDRESSES) as usize
    }

    // A branch: if it is taken, the target is read before the link is set.
    fn branch(&mut self, condition: Condition, link: bool, target: Target) -> Option<Stop>
        ensures state { Goes self.new ≡ act_at (Some (Instr.Branch condition link target)) self.old }
        ensures answer { result ≡ None }
    {
        let to = self.target(target);
        if !self.holds(condition) {
            self.advance();
            return None;
        }
        if link {
            self.set_result(Register::new(15), link_of(self.pc));
        }
        self.pc = to;
        None
    }

    // Where a taken branch goes.
    fn target(&self, target: Target) -> u32
        ensures value { result ≡ target_of self.now target }
        ensures range { result < PLACES }
    {
        match target {
            Target::Relative(distance) => {
                (self.pc + 1).wrapping_add(distance.value().cast_unsigned()) % PLACES
            }
            Target::Absolute(register) => self.register(register) % ADDRESSES / 4,
        }
    }

    // A load.
    fn load<C: Console>(
        &mut self,
        width: Width,
        to: Register,
        base: Register,
        offset: Offset,
        console: &mut C,
    ) -> Option<Stop>
        ensures { Performs (act_at (Some (Instr.Load width to base offset)) self.old) self.old
            (C.world console.old) self.new (C.world console.new) result }
    {
        let at = self.address(base, offset);
        match width {
            Width::Word => self.load_word(to, at, console),
            Width::Byte => self.load_byte(to, at),
        }
    }

    // A store.
    fn store<C: Console>(
        &mut self,
        width: Width,
        from: Register,
        base: Register,
        offset: Offset,
        console: &mut C,
    ) -> Option<Stop>
        ensures { Performs (act_at (Some (Instr.Store width from base offset)) self.old) self.old
            (C.world console.old) self.new (C.world console.new) result }
    {
        let at = self.address(base, offset);
        let word = self.register(from);
        match width {
            Width::Word => self.store_word(word, at, console),
            Width::Byte => self.store_byte(word, at),
        }
    }

    // A load of a word.
    fn load_word<C: Console>(&mut self, to: Register, at: usize, console: &mut C) -> Option<Stop>
        requires { at < ADDRESSES }
        ensures { Performs (load_word to at self.old) self.old (C.world console.old) self.new
            (C.world console.new) result }
    {
        if at % 4 != 0 {
            return Some(Stop::Fault(Fault::BadAddress));
        }
        if at + 4 <= self.memory.len() {
            let word = self.word(at);
            return self.finish(to, word);
        }
        if at != CONSOLE {
            return Some(Stop::Fault(Fault::BadAddress));
        }
        match console.take() {
            Ok(byte) => {
                self.advance();
                self.set_result(to, byte.map_or(u32::MAX, u32::from));
                None
            }
            Err(_) => Some(Stop::InputFault),
        }
    }

    // A store of a word.
    pub(super) fn store_word<C: Console>(
        &mut self,
        word: u32,
        at: usize,
        console: &mut C,
    ) -> Option<Stop>
        requires { at < ADDRESSES }
        ensures { Performs (store_word word at self.old) self.old (C.world console.old) self.new
            (C.world console.new) result }
    {
        if at % 4 != 0 {
            return Some(Stop::Fault(Fault::BadAddress));
        }
        if at + 4 <= self.memory.len() {
            self.set_word(at, word);
            self.advance();
            return None;
        }
        match at {
            CONSOLE => match console.put((word % 256) as u8) {
                Ok(()) => {
                    self.advance();
                    None
                }
                Err(_) => Some(Stop::OutputFault),
            },
            STOP => {
                self.advance();
                Some(if word == 0 {
                    Stop::Normal
                } else {
                    Stop::Trap(word)
                })
            }
            _ => Some(Stop::Fault(Fault::BadAddress)),
        }
    }

    // A load of a byte.
    fn load_byte(&mut self, to: Register, at: usize) -> Option<Stop>
        ensures { AfterOperation (load_byte to at self.old) self.old self.new result }
    {
        if at < self.memory.len() {
            let byte = self.memory[at];
            self.finish(to, u32::from(byte))
        } else {
            Some(Stop::Fault(Fault::BadAddress))
        }
    }

    // A store of a byte.
    fn store_byte(&mut self, word: u32, at: usize) -> Option<Stop>
        ensures { AfterOperation (store_byte word at self.old) self.old self.new result }
    {
        if at < self.memory.len() {
            self.set_byte(at, (word % 256) as u8);
            self.advance();
            None
        } else {
            Some(Stop::Fault(Fault::BadAddress))
        }
    }

    // One instruction.
    pub(super) fn execute<C: Console>(&mut self, instr: Instr, console: &mut C) -> Option<Stop>
        ensures { Performs (act_at (Some instr) self.old) self.old (C.world console.old) self.new
            (C.world console.new) result }
    {
        match instr {
            Instr::Move { to, operand } => self.finish(to, self.operand(operand)),
            Instr::MoveTop { to, top } => self.finish(to, u32::from(top) * 65536),
            Instr::MoveHigh { to } => self.finish(to, self.high),
            Instr::Operate {
                operation,
                to,
                left,
                right,
            } => self.operate(operation, to, self.register(left), self.operand(right)),
            Instr::Load {
                width,
                to,
                base,
                offset,
            } => self.load(width, to, base, offset, console),
            Instr::Store {
                width,
                from,
                base,
                offset,
            } => self.store(width, from, base, offset, console),
            Instr::Branch {
                condition,
                link,
                target,
            } => self.branch(condition, link, target),
        }
    }
}
