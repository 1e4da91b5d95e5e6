// The code of a routine while it is made.

use crate::filling::{fill_with_branch, fill_with_jump, listed};
use crate::marks::{Mark, Marking};
use ps_tree::line::Line;
use ps_tree::types::Ordinal;
use std::alloc::{AllocError, Global};
use std::marker::Model;
use std::mem::replace;
use tac_code::code::{Base, BitOperator, Body, Constant, Instruction, Operand, Operator, Relation};

/// For how many instructions there is room at first.
const ROOM: usize = 1024;

/// From so many instructions on there is room for as many as are made at first.
const MANY: usize = 65_536;

/// How many instructions of a routine are made at first: twice as many as an image can hold, which take some 100 MB.
pub const MOST_MADE: usize = 2_097_152;

/// Instructions, to which more are added. A contract sees them as a list; marks only serve to show places in the text.
#[derive(Drop)]
pub struct Code {
    alloc: Global,
    list: Vec<Instruction>,
    /// One for each instruction, or none.
    marks: Vec<Mark>,
    marking: Marking,
    /// How many statements have begun.
    begun: u32,
    /// The number of the statement that the next instruction belongs to.
    statement: u32,
    /// How many instructions may be made at most.
    most: usize,
}

impl Model for Code {
    ghost use Rattle.std.specs.Prelude.{List};
    ghost use Rattle.tac_code.specs.declared.code.Instruction.{Instruction};

    ghost Value = { List Instruction };

    ghost view = { λ c. c.list.items };
}

ghost use Rattle.std.specs.Prelude.{◌≡◌, ◌-◌, [], ◌∷◌, ◌++◌, length, List, OnOk, IfOk};
ghost use Rattle.tac_code.specs.declared.code.Instruction.{Instruction};
ghost use Rattle.tac_code.specs.declared.code.Instruction.TheVariants as i;

/// For how many instructions more there shall be room: four times as many as there are, or at once all that may come.
fn room_beyond(count: usize) -> usize {
    if MANY <= count && count < MOST_MADE {
        MOST_MADE - count
    } else {
        count.saturating_mul(3).saturating_add(ROOM)
    }
}

impl Code {
    /// No instructions. More than `most` are refused, as if out of memory.
    pub fn new(alloc: Global, marking: Marking, most: usize) -> Code
        ensures { result ≡ [] }
    {
        Code {
            alloc,
            list: Vec::new(alloc),
            marks: Vec::new(alloc),
            marking,
            begun: 0,
            statement: 0,
            most,
        }
    }

    /// Whether a further instruction is refused, however much memory there is.
    pub fn is_full(&self) -> bool {
        self.list.len() >= self.most
    }

    /// Where memory comes from.
    pub fn alloc(&self) -> Global {
        self.alloc
    }

    /// The body of these instructions, which takes no more room than they need.
    pub fn into_body(self) -> Result<Body, AllocError>
        ensures { IfOk result (λ body. body ≡ self) }
    {
        let mut list = self.list;
        list.shrink_to_fit();
        Body::new(self.alloc, list)
    }

    /// Removes the marks of the instructions, and returns them.
    pub fn take_marks(&mut self) -> Vec<Mark>
        ensures { self.new ≡ self.old }
    {
        let mut marks = replace(&mut self.marks, Vec::new(self.alloc));
        marks.shrink_to_fit();
        marks
    }

    /// Begins the routine's next statement in the order of the text, and returns the number of the surrounding one.
    pub fn begin_statement(&mut self) -> u32
        ensures { self.new ≡ self.old }
    {
        let outer = self.statement;
        self.begun = self.begun.saturating_add(1);
        self.statement = self.begun;
        outer
    }

    /// Ends a statement: what comes next belongs to the surrounding one.
    pub fn end_statement(&mut self, outer: u32)
        ensures { self.new ≡ self.old }
    {
        self.statement = outer;
    }

    /// The place of the next instruction.
    pub fn place(&self) -> usize
        ensures { result ≡ length self.now }
    {
        self.list.len()
    }

    /// Marks the last instruction, if instructions are marked, with the token at which it is reported.
    fn mark(&mut self, at: Option<u32>) -> Result<(), AllocError>
        ensures { self.new ≡ self.old }
    {
        match self.marking {
            Marking::Off => Ok(()),
            Marking::On => {
                self.marks.push(Mark {
                    statement: self.statement,
                    at,
                })?;
                Ok(())
            }
        }
    }

    /// Makes more room if none is left, and more than needed: moving instructions takes time, and empty room none.
    fn make_room(&mut self)
        ensures { self.new ≡ self.old }
    {
        let count = self.list.len();
        if count == self.list.capacity() {
            let _ = self.list.reserve(room_beyond(count)); // (if there is less memory, a push finds what there is)
        }
    }

    /// Adds an instruction, and the token at which it is reported. Inlined, so that the instruction isn't copied.
    #[inline(always)]
    fn add(&mut self, instruction: Instruction, at: Option<u32>) -> Result<(), AllocError>
        ensures { OnOk result (self.new ≡ self.old ++ instruction ∷ []) }
    {
        if self.is_full() {
            return Err(AllocError);
        }
        self.make_room();
        self.list.push(instruction)?;
        self.mark(at)
    }

    /// Adds an instruction.
    #[inline(always)]
    pub fn push(&mut self, instruction: Instruction) -> Result<(), AllocError>
        ensures { OnOk result (self.new ≡ self.old ++ instruction ∷ []) }
    {
        self.add(instruction, None)
    }

    /// Adds an instruction that is reported at the token of a line.
    #[inline(always)]
    pub fn push_at(&mut self, instruction: Instruction, line: Line) -> Result<(), AllocError>
        ensures { OnOk result (self.new ≡ self.old ++ instruction ∷ []) }
    {
        self.add(instruction, Some(line.at))
    }

    /// Loads a number.
    pub fn literal(&mut self, to: u32, value: i32) -> Result<(), AllocError>
        ensures { OnOk result (self.new ≡ self.old ++ i.Literal to value ∷ []) }
    {
        self.push(Instruction::Literal { to, value })
    }

    /// An operator on numbers.
    pub fn arithmetic(
        &mut self,
        operator: Operator,
        to: u32,
        left: u32,
        right: Operand,
        error: u8,
        line: Line,
    ) -> Result<(), AllocError>
        ensures { OnOk result (self.new ≡ self.old ++ i.Arithmetic operator to left right error line.number ∷ []) }
    {
        self.push_at(
            Instruction::Arithmetic {
                operator,
                to,
                left,
                right,
                error,
                line: line.number,
            },
            line,
        )
    }

    /// An operator on words.
    pub fn bits(
        &mut self,
        operator: BitOperator,
        to: u32,
        left: u32,
        right: Operand,
    ) -> Result<(), AllocError>
        ensures { OnOk result (self.new ≡ self.old ++ i.Bits operator to left right ∷ []) }
    {
        self.push(Instruction::Bits {
            operator,
            to,
            left,
            right,
        })
    }

    /// The truth value of a relation.
    pub fn compare(
        &mut self,
        relation: Relation,
        to: u32,
        left: u32,
        right: Operand,
    ) -> Result<(), AllocError>
        ensures { OnOk result (self.new ≡ self.old ++ i.Compare relation to left right ∷ []) }
    {
        self.push(Instruction::Compare {
            relation,
            to,
            left,
            right,
        })
    }

    /// The test that a number is in a range.
    pub fn check_range(
        &mut self,
        value: u32,
        low: i32,
        high: i32,
        error: u8,
        line: Line,
    ) -> Result<(), AllocError>
        ensures { OnOk result (self.new ≡ self.old ++ i.CheckRange value low high error line.number ∷ []) }
    {
        self.push_at(
            Instruction::CheckRange {
                value,
                low,
                high,
                error,
                line: line.number,
            },
            line,
        )
    }

    /// The address of a component, after the test that its index is in a range, or error 5.
    pub fn index(
        &mut self,
        to: u32,
        base: Base,
        index: u32,
        range: Ordinal,
        width: u32,
        line: Line,
    ) -> Result<(), AllocError>
        ensures { OnOk result (self.new ≡ self.old ++ i.Index to base index range.low range.high width 5 line.number
            ∷ []) }
    {
        self.push_at(
            Instruction::Index {
                to,
                base,
                index,
                low: range.low,
                high: range.high,
                width,
                error: 5,
                line: line.number,
            },
            line,
        )
    }

    /// The address of a constant.
    pub fn text(&mut self, to: u32, bytes: Constant) -> Result<(), AllocError>
        ensures { OnOk result (self.new ≡ self.old ++ i.Text to bytes ∷ []) }
    {
        self.push(Instruction::Text { to, bytes })
    }

    /// An address `bytes` bytes from a base.
    pub fn offset(&mut self, to: u32, base: Base, bytes: u32, extent: u32) -> Result<(), AllocError>
        ensures { OnOk result (self.new ≡ self.old ++ i.Offset to base bytes extent ∷ []) }
    {
        self.push(Instruction::Offset {
            to,
            base,
            bytes,
            extent,
        })
    }

    /// A word from memory.
    pub fn load(&mut self, to: u32, base: Base, offset: u32) -> Result<(), AllocError>
        ensures { OnOk result (self.new ≡ self.old ++ i.Load to base offset ∷ []) }
    {
        self.push(Instruction::Load { to, base, offset })
    }

    /// A byte from memory.
    pub fn load_byte(&mut self, to: u32, base: Base, offset: u32) -> Result<(), AllocError>
        ensures { OnOk result (self.new ≡ self.old ++ i.LoadByte to base offset ∷ []) }
    {
        self.push(Instruction::LoadByte { to, base, offset })
    }

    /// A word to memory.
    pub fn store(&mut self, base: Base, offset: u32, from: u32) -> Result<(), AllocError>
        ensures { OnOk result (self.new ≡ self.old ++ i.Store base offset from ∷ []) }
    {
        self.push(Instruction::Store { base, offset, from })
    }

    /// A byte to memory.
    pub fn store_byte(&mut self, base: Base, offset: u32, from: u32) -> Result<(), AllocError>
        ensures { OnOk result (self.new ≡ self.old ++ i.StoreByte base offset from ∷ []) }
    {
        self.push(Instruction::StoreByte { base, offset, from })
    }

    /// Skips `forward` instructions.
    pub fn jump(&mut self, forward: u64) -> Result<(), AllocError>
        ensures { OnOk result (self.new ≡ self.old ++ i.Jump forward ∷ []) }
    {
        self.push(Instruction::Jump { forward })
    }

    /// Skips `forward` instructions if a relation holds.
    pub fn branch(
        &mut self,
        relation: Relation,
        left: u32,
        right: Operand,
        forward: u64,
    ) -> Result<(), AllocError>
        ensures { OnOk result (self.new ≡ self.old ++ i.Branch relation left right forward ∷ []) }
    {
        self.push(Instruction::Branch {
            relation,
            left,
            right,
            forward,
        })
    }

    /// Goes back to a place if a relation holds.
    pub fn branch_back(
        &mut self,
        relation: Relation,
        left: u32,
        right: Operand,
        place: usize,
    ) -> Result<(), AllocError>
        ensures { OnOk result (self.new ≡ self.old ++ i.BranchBack relation left right (length self.old - place) ∷ []) }
    {
        let back = self.list.len().saturating_sub(place) as u64;
        self.push(Instruction::BranchBack {
            relation,
            left,
            right,
            back,
        })
    }

    /// An error.
    pub fn trap(&mut self, error: u8, line: Line) -> Result<(), AllocError>
        ensures { OnOk result (self.new ≡ self.old ++ i.Trap error line.number ∷ []) }
    {
        self.push_at(
            Instruction::Trap {
                error,
                line: line.number,
            },
            line,
        )
    }

    /// The return from a routine.
    pub fn return_from(&mut self, from: u32) -> Result<(), AllocError>
        ensures { OnOk result (self.new ≡ self.old ++ i.Return from ∷ []) }
    {
        self.push(Instruction::Return { from })
    }

    /// A call that passes these temporaries.
    pub fn call(
        &mut self,
        to: u32,
        routine: u32,
        operands: &[u32],
        line: Line,
    ) -> Result<(), AllocError>
        ensures { OnOk result (self.new ≡ self.old ++ i.Call to routine operands.now line.number ∷ []) }
    {
        let operands = listed(self.alloc, operands)?;
        self.push_at(
            Instruction::Call {
                to,
                routine,
                operands,
                line: line.number,
            },
            line,
        )
    }

    /// A call of a run-time routine, which is not reported at any line.
    pub fn call_run_time(
        &mut self,
        to: u32,
        routine: u32,
        operands: &[u32],
    ) -> Result<(), AllocError>
        ensures { OnOk result (self.new ≡ self.old ++ i.Call to routine operands.now 1 ∷ []) }
    {
        let operands = listed(self.alloc, operands)?;
        self.push(Instruction::Call {
            to,
            routine,
            operands,
            line: 1,
        })
    }

    /// A call of the routine in a temporary.
    pub fn call_value(
        &mut self,
        to: u32,
        callee: u32,
        operands: &[u32],
        line: Line,
    ) -> Result<(), AllocError>
        ensures { OnOk result (self.new ≡ self.old ++ i.CallValue to callee operands.now line.number ∷ []) }
    {
        let operands = listed(self.alloc, operands)?;
        self.push_at(
            Instruction::CallValue {
                to,
                callee,
                operands,
                line: line.number,
            },
            line,
        )
    }

    /// Leaves room for a jump whose distance isn't known yet, and returns its place.
    pub fn room(&mut self) -> Result<usize, AllocError>
        ensures place { IfOk result (λ place. place ≡ length self.old) }
        ensures room { OnOk result (self.new ≡ self.old ++ i.End ∷ []) }
    {
        let place = self.list.len();
        self.push(Instruction::End)?;
        Ok(place)
    }

    /// Puts a jump into its room: past all instructions after it.
    pub fn set_jump(&mut self, place: usize)
        ensures { (before : List Instruction) (filler : Instruction) (behind : List Instruction) → self.old ≡ before
            ++ filler ∷ behind → place ≡ length before → self.new ≡ before ++ i.Jump (length behind) ∷ behind }
    {
        fill_with_jump(&mut self.list, place);
    }

    /// Puts a branch into its room: past all instructions after it.
    pub fn set_branch(&mut self, place: usize, relation: Relation, left: u32, right: Operand)
        ensures { (before : List Instruction) (filler : Instruction) (behind : List Instruction) → self.old ≡ before
            ++ filler ∷ behind → place ≡ length before → self.new ≡ before ++ i.Branch relation left right
            (length behind) ∷ behind }
    {
        fill_with_branch(&mut self.list, place, relation, left, right);
    }
}
