// The instructions of the run-time routines, as tables can hold them.

ghost use Rattle.std.specs.Prelude.{◌≡◌};
ghost use Rattle.tac_rt.specs.Bodies.{instruction_of};

use tac_code::code::{Base, BitOperator, Instruction, Operand, Operator, Relation};

/// An instruction of a run-time routine, with the temporary that it writes first. Bases are addresses in temporaries.
/// None of them ever fails, so they have neither an error nor a line.
#[derive(Clone, Copy)]
pub enum Step {
    Literal(u32, i32),
    Copy(u32, u32),
    Arithmetic(Operator, u32, u32, Operand),
    Bits(BitOperator, u32, u32, Operand),
    Compare(Relation, u32, u32, Operand),
    /// The address a number of bytes on.
    Offset(u32, u32, u32),
    /// The address of a set's word, by the number of the word.
    SetWord(u32, u32, u32),
    Load(u32, u32, u32),
    Store(u32, u32, u32),
    LoadByte(u32, u32, u32),
    StoreByte(u32, u32, u32),
    Jump(u64),
    JumpBack(u64),
    Branch(Relation, u32, Operand, u64),
    BranchBack(Relation, u32, Operand, u64),
    Return(u32),
    Take(u32),
    Put(u32),
}

impl Step {
    /// The instruction itself.
    pub fn instruction(self) -> Instruction
        ensures { result ≡ instruction_of self }
    {
        match self {
            Step::Literal(to, value) => Instruction::Literal { to, value },
            Step::Copy(to, from) => Instruction::Copy { to, from },
            Step::Arithmetic(operator, to, left, right) => Instruction::Arithmetic {
                operator,
                to,
                left,
                right,
                error: 0,
                line: 1,
            },
            Step::Bits(operator, to, left, right) => Instruction::Bits {
                operator,
                to,
                left,
                right,
            },
            Step::Compare(relation, to, left, right) => Instruction::Compare {
                relation,
                to,
                left,
                right,
            },
            Step::Offset(to, base, bytes) => Instruction::Offset {
                to,
                base: Base::Temporary(base),
                bytes,
                extent: 0,
            },
            Step::SetWord(to, base, index) => Instruction::Index {
                to,
                base: Base::Temporary(base),
                index,
                low: 0,
                high: 7,
                width: 4,
                error: 0,
                line: 1,
            },
            Step::Load(to, base, offset) => Instruction::Load {
                to,
                base: Base::Temporary(base),
                offset,
            },
            Step::Store(base, offset, from) => Instruction::Store {
                base: Base::Temporary(base),
                offset,
                from,
            },
            Step::LoadByte(to, base, offset) => Instruction::LoadByte {
                to,
                base: Base::Temporary(base),
                offset,
            },
            Step::StoreByte(base, offset, from) => Instruction::StoreByte {
                base: Base::Temporary(base),
                offset,
                from,
            },
            Step::Jump(forward) => Instruction::Jump { forward },
            Step::JumpBack(back) => Instruction::JumpBack { back },
            Step::Branch(relation, left, right, forward) => Instruction::Branch {
                relation,
                left,
                right,
                forward,
            },
            Step::BranchBack(relation, left, right, back) => Instruction::BranchBack {
                relation,
                left,
                right,
                back,
            },
            Step::Return(from) => Instruction::Return { from },
            Step::Take(to) => Instruction::Take { to },
            Step::Put(from) => Instruction::Put { from },
        }
    }
}
