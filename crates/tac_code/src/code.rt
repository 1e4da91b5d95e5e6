// The code: instructions over numbered temporaries, routines, and the parts of a whole that is not yet tested.

use std::alloc::{AllocError, Global};
use std::marker::Model;
use std::rc::Rc;

/// Out of memory: the allocator refused a growth.
pub type OutOfMemory = AllocError;

/// The temporaries whose values a call passes, first parameter first.
pub struct Operands {
    alloc: Global,
    kept: Kept,
}

impl Drop for Operands {
    fn drop(self) {
        let Operands { alloc: _, kept: _ } = self;
    }
}

impl Model for Operands {
    ghost use Rattle.std.specs.Prelude.{ℕ, List};

    ghost Value = { List ℕ };

    ghost use Rattle.tac_code.specs.Kept.{kept_list, IsKept};

    ghost view = { λ o. kept_list o.kept };

    ghost invariant = { λ o. IsKept o.kept };
}

// Most calls pass few values. More lie behind a pointer, so that an instruction is small.
#[derive(Drop)]
enum Kept {
    Few(Four),
    Many(Box<Vec<u32>>),
}

// The first `count` of four.
#[derive(Drop)]
struct Four {
    count: u32,
    items: [u32; 4],
}

ghost use Rattle.std.specs.Prelude.{◌≡◌, [], ◌∷◌, ◌++◌, IfOk, OnOk, OnErr};

impl Operands {
    /// No operands.
    pub fn new(alloc: Global) -> Operands
        ensures { result ≡ [] }
    {
        Operands {
            alloc,
            kept: Kept::Few(Four {
                count: 0,
                items: [0; 4],
            }),
        }
    }

    /// Adds the temporary of the next parameter. After an error the operands are as they were.
    pub fn push(&mut self, temporary: u32) -> Result<(), OutOfMemory>
        ensures ok { OnOk result (self.new ≡ self.old ++ temporary ∷ []) }
        ensures err { OnErr result (self.new ≡ self.old) }
    {
        let many = match &mut self.kept {
            Kept::Few(few) => {
                if few.count < 4 {
                    few.items[few.count as usize] = temporary;
                    few.count += 1;
                    return Ok(());
                }
                one_more(self.alloc, &few.items, temporary)?
            }
            Kept::Many(list) => {
                list.push(temporary)?;
                return Ok(());
            }
        };
        self.kept = Kept::Many(many);
        Ok(())
    }

    /// The temporaries, first parameter first.
    pub fn as_slice(&self) -> &[u32]
        ensures { result.now ≡ self.now }
    {
        match &self.kept {
            Kept::Few(few) => &few.items[..few.count as usize],
            Kept::Many(list) => list.as_slice(),
        }
    }
}

// These temporaries and one more, with room for as many again.
fn one_more(alloc: Global, items: &[u32], temporary: u32) -> Result<Box<Vec<u32>>, OutOfMemory>
    ensures { IfOk result (λ list. list.value.items ≡ items.now ++ temporary ∷ []) }
{
    let mut list = Vec::with_capacity(alloc, 8)?;
    list.extend_from_slice(items)?;
    list.push(temporary)?;
    Ok(Box::new(alloc, list)?)
}

/// Integers are below it, and at or above its opposite.
pub const NUMBER_LIMIT: u32 = 2_147_483_648;

/// Offsets are below it, and so are the bytes of a block.
pub const BLOCK_LIMIT: u32 = 2_147_483_648;

/// The most object types, whose blocks are made by `new`.
pub const MAX_OBJECT_TYPES: usize = 1_048_576;

/// Operators on numbers. A result outside -2147483648..2147483647 is the error that the instruction names.
#[derive(Clone, Copy)]
pub enum Operator {
    Add,
    Subtract,
    Multiply,
    /// Truncates toward zero; a divisor of 0 is error 2.
    Divide,
    /// The k in 0..j-1 for which i - k is a multiple of j; a j below 1 is error 3.
    Modulo,
}

/// Operators on words, which never fail.
#[derive(Clone, Copy)]
pub enum BitOperator {
    And,
    Or,
    /// The bits of the left word that aren't in the right one.
    AndNot,
    /// By the right number modulo 32; bits shifted out of the word are lost.
    ShiftLeft,
    /// The sum modulo 2^32.
    Plus,
}

/// A relation between two numbers; two pointers are only equal or unequal.
#[derive(Clone, Copy)]
pub enum Relation {
    Equal,
    NotEqual,
    Less,
    LessEqual,
    Greater,
    GreaterEqual,
}

/// A block of memory. Activations and objects are numbered from 0 over the whole run, so no name is used twice.
#[derive(Clone, Copy)]
pub enum Block {
    /// The variables of an activation, with its parameters, result and static link.
    Frame(u64),
    /// Room of an activation for copied structures and for sets, between their evaluation and their use.
    Scratch(u64),
    Object(u64),
    /// The bytes of the `Text` at this place of this routine, which are read-only.
    Constant(u32, u64),
}

/// What a temporary or a word of memory holds. A truth value is 1 or 0, and nil is 0.
#[derive(Clone, Copy)]
pub enum Value {
    Number(i32),
    /// A block and an offset in bytes.
    Address(Block, u32),
    Routine(u32),
}

/// A right operand: what a temporary holds, or a number.
#[derive(Clone, Copy)]
pub enum Operand {
    Temporary(u32),
    Number(i32),
}

/// What an address is counted from.
#[derive(Clone, Copy)]
pub enum Base {
    /// The frame block of the activation itself.
    Frame,
    /// The scratch block of the activation itself.
    Scratch,
    /// The frame block of the program block.
    Program,
    /// The address that a temporary holds.
    Temporary(u32),
}

/// The bytes of a constant, such as those of a string. Several constants may share them.
pub struct Constant {
    list: Rc<Vec<u8>>,
}

impl Drop for Constant {
    fn drop(self) {
        let Constant { list: _ } = self;
    }
}

impl Model for Constant {
    ghost use Rattle.std.specs.Prelude.{ℕ, List};

    ghost Value = { List ℕ };

    ghost view = { λ c. c.list.value.items };
}

impl Constant {
    /// A constant of these bytes.
    pub fn new(alloc: Global, bytes: Vec<u8>) -> Result<Constant, OutOfMemory>
        ensures { IfOk result (λ constant. constant ≡ bytes.items) }
    {
        Ok(Constant::shared(Rc::new(alloc, bytes)?))
    }

    /// A constant whose bytes are shared with others.
    pub fn shared(bytes: Rc<Vec<u8>>) -> Constant
        ensures { result ≡ bytes.value.items }
    {
        Constant { list: bytes }
    }

    /// Its bytes, in order.
    pub fn as_slice(&self) -> &[u8]
        ensures { result.now ≡ self.now }
    {
        self.list.as_slice()
    }
}

/// One instruction. Offsets and widths are in bytes, jumps in instructions; `to` is the temporary that is written.
#[derive(Drop)]
pub enum Instruction {
    Literal {
        to: u32,
        value: i32,
    },
    Copy {
        to: u32,
        from: u32,
    },
    Arithmetic {
        operator: Operator,
        to: u32,
        left: u32,
        right: Operand,
        /// 0 says that the test can't fail.
        error: u8,
        line: u16,
    },
    Bits {
        operator: BitOperator,
        to: u32,
        left: u32,
        right: Operand,
    },
    /// 1 if the relation holds, otherwise 0. A pointer is nil or the address of an object.
    Compare {
        relation: Relation,
        to: u32,
        left: u32,
        right: Operand,
    },
    /// The error unless the number is in `low`..`high`.
    CheckRange {
        value: u32,
        low: i32,
        high: i32,
        /// 0 says that the test can't fail.
        error: u8,
        line: u16,
    },
    /// The error if the pointer is nil.
    CheckPointer {
        pointer: u32,
        /// 0 says that the test can't fail.
        error: u8,
        line: u16,
    },
    /// The address of these bytes.
    Text {
        to: u32,
        bytes: Constant,
    },
    /// The address `bytes` bytes further on, of `extent` bytes.
    Offset {
        to: u32,
        base: Base,
        bytes: u32,
        extent: u32,
    },
    /// The address of a component, `index - low` widths on; the error unless the index is in `low`..`high`.
    Index {
        to: u32,
        base: Base,
        index: u32,
        low: i32,
        high: i32,
        width: u32,
        /// 0 says that the test can't fail.
        error: u8,
        line: u16,
    },
    RoutineValue {
        to: u32,
        routine: u32,
    },
    Load {
        to: u32,
        base: Base,
        offset: u32,
    },
    Store {
        base: Base,
        offset: u32,
        from: u32,
    },
    LoadByte {
        to: u32,
        base: Base,
        offset: u32,
    },
    StoreByte {
        base: Base,
        offset: u32,
        from: u32,
    },
    /// Skips `forward` instructions.
    Jump {
        forward: u64,
    },
    /// Goes back `back` instructions, counted from the jump itself.
    JumpBack {
        back: u64,
    },
    /// Skips `forward` instructions if the relation holds, as `Compare` decides it.
    Branch {
        relation: Relation,
        left: u32,
        right: Operand,
        forward: u64,
    },
    /// Goes back `back` instructions, counted from the branch itself, if the relation holds.
    BranchBack {
        relation: Relation,
        left: u32,
        right: Operand,
        back: u64,
    },
    /// The line is that of the called name.
    Call {
        to: u32,
        routine: u32,
        operands: Operands,
        line: u16,
    },
    CallValue {
        to: u32,
        callee: u32,
        operands: Operands,
        line: u16,
    },
    Return {
        from: u32,
    },
    Trap {
        error: u8,
        line: u16,
    },
    /// The next byte of the input, or -1 at its end.
    Take {
        to: u32,
    },
    /// Writes a byte.
    Put {
        from: u32,
    },
    /// A new object of a type, with the line of the name `new`.
    New {
        to: u32,
        object_type: u32,
        line: u16,
    },
    /// The end of the program.
    End,
}

/// The instructions of a routine. Several codes may share them.
pub struct Body {
    list: Rc<Vec<Instruction>>,
}

impl Drop for Body {
    fn drop(self) {
        let Body { list: _ } = self;
    }
}

impl Model for Body {
    ghost use Rattle.std.specs.Prelude.{List};
    ghost use Rattle.tac_code.specs.declared.code.Instruction.{Instruction};

    ghost Value = { List Instruction };

    ghost view = { λ b. b.list.value.items };
}

impl Body {
    /// A body of these instructions.
    pub fn new(alloc: Global, instructions: Vec<Instruction>) -> Result<Body, OutOfMemory>
        ensures { IfOk result (λ body. body ≡ instructions.items) }
    {
        Ok(Body {
            list: Rc::new(alloc, instructions)?,
        })
    }

    /// The same body, which is shared: no instruction is copied.
    pub fn share(&self) -> Result<Body, OutOfMemory>
        ensures { IfOk result (λ body. body ≡ self.now) }
    {
        Ok(Body {
            list: self.list.clone()?,
        })
    }

    /// The instructions, in order.
    pub fn as_slice(&self) -> &[Instruction]
        ensures { result.now ≡ self.now }
    {
        self.list.as_slice()
    }
}

/// A routine. Its parameters arrive in its first temporaries.
pub struct TacRoutine {
    pub parameters: u32,
    pub temporaries: u32,
    /// The bytes of its frame block.
    pub frame: u32,
    /// The bytes of its scratch block.
    pub scratch: u32,
    /// The line of the `begin` of its block.
    pub line: u16,
    pub body: Body,
}

impl Drop for TacRoutine {
    fn drop(self) {
        let TacRoutine {
            parameters: _,
            temporaries: _,
            frame: _,
            scratch: _,
            line: _,
            body: _,
        } = self;
    }
}

/// The parts of a `Tac`, untested. Routines are numbered through both lists, the program's first.
pub struct TacRaw {
    /// The program block, routine 0, and the program's other routines.
    pub program: Vec<TacRoutine>,
    /// The routines of the run-time library, which make no calls.
    pub run_time: Vec<TacRoutine>,
    /// The bytes of an object of each type.
    pub objects: Vec<u32>,
}

impl Drop for TacRaw {
    fn drop(self) {
        let TacRaw {
            program: _,
            run_time: _,
            objects: _,
        } = self;
    }
}
