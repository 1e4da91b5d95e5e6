//! Code: the processor's words and the instructions that they encode, both ways, and their printed form.
#![tactic(auto)]

pub mod field;
pub mod instr;
pub mod text;
pub mod word;

pub use field::{Displacement, Immediate, Offset, Register};
pub use instr::{Condition, Instr, Operand, Operation, Target, Width};
pub use text::{OutOfMemory, print};
pub use word::{decode, encode};
