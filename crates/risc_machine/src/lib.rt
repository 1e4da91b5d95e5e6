//! Code: the emulator of the processor: a machine, its steps, and runs of them over a console.
#![tactic(auto)]

mod arithmetic;
pub mod console;
mod decoded;
pub mod fused;
pub mod laws;
pub mod limits;
pub mod machine;
pub mod stop;
pub mod streams;

pub use console::{Console, DeviceFault};
pub use fused::Fused;
pub use laws::{exec_grows, runs_follow_exec};
pub use machine::{Flags, Machine, run};
pub use stop::{Fault, Stop};
pub use streams::Streams;

/// The allocator refused memory.
pub type OutOfMemory = std::alloc::AllocError;
