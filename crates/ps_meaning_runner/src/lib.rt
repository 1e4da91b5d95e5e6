//! Code: the reference interpreter, which runs a program as the definitions of ps_meaning say.
//!
//! The entry points are `run`, and `ending` with how a run ends: `reference_to_depth`, `reference_within`, `reference`
//! and `trail` return what `run_within`, `run` and `trail` of ps_meaning say, for every program, input and fuel, or
//! give up: out of memory, or if calls, statements and expressions are nested too deeply, which cannot happen if the
//! levels allowed are at least the fuel times the height of the program's highest body. `output` is the transcript
//! without its marks.
//!
//! Below it is the one cycle of calls, statements, choices, loops, transfers, expressions and operations; each of its
//! functions returns what the definition says, or stops (`stop`). It rests on parts that don't recurse into it, each
//! the definition of its name: values with their operators and texts, the world of stored values and environments, and
//! what is done with them once the operands have been read: tests, input, required procedures, costs, the entry of a
//! block.
#![tactic(auto)]

mod block;
mod calls;
mod choices;
mod cost;
pub mod ending;
mod expressions;
mod input;
mod loops;
mod operands;
mod operations;
mod operators;
mod required;
pub mod run;
mod statements;
mod stop;
mod text;
mod transfers;
mod value;
mod world;
