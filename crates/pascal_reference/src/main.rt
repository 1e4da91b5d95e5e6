//! Program: `pascal_reference` runs a text in other ways than `pascal go` does, to compare with it.
//!
//! It takes the words of `pascal go`, and has the same output, statuses and lines on standard error. It runs the
//! language's meaning by the reference interpreter, and `--steps` is the fuel: how many calls and iterations of loops
//! may be nested. It doesn't know what a run costs: it has no limits on stack and heap. After a first word `slots` it
//! runs an image in which each temporary has a slot of the frame. The whole input is read before the run, and the whole
//! output written after it. After `phases` it runs nothing: it takes the text of standard input through the phases of
//! the compiler, up to the one that the next word names: `read`, `scan`, `parse`, `check`, `lower`, `place`, `emit` or
//! `write`. After `places` it reports what the placers of temporaries make of that text: for each the words of the code,
//! and whether a copy of its homes is accepted. After `tables` it answers the rows of tables on standard input: the
//! results of single calls of the compiler's layers.
#![tactic(auto)]

mod phases;
mod places;
mod rows;
mod runs;
mod session;

use std::process::ExitCode;

fn main(rt: HostRuntime) -> ExitCode {
    ExitCode::from(session::run(&rt))
}
