//! Program: the command `pascal`, which is one call of pascal_cli.
#![tactic(auto)]

use std::process::ExitCode;

fn main(rt: HostRuntime) -> ExitCode {
    ExitCode::from(status_of(&rt))
}

// Separate from `main`, because the emulator's loop then begins where processors read it fastest (bench/FIGURES.md).
#[inline(never)]
fn status_of(rt: &HostRuntime) -> u8 {
    pascal_cli::run(rt)
}
