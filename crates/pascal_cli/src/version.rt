//! What `pascal --version` prints.

use std::rt::Env;
use std::{env, io};

/// The version of the program.
pub const VERSION: &str = "0.40.0";

/// The kit with which it is proved and built.
pub(crate) const KIT: &str = "rattle-kit-13f";

/// The machine that its images run on.
pub(crate) const TARGET: &str = "Project Oberon RISC, image version 2";

/// The variable in which the launcher passes the sum of the sources: no program can contain the sum of something that
/// it is part of.
pub(crate) const SOURCES: &str = "FONKJULD_SOURCES";

/// Prints the version, the kit, the sum of the sources and the target, a line for each.
pub fn print_version<R: Print + Env + AllocGlobal>(rt: &R) -> io::Result<()> {
    match env::var(rt, SOURCES) {
        Ok(sum) => print_lines(rt, sum.as_str()),
        Err(_) => print_lines(rt, "not known"),
    }
}

fn print_lines<R: Print>(rt: &R, sources: &str) -> io::Result<()> {
    println!(rt; "version {VERSION}\nkit {KIT}\nsources {sources}\ntarget {TARGET}")
}
