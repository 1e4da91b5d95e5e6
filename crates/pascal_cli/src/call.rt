//! One call of the program: from its words to its status.

ghost use Rattle.std.specs.Prelude.{◌≡◌, ◌≤◌, Some, map, string_bytes};
ghost use Rattle.pascal_command.specs.Command.{Request, request_of};
ghost use Rattle.pascal_command.specs.Options.{plain_words};
ghost use Rattle.pascal_command.specs.Wanted.{wanted_in, wanted_of};
ghost use Rattle.pascal_cli.specs.Jobs.{IsStatus};

use crate::jobs::do_job;
use crate::version::print_version;
use pascal_command::{OptionFault, Options, options_of, plain_words};
use pascal_session::{
    COMMAND_LINE, FAILED, STANDARD_OUTPUT, asked, asks_version, cannot, out_of_memory, shown_words,
    texts, words,
};
use std::fs::File;
use std::random::RandomSource;
use std::rt::{Env, Files};

/// Does what the program's words request, and returns the program's status.
///
/// Faults are found in this order: the words, reading, refusals by their phases, the run, writing. Each is reported on
/// standard error.
pub fn run<R>(rt: &R) -> u8
where
    R: Files<File = File> + RandomSource + Print + Eprint + Input + Env + AllocGlobal,
{
    match words(rt) {
        Ok(words) => run_words(rt, &words),
        Err(status) => status,
    }
}

// Does what words request.
fn run_words<R>(rt: &R, words: &[String]) -> u8
where
    R: Files<File = File> + RandomSource + Print + Eprint + Input + Env + AllocGlobal,
    ensures { (request : Request) → request_of (plain_words (map string_bytes words.now)) ≡ Some request
        → IsStatus request result }
{
    match texts(rt, words) {
        Ok(texts) => run_texts(rt, &texts),
        Err(status) => status,
    }
}

// Does what texts request.
fn run_texts<R>(rt: &R, texts: &[&str]) -> u8
where
    R: Files<File = File> + RandomSource + Print + Eprint + Input + Env + AllocGlobal,
    ensures { (request : Request) → request_of (plain_words (map (λ text. text.now) texts.now)) ≡ Some request
        → IsStatus request result }
{
    if asks_version(texts) {
        return tell_version(rt);
    }
    match options_of(rt.alloc(), texts) {
        Ok(options) => run_with(rt, texts, &options),
        Err(_) => tell_option(rt, texts),
    }
}

// Reports what is wrong with an option of texts, which has them as they are shown.
fn tell_option<R: Eprint + AllocGlobal>(rt: &R, words: &[&str]) -> u8
    ensures { result ≡ FAILED }
{
    let shown = match shown_words(rt, words) {
        Ok(shown) => shown,
        Err(status) => return status,
    };
    match texts(rt, &shown) {
        Ok(shown) => tell_option_fault(rt, &shown),
        Err(status) => status,
    }
}

// Reports what is wrong with an option of texts as they are shown. A control is in no option that would be right
// without it.
fn tell_option_fault<R: Eprint + AllocGlobal>(rt: &R, shown: &[&str]) -> u8
    ensures { result ≡ FAILED }
{
    match options_of(rt.alloc(), shown) {
        Err(OptionFault::OutOfMemory) => out_of_memory(rt),
        Err(fault) => {
            let _ = rt.eprint(fault);
            FAILED
        }
        Ok(_) => cannot(rt, "read", COMMAND_LINE),
    }
}

// Does what texts request, which include options.
fn run_with<R>(rt: &R, texts: &[&str], options: &Options<'_>) -> u8
where
    R: Files<File = File> + RandomSource + Print + Eprint + Input + Env + AllocGlobal,
    requires { wanted_of (map (λ text. text.now) texts.now) ≡ Some (wanted_in options.now) }
    ensures { (request : Request) → request_of (plain_words (map (λ text. text.now) texts.now)) ≡ Some request
        → IsStatus request result }
{
    match plain_words(rt.alloc(), texts) {
        Ok(plain) => run_plain(rt, &plain, options),
        Err(_) => out_of_memory(rt),
    }
}

// Does what texts without such options request, in the way the options say.
fn run_plain<R>(rt: &R, texts: &[&str], options: &Options<'_>) -> u8
where
    R: Files<File = File> + RandomSource + Print + Eprint + Input + Env + AllocGlobal,
    ensures { (request : Request) → request_of (map (λ text. text.now) texts.now) ≡ Some request
        → IsStatus request result }
{
    match asked(rt, texts) {
        Ok(job) => do_job(rt, &job, options),
        Err(status) => status,
    }
}

// Prints the version, and returns the status.
fn tell_version<R: Print + Eprint + Env + AllocGlobal>(rt: &R) -> u8
    ensures { result ≤ FAILED }
{
    match print_version(rt) {
        Ok(()) => 0,
        Err(_) => cannot(rt, "write", STANDARD_OUTPUT),
    }
}
