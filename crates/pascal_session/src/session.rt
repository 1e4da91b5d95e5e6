//! What a call of the program receives and reports: its words, its files and its streams.
//!
//! Contracts say what is made of what a reader returns, and the status. What a runtime's files and streams return and
//! accept, no contract can say, nor what reaches standard error.

ghost use Rattle.std.specs.Prelude.{◌≡◌, ◌≤◌, ◌<◌, ◌^◌, ◌++◌, [], ◌∷◌, IfOk, IfErr, OnOk, Some, None, codes, map};
ghost use Rattle.std.specs.Prelude.{string_bytes, true, vec_len};
ghost use Rattle.std.specs.Str.{bytes_eq};
ghost use Rattle.clap.specs.Faults.{fault_of};
ghost use Rattle.clap.specs.Values.{kind_of};
ghost use Rattle.pascal_command.specs.App.{pascal_app};
ghost use Rattle.pascal_command.specs.Command.{request_in, request_of};
ghost use Rattle.ps_diagnostic.specs.Printable.{printable};
ghost use Rattle.pascal_session.specs.Report.{status_of};
ghost use Rattle.pascal_session.specs.Session.{IsFrontOf, IsHelp, asks_version, is_help};

use crate::report::{lines_of, status};
use crate::transfer::{Counted, ReadFault, read_up_to};
use pascal_command::{CommandFault, Job, MAX_BUDGET, MAX_STEPS, command};
use ps_build::{Outcome, Refusal};
use ps_diagnostic::printable;
use std::alloc::{AllocError, Global};
use std::io::{self, Read};
use std::rt::{Env, Files};
use std::{env, fs};

/// One byte more than the longest text, so that a longer one can be recognised.
pub const TEXT_LIMIT: usize = 1_048_577;

/// The program's words as messages name them.
pub const COMMAND_LINE: &str = "the command line";

/// Standard input as messages name it.
pub const STANDARD_INPUT: &str = "standard input";

/// Standard output as messages name it.
pub const STANDARD_OUTPUT: &str = "standard output";

/// Standard error as messages name it.
pub const STANDARD_ERROR: &str = "standard error";

/// The status of every fault that is reported on a line of its own.
pub const FAILED: u8 = 1;

/// The words after the program's name. If out of memory, or if a word is not UTF-8, that is reported, and the status is
/// returned.
pub fn words<R: Eprint + Env + AllocGlobal>(rt: &R) -> Result<Vec<String>, u8>
    ensures { IfErr result (λ status. status ≡ FAILED) }
{
    match words_of(rt) {
        Ok(words) => Ok(words),
        Err(error) => Err(tell_words_fault(rt, &error)),
    }
}

// Reports why there are no words.
fn tell_words_fault<R: Eprint + AllocGlobal>(rt: &R, error: &io::Error) -> u8
    ensures { result ≡ FAILED }
{
    match error.kind() {
        io::ErrorKind::OutOfMemory => out_of_memory(rt),
        _ => cannot(rt, "read", COMMAND_LINE),
    }
}

fn words_of<R: Env + AllocGlobal>(rt: &R) -> io::Result<Vec<String>> {
    let words = env::args(rt)?.skip(1).collect(rt.alloc())?;
    Ok(words)
}

/// The texts of words, in the form that `asked` takes. If out of memory, that is reported, and the status is returned.
pub fn texts<'a, R: Eprint + AllocGlobal>(rt: &R, words: &'a [String]) -> Result<Vec<&'a str>, u8>
    ensures ok { IfOk result (λ texts. map (λ text. text.now) texts.items ≡ map string_bytes words.entry.now) }
    ensures err { IfErr result (λ status. status ≡ FAILED) }
{
    match texts_of(rt.alloc(), words) {
        Ok(texts) => Ok(texts),
        Err(_) => Err(out_of_memory(rt)),
    }
}

fn texts_of<'a>(alloc: Global, words: &'a [String]) -> Result<Vec<&'a str>, AllocError>
    ensures { IfOk result (λ texts. map (λ text. text.now) texts.items ≡ map string_bytes words.entry.now) }
{
    words.iter().map(|word| word.as_str()).collect(alloc)
}

/// Words as messages show them: as `printable` does, since controls could change what a terminal shows of the rest. If
/// out of memory, that is reported, and the status is returned.
pub fn shown_words<R: Eprint + AllocGlobal>(rt: &R, words: &[&str]) -> Result<Vec<String>, u8>
    ensures ok { IfOk result (λ shown. map string_bytes shown.items ≡ map (λ word. printable word.now) words.now) }
    ensures err { IfErr result (λ status. status ≡ FAILED) }
{
    match printable_words(rt.alloc(), words) {
        Ok(shown) => Ok(shown),
        Err(_) => Err(out_of_memory(rt)),
    }
}

// Adds a word as it is shown.
fn put_shown_word(alloc: Global, shown: &mut Vec<String>, word: &str) -> Result<(), AllocError>
    ensures { OnOk result (map string_bytes shown.new.items
        ≡ map string_bytes shown.old.items ++ printable word.now ∷ []) }
{
    let word = printable(alloc, word)?;
    shown.push(word)?;
    Ok(())
}

fn printable_words(alloc: Global, words: &[&str]) -> Result<Vec<String>, AllocError>
    ensures { IfOk result (λ shown. map string_bytes shown.items ≡ map (λ word. printable word.now) words.now) }
{
    let mut shown = Vec::new(alloc);
    let mut rest = words;
    while let [word, behind @ ..] = rest {
        put_shown_word(alloc, &mut shown, word)?;
        rest = behind;
    }
    Ok(shown)
}

/// Whether words request the version and nothing else.
pub fn asks_version(words: &[&str]) -> bool
    ensures { result ≡ asks_version (map (λ word. word.now) words.now) }
{
    match words.first() {
        Some(word) if words.len() == 1 => *word == "--version" || *word == "-V",
        _ => false,
    }
}

/// The job that words request. If they request none, that is reported, and the status is returned: 0 if they request
/// help, which was printed, otherwise 1, also if out of memory.
pub fn asked<'a, R: Print + Eprint + AllocGlobal>(
    rt: &R,
    words: &'a [&'a str],
) -> Result<Job<'a>, u8>
    ensures asked { IfOk result (λ job. request_of (map (λ word. word.now) words.entry.now) ≡ Some (request_in job)) }
    ensures stack { IfOk result (λ job. job.stack ≤ MAX_BUDGET) }
    ensures heap { IfOk result (λ job. job.heap ≤ MAX_BUDGET) }
    ensures least { IfOk result (λ job. 1 ≤ job.steps) }
    ensures most { IfOk result (λ job. job.steps ≤ MAX_STEPS) }
    ensures status { IfErr result (λ status. status ≤ FAILED) }
    ensures none { IfErr result (λ status. status ≡ 0 → request_of (map (λ word. word.now) words.entry.now) ≡ None) }
    ensures help { IfErr result (λ status. status ≡ 0 → IsHelp
        (fault_of pascal_app (map (λ word. word.now) words.entry.now))) }
{
    match command(rt.alloc(), words) {
        Ok(job) => Ok(job),
        Err(CommandFault::OutOfMemory) => Err(out_of_memory(rt)),
        Err(CommandFault::Line(error)) => Err(tell_line(rt, words, &error)),
        Err(CommandFault::Number(_)) => Err(tell_mistake(rt, words)),
    }
}

// Reports what is wrong with words, or prints the help that they request.
fn tell_line<R: Print + Eprint + AllocGlobal>(rt: &R, words: &[&str], error: &clap::Error) -> u8
    ensures status { result ≤ FAILED }
    ensures help { result ≡ 0 → is_help (kind_of error.now) ≡ true }
{
    if error.use_stderr() {
        return tell_mistake(rt, words);
    }
    match error.print(rt) {
        Ok(()) => 0,
        Err(_) => cannot(rt, "write", STANDARD_OUTPUT),
    }
}

// Reports what is wrong with words, which has them as they are shown.
fn tell_mistake<R: Print + Eprint + AllocGlobal>(rt: &R, words: &[&str]) -> u8
    ensures { result ≡ FAILED }
{
    let shown = match shown_words(rt, words) {
        Ok(shown) => shown,
        Err(status) => return status,
    };
    match texts(rt, &shown) {
        Ok(shown) => tell_fault(rt, &shown),
        Err(status) => status,
    }
}

// Reports what is wrong with words as they are shown. A control is in no word that would be right without it.
fn tell_fault<R: Print + Eprint + AllocGlobal>(rt: &R, shown: &[&str]) -> u8
    ensures { result ≡ FAILED }
{
    match command(rt.alloc(), shown) {
        Err(CommandFault::Line(error)) => {
            let _ = error.print(rt);
            FAILED
        }
        Err(CommandFault::Number(fault)) => {
            let _ = rt.eprint(fault);
            FAILED
        }
        Err(CommandFault::OutOfMemory) => out_of_memory(rt),
        Ok(_) => cannot(rt, "read", COMMAND_LINE),
    }
}

/// Reports how a run ended, or why there was none, and returns the status.
pub fn report_end<R: Eprint + AllocGlobal>(rt: &R, end: &Result<Outcome, Refusal>) -> u8
    ensures { result ≡ status_of end.now }
{
    // if the line can't be written, the status still shows the end
    let _ = rt.eprint(lines_of(end));
    status(end)
}

/// Reports that memory was refused.
pub fn out_of_memory<R: Eprint + AllocGlobal>(rt: &R) -> u8
    ensures { result ≡ FAILED }
{
    report_end(rt, &Err(Refusal::OutOfMemory))
}

/// Reports a stream that can't be read or written, by its name in messages.
pub fn cannot<R: Eprint>(rt: &R, verb: &str, name: &str) -> u8
    ensures { result ≡ FAILED }
{
    let _ = eprintln!(rt; "cannot {verb} {name}");
    FAILED
}

/// Reports a file that can't be read or written, by its path.
pub fn cannot_at<R: Eprint + AllocGlobal>(rt: &R, verb: &str, path: &str) -> u8
    ensures { result ≡ FAILED }
{
    tell(rt, format!(in rt.alloc(); "cannot {verb} {path}"))
}

/// Reports what failed, in one line, and returns the status. Whatever names and words are in it, the line is shown as
/// `printable` shows it, so that nothing in it changes what a terminal shows of the rest. If out of memory, also for
/// the line itself, that is reported instead.
pub fn tell<R: Eprint + AllocGlobal>(rt: &R, line: Result<String, AllocError>) -> u8
    ensures { result ≡ FAILED }
{
    match line {
        Ok(line) => tell_shown(rt, line.as_str()),
        Err(_) => out_of_memory(rt),
    }
}

// Reports what failed, in a line that was made.
fn tell_shown<R: Eprint + AllocGlobal>(rt: &R, line: &str) -> u8
    ensures { result ≡ FAILED }
{
    match printable(rt.alloc(), line) {
        Ok(shown) => put_line(rt, line, shown.as_str()),
        Err(_) => out_of_memory(rt),
    }
}

// Writes a line as it is shown to standard error.
fn put_line<R: Eprint>(rt: &R, line: &str, shown: &str) -> u8
    requires { shown.now ≡ printable line.now }
    ensures { result ≡ FAILED }
{
    let _ = line;
    // if the line can't be written, the status still shows that something failed
    let _ = eprintln!(rt; "{shown}");
    FAILED
}

// Reports why a text or an image wasn't read.
fn tell_read_fault<R: Eprint + AllocGlobal>(rt: &R, fault: ReadFault, path: &str) -> u8
    ensures { result ≡ FAILED }
{
    match fault {
        ReadFault::OutOfMemory => out_of_memory(rt),
        ReadFault::Device => cannot_at(rt, "read", path),
    }
}

/// The bytes of a reader that has this name in messages, at most the first `limit` of them. If it fails, or if out of
/// memory, that is reported, and the status is returned.
pub fn read_all<D: Read + Drop, R: Eprint + AllocGlobal>(
    rt: &R,
    reader: D,
    name: &str,
    limit: usize,
) -> Result<Vec<u8>, u8>
    requires { limit < 2 ^ 32 }
    ensures bound { IfOk result (λ bytes. vec_len bytes ≤ limit) }
    ensures bytes { IfOk result (λ bytes. IsFrontOf limit (D.remaining reader) bytes.items) }
    ensures err { IfErr result (λ status. status ≡ FAILED) }
{
    match read_up_to(rt.alloc(), &mut Counted::new(reader), limit) {
        Ok(bytes) => Ok(bytes),
        Err(fault) => Err(tell_read_fault(rt, fault, name)),
    }
}

/// The bytes of a file, as `read_all` returns those of a reader. If it can't be opened or read, that is reported, and
/// the status is returned.
pub fn read_file<R: Files + Eprint + AllocGlobal>(
    rt: &R,
    path: &str,
    limit: usize,
) -> Result<Vec<u8>, u8>
    requires { limit < 2 ^ 32 }
    ensures bound { IfOk result (λ bytes. vec_len bytes ≤ limit) }
    ensures err { IfErr result (λ status. status ≡ FAILED) }
{
    match fs::open(rt, path) {
        Ok(file) => read_all(rt, file, path, limit),
        Err(_) => Err(cannot_at(rt, "read", path)),
    }
}

/// The bytes of standard input, as `read_all` returns those of a reader.
pub fn read_standard_input<R: Eprint + Input + AllocGlobal>(
    rt: &R,
    limit: usize,
) -> Result<Vec<u8>, u8>
    requires { limit < 2 ^ 32 }
    ensures bound { IfOk result (λ bytes. vec_len bytes ≤ limit) }
    ensures err { IfErr result (λ status. status ≡ FAILED) }
{
    read_all(rt, rt.reader(), STANDARD_INPUT, limit)
}

/// Whether a path denotes standard input, or standard output.
pub fn is_standard(path: &str) -> bool
    ensures { result ≡ bytes_eq path.now (codes "-") }
{
    path == "-"
}

/// The bytes at a path, which may denote standard input, as `read_file` returns those of a file.
pub fn read_at<R: Files + Eprint + Input + AllocGlobal>(
    rt: &R,
    path: &str,
    limit: usize,
) -> Result<Vec<u8>, u8>
    requires { limit < 2 ^ 32 }
    ensures bound { IfOk result (λ bytes. vec_len bytes ≤ limit) }
    ensures err { IfErr result (λ status. status ≡ FAILED) }
{
    if is_standard(path) {
        read_standard_input(rt, limit)
    } else {
        read_file(rt, path, limit)
    }
}

/// The bytes of the text at a path.
pub fn read_text<R: Files + Eprint + Input + AllocGlobal>(rt: &R, path: &str) -> Result<Vec<u8>, u8>
    ensures bound { IfOk result (λ bytes. vec_len bytes ≤ TEXT_LIMIT) }
    ensures err { IfErr result (λ status. status ≡ FAILED) }
{
    read_at(rt, path, TEXT_LIMIT)
}
