// The words of the command line.

mod grammar;

ghost use Rattle.std.specs.Prelude.{◌≡◌, ◌≤◌, IfOk, IfErr, IfSome, List, None, Some, codes, is_some, not, option_map};
ghost use Rattle.std.specs.Prelude.{string_bytes, ℕ, true, false, map};
ghost use Rattle.clap.specs.Kinds.{Kinds};
ghost use Rattle.clap.specs.Walk.{first_of};
ghost use Rattle.clap.specs.Words.{fault_of, found_of, one_of, rows_of, subcommand_rows_of};
ghost use Rattle.pascal_command.specs.App.{HasLimits, IsLineOf, IsWithin};
ghost use Rattle.pascal_command.specs.App.{fault_in, found_digits};
ghost use Rattle.pascal_command.specs.App.{pascal_app, row_digits, row_files};
ghost use Rattle.pascal_command.specs.App.{row_path, row_request, row_words, row_work, run_work};
ghost use Rattle.pascal_command.specs.App.{whole};
ghost use Rattle.pascal_command.specs.Command as work;
ghost use Rattle.pascal_command.specs.Command.{are_digits, is_digits, is_line_fault, request_in, request_of, topic_of};
ghost use Rattle.pascal_command.specs.Command.{work_of};
ghost use Rattle.pascal_command.specs.declared.job.CommandFault.TheVariants.{OutOfMemory};

use crate::job::grammar::pascal;
use clap::ArgMatches;
use clap::error::ErrorKind;
use std::alloc::{AllocError, Global};
use thiserror::Error;

/// The most bytes of memory that a stack or a heap may have: all below the device page.
pub const MAX_BUDGET: u32 = 16_777_152;

/// The most steps that a run may have.
pub const MAX_STEPS: u64 = 1_000_000_000_000;

/// The bytes of the stack, if none are given.
pub const DEFAULT_STACK: u32 = 4_194_304;

/// The bytes of the heap, if none are given.
pub const DEFAULT_HEAP: u32 = 1_048_576;

/// The most steps of a run, if no number is given.
pub const DEFAULT_STEPS: u64 = 1_000_000_000;

/// What is reported of a run.
#[derive(Clone, Copy)]
pub enum Watch {
    /// How it ended and where, and the variables of the open calls.
    Why,
    /// Each statement as it is done.
    Trace,
    /// How often each statement was done.
    Cover,
    /// Where its steps went.
    Profile,
}

/// What is requested, with its paths.
#[derive(Drop)]
pub enum Task<'a> {
    /// Compiles a source and writes its image.
    Compile {
        source: &'a str,
        image: &'a str,
    },
    /// Compiles a source and lists its image.
    List {
        source: &'a str,
    },
    /// Runs an image.
    Run {
        image: &'a str,
    },
    /// Compiles a source and runs it.
    Go {
        source: &'a str,
    },
    /// Without words: compiles standard input and runs it on empty input.
    GoStandardInput,
    /// Shows the pages that a text selects, or their titles if it is empty.
    Explain {
        topic: String,
    },
    /// Reports for each of some sources whether it is accepted, and why not.
    Check {
        files: Vec<&'a str>,
    },
    /// Writes the certificate of a source and its image.
    Certify {
        source: &'a str,
        image: &'a str,
    },
    /// Compares a certificate with a source and an image.
    Verify {
        certificate: &'a str,
        source: &'a str,
        image: &'a str,
    },
    /// Compiles a source and reports how much stack and heap its image needs.
    Needs {
        source: &'a str,
    },
    /// Compiles a source, runs it and reports the run.
    Watch {
        how: Watch,
        source: &'a str,
    },
}

/// What the words of the command line request.
#[derive(Drop)]
pub struct Job<'a> {
    pub task: Task<'a>,
    /// The bytes of the stack, given or default.
    pub stack: u32,
    /// The bytes of the heap, given or default.
    pub heap: u32,
    /// The steps that a run may make, given or default.
    pub steps: u64,
}

/// A number that was given and is not digits alone, which `clap` lets pass.
#[derive(Clone, Copy, Debug, Error)]
#[error("error: invalid value '{text}' for '--{option} <{unit}>': invalid digit found in string\n\nFor more information, try '--help'.\n")]
pub struct NumberFault<'a> {
    option: &'static str,
    unit: &'static str,
    text: &'a str,
}

/// Why the words request nothing.
#[derive(Drop)]
pub enum CommandFault<'a> {
    /// The words were refused, or they request help: the text is `clap`'s.
    Line(clap::Error),
    /// A number is not digits alone: the text is as `clap`'s.
    Number(NumberFault<'a>),
    /// A growth was refused.
    OutOfMemory,
}

impl<'a> From<AllocError> for CommandFault<'a> {
    ghost from_gives = { λ _ fault. fault ≡ OutOfMemory };

    fn from(_error: AllocError) -> CommandFault<'a> {
        CommandFault::OutOfMemory
    }
}

impl<'a> From<clap::Error> for CommandFault<'a> {
    ghost from_gives = { λ error fault. fault ≡ fault_in error };

    fn from(error: clap::Error) -> CommandFault<'a> {
        match error.kind() {
            ErrorKind::OutOfMemory => CommandFault::OutOfMemory,
            _ => CommandFault::Line(error),
        }
    }
}

// A budget as it was given. `clap` has refused values outside the range.
fn budget_of(matches: &ArgMatches<'_>, name: &str, default: u32) -> u32
    requires { default ≤ MAX_BUDGET }
    ensures most { result ≤ MAX_BUDGET }
    ensures none { one_of name.now (rows_of (found_of matches.now)) ≡ None → result ≡ default }
    ensures some { (text : List ℕ) → one_of name.now (rows_of (found_of matches.now)) ≡ Some text
        → IsWithin 0 MAX_BUDGET text → result ≡ whole text }
{
    matches
        .get_one::<u32>(name)
        .unwrap_or(default)
        .min(MAX_BUDGET)
}

fn steps_of(matches: &ArgMatches<'_>) -> u64
    ensures least { 1 ≤ result }
    ensures most { result ≤ MAX_STEPS }
    ensures none { one_of (codes "steps") (rows_of (found_of matches.now)) ≡ None → result ≡ DEFAULT_STEPS }
    ensures some { (text : List ℕ) → one_of (codes "steps") (rows_of (found_of matches.now)) ≡ Some text
        → IsWithin 1 MAX_STEPS text → result ≡ whole text }
{
    matches
        .get_one::<u64>("steps")
        .unwrap_or(DEFAULT_STEPS)
        .clamp(1, MAX_STEPS)
}

// A path that the command must have: `clap` has refused the words without it.
fn path_of<'a>(matches: &ArgMatches<'a>, name: &str) -> &'a str
    ensures { result.now ≡ row_path name.now (rows_of (found_of matches.now)) }
{
    matches.get_str(name).unwrap_or("")
}

// The words of a topic, with a space between them.
fn topic_of(alloc: Global, matches: &ArgMatches<'_>) -> Result<String, AllocError>
    ensures { IfOk result (λ topic. string_bytes topic ≡ topic_of (row_words (rows_of (found_of matches.now)))) }
{
    match matches.get_strs("WORD") {
        Some(words) => words.join(alloc, " "),
        None => Ok(String::new(alloc)),
    }
}

// The paths of a command that takes several.
fn files_of<'a>(alloc: Global, matches: &ArgMatches<'a>) -> Result<Vec<&'a str>, AllocError>
    ensures { IfOk result (λ files. map (λ file. file.now) files.items ≡ row_files (rows_of (found_of matches.now))) }
{
    match matches.get_strs("FILE") {
        Some(files) => Vec::from_slice(alloc, files),
        None => Ok(Vec::new(alloc)),
    }
}

// The work of a command that runs a source.
fn run_task<'a>(name: &str, source: &'a str) -> Task<'a>
    ensures { work_of result ≡ run_work name.now source.now }
{
    match name {
        "why" => Task::Watch {
            how: Watch::Why,
            source,
        },
        "trace" => Task::Watch {
            how: Watch::Trace,
            source,
        },
        "cover" => Task::Watch {
            how: Watch::Cover,
            source,
        },
        "profile" => Task::Watch {
            how: Watch::Profile,
            source,
        },
        _ => Task::Go { source },
    }
}

// The work of `explain`.
fn explain_task<'a>(alloc: Global, matches: &ArgMatches<'a>) -> Result<Task<'a>, AllocError>
    ensures { IfOk result (λ task. work_of task ≡ work.explain
        (topic_of (row_words (rows_of (found_of matches.now))))) }
{
    match topic_of(alloc, matches) {
        Ok(topic) => Ok(Task::Explain { topic }),
        Err(error) => Err(error),
    }
}

// The work of `check`.
fn check_task<'a>(alloc: Global, matches: &ArgMatches<'a>) -> Result<Task<'a>, AllocError>
    ensures { IfOk result (λ task. work_of task ≡ work.check (row_files (rows_of (found_of matches.now)))) }
{
    match files_of(alloc, matches) {
        Ok(files) => Ok(Task::Check { files }),
        Err(error) => Err(error),
    }
}

fn task_of<'a>(alloc: Global, name: &str, matches: &ArgMatches<'a>) -> Result<Task<'a>, AllocError>
    ensures { IfOk result (λ task. work_of task ≡ row_work name.now (rows_of (found_of matches.now))) }
{
    match name {
        "compile" => Ok(Task::Compile {
            source: path_of(matches, "SRC"),
            image: path_of(matches, "IMG"),
        }),
        "list" => Ok(Task::List {
            source: path_of(matches, "SRC"),
        }),
        "run" => Ok(Task::Run {
            image: path_of(matches, "IMG"),
        }),
        "explain" => explain_task(alloc, matches),
        "check" => check_task(alloc, matches),
        "certify" => Ok(Task::Certify {
            source: path_of(matches, "SRC"),
            image: path_of(matches, "IMG"),
        }),
        "verify" => Ok(Task::Verify {
            certificate: path_of(matches, "CERT"),
            source: path_of(matches, "SRC"),
            image: path_of(matches, "IMG"),
        }),
        "needs" => Ok(Task::Needs {
            source: path_of(matches, "SRC"),
        }),
        _ => Ok(run_task(name, path_of(matches, "SRC"))),
    }
}

// The job of no words.
fn default_job() -> Job<'static>
    ensures request { request_in result ≡ row_request None }
    ensures numbers { (result.stack ≡ DEFAULT_STACK) × (result.heap ≡ DEFAULT_HEAP) × (result.steps ≡ DEFAULT_STEPS) }
{
    Job {
        task: Task::GoStandardInput,
        stack: DEFAULT_STACK,
        heap: DEFAULT_HEAP,
        steps: DEFAULT_STEPS,
    }
}

// The job in what a parse found.
fn job_in<'a>(alloc: Global, matches: &ArgMatches<'a>) -> Result<Job<'a>, AllocError>
    ensures request { IfOk result (λ job. IfSome (subcommand_rows_of matches.now) (λ entered. HasLimits entered.1)
        → request_in job ≡ row_request (subcommand_rows_of matches.now)) }
    ensures stack { IfOk result (λ job. job.stack ≤ MAX_BUDGET) }
    ensures heap { IfOk result (λ job. job.heap ≤ MAX_BUDGET) }
    ensures least { IfOk result (λ job. 1 ≤ job.steps) }
    ensures most { IfOk result (λ job. job.steps ≤ MAX_STEPS) }
{
    match matches.subcommand() {
        None => Ok(default_job()),
        Some((name, inner)) => {
            let stack = budget_of(inner, "stack", DEFAULT_STACK);
            let heap = budget_of(inner, "heap", DEFAULT_HEAP);
            let steps = steps_of(inner);
            let task = task_of(alloc, name, inner)?;
            Ok(Job {
                task,
                stack,
                heap,
                steps,
            })
        }
    }
}

/// Whether a text consists of decimal digits only.
pub(crate) fn is_digits(text: &str) -> bool
    ensures { result ≡ is_digits text.now }
{
    text.as_bytes().iter().all(|byte| byte.is_ascii_digit())
}

// A text that is not digits alone.
fn odd_of(text: Option<&str>) -> Option<&str>
    ensures { is_some result ≡ not (are_digits (option_map (λ s. s.now) text.entry)) }
{
    match text {
        None => None,
        Some(text) => if is_digits(text) { None } else { Some(text) },
    }
}

// The text of a number, if it isn't only digits.
fn odd_text<'a>(matches: &ArgMatches<'a>, name: &str) -> Option<&'a str>
    ensures { is_some result ≡ not (are_digits (first_of name.now (rows_of (found_of matches.now)))) }
{
    odd_of(matches.get_str(name))
}

// The first number of a command that is not digits alone.
fn odd_number<'a>(matches: &ArgMatches<'a>) -> Option<NumberFault<'a>>
    ensures { is_some result ≡ not (row_digits (rows_of (found_of matches.now))) }
{
    if let Some(text) = odd_text(matches, "stack") {
        return Some(NumberFault {
            option: "stack",
            unit: "BYTES",
            text,
        });
    }
    if let Some(text) = odd_text(matches, "heap") {
        return Some(NumberFault {
            option: "heap",
            unit: "BYTES",
            text,
        });
    }
    match odd_text(matches, "steps") {
        Some(text) => Some(NumberFault {
            option: "steps",
            unit: "COUNT",
            text,
        }),
        None => None,
    }
}

// The same in all that a parse found.
fn number_fault<'a>(matches: &ArgMatches<'a>) -> Option<NumberFault<'a>>
    ensures { is_some result ≡ not (found_digits (subcommand_rows_of matches.now)) }
{
    match matches.subcommand() {
        None => None,
        Some((_, inner)) => odd_number(inner),
    }
}

// The job in the result of a parse, if its numbers are digits.
fn checked_job<'a>(alloc: Global, matches: &ArgMatches<'a>) -> Result<Job<'a>, CommandFault<'a>>
    ensures request { IfOk result (λ job. IfSome (subcommand_rows_of matches.now) (λ entered. HasLimits entered.1)
        → request_in job ≡ row_request (subcommand_rows_of matches.now)) }
    ensures digits { IfOk result (λ _. found_digits (subcommand_rows_of matches.now) ≡ true) }
    ensures odd { IfErr result (λ fault. is_line_fault fault ≡ true → found_digits (subcommand_rows_of matches.now)
        ≡ false) }
    ensures kind { IfErr result (λ fault. (kinds : Kinds) → IsLineOf kinds fault) }
    ensures stack { IfOk result (λ job. job.stack ≤ MAX_BUDGET) }
    ensures heap { IfOk result (λ job. job.heap ≤ MAX_BUDGET) }
    ensures least { IfOk result (λ job. 1 ≤ job.steps) }
    ensures most { IfOk result (λ job. job.steps ≤ MAX_STEPS) }
{
    match number_fault(matches) {
        Some(fault) => Err(CommandFault::Number(fault)),
        None => match job_in(alloc, matches) {
            Ok(job) => Ok(job),
            Err(_) => Err(CommandFault::OutOfMemory),
        },
    }
}

// The job in the result of a parse, which is freed.
fn job_of<'a>(alloc: Global, matches: ArgMatches<'a>) -> Result<Job<'a>, CommandFault<'a>>
    ensures request { IfOk result (λ job. IfSome (subcommand_rows_of matches.entry) (λ entered. HasLimits entered.1)
        → request_in job ≡ row_request (subcommand_rows_of matches.entry)) }
    ensures digits { IfOk result (λ _. found_digits (subcommand_rows_of matches.entry) ≡ true) }
    ensures odd { IfErr result (λ fault. is_line_fault fault ≡ true → found_digits (subcommand_rows_of matches.entry)
        ≡ false) }
    ensures kind { IfErr result (λ fault. (kinds : Kinds) → IsLineOf kinds fault) }
    ensures stack { IfOk result (λ job. job.stack ≤ MAX_BUDGET) }
    ensures heap { IfOk result (λ job. job.heap ≤ MAX_BUDGET) }
    ensures least { IfOk result (λ job. 1 ≤ job.steps) }
    ensures most { IfOk result (λ job. job.steps ≤ MAX_STEPS) }
{
    let job = checked_job(alloc, &matches);
    drop(matches);
    job
}

/// Reads the words after the program's name: an `Ok` is the job that they request, and `Line` and `Number` are returned
/// only if they request none. A `Line` has an error of a kind that `clap` reports at the first step that fails: help is
/// reported as help. An `Ok` has its three numbers within their ranges.
pub fn command<'a>(alloc: Global, words: &'a [&'a str]) -> Result<Job<'a>, CommandFault<'a>>
    ensures asked { IfOk result (λ job. request_of (map (λ word. word.now) words.entry.now) ≡ Some (request_in job)) }
    ensures line { IfErr result (λ fault. is_line_fault fault ≡ true
        → request_of (map (λ word. word.now) words.entry.now) ≡ None) }
    ensures kind { IfErr result (IsLineOf (fault_of pascal_app (map (λ word. word.now) words.entry.now))) }
    ensures stack { IfOk result (λ job. job.stack ≤ MAX_BUDGET) }
    ensures heap { IfOk result (λ job. job.heap ≤ MAX_BUDGET) }
    ensures least { IfOk result (λ job. 1 ≤ job.steps) }
    ensures most { IfOk result (λ job. job.steps ≤ MAX_STEPS) }
{
    let command = pascal(alloc)?;
    let matches = command.try_get_matches_from(words)?;
    job_of(alloc, matches)
}
