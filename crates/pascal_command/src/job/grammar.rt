// The commands of the program, and the words that each of them takes.

ghost use Rattle.std.specs.Prelude.{◌≡◌, IfOk, codes};
ghost use Rattle.std.specs.Prelude.{false};
ghost use Rattle.clap.specs.Simple.{App, new_app, with_rule, with_subcommand};
ghost use Rattle.clap.specs.Walk.{Rule};
ghost use Rattle.clap.specs.Words.{app_of, rule_of};
ghost use Rattle.pascal_command.specs.App.{IsArgument, IsCommand, Makes, certify_app};
ghost use Rattle.pascal_command.specs.App.{check_app, compile_app, explain_app, files_rule, go_app};
ghost use Rattle.pascal_command.specs.App.{limit_rule, limited, list_app, needs_app, pascal_app, path_rule};
ghost use Rattle.pascal_command.specs.App.{budget_rule, run_app};
ghost use Rattle.pascal_command.specs.App.{steps_rule};
ghost use Rattle.pascal_command.specs.App.{verify_app, watch_app, with_checks, with_runs, with_watches, words_rule};

use crate::job::{MAX_BUDGET, MAX_STEPS};
use clap::{Arg, ArgAction, Command, value_parser};
use std::alloc::{AllocError, Global};

// What help says after the commands. `clap` does not read this option.
const PASCAL_NOTES: &str = "More options:
  -V, --version  Print the version, the kit, the sum of the sources and the target";

// What help says of commands after their arguments. These options are taken out of the words before `clap` reads them.
const CHECK_USAGE: &str = "pascal check [OPTIONS] <FILE>...";

const CHECK_NOTES: &str = "More options:
      --json         Write the report to standard output as JSON, one object per line
      --first        Report only the first fault of each text
      --no-warnings  Report no warnings

Example: pascal check hello.pas";

const COMPILE_USAGE: &str = "pascal compile [OPTIONS] <SRC> <IMG>";

const COMPILE_NOTES: &str = "More options:
      --map <FILE>  Write where the words of the image belong in the text

Example: pascal compile hello.pas hello.img";

const LIST_USAGE: &str = "pascal list [OPTIONS] <SRC>";

const LIST_NOTES: &str = "More options:
      --source  Show the lines of the text before the words that come of them

Example: pascal list hello.pas";

const RUN_NOTES: &str = "More options:
      --usage  Report at the end how many steps the run made, and the most stack and heap that it took

Example: pascal run hello.img --steps 1000000000000";

const GO_NOTES: &str = "More options:
      --usage  Report at the end how many steps the run made, and the most stack and heap that it took

Example: pascal go hello.pas --stack 1048576";

const WHY_ABOUT: &str = "Runs a text and reports where it ended, and the values of its variables";

const WHY_NOTES: &str = "More options:
      --all   Show all calls and all components of variables
      --json  Report as JSON

Example: pascal why hello.pas < input";

const TRACE_ABOUT: &str = "Runs a text and reports each statement as it is executed";

const TRACE_NOTES: &str = "More options:
      --from <LINE>     Only statements from this line on
      --to <LINE>       Only statements up to this line
      --routine <NAME>  Only statements of this routine
      --first <COUNT>   At most this many statements
      --json            Report each statement as a JSON object

Example: pascal trace hello.pas --from 10 --to 20";

const COVER_ABOUT: &str = "Runs a text and reports how often each statement was executed";

const COVER_NOTES: &str = "More options:
      --input <FILE>  Run it on this input; given several times, once on each
      --lcov          Report in the form that coverage tools read

Example: pascal cover hello.pas --input one.txt --input two.txt";

const PROFILE_ABOUT: &str = "Runs a text and reports where its steps went, by routine and by line";

const PROFILE_NOTES: &str = "Example: pascal profile hello.pas < input";

fn path<'a>(alloc: Global, name: &'a str, help: &'a str) -> Arg<'a>
    ensures rule { rule_of result ≡ path_rule name.entry.now }
    ensures local { result.global ≡ false }
{
    Arg::new(alloc, name).required(true).help(help)
}

// An option that takes a number, with a default.
fn limit<'a>(
    alloc: Global,
    name: &'a str,
    unit: &'a str,
    default: &'a str,
    help: &'a str,
) -> Arg<'a>
    ensures rule { rule_of result ≡ limit_rule name.entry.now default.entry.now }
    ensures local { result.global ≡ false }
{
    Arg::new(alloc, name)
        .long(name)
        .value_name(unit)
        .default_value(default)
        .help(help)
}

fn budget<'a>(alloc: Global, name: &'a str, default: &'a str, help: &'a str) -> Arg<'a>
    ensures rule { rule_of result ≡ budget_rule name.entry.now default.entry.now }
    ensures local { result.global ≡ false }
{
    limit(alloc, name, "BYTES", default, help).value_parser(value_parser!(u32).range(
        0..=MAX_BUDGET as i64,
    ))
}

fn step_limit<'a>(alloc: Global) -> Arg<'a>
    ensures rule { rule_of result ≡ steps_rule }
    ensures local { result.global ≡ false }
{
    let help = "Instructions that the run may make";
    limit(alloc, "steps", "COUNT", "1000000000", help).value_parser(value_parser!(u64).range(
        1..=MAX_STEPS as i64,
    ))
}

// The words that `explain` takes.
fn topic<'a>(alloc: Global) -> Arg<'a>
    ensures rule { rule_of result ≡ words_rule }
    ensures local { result.global ≡ false }
{
    let help = "What the message says, or its number; all titles without it";
    Arg::new(alloc, "WORD").action(ArgAction::Append).help(help)
}

// The paths that `check` takes.
fn files<'a>(alloc: Global) -> Arg<'a>
    ensures rule { rule_of result ≡ files_rule }
    ensures local { result.global ≡ false }
{
    let help = "The Pascal texts, or - for standard input";
    Arg::new(alloc, "FILE")
        .action(ArgAction::Append)
        .required(true)
        .help(help)
}

// A command with its first argument.
fn command_with<'a>(
    alloc: Global,
    name: &'a str,
    about: &'a str,
    example: &'a str,
    arg: Arg<'a>,
) -> Result<Command<'a>, AllocError>
    ensures { (rule : Rule) → IsArgument rule arg.entry → Makes (with_rule (new_app name.entry.now) rule) result }
{
    Command::new(alloc, name)
        .about(about)
        .after_help(example)
        .arg(arg)
}

// Adds an argument to a command, if there is one.
fn with_arg<'a>(
    command: Result<Command<'a>, AllocError>,
    arg: Arg<'a>,
) -> Result<Command<'a>, AllocError>
    ensures { (app : App) (rule : Rule) → Makes app command.entry → IsArgument rule arg.entry
        → Makes (with_rule app rule) result }
{
    match command {
        Ok(command) => command.arg(arg),
        Err(error) => {
            drop(arg);
            Err(error)
        }
    }
}

// Gives a command a line of usage that mentions its further options, which `clap` does not know.
fn with_usage<'a>(
    command: Result<Command<'a>, AllocError>,
    usage: &'a str,
) -> Result<Command<'a>, AllocError>
    ensures { (app : App) → Makes app command.entry → Makes app result }
{
    match command {
        Ok(command) => Ok(command.override_usage(usage)),
        Err(error) => Err(error),
    }
}

// Adds the three options of a command that runs an image.
fn with_limits<'a>(
    alloc: Global,
    command: Result<Command<'a>, AllocError>,
) -> Result<Command<'a>, AllocError>
    ensures { (app : App) → Makes app command.entry → Makes (limited app) result }
{
    let stack = budget(alloc, "stack", "4194304", "Bytes of the stack");
    let limited = with_arg(command, stack);
    let heap = budget(alloc, "heap", "1048576", "Bytes of the heap");
    let limited = with_arg(limited, heap);
    with_arg(limited, step_limit(alloc))
}

fn compile_command<'a>(alloc: Global) -> Result<Command<'a>, AllocError>
    ensures { Makes compile_app result }
{
    let about = "Compiles a text and writes its image";
    let source = path(alloc, "SRC", "The Pascal text, or - for standard input");
    let compile = command_with(alloc, "compile", about, COMPILE_NOTES, source);
    let image = path(alloc, "IMG", "The image, or - for standard output");
    with_usage(with_arg(compile, image), COMPILE_USAGE)
}

fn list_command<'a>(alloc: Global) -> Result<Command<'a>, AllocError>
    ensures { Makes list_app result }
{
    let about = "Compiles a text and writes the listing of its image to standard output";
    let source = path(alloc, "SRC", "The Pascal text, or - for standard input");
    let list = command_with(alloc, "list", about, LIST_NOTES, source);
    with_usage(list, LIST_USAGE)
}

fn run_command<'a>(alloc: Global) -> Result<Command<'a>, AllocError>
    ensures { Makes run_app result }
{
    let about = "Runs an image on standard input and output";
    let image = path(alloc, "IMG", "The image");
    let run = command_with(alloc, "run", about, RUN_NOTES, image);
    with_limits(alloc, run)
}

fn go_command<'a>(alloc: Global) -> Result<Command<'a>, AllocError>
    ensures { Makes go_app result }
{
    let about = "Compiles a text and runs it on standard input and output";
    let source = path(alloc, "SRC", "The Pascal text");
    let go = command_with(alloc, "go", about, GO_NOTES, source);
    with_limits(alloc, go)
}

fn explain_command<'a>(alloc: Global) -> Result<Command<'a>, AllocError>
    ensures { Makes explain_app result }
{
    let about = "Explains a message, by its number, its name or its words";
    let example = "Example: pascal explain index out of range";
    command_with(alloc, "explain", about, example, topic(alloc))
}

fn check_command<'a>(alloc: Global) -> Result<Command<'a>, AllocError>
    ensures { Makes check_app result }
{
    let about = "Checks whether texts are accepted, and if not, says why";
    let check = command_with(alloc, "check", about, CHECK_NOTES, files(alloc));
    with_usage(check, CHECK_USAGE)
}

fn certify_command<'a>(alloc: Global) -> Result<Command<'a>, AllocError>
    ensures { Makes certify_app result }
{
    let about = "Writes the certificate of a text and its image to standard output";
    let example = "Example: pascal certify hello.pas hello.img > hello.cert";
    let source = path(alloc, "SRC", "The Pascal text, or - for standard input");
    let certify = command_with(alloc, "certify", about, example, source);
    let image = path(alloc, "IMG", "The image of it, or - for standard input");
    with_arg(certify, image)
}

fn verify_command<'a>(alloc: Global) -> Result<Command<'a>, AllocError>
    ensures { Makes verify_app result }
{
    let about = "Builds a text again, and compares it and an image with a certificate";
    let example = "Example: pascal verify hello.cert hello.pas hello.img";
    let certificate = path(alloc, "CERT", "The certificate, or - for standard input");
    let verify = command_with(alloc, "verify", about, example, certificate);
    let source = path(alloc, "SRC", "The Pascal text, or - for standard input");
    let verify = with_arg(verify, source);
    let image = path(alloc, "IMG", "The image, or - for standard input");
    with_arg(verify, image)
}

fn needs_command<'a>(alloc: Global) -> Result<Command<'a>, AllocError>
    ensures { Makes needs_app result }
{
    let about = "Compiles a text and reports the stack and heap that its runs need at most";
    let example = "Example: pascal needs hello.pas";
    let source = path(alloc, "SRC", "The Pascal text, or - for standard input");
    command_with(alloc, "needs", about, example, source)
}

// A command that runs a source and reports the run.
fn watch_command<'a>(
    alloc: Global,
    name: &'a str,
    about: &'a str,
    notes: &'a str,
) -> Result<Command<'a>, AllocError>
    ensures { Makes (watch_app name.entry.now) result }
{
    let source = path(alloc, "SRC", "The Pascal text");
    let watch = command_with(alloc, name, about, notes, source);
    with_limits(alloc, watch)
}

// Adds a subcommand, if there is one, to a command.
fn add_subcommand<'a>(
    command: Command<'a>,
    subcommand: Result<Command<'a>, AllocError>,
) -> Result<Command<'a>, AllocError>
    ensures { (app below : App) → IsCommand app command.entry → Makes below subcommand.entry
        → Makes (with_subcommand app below.top) result }
{
    match subcommand {
        Ok(subcommand) => command.subcommand(subcommand),
        Err(error) => {
            drop(command);
            Err(error)
        }
    }
}

// Adds a subcommand to a command, if there are both.
fn with_subcommand<'a>(
    command: Result<Command<'a>, AllocError>,
    subcommand: Result<Command<'a>, AllocError>,
) -> Result<Command<'a>, AllocError>
    ensures { (app below : App) → Makes app command.entry → Makes below subcommand.entry
        → Makes (with_subcommand app below.top) result }
{
    match command {
        Ok(command) => add_subcommand(command, subcommand),
        Err(error) => {
            drop(subcommand);
            Err(error)
        }
    }
}

// Adds the commands that build and run a text or an image.
fn with_runs<'a>(
    alloc: Global,
    begun: Result<Command<'a>, AllocError>,
) -> Result<Command<'a>, AllocError>
    ensures { (app : App) → Makes app begun.entry → Makes (with_runs app) result }
{
    let pascal = with_subcommand(begun, compile_command(alloc));
    let pascal = with_subcommand(pascal, list_command(alloc));
    let pascal = with_subcommand(pascal, run_command(alloc));
    with_subcommand(pascal, go_command(alloc))
}

// Adds those that explain, check and compare.
fn with_checks<'a>(
    alloc: Global,
    begun: Result<Command<'a>, AllocError>,
) -> Result<Command<'a>, AllocError>
    ensures { (app : App) → Makes app begun.entry → Makes (with_checks app) result }
{
    let pascal = with_subcommand(begun, explain_command(alloc));
    let pascal = with_subcommand(pascal, check_command(alloc));
    let pascal = with_subcommand(pascal, certify_command(alloc));
    let pascal = with_subcommand(pascal, verify_command(alloc));
    with_subcommand(pascal, needs_command(alloc))
}

// Adds those that run a text and report the run.
fn with_watches<'a>(
    alloc: Global,
    begun: Result<Command<'a>, AllocError>,
) -> Result<Command<'a>, AllocError>
    ensures { (app : App) → Makes app begun.entry → Makes (with_watches app) result }
{
    let pascal = with_subcommand(begun, watch_command(alloc, "why", WHY_ABOUT, WHY_NOTES));
    let pascal = with_subcommand(
        pascal,
        watch_command(alloc, "trace", TRACE_ABOUT, TRACE_NOTES),
    );
    let pascal = with_subcommand(
        pascal,
        watch_command(alloc, "cover", COVER_ABOUT, COVER_NOTES),
    );
    with_subcommand(
        pascal,
        watch_command(alloc, "profile", PROFILE_ABOUT, PROFILE_NOTES),
    )
}

pub(super) fn pascal<'a>(alloc: Global) -> Result<Command<'a>, AllocError>
    ensures { IfOk result (λ r. app_of r ≡ pascal_app) }
{
    let pascal = Command::new(alloc, "pascal")
        .about("A Pascal compiler whose images mean what their programs mean")
        .after_help(PASCAL_NOTES)
        .no_binary_name(true)
        .bin_name("pascal");
    let pascal = with_runs(alloc, pascal);
    let pascal = with_checks(alloc, pascal);
    with_watches(alloc, pascal)
}
