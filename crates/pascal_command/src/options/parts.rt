//! What a word is among those of a command: a flag, an option with its value, or a file.

ghost use Rattle.std.specs.Prelude.{◌≡◌};
ghost use Rattle.pascal_command.specs.Options.{begins_with, has_value, is_check_flag, is_flag, is_joined};
ghost use Rattle.pascal_command.specs.Options.{is_trace_joined, is_trace_value, is_why_flag, next_part, stays};

use crate::options::Part;

fn is_check_flag(word: &str) -> bool
    ensures { result ≡ is_check_flag word.now }
{
    word == "--json" || word == "--first" || word == "--no-warnings"
}

fn is_why_flag(word: &str) -> bool
    ensures { result ≡ is_why_flag word.now }
{
    word == "--json" || word == "--all"
}

// Whether a word is an option of a command without a value.
pub(super) fn is_flag(command: &str, word: &str) -> bool
    ensures { result ≡ is_flag command.now word.now }
{
    match command {
        "check" => is_check_flag(word),
        "list" => word == "--source",
        "go" => word == "--usage",
        "run" => word == "--usage",
        "why" => is_why_flag(word),
        "trace" => word == "--json",
        "cover" => word == "--lcov",
        _ => false,
    }
}

fn is_trace_value(word: &str) -> bool
    ensures { result ≡ is_trace_value word.now }
{
    word == "--from" || word == "--to" || word == "--routine" || word == "--first"
}

// Whether a word is an option of a command whose value is the next word.
pub(super) fn has_value(command: &str, word: &str) -> bool
    ensures { result ≡ has_value command.now word.now }
{
    match command {
        "compile" => word == "--map",
        "trace" => is_trace_value(word),
        "cover" => word == "--input",
        _ => false,
    }
}

// Whether a word begins with another.
fn begins_with(word: &str, front: &str) -> bool
    ensures { result ≡ begins_with word.now front.now }
{
    word.as_bytes().starts_with(front.as_bytes())
}

fn is_trace_joined(word: &str) -> bool
    ensures { result ≡ is_trace_joined word.now }
{
    begins_with(word, "--from=")
        || begins_with(word, "--to=")
        || begins_with(word, "--routine=")
        || begins_with(word, "--first=")
}

// Whether a word is such an option with its value, `--name=value`.
pub(super) fn is_joined(command: &str, word: &str) -> bool
    ensures { result ≡ is_joined command.now word.now }
{
    match command {
        "compile" => begins_with(word, "--map="),
        "trace" => is_trace_joined(word),
        "cover" => begins_with(word, "--input="),
        _ => false,
    }
}

// Whether a word stays among the words.
pub(super) fn stays(command: &str, part: Part, word: &str) -> bool
    ensures { result ≡ stays command.now part word.now }
{
    match part {
        Part::Open => {
            !(is_flag(command, word) || has_value(command, word) || is_joined(command, word))
        }
        Part::Value => false,
        Part::Closed => true,
    }
}

// What the next word is.
pub(super) fn next_part(command: &str, part: Part, word: &str) -> Part
    ensures { result ≡ next_part command.now part word.now }
{
    match part {
        Part::Open => {
            if word == "--" {
                Part::Closed
            } else if has_value(command, word) {
                Part::Value
            } else {
                Part::Open
            }
        }
        Part::Value => Part::Open,
        Part::Closed => Part::Closed,
    }
}
