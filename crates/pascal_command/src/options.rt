//! The options that are taken out of the words before `clap` reads them: how much is reported, how, and where it goes.
//!
//! Contracts say which words stay, and what the options request. What is then reported, no contract says.

mod parts;

ghost use Rattle.std.specs.Prelude.{◌≡◌, ◌⊎◌, ◌++◌, IfOk, IfErr, OnOk, [], ◌∷◌, if◌then◌else◌, map, Some, None};
ghost use Rattle.std.specs.Prelude.{option_map};
ghost use Rattle.pascal_command.specs.Options.{plain_words, without_options};
ghost use Rattle.pascal_command.specs.Wanted.{is_end, is_given, line_in, names_file, nothing_more, number_in, wanted_behind};
ghost use Rattle.pascal_command.specs.Wanted.{wanted_in, wanted_of, with_flag, with_input, with_joined, with_named};
ghost use Rattle.pascal_command.specs.Wanted.{with_next, with_value, with_word};
ghost use Rattle.pascal_command.specs.declared.options.OptionFault.TheVariants.{OutOfMemory};
ghost use Rattle.pascal_command.specs.declared.options.Part.TheVariants.{Open};

use crate::job::is_digits;
use crate::options::parts::{has_value, is_flag, is_joined, next_part, stays};
use std::alloc::{AllocError, Global};
use thiserror::Error;

/// How much is reported of texts that are checked, and how.
#[derive(Clone, Copy)]
pub struct Telling {
    /// As JSON.
    pub json: bool,
    /// The first fault of a text alone.
    pub first: bool,
    /// Warnings too.
    pub warnings: bool,
}

/// Which statements of a run are reported.
#[derive(Clone, Copy)]
pub struct Traces<'a> {
    /// Those that begin in this line or after it.
    pub from: Option<u32>,
    /// Those that begin in this line or before it.
    pub to: Option<u32>,
    /// Those of the routine with this name, or of all.
    pub routine: Option<&'a str>,
    /// At most this many.
    pub first: Option<u64>,
}

/// What the options of the command line request.
#[derive(Drop)]
pub struct Options<'a> {
    pub telling: Telling,
    pub traces: Traces<'a>,
    /// Everything there is, not only the most of it.
    pub all: bool,
    /// A listing with its source.
    pub source: bool,
    /// What a run took.
    pub usage: bool,
    /// In the form that tools for coverage read.
    pub lcov: bool,
    /// Where a map goes.
    pub map: Option<&'a str>,
    /// The inputs of several runs, one after the other.
    pub inputs: Vec<&'a str>,
}

/// Why options request nothing.
#[derive(Clone, Copy, Debug, Error)]
pub enum OptionFault<'a> {
    /// An option has no value after it.
    #[error("error: a value is required for '{0}' but none was supplied\n\nFor more information, try '--help'.\n")]
    NoValue(&'a str),
    /// The name of a file is empty.
    #[error("error: the name of a file is missing for '{0}'\n\nFor more information, try '--help'.\n")]
    NoFile(&'a str),
    /// A number is not one, or is too large.
    #[error("error: invalid value '{text}' for '{option}': a number is wanted\n\nFor more information, try '--help'.\n")]
    NoNumber { option: &'a str, text: &'a str },
    /// An option that gets one value has two.
    #[error("error: the argument '{0}' cannot be used multiple times\n\nFor more information, try '--help'.\n")]
    Twice(&'a str),
    /// A growth was refused.
    #[error("out of memory\n")]
    OutOfMemory,
}

impl<'a> From<AllocError> for OptionFault<'a> {
    fn from(_error: AllocError) -> OptionFault<'a> {
        OptionFault::OutOfMemory
    }
}

/// What the next word after a command is.
#[derive(Clone, Copy)]
pub enum Part {
    /// An option, or a word of `clap`'s.
    Open,
    /// The value of the option before it.
    Value,
    /// A word after `--`.
    Closed,
}

// Puts a word, if it stays.
fn put_word<'a>(plain: &mut Vec<&'a str>, is_kept: bool, word: &'a str) -> Result<(), AllocError>
    ensures { OnOk result (map (λ word. word.now) plain.new.items ≡ map (λ word. word.now) plain.old.items
        ++ (if is_kept then word.now ∷ [] else [])) }
{
    if is_kept {
        plain.push(word)?;
    }
    Ok(())
}

// Puts the words after a command without its options.
fn put_plain<'a>(
    plain: &mut Vec<&'a str>,
    command: &str,
    words: &[&'a str],
) -> Result<(), AllocError>
    ensures { OnOk result (map (λ word. word.now) plain.new.items ≡ map (λ word. word.now) plain.old.items
        ++ without_options command.now Open (map (λ word. word.now) words.now)) }
{
    let mut rest = words;
    let mut part = Part::Open;
    while let [word, behind @ ..] = rest {
        put_word(plain, stays(command, part, word), word)?;
        part = next_part(command, part, word);
        rest = behind;
    }
    Ok(())
}

/// The words of the command line without the options that `options_of` reads.
pub fn plain_words<'a>(alloc: Global, words: &[&'a str]) -> Result<Vec<&'a str>, AllocError>
    ensures { IfOk result (λ plain. map (λ word. word.now) plain.items ≡ plain_words
        (map (λ word. word.now) words.now)) }
{
    let mut plain = Vec::new(alloc);
    if let [command, rest @ ..] = words {
        plain.push(*command)?;
        put_plain(&mut plain, command, rest)?;
    }
    Ok(plain)
}

// ---- what the options request

fn no_options<'a>(alloc: Global) -> Options<'a>
    ensures { wanted_in result ≡ nothing_more }
{
    Options {
        telling: Telling {
            json: false,
            first: false,
            warnings: true,
        },
        traces: Traces {
            from: None,
            to: None,
            routine: None,
            first: None,
        },
        all: false,
        source: false,
        usage: false,
        lcov: false,
        map: None,
        inputs: Vec::new(alloc),
    }
}

// Takes an option without a value.
fn take_flag(options: &mut Options<'_>, word: &str)
    ensures { wanted_in options.new ≡ with_flag (wanted_in options.old) word.now }
{
    match word {
        "--json" => options.telling.json = true,
        "--first" => options.telling.first = true,
        "--no-warnings" => options.telling.warnings = false,
        "--all" => options.all = true,
        "--source" => options.source = true,
        "--usage" => options.usage = true,
        "--lcov" => options.lcov = true,
        _ => {}
    }
}

// The number that a text of digits is.
fn number_of<'a>(option: &'a str, text: &'a str) -> Result<u64, OptionFault<'a>>
    ensures number { IfOk result (λ number. number_in text.now ≡ Some number) }
    ensures none { IfErr result (λ fault. number_in text.now ≡ None) }
{
    let fault = OptionFault::NoNumber { option, text };
    if !is_digits(text) {
        return Err(fault);
    }
    match text.parse::<u64>() {
        Ok(number) => Ok(number),
        Err(_) => Err(fault),
    }
}

// The number of a line that a text of digits is.
fn line_of<'a>(option: &'a str, text: &'a str) -> Result<u32, OptionFault<'a>>
    ensures line { IfOk result (λ line. line_in text.now ≡ Some line) }
    ensures none { IfErr result (λ fault. line_in text.now ≡ None) }
{
    let number = number_of(option, text)?;
    Ok(u32::try_from(number).unwrap_or(u32::MAX))
}

// Whether the value of an option is the name of a file.
fn names_file(option: &str) -> bool
    ensures { result ≡ names_file option.now }
{
    option == "--map" || option == "--input"
}

// Takes one input more.
fn put_input<'a>(options: &mut Options<'a>, path: &'a str) -> Result<(), OptionFault<'a>>
    ensures taken { OnOk result (with_input (wanted_in options.old) path.now ≡ wanted_in options.new) }
    ensures fault { IfErr result (λ fault. fault ≡ OutOfMemory) }
{
    match options.inputs.push(path) {
        Ok(()) => Ok(()),
        Err(_) => Err(OptionFault::OutOfMemory),
    }
}

// Takes an option whose value is a file's name, a number or a routine's name.
fn put_value<'a>(
    options: &mut Options<'a>,
    option: &'a str,
    value: &'a str,
) -> Result<(), OptionFault<'a>>
    ensures taken { OnOk result (with_named (wanted_in options.old) option.now value.now ≡ Some
        (wanted_in options.new)) }
    ensures fault { IfErr result (λ fault. (fault ≡ OutOfMemory)
        ⊎ (with_named (wanted_in options.old) option.now value.now ≡ None)) }
{
    match option {
        "--map" => {
            options.map = Some(value);
            Ok(())
        }
        "--input" => put_input(options, value),
        "--from" => {
            options.traces.from = Some(line_of(option, value)?);
            Ok(())
        }
        "--to" => {
            options.traces.to = Some(line_of(option, value)?);
            Ok(())
        }
        "--routine" => {
            options.traces.routine = Some(value);
            Ok(())
        }
        "--first" => {
            options.traces.first = Some(number_of(option, value)?);
            Ok(())
        }
        _ => Ok(()),
    }
}

// Whether an option that gets one value already has it.
fn is_given(options: &Options<'_>, option: &str) -> bool
    ensures { result ≡ is_given (wanted_in options.now) option.now }
{
    match option {
        "--map" => options.map.is_some(),
        "--from" => options.traces.from.is_some(),
        "--to" => options.traces.to.is_some(),
        "--routine" => options.traces.routine.is_some(),
        "--first" => options.traces.first.is_some(),
        _ => false,
    }
}

// Takes an option with its value.
fn take_value<'a>(
    options: &mut Options<'a>,
    option: &'a str,
    value: &'a str,
) -> Result<(), OptionFault<'a>>
    ensures taken { OnOk result (with_value (wanted_in options.old) option.now value.now ≡ Some
        (wanted_in options.new)) }
    ensures fault { IfErr result (λ fault. (fault ≡ OutOfMemory)
        ⊎ (with_value (wanted_in options.old) option.now value.now ≡ None)) }
{
    if is_given(options, option) {
        return Err(OptionFault::Twice(option));
    }
    if value.is_empty() && names_file(option) {
        return Err(OptionFault::NoFile(option));
    }
    put_value(options, option, value)
}

// Takes an option that has its value in the same word.
fn take_joined<'a>(options: &mut Options<'a>, word: &'a str) -> Result<(), OptionFault<'a>>
    ensures taken { OnOk result (with_joined (wanted_in options.old) word.now ≡ Some (wanted_in options.new)) }
    ensures fault { IfErr result (λ fault. (fault ≡ OutOfMemory)
        ⊎ (with_joined (wanted_in options.old) word.now ≡ None)) }
{
    match word.split_once('=') {
        Some((option, value)) => take_value(options, option, value),
        None => Ok(()),
    }
}

// Takes a word that is not a value, and returns it if its value is the next word.
fn take_word<'a>(
    options: &mut Options<'a>,
    command: &str,
    word: &'a str,
) -> Result<Option<&'a str>, OptionFault<'a>>
    ensures taken { IfOk result (λ before. with_word command.now (wanted_in options.old) word.now
        ≡ Some (wanted_in options.new, option_map (λ option. option.now) before)) }
    ensures fault { IfErr result (λ fault. (fault ≡ OutOfMemory)
        ⊎ (with_word command.now (wanted_in options.old) word.now ≡ None)) }
{
    if is_flag(command, word) {
        take_flag(options, word);
        Ok(None)
    } else if is_joined(command, word) {
        take_joined(options, word)?;
        Ok(None)
    } else if has_value(command, word) {
        Ok(Some(word))
    } else {
        Ok(None)
    }
}

// Takes a word after an option whose value it is, or after none.
fn take_next<'a>(
    options: &mut Options<'a>,
    command: &str,
    before: Option<&'a str>,
    word: &'a str,
) -> Result<Option<&'a str>, OptionFault<'a>>
    ensures taken { IfOk result (λ next. with_next command.now (wanted_in options.old)
        (option_map (λ option. option.now) before.entry) word.now
        ≡ Some (wanted_in options.new, option_map (λ option. option.now) next)) }
    ensures fault { IfErr result (λ fault. (fault ≡ OutOfMemory) ⊎ (with_next command.now (wanted_in options.old)
        (option_map (λ option. option.now) before.entry) word.now ≡ None)) }
{
    match before {
        Some(option) => {
            take_value(options, option, word)?;
            Ok(None)
        }
        None => take_word(options, command, word),
    }
}

// Whether a word ends the options.
fn is_end(before: Option<&str>, word: &str) -> bool
    ensures { result ≡ is_end (option_map (λ option. option.now) before.entry) word.now }
{
    match before {
        Some(_) => false,
        None => word == "--",
    }
}

// Takes the words after a command.
#[tactic(auto, using(crate::proofs::OptionWords::fails, crate::proofs::OptionWords::ends))]
fn take_words<'a>(
    options: &mut Options<'a>,
    command: &str,
    words: &[&'a str],
) -> Result<(), OptionFault<'a>>
    ensures taken { OnOk result (wanted_behind command.now (wanted_in options.old) None
        (map (λ word. word.now) words.now)
        ≡ Some (wanted_in options.new)) }
    ensures fault { IfErr result (λ fault. (fault ≡ OutOfMemory)
        ⊎ (wanted_behind command.now (wanted_in options.old) None (map (λ word. word.now) words.now) ≡ None)) }
{
    let mut rest = words;
    let mut before = None;
    while let [word, behind @ ..] = rest {
        if is_end(before, word) {
            return Ok(());
        }
        before = take_next(options, command, before, *word)?;
        rest = behind;
    }
    match before {
        Some(option) => Err(OptionFault::NoValue(option)),
        None => Ok(()),
    }
}

/// What the options after a command request. Which mistake is reported, if there are several, no contract says.
pub fn options_of<'a>(alloc: Global, words: &[&'a str]) -> Result<Options<'a>, OptionFault<'a>>
    ensures options { IfOk result (λ options. wanted_of (map (λ word. word.now) words.now) ≡ Some (wanted_in options)) }
    ensures fault { IfErr result (λ fault. (fault ≡ OutOfMemory)
        ⊎ (wanted_of (map (λ word. word.now) words.now) ≡ None)) }
{
    let mut options = no_options(alloc);
    if let [command, rest @ ..] = words {
        take_words(&mut options, command, rest)?;
    }
    Ok(options)
}
