//! What the slow runner shows of runs, and how they end.

use crate::program::checked;
use ps_build::Refusal as TextRefusal;
use ps_meaning_runner::ending::Ending;
use ps_meaning_runner::run::{
    Budget, Ran, Refusal, TranscriptFault, output, reference, reference_to_depth, reference_within,
    trail,
};
use ps_tree::program::Checked;
use std::alloc::{AllocError, Global};
use test_tables::Line;
use test_tables::words::{number, u64_of};

/// The settings of a run: its input, its fuel, how many levels deep it may go, and its costs and budget if it has any.
#[derive(Drop)]
pub struct RunSettings {
    fuel: u64,
    levels: Option<u32>,
    is_within: bool,
    stack: u64,
    heap: u64,
    frames: Vec<u32>,
    objects: Vec<u32>,
    input: Vec<u8>,
}

/// The settings of a run without any.
pub fn defaults(alloc: Global) -> RunSettings {
    RunSettings {
        fuel: 1_000_000,
        levels: None,
        is_within: false,
        stack: 0,
        heap: 0,
        frames: Vec::new(alloc),
        objects: Vec::new(alloc),
        input: Vec::new(alloc),
    }
}

/// Puts the costs of a word after others: numbers with commas between them, or `-` for none.
fn add_costs(costs: &mut Vec<u32>, word: Option<&str>) -> Result<(), AllocError> {
    for cost in word.unwrap_or("-").split(',') {
        if let Ok(bytes) = cost.parse::<u32>() {
            costs.push(bytes)?;
        }
    }
    Ok(())
}

impl RunSettings {
    /// Takes a setting of the run from a line.
    pub fn set(&mut self, word: &str, rest: &str, text: Vec<u8>) -> Result<(), AllocError> {
        match word {
            "input" => self.input = text,
            "fuel" => self.fuel = u64_of(rest),
            "levels" => self.levels = rest.parse::<u32>().ok(),
            "within" => return self.tell_budget(rest),
            _ => {}
        }
        Ok(())
    }

    fn tell_budget(&mut self, rest: &str) -> Result<(), AllocError> {
        let mut words = rest.split(' ');
        self.is_within = true;
        self.stack = u64::from(number(words.next()));
        self.heap = u64::from(number(words.next()));
        add_costs(&mut self.frames, words.next())?;
        add_costs(&mut self.objects, words.next())
    }
}

fn run(alloc: Global, program: &Checked, settings: &RunSettings) -> Result<Ran, Refusal> {
    if !settings.is_within && settings.levels.is_none() {
        return reference(alloc, program, &settings.input, settings.fuel);
    }
    let budget = Budget {
        frames: &settings.frames,
        objects: &settings.objects,
        stack: settings.stack,
        heap: settings.heap,
    };
    match settings.levels {
        None => reference_within(alloc, program, &budget, &settings.input, settings.fuel),
        Some(levels) => reference_to_depth(
            alloc,
            program,
            &budget,
            &settings.input,
            settings.fuel,
            levels,
        ),
    }
}

/// The run of the program of a text on an input, with this much fuel, at most this many levels deep, where frames and
/// objects cost nothing. The outer error is the refusal of the text.
pub fn run_of_text(
    alloc: Global,
    text: &[u8],
    input: &[u8],
    fuel: u64,
    levels: u32,
) -> Result<Result<Ran, Refusal>, TextRefusal> {
    let program = checked(alloc, text)?;
    let free = Budget {
        frames: &[],
        objects: &[],
        stack: 0,
        heap: 0,
    };
    let ran = reference_to_depth(alloc, &program, &free, input, fuel, levels);
    drop(program);
    Ok(ran)
}

/// Puts the end of a run.
fn put_ending(line: &mut Line, ending: Ending) {
    match ending {
        Ending::Normal => line.word("normal"),
        Ending::Error { number, line: at } => {
            line.numbered("error ", u64::from(number));
            line.numbered(" at line ", u64::from(at));
        }
        Ending::Stack { line: at } => line.numbered("stack at line ", u64::from(at)),
        Ending::Heap { line: at } => line.numbered("heap at line ", u64::from(at)),
        Ending::More => line.word("more"),
    }
}

/// Puts the first 16 of some lines.
fn put_lines(line: &mut Line, lines: &[u32]) {
    for at in lines.iter().take(16) {
        line.listed(u64::from(*at));
    }
}

/// Puts the lines of the calls that are open at an error, up to 16.
fn put_calls(line: &mut Line, ran: &Ran) {
    if matches!(ran.ending, Ending::Error { .. }) && !ran.calls.is_empty() {
        line.word(", called at");
        put_lines(line, &ran.calls);
    }
}

/// Puts a transcript, with a space before it if there is any. A mark at a first look at a byte of the input, or at its
/// end, is `^`.
fn put_transcript(line: &mut Line, transcript: &[u16]) {
    line.word_if(" ", !transcript.is_empty());
    for item in transcript {
        line.letter(match *item {
            256 => '^',
            byte => char::from((byte % 256) as u8),
        });
    }
}

fn put_refusal(line: &mut Line, refusal: Refusal) {
    match refusal {
        Refusal::OutOfMemory => line.fall_short(),
        Refusal::TooDeep => line.word("given up as too deep"),
    }
}

/// Puts how the run of a program ends, the calls that are open at its end, and what it shows.
pub(crate) fn put_run(alloc: Global, line: &mut Line, program: &Checked, settings: &RunSettings) {
    match run(alloc, program, settings) {
        Ok(ran) => {
            put_ending(line, ran.ending);
            put_calls(line, &ran);
            line.word(":");
            put_transcript(line, &ran.transcript);
            drop(ran);
        }
        Err(refusal) => put_refusal(line, refusal),
    }
}

/// Puts the bytes that `output` makes of the transcript of a run.
pub(crate) fn put_output(
    alloc: Global,
    line: &mut Line,
    program: &Checked,
    settings: &RunSettings,
) {
    match run(alloc, program, settings) {
        Ok(ran) => {
            let bytes = output(alloc, &ran.transcript);
            drop(ran);
            put_bytes(line, bytes);
        }
        Err(refusal) => put_refusal(line, refusal),
    }
}

fn put_bytes(line: &mut Line, bytes: Result<Vec<u8>, TranscriptFault>) {
    match bytes {
        Ok(bytes) => line.bracketed(&bytes),
        Err(_) => line.word("no output"),
    }
}

/// Puts the lines that `trail` returns for a run.
pub(crate) fn put_trail(alloc: Global, line: &mut Line, program: &Checked, settings: &RunSettings) {
    match trail(alloc, program, &settings.input, settings.fuel) {
        Ok(lines) => {
            put_lines(line, &lines);
            line.none_if_empty();
        }
        Err(refusal) => put_refusal(line, refusal),
    }
}
