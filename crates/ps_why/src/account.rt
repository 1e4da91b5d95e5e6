//! Accounts of runs.

use crate::choices::constants_of;
use crate::loops::{Loop, Loops};
use crate::sentences::{CUT, Sizes, found_told, heap, words_of};
use crate::targets::meant_at;
use ps_build::{Ended, Mapped, Outcome};
use ps_diagnose_outline::Outline;
use ps_diagnose_warnings::{Warning, warnings};
use ps_map::{Lines, Map, Place};
use ps_map_maker::map_of;
use ps_parse::{parse, release};
use ps_scan::{Token, scan};
use ps_scene::{FaultValue, Length, Scene, Surroundings, field_names, found_at, scene_of, word_at};
use ps_syntax::Program;
use ps_text::Source;
use ps_tree::program::Checked;
use risc_image::ImageView;
use risc_machine::{Machine, Stop};
use std::alloc::{AllocError, Global};

// Where the program block's frame has the heap's next address.
const HEAP_NEXT: u32 = 272;

// The register with the address of the program block's frame.
const PROGRAM: u8 = 13;

/// How a run ended.
#[derive(Clone, Copy)]
pub enum Ending {
    Normal,
    /// An error of the language.
    Error,
    /// The stack had no room for a frame.
    Stack,
    /// The heap had no room for an object.
    Heap,
    /// The steps were used up.
    Steps,
    /// The console gave no byte.
    Input,
    /// The console took no byte.
    Output,
    /// The processor could not go on.
    Fault,
}

/// The report of a run that ended.
#[derive(Drop)]
pub struct Account {
    pub ending: Ending,
    /// The number of an error, 1 to 11, or of a stop, 12 or 13.
    pub number: Option<u32>,
    /// How it ended, in one sentence without a full stop and without its place.
    pub text: String,
    /// The steps that the run was allowed.
    pub steps: u64,
    /// Where it is reported, if it has a place.
    pub at: Option<Place>,
    /// The offsets of the token there.
    pub from: u32,
    pub to: u32,
    /// The value that an error found, if it is known; of a `succ` or `pred` that failed its argument.
    pub found: Option<FaultValue>,
    /// If its steps were used up, the innermost loop in which it was.
    pub round: Option<Loop>,
    pub scene: Scene,
    /// Further sentences.
    pub notes: Vec<String>,
}

// How a run ended, and how that is reported.
#[derive(Clone, Copy)]
struct Facts {
    stop: Option<Stop>,
    ending: Ending,
    number: Option<u32>,
    steps: u64,
    length: Length,
}

// A run that ended, with the program that ran.
#[derive(Clone, Copy)]
struct Run<'a> {
    mapped: &'a Mapped,
    machine: &'a Machine,
    facts: Facts,
}

// How a run ended; if its console failed between two slices, that counts as a failed write.
fn ending_of(ended: &Ended) -> Ending {
    match &ended.outcome {
        Some(Outcome::Normal) => Ending::Normal,
        Some(Outcome::Error { .. }) => Ending::Error,
        Some(Outcome::Stack { .. }) => Ending::Stack,
        Some(Outcome::Heap { .. }) => Ending::Heap,
        Some(Outcome::Steps) => Ending::Steps,
        Some(Outcome::InputFault) => Ending::Input,
        Some(Outcome::OutputFault) | None => Ending::Output,
        Some(Outcome::Fault(_)) => Ending::Fault,
    }
}

// The number of the error or the stop that a run ended with.
fn number_of(ended: &Ended) -> Option<u32> {
    match &ended.outcome {
        Some(
            Outcome::Error { number, .. }
            | Outcome::Stack { number, .. }
            | Outcome::Heap { number, .. },
        ) => Some(*number),
        _ => None,
    }
}

// The value that an error found; without bounds for a field width, since all numbers below one are too small.
fn found_of(image: &ImageView<'_>, machine: &Machine, facts: Facts) -> Option<FaultValue> {
    let (Some(Stop::Trap(link)), Some(number)) = (facts.stop, facts.number) else {
        return None;
    };
    match found_at(image, machine, link, number) {
        Some(found) if number == 11 => Some(FaultValue {
            value: found.value,
            bounds: None,
        }),
        found => found,
    }
}

// The bytes of the heap that are taken.
fn taken(image: &ImageView<'_>, machine: &Machine) -> Option<u32> {
    let base = u32::try_from(image.words().saturating_mul(4)).unwrap_or(u32::MAX);
    let next = word_at(machine, machine.reg(PROGRAM).saturating_add(HEAP_NEXT));
    match next {
        Some(next) => next.checked_sub(base.saturating_add(image.global())),
        None => None,
    }
}

// The sentence of an ending without further facts.
fn plain_text(ending: Ending) -> &'static str {
    match ending {
        Ending::Normal => "ended normally",
        Ending::Input => "input fault",
        Ending::Output => "output fault",
        _ => "machine fault",
    }
}

// The steps that were used up, in a sentence.
fn steps_text(alloc: Global, steps: u64) -> Result<String, AllocError> {
    let steps = i64::try_from(steps).unwrap_or(i64::MAX);
    format!(in alloc; "stopped after {steps} steps")
}

// The sentence of an ending, without a value.
fn text_of<'a>(
    alloc: Global,
    map: &'a Map,
    image: &'a ImageView<'a>,
    machine: &Machine,
    scene: &Scene,
    facts: Facts,
) -> Result<String, AllocError> {
    match facts.ending {
        Ending::Error => String::from_str(alloc, words_of(facts.number.unwrap_or(0))),
        Ending::Stack => {
            let sizes = Sizes { alloc, map, image };
            sizes.stack(scene)
        }
        Ending::Heap => heap(alloc, taken(image, machine)),
        Ending::Steps => steps_text(alloc, facts.steps),
        ending => String::from_str(alloc, plain_text(ending)),
    }
}

// The account of a run of an image, as far as the image shows it.
fn account_of_image(
    alloc: Global,
    around: &Surroundings<'_>,
    image: &ImageView<'_>,
    machine: &Machine,
    facts: Facts,
) -> Result<Account, AllocError> {
    let stop = facts.stop.unwrap_or(Stop::Steps);
    let scene = scene_of(alloc, around, image, machine, stop, facts.length)?;
    let text = text_of(alloc, around.map, image, machine, &scene, facts)?;
    Ok(Account {
        ending: facts.ending,
        number: facts.number,
        text,
        steps: facts.steps,
        at: scene.at,
        from: 0,
        to: 0,
        found: found_of(image, machine, facts),
        round: None,
        scene,
        notes: Vec::new(alloc),
    })
}

// The same for a run of a program that was built, with its map.
fn account_of_map(
    alloc: Global,
    source: &Source<'_>,
    tokens: &[Token],
    map: &Map,
    run: Run<'_>,
) -> Result<Account, AllocError> {
    let image = match ImageView::read(run.mapped.built.bytes()) {
        Ok(image) => image,
        Err(_) => return Err(AllocError),
    };
    let fields = field_names(alloc, tokens)?;
    let around = Surroundings {
        source,
        tokens,
        fields: fields.as_slice(),
        checked: &run.mapped.checked,
        map,
    };
    account_of_image(alloc, &around, &image, run.machine, run.facts)
}

// Adds the offsets of the token at which an account is reported.
fn add_span(outline: &Outline<'_>, lines: &Lines, account: &mut Account) {
    if let Some(at) = account.at {
        let span = outline.span(outline.token_at(lines.offset_of(at)));
        account.from = span.from;
        account.to = span.to;
    }
}

// The value that is reported: of a `succ` or `pred` that failed its argument.
fn reported(found: FaultValue, step: i64) -> FaultValue {
    if step == 0 {
        return found;
    }
    FaultValue {
        value: found.value.saturating_sub(step),
        bounds: None,
    }
}

// Adds the value that an error found to its sentence, unless its type isn't known.
fn add_value(
    alloc: Global,
    source: &Source<'_>,
    outline: &Outline<'_>,
    lines: &Lines,
    account: &mut Account,
) -> Result<(), AllocError> {
    let (Some(number), Some(at), Some(found)) = (account.number, account.at, account.found) else {
        return Ok(());
    };
    let token = outline.token_at(lines.offset_of(at));
    let Some(meant) = meant_at(outline, number, token, found) else {
        account.found = None;
        return Ok(());
    };
    let told = found_told(alloc, source, outline.tokens(), meant, found)?;
    let told = told.as_str();
    write!(account.text, ": {told}")?;
    if number == 7 {
        let constants = constants_of(alloc, outline, token)?;
        let constants = constants.as_str();
        write!(account.text, " is none of {constants}")?;
    }
    account.found = Some(reported(found, meant.step));
    Ok(())
}

// Adds the loops in which a run was.
fn add_loops<'a>(
    alloc: Global,
    outline: &'a Outline<'a>,
    lines: &'a Lines,
    warnings: &'a [Warning],
    account: &mut Account,
) -> Result<(), AllocError> {
    let loops = Loops {
        outline,
        lines,
        warnings,
    };
    account.round = loops.innermost(&account.scene);
    if let Some(note) = loops.note(alloc, &account.scene, account.round)? {
        account.notes.push(note)?;
    }
    Ok(())
}

// Adds what is said of the loops in which a run was when its steps were used up.
fn add_round(
    alloc: Global,
    source: &Source<'_>,
    tree: &Program,
    outline: &Outline<'_>,
    lines: &Lines,
    account: &mut Account,
) -> Result<(), AllocError> {
    if !matches!(account.ending, Ending::Steps) {
        return Ok(());
    }
    let told = warnings(alloc, source, outline.tokens(), tree)?;
    add_loops(alloc, outline, lines, told.as_slice(), account)
}

// Adds that values were left out, if some were.
fn add_cut(alloc: Global, account: &mut Account) -> Result<(), AllocError> {
    if account.scene.is_cut {
        account.notes.push(String::from_str(alloc, CUT)?)?;
    }
    Ok(())
}

// The account of a run of a text with this outline.
fn account_of_outline(
    alloc: Global,
    source: &Source<'_>,
    tree: &Program,
    outline: &Outline<'_>,
    run: Run<'_>,
) -> Result<Account, AllocError> {
    let lines = Lines::new(alloc, source.bytes())?;
    let map = map_of(alloc, source, outline, run.mapped)?;
    let mut account = account_of_map(alloc, source, outline.tokens(), &map, run)?;
    add_span(outline, &lines, &mut account);
    add_value(alloc, source, outline, &lines, &mut account)?;
    add_round(alloc, source, tree, outline, &lines, &mut account)?;
    add_cut(alloc, &mut account)?;
    Ok(account)
}

// The account of a run of a text that was parsed.
fn account_of_tree(
    alloc: Global,
    source: &Source<'_>,
    tokens: &[Token],
    tree: &Program,
    run: Run<'_>,
) -> Result<Account, AllocError> {
    let outline = Outline::new(alloc, source, tokens, tree)?;
    account_of_outline(alloc, source, tree, &outline, run)
}

// The account of a run of a text with these tokens.
fn account_of_tokens(
    alloc: Global,
    source: &Source<'_>,
    tokens: &[Token],
    run: Run<'_>,
) -> Result<Account, AllocError> {
    let tree = match parse(alloc, source, tokens) {
        Ok(tree) => tree,
        Err(_) => return Err(AllocError),
    };
    let account = account_of_tree(alloc, source, tokens, &tree, run);
    release(tree);
    account
}

/// The report of a run that ended: of the program that `build_mapped` built from a text, which was allowed this many
/// steps.
///
/// # Errors
///
/// A growth was refused, or the text isn't the program's.
pub fn account_of(
    alloc: Global,
    text: &[u8],
    mapped: &Mapped,
    ended: &Ended,
    steps: u64,
    length: Length,
) -> Result<Account, AllocError> {
    let Ok(source) = Source::new(text) else {
        return Err(AllocError);
    };
    let Ok(tokens) = scan(alloc, &source) else {
        return Err(AllocError);
    };
    let facts = Facts {
        stop: ended.stop,
        ending: ending_of(ended),
        number: number_of(ended),
        steps,
        length,
    };
    let run = Run {
        mapped,
        machine: &ended.machine,
        facts,
    };
    account_of_tokens(alloc, &source, &tokens, run)
}
