//! The listing of an image with its source.

ghost use Rattle.std.specs.Prelude.{IfOk, OnOk};
ghost use Rattle.std.specs.String.{string_bytes};
ghost use Rattle.ps_map.specs.Shown.{AddsLine, AddsLines, Grows, Shows};

use crate::accesses::{Access, access_in};
use crate::characters::{line_at, lines_of, readable, shown_name};
use crate::map::{Map, Owner, Row};
use crate::variables::{Variable, variable_before};
use ps_diagnostic::printable;
use risc_image::ImageView;
use std::alloc::{AllocError, Global};

// The registers with the addresses of the innermost frame and of the program block's.
const FRAME: u8 = 14;

const PROGRAM: u8 = 13;

// What the routines of the run-time library do, by their numbers.
const RUN_TIME: [&str; 17] = [
    "copies words",
    "adds a range to a set",
    "unites sets",
    "takes a set from a set",
    "intersects sets",
    "whether a set is within a set",
    "whether a number is in a set",
    "compares strings",
    "packs",
    "unpacks",
    "writes a number",
    "writes a character",
    "writes a string",
    "looks ahead",
    "reads a character",
    "reads a number",
    "reads up to the end of a line",
];

/// What a routine of the run-time library does, by its number.
pub fn run_time_description(number: u32) -> &'static str {
    RUN_TIME.get(number as usize).copied().unwrap_or("")
}

// The variable of a routine at this offset from the start of an activation. The homes of variables follow one another.
fn variable_at(map: &Map, routine: u32, offset: i32) -> Option<&Variable> {
    let (Some(routine), Ok(offset)) = (map.routines.get(routine as usize), u32::try_from(offset))
    else {
        return None;
    };
    let Some(place) = offset.checked_sub(routine.frame) else {
        return None;
    };
    let Some(number) = variable_before(routine.variables.as_slice(), place) else {
        return None;
    };
    match routine.variables.get(number) {
        Some(variable) if place < variable.home.saturating_add(variable.bytes) => Some(variable),
        _ => None,
    }
}

// The variable of a routine, or of the program, at an offset from the address in a register.
fn variable_from(map: &Map, routine: u32, base: u8, offset: i32) -> Option<&Variable> {
    match base {
        FRAME => variable_at(map, routine, offset),
        PROGRAM => variable_at(map, 0, offset),
        _ => None,
    }
}

// The variable that a word of a row loads or stores, as far as can be seen.
fn variable_of(map: &Map, row: Option<Row>, word: u32) -> Option<&Variable> {
    let Some(
        Row {
            owner: Owner::Routine(routine),
            ..
        },
    ) = row
    else {
        return None;
    };
    match access_in(word) {
        Access::Load { base, offset, .. } => variable_from(map, routine, base, offset),
        Access::Store { base, offset, .. } => variable_from(map, routine, base, offset),
        _ => None,
    }
}

// The name of the owner of a row's words.
fn owner_told<'a>(map: &'a Map, owner: Owner) -> &'a str {
    match owner {
        Owner::Start => "start",
        Owner::Routine(number) => map.name_of(number).unwrap_or("?"),
        Owner::RunTime(number) => run_time_description(number),
        Owner::Strings => "strings",
    }
}

// The line of the text under which a row's words are shown.
fn line_of(row: Row) -> Option<u32> {
    match (row.statement, row.token) {
        (Some(place), _) | (None, Some(place)) => Some(place.line),
        (None, None) => None,
    }
}

// How many bytes of a line are shown: the words of two long lines may alternate.
const MOST_SHOWN: usize = 160;

// The part of a line that is shown, without splitting a character.
fn front_of(line: &str) -> &str {
    if line.len() <= MOST_SHOWN {
        return line;
    }
    for missing in 0..4usize {
        let front = line
            .as_bytes()
            .get(..MOST_SHOWN.saturating_sub(missing))
            .unwrap_or(&[]);
        if let Ok(front) = str::from_utf8(front) {
            return front;
        }
    }
    ""
}

// A listing being made.
#[derive(Drop)]
struct Lister<'a> {
    alloc: Global,
    map: &'a Map,
    /// The lines of the text.
    lines: Vec<&'a str>,
    out: String,
    owner: Option<Owner>,
    line: Option<u32>,
}

impl<'a> Lister<'a> {
    // Adds a line.
    fn add_line(&mut self, line: &str) -> Result<(), AllocError>
        ensures { OnOk result (AddsLines (string_bytes self.old.out) (string_bytes self.new.out)) }
    {
        self.out.push_str(line)?;
        self.out.push_str("\n")
    }

    // Adds what comes before the words of a row: the name of their owner, and the line of the text, each if it has
    // changed.
    #[tactic(auto, using(crate::proofs::ShownLines::none_added))]
    fn head(&mut self, row: Option<Row>) -> Result<(), AllocError>
        ensures { OnOk result (AddsLines (string_bytes self.old.out) (string_bytes self.new.out)) }
    {
        let Some(row) = row else {
            return Ok(());
        };
        self.name(row.owner)?;
        self.source(line_of(row))
    }

    // Adds the name of the owner of the words, if it has changed.
    #[tactic(auto, using(crate::proofs::ShownLines::none_added))]
    fn name(&mut self, owner: Owner) -> Result<(), AllocError>
        ensures { OnOk result (AddsLines (string_bytes self.old.out) (string_bytes self.new.out)) }
    {
        if self.owner == Some(owner) {
            return Ok(());
        }
        self.owner = Some(owner);
        self.line = None;
        let name = owner_told(self.map, owner);
        let told = format!(in self.alloc; "; {name}")?;
        self.add_line(told.as_str())
    }

    // Adds the line of the text, if it has changed.
    #[tactic(auto, using(crate::proofs::ShownLines::none_added))]
    fn source(&mut self, line: Option<u32>) -> Result<(), AllocError>
        ensures { OnOk result (AddsLines (string_bytes self.old.out) (string_bytes self.new.out)) }
    {
        let Some(number) = line else {
            return Ok(());
        };
        if line == self.line {
            return Ok(());
        }
        self.line = line;
        let text = line_at(self.lines.as_slice(), number);
        let front = front_of(text);
        let more = if front.len() < text.len() { " .." } else { "" };
        let shown = printable(self.alloc, front)?;
        let shown = shown.as_str();
        let told = format!(in self.alloc; ";{number:5}  {shown}{more}")?;
        self.add_line(told.as_str())
    }

    // Adds the name of the variable that a word loads or stores.
    fn variable(&mut self, row: Option<Row>, word: u32) -> Result<(), AllocError>
        ensures { OnOk result (Grows (string_bytes self.old.out) (string_bytes self.new.out)) }
    {
        let Some(variable) = variable_of(self.map, row, word) else {
            return Ok(());
        };
        let name = shown_name(self.alloc, variable.name.as_str())?;
        self.out.push_str(" ; ")?;
        self.out.push_str(name.as_str())
    }

    // Adds the line of a word, as in the listing without the source.
    fn word(&mut self, row: Option<Row>, listed: &str, word: u32) -> Result<(), AllocError>
        ensures { OnOk result (AddsLine listed.now (string_bytes self.old.out) (string_bytes self.new.out)) }
    {
        self.head(row)?;
        self.out.push_str(listed)?;
        self.variable(row, word)?;
        self.out.push_str("\n")
    }
}

// The row of a word, where so many rows begin before it; sets how many begin at or before it. (The words are asked for
// one after another, and a long code has nearly as many rows.)
fn next_row(map: &Map, begun: &mut usize, word: u32) -> Option<Row> {
    let mut count = *begun;
    for row in map.rows.get(count..).unwrap_or(&[]) {
        if row.word > word {
            break;
        }
        count = count.saturating_add(1);
    }
    *begun = count;
    match count.checked_sub(1) {
        Some(last) => map.rows.get(last).copied(),
        None => None,
    }
}

// How many bytes a listing of so many bytes has with the lines of its text, about.
fn room_for(listed: usize) -> usize {
    listed.saturating_add(listed / 8)
}

// The listing of an image with the lines of its text, which is UTF-8.
fn listing_with_text(
    alloc: Global,
    text: &str,
    map: &Map,
    image: &ImageView<'_>,
    listing: &str,
) -> Result<String, AllocError>
    ensures { IfOk result (λ shown. Shows listing.now (string_bytes shown)) }
{
    let out = String::with_capacity(alloc, room_for(listing.len()))?;
    let mut lister = Lister {
        alloc,
        map,
        lines: lines_of(alloc, text)?,
        out,
        owner: None,
        line: None,
    };
    let mut number: u32 = 0;
    let mut begun: usize = 0;
    for listed in listing.split('\n') {
        if listed.is_empty() {
            continue;
        }
        let word = image.word(number as usize).unwrap_or(0);
        let row = next_row(map, &mut begun, number);
        lister.word(row, listed, word)?;
        number = number.saturating_add(1);
    }
    let Lister {
        alloc: _,
        map: _,
        lines: _,
        out,
        owner: _,
        line: _,
    } = lister;
    Ok(out)
}

/// The listing of an image with the lines of its text: before the words of a routine its name, before those of a
/// statement its line, and after a word that loads or stores a variable the variable's name. `listing` is the listing
/// without them, a line for each word. The lines of the text are shown as messages show them: what isn't printable as
/// `?`.
pub fn listing_with_source(
    alloc: Global,
    text: &[u8],
    map: &Map,
    image: &ImageView<'_>,
    listing: &str,
) -> Result<String, AllocError>
    ensures { IfOk result (λ shown. Shows listing.now (string_bytes shown)) }
{
    let text = readable(alloc, text)?;
    listing_with_text(alloc, text.as_str(), map, image, listing)
}
