//! How a map is made.

use indexmap::IndexMap;
use ps_build::Mapped;
use ps_diagnose_outline::Outline;
use ps_lower::marks::Mark;
use ps_map::{
    Block, Denoters, Lines, Map, Owner, Place, Routine, Row, blocks_of, name_of, small,
    variables_of,
};
use ps_parse::{parse, release};
use ps_scan::{Token, scan};
use ps_syntax::Program;
use ps_text::Source;
use ps_tree::tree::Routine as Tree;
use risc_emit::marks::Marks;
use std::alloc::{AllocError, Global};

// A text with its lines, and its blocks in the order of their `begin`.
#[derive(Drop)]
struct Text<'a> {
    outline: &'a Outline<'a>,
    lines: Lines,
    blocks: Vec<Block>,
}

impl<'a> Text<'a> {
    fn new(
        alloc: Global,
        source: &Source<'_>,
        outline: &'a Outline<'a>,
    ) -> Result<Text<'a>, AllocError> {
        let lines = Lines::new(alloc, source.bytes())?;
        let blocks = blocks_of(alloc, outline.tokens())?;
        Ok(Text {
            outline,
            lines,
            blocks,
        })
    }

    // The block with this `begin`.
    fn block_at(&self, begin: u32) -> Option<&Block> {
        let at = self.blocks.partition_point(|block| block.begin < begin);
        match self.blocks.get(at) {
            Some(block) if block.begin == begin => Some(block),
            _ => None,
        }
    }

    // The name of a block's routine.
    fn name(&self, alloc: Global, block: Option<&Block>) -> Result<String, AllocError> {
        match block {
            Some(block) => name_of(alloc, self.outline, block.name),
            None => Ok(String::new(alloc)),
        }
    }

    // Where a statement of a block begins, by its number there, from 1 on.
    fn statement(&self, block: Option<&Block>, number: u32) -> Option<Place> {
        let (Some(block), Some(at)) = (block, (number as usize).checked_sub(1)) else {
            return None;
        };
        match block.statements.get(at) {
            Some(offset) => Some(self.lines.place_of(*offset)),
            None => None,
        }
    }

    fn token(&self, at: Option<u32>) -> Option<Place> {
        match at {
            Some(offset) => Some(self.lines.place_of(offset)),
            None => None,
        }
    }
}

// Adds a row, unless the words before it belong to the same place. Of several rows for the same word the last one
// counts.
fn add(rows: &mut Vec<Row>, row: Row) -> Result<(), AllocError> {
    if let Some(last) = rows.last() {
        if last.word == row.word {
            rows.pop();
        }
    }
    if let Some(last) = rows.last() {
        if is_same_place(*last, row) {
            return Ok(());
        }
    }
    rows.push(row)?;
    Ok(())
}

fn is_same_place(left: Row, right: Row) -> bool {
    left.owner == right.owner && left.statement == right.statement && left.token == right.token
}

// The rows of the instructions of a routine of the program, after the row of its entry.
fn add_instructions(
    rows: &mut Vec<Row>,
    text: &Text<'_>,
    block: Option<&Block>,
    owner: Owner,
    marks: &[Mark],
    words: &Marks,
) -> Result<(), AllocError> {
    for (mark, place) in marks.iter().zip(words.places.iter()) {
        add(
            rows,
            Row {
                word: place.site,
                owner,
                statement: text.statement(block, mark.statement),
                token: text.token(mark.at),
            },
        )?;
    }
    Ok(())
}

// A routine of the program, whose variables begin at this offset in an activation.
fn routine_of(
    alloc: Global,
    text: &Text<'_>,
    denoters: &mut Denoters,
    routine: &Tree,
    entry: usize,
    frame: u32,
) -> Result<Routine, AllocError> {
    let begin = routine.line.at;
    let name = text.name(alloc, text.block_at(begin))?;
    let variables = variables_of(alloc, text.outline, denoters, begin, routine)?;
    Ok(Routine {
        name,
        begin: text.lines.place_of(begin),
        entry: small(entry),
        frame,
        variables,
    })
}

// The rows of a routine of the program.
fn add_rows(
    rows: &mut Vec<Row>,
    text: &Text<'_>,
    begin: u32,
    number: usize,
    marks: &[Mark],
    words: &Marks,
) -> Result<(), AllocError> {
    let owner = Owner::Routine(small(number));
    add(
        rows,
        Row {
            word: small(words.entry),
            owner,
            statement: None,
            token: text.token(Some(begin)),
        },
    )?;
    add_instructions(rows, text, text.block_at(begin), owner, marks, words)
}

// A row for words that belong to no statement.
fn plain(word: u32, owner: Owner) -> Row {
    Row {
        word,
        owner,
        statement: None,
        token: None,
    }
}

// The row of the start of the program, which may stop at the `begin` of the program block.
fn start(text: &Text<'_>, mapped: &Mapped) -> Row {
    let begin = match mapped.checked.routines().first() {
        Some(block) => Some(block.line.at),
        None => None,
    };
    Row {
        word: 0,
        owner: Owner::Start,
        statement: None,
        token: text.token(begin),
    }
}

// The rows of the run-time library, and of the strings after it.
fn add_run_time(map: &mut Map, routines: &[Marks]) -> Result<(), AllocError> {
    for (number, words) in routines.iter().enumerate() {
        add(
            &mut map.rows,
            plain(small(words.entry), Owner::RunTime(small(number))),
        )?;
    }
    if let Some(last) = routines.last() {
        if let Some(end) = last.places.last() {
            add(&mut map.rows, plain(end.site, Owner::Strings))?;
        }
    }
    Ok(())
}

// The program's routines, and their rows.
fn add_program(
    map: &mut Map,
    alloc: Global,
    text: &Text<'_>,
    mapped: &Mapped,
) -> Result<(), AllocError> {
    let mut denoters = IndexMap::new(alloc);
    for (number, routine) in mapped.checked.routines().iter().enumerate() {
        let (Some(marks), Some(words)) = (mapped.marks.get(number), mapped.words.get(number)) else {
            return Ok(());
        };
        let frame = mapped.frames.get(number).copied().unwrap_or(0);
        let frame = u32::try_from(frame).unwrap_or(u32::MAX);
        map.routines.push(routine_of(alloc, text, &mut denoters, routine, words.entry, frame)?)?;
        add_rows(
            &mut map.rows,
            text,
            routine.line.at,
            number,
            marks.as_slice(),
            words,
        )?;
    }
    Ok(())
}

// How many rows the map has, about: at most one for each mark of an instruction, and a few.
fn room_for(mapped: &Mapped) -> usize {
    let mut room: usize = 0;
    for marks in &mapped.marks {
        room = room.saturating_add(marks.len());
    }
    room
}

/// The map of a program that was built from a text.
pub fn map_of(
    alloc: Global,
    source: &Source<'_>,
    outline: &Outline<'_>,
    mapped: &Mapped,
) -> Result<Map, AllocError> {
    let text = Text::new(alloc, source, outline)?;
    let mut map = Map {
        routines: Vec::new(alloc),
        rows: Vec::with_capacity(alloc, room_for(mapped))?,
    };
    add(&mut map.rows, start(&text, mapped))?;
    add_program(&mut map, alloc, &text, mapped)?;
    let run_time = mapped.words.get(mapped.marks.len()..).unwrap_or(&[]);
    add_run_time(&mut map, run_time)?;
    Ok(map)
}

// The map of a program that was built from a text with this tree.
fn map_of_tree(
    alloc: Global,
    source: &Source<'_>,
    tokens: &[Token],
    tree: &Program,
    mapped: &Mapped,
) -> Result<Map, AllocError> {
    let outline = Outline::new(alloc, source, tokens, tree)?;
    map_of(alloc, source, &outline, mapped)
}

// The map of a program that was built from a text with these tokens.
fn map_of_tokens(
    alloc: Global,
    source: &Source<'_>,
    tokens: &[Token],
    mapped: &Mapped,
) -> Result<Map, AllocError> {
    let tree = match parse(alloc, source, tokens) {
        Ok(tree) => tree,
        Err(_) => return Err(AllocError),
    };
    let map = map_of_tree(alloc, source, tokens, &tree, mapped);
    release(tree);
    map
}

/// The map of a program that `build_mapped` built from this text.
///
/// # Errors
///
/// A growth was refused, or the text isn't the program's.
pub fn map_of_text(alloc: Global, text: &[u8], mapped: &Mapped) -> Result<Map, AllocError> {
    let Ok(source) = Source::new(text) else {
        return Err(AllocError);
    };
    let Ok(tokens) = scan(alloc, &source) else {
        return Err(AllocError);
    };
    map_of_tokens(alloc, &source, &tokens, mapped)
}

/// A program that was built, and its map.
#[derive(Drop)]
pub struct MappedText {
    pub mapped: Mapped,
    pub map: Map,
}
