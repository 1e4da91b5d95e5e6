//! Which statement each word of the code belongs to, and where statements begin.

use ps_map::{Map, Owner, Place, Row, small};
use std::alloc::{AllocError, Global};

/// A word of the code.
#[derive(Clone, Copy)]
pub(crate) struct Site {
    /// The number of its statement, from 1 on in the order of the text; 0 if it has none.
    pub(crate) statement: u32,
    /// Whether statements begin there: its own, and those whose first statement within is its own.
    pub(crate) begins: bool,
    /// Whether it belongs to the run-time library.
    pub(crate) is_library: bool,
    /// The number of its row in the map.
    pub(crate) row: u32,
}

/// A statement that has words.
#[derive(Clone, Copy)]
pub(crate) struct Statement {
    pub(crate) place: Place,
    /// The routine of the program that it is in.
    pub(crate) routine: u32,
    /// The number of the outermost statement that begins at its first word.
    pub(crate) outermost: u32,
}

/// The words of the code, and the statements.
#[derive(Drop)]
pub(crate) struct Sites {
    /// By the numbers of the words.
    pub(crate) words: Vec<Site>,
    /// By their numbers minus one: in the order of the text.
    pub(crate) statements: Vec<Statement>,
}

// A place as a number, in the order of the text.
fn key_of(place: Place) -> u64 {
    (u64::from(place.line) << 32) | u64::from(place.column)
}

fn place_of(key: u64) -> Place {
    Place {
        line: (key >> 32) as u32,
        column: (key & 0xFFFF_FFFF) as u32,
    }
}

// The places of all statements that have words, in the order of the text, each once.
fn keys_of(alloc: Global, rows: &[Row]) -> Result<Vec<u64>, AllocError> {
    let mut keys = Vec::new(alloc);
    for row in rows {
        if let Some(place) = row.statement {
            keys.push(key_of(place))?;
        }
    }
    keys.sort()?;
    keys.dedup();
    Ok(keys)
}

// The number of the statement at a place, from 1 on; 0 if there is none.
fn number_of(keys: &[u64], statement: Option<Place>) -> u32 {
    match statement {
        Some(place) => {
            let key = key_of(place);
            small(keys.partition_point(|other| *other <= key))
        }
        None => 0,
    }
}

// The statements with these places, each taken to be the outermost one at its first word.
fn statements_of(alloc: Global, keys: &[u64]) -> Result<Vec<Statement>, AllocError> {
    let mut statements = Vec::new(alloc);
    for (at, key) in keys.iter().enumerate() {
        statements.push(Statement {
            place: place_of(*key),
            routine: 0,
            outermost: small(at).saturating_add(1),
        })?;
    }
    Ok(statements)
}

// For each routine of the program, the number of its first statement.
fn firsts_of(alloc: Global, map: &Map, keys: &[u64]) -> Result<Vec<u32>, AllocError> {
    let mut firsts = Vec::new(alloc);
    firsts.resize(map.routines.len(), u32::MAX)?;
    for row in map.rows.iter() {
        let number = number_of(keys, row.statement);
        let Owner::Routine(routine) = row.owner else {
            continue;
        };
        if let Some(first) = firsts.get_mut(routine as usize) {
            if 0 < number && number < *first {
                *first = number;
            }
        }
    }
    Ok(firsts)
}

// Sets the routine of a row's statement, and returns whether the row is the statement's first.
//
// Statements are numbered in the order of the text, and their words are in that order too, except for words of a
// statement that come after those nested in it. So the row is the first one of its statement, and of all statements
// numbered between it and the last one that began in the routine.
fn begin(statements: &mut Vec<Statement>, next: &mut u32, routine: u32, number: u32) -> bool {
    if let Some(at) = (number as usize).checked_sub(1) {
        if let Some(statement) = statements.get_mut(at) {
            statement.routine = routine;
            if *next <= number {
                statement.outermost = *next;
                *next = number.saturating_add(1);
                return true;
            }
        }
    }
    false
}

// The sites of the first words of all rows.
fn row_sites(
    alloc: Global,
    map: &Map,
    keys: &[u64],
    statements: &mut Vec<Statement>,
) -> Result<Vec<Site>, AllocError> {
    let mut nexts = firsts_of(alloc, map, keys)?;
    let mut sites = Vec::new(alloc);
    for (at, row) in map.rows.iter().enumerate() {
        let statement = number_of(keys, row.statement);
        let begins = match row.owner {
            Owner::Routine(routine) => match nexts.get_mut(routine as usize) {
                Some(next) => begin(statements, next, routine, statement),
                None => false,
            },
            _ => false,
        };
        sites.push(Site {
            statement,
            begins,
            is_library: matches!(row.owner, Owner::RunTime(_)),
            row: small(at),
        })?;
    }
    Ok(sites)
}

// The site of a word after the first one of its row.
fn behind(first: Site) -> Site {
    Site {
        statement: first.statement,
        begins: false,
        is_library: first.is_library,
        row: first.row,
    }
}

// The sites of all words, given those of the first words of rows.
fn spread(
    alloc: Global,
    rows: &[Row],
    firsts: &[Site],
    count: usize,
) -> Result<Vec<Site>, AllocError> {
    let mut words = Vec::new(alloc);
    for (at, first) in firsts.iter().enumerate() {
        let end = match rows.get(at.saturating_add(1)) {
            Some(next) => (next.word as usize).min(count),
            None => count,
        };
        if words.len() < end {
            words.push(*first)?;
            if words.len() < end {
                words.resize(end, behind(*first))?;
            }
        }
    }
    Ok(words)
}

/// The sites of a code of this many words with this map.
pub(crate) fn sites_of(alloc: Global, map: &Map, count: usize) -> Result<Sites, AllocError> {
    let keys = keys_of(alloc, map.rows.as_slice())?;
    let mut statements = statements_of(alloc, keys.as_slice())?;
    let firsts = row_sites(alloc, map, keys.as_slice(), &mut statements)?;
    let words = spread(alloc, map.rows.as_slice(), firsts.as_slice(), count)?;
    Ok(Sites { words, statements })
}
