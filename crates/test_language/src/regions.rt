//! The search for a name through two regions.

use ps_check_names::meaning::Meaning;
use ps_check_names::scope::{Found, Lookup, Scope, find};
use ps_scan::name_spelling;
use ps_tree::names::{Names, Seed};
use std::alloc::{AllocError, Global};
use test_tables::Line;
use test_tables::words::letters;

/// The names of a region, and what those before the place denote.
#[derive(Drop)]
struct Region {
    names: Names,
    known: Vec<Meaning>,
}

fn add_name(
    alloc: Global,
    region: &mut Region,
    word: &str,
    is_later: bool,
) -> Result<(), AllocError> {
    let spelling = name_spelling(alloc, word.as_bytes())?;
    region.names.add(spelling)?;
    if !is_later {
        region.known.push(Meaning::LeftOut)?;
    }
    Ok(())
}

/// Adds some words: names, of which those after the word `later` come after the place.
fn add_names(alloc: Global, region: &mut Region, words: &str) -> Result<(), AllocError> {
    let mut is_later = false;
    for word in words.split(' ') {
        if word == "later" {
            is_later = true;
        } else {
            add_name(alloc, region, word, is_later)?;
        }
    }
    Ok(())
}

/// The region of some words.
fn region_of(alloc: Global, words: &str) -> Result<Region, AllocError> {
    let mut region = Region {
        names: Names::new(alloc, Seed::of(b"")),
        known: Vec::new(alloc),
    };
    let end = add_names(alloc, &mut region, words);
    end.and(Ok(region))
}

fn put_lookup(line: &mut Line, lookup: Lookup) {
    match lookup {
        Lookup::Found(Found::Name { up, .. }) => {
            line.numbered("", u64::from(up));
            line.word(" out");
        }
        Lookup::Found(Found::Field { .. }) => line.word("a field"),
        Lookup::Broken(rule) => {
            line.numbered("", u64::from(rule.number()));
            line.valued(" ", &rule);
        }
    }
}

/// Puts where a name is found. The row has the outer region, the inner one and the name, with `/` and `:` between them.
pub(crate) fn put_found(alloc: Global, line: &mut Line, row: &[u8]) {
    let (regions, name) = letters(row).split_once(" : ").unwrap_or(("", ""));
    let (outer, inner) = regions.split_once(" / ").unwrap_or(("", ""));
    let Ok(outer) = region_of(alloc, outer) else {
        return line.fall_short();
    };
    let around = Scope::Block {
        routine: 0,
        names: &outer.names,
        known: outer.known.as_slice(),
        outer: &Scope::Outside,
    };
    put_found_within(alloc, line, &around, inner, name);
    drop(outer);
}

/// Puts where a name is found in the region of some words, or around it.
fn put_found_within(alloc: Global, line: &mut Line, around: &Scope, words: &str, name: &str) {
    let Ok(inner) = region_of(alloc, words) else {
        return line.fall_short();
    };
    let within = Scope::Block {
        routine: 1,
        names: &inner.names,
        known: inner.known.as_slice(),
        outer: around,
    };
    put_lookup(line, find(&within, name.as_bytes()));
    drop(inner);
}
