//! What is reported for an underscore in a name.

use crate::context::Context;
use crate::letters::{Class, end_of, span_at, start_of};
use crate::tell::{joined, shown, take_away};
use ps_diagnose::{Telling, Text};
use ps_text::Span;
use std::alloc::{AllocError, Global};

// The most places that are reported after the first.
const MOST: usize = 7;

// Puts a name without its underscores: the letters after them become capitals.
fn put_plain(out: &mut Text, name: &[u8]) {
    let mut is_first = true;
    let mut is_behind = false;
    for byte in name.iter() {
        if *byte == b'_' {
            is_behind = !is_first;
        } else {
            let letter = if is_behind {
                byte.to_ascii_uppercase()
            } else {
                *byte
            };
            out.put_sign(letter as char);
            is_behind = false;
            is_first = false;
        }
    }
}

// Whether what comes after a byte is in a string; no string continues past the end of its line.
fn is_still_string(is_string: bool, byte: u8) -> bool {
    match byte {
        b'\n' => false,
        b'\'' => !is_string,
        _ => is_string,
    }
}

// The names with an underscore that are not in a string.
fn all_found(alloc: Global, bytes: &[u8]) -> Result<Vec<Span>, AllocError> {
    let mut all = Vec::new(alloc);
    let mut behind = 0;
    let mut is_string = false;
    for (at, byte) in bytes.iter().enumerate() {
        is_string = is_still_string(is_string, *byte);
        if *byte == b'_' && behind <= at && !is_string {
            behind = end_of(bytes, at, Class::Word);
            all.push(name_at(bytes, at))?;
        }
    }
    Ok(all)
}

// The name around an offset.
fn name_at(bytes: &[u8], at: usize) -> Span {
    span_at(
        start_of(bytes, at, Class::Word),
        end_of(bytes, at, Class::Word),
    )
}

// Adds the changes of all names.
fn change_names(cx: &Context<'_>, to: &mut Telling, all: &[Span]) {
    for name in all.iter() {
        let mut put = Text::new(cx.alloc);
        put_plain(&mut put, cx.piece(*name));
        to.change(*name, put);
    }
}

// What comes before one of this many places.
fn before_place(number: usize, count: usize) -> &'static str {
    match number {
        0 => ", and at ",
        _ if number.saturating_add(1) == count => " and ",
        _ => ", ",
    }
}

// Puts the further places of a name.
fn put_others(cx: &Context<'_>, out: &mut Text, all: &[Span]) {
    for (number, name) in all.iter().enumerate() {
        if number < MOST {
            out.put(before_place(number, all.len()));
            out.put_place(cx.bytes, name.from);
        }
    }
    let more = all.len().saturating_sub(MOST);
    if more > 0 {
        out.put(" and at ");
        out.put_number(i64::from(more.min(u32::MAX as usize) as u32));
        out.put(if more == 1 {
            " other place"
        } else {
            " other places"
        });
    }
}

// Whether all names are spelled like one.
fn are_alike(cx: &Context<'_>, all: &[Span], name: &[u8]) -> bool {
    for other in all.iter() {
        if !cx.piece(*other).eq_ignore_ascii_case(name) {
            return false;
        }
    }
    true
}

// Puts the places of the names that are exchanged.
fn put_places(cx: &Context<'_>, out: &mut Text, all: &[Span], name: &[u8]) {
    match all {
        [] => {}
        [first, others @ ..] if are_alike(cx, all, name) => {
            out.put(" at ");
            out.put_place(cx.bytes, first.from);
            put_others(cx, out, others);
        }
        _ => out.put(", and do the same for all names with a `_`"),
    }
}

// Proposes all names without underscores, in the words of one of them.
fn propose_names(cx: &Context<'_>, to: &mut Telling, all: &[Span], name: &[u8]) {
    let mut words = joined(cx, &["write `"]);
    put_plain(&mut words, name);
    words.put_all(&["` instead of `", shown(name), "`"]);
    put_places(cx, &mut words, all, name);
    to.propose(cx.alloc, 0, words);
    change_names(cx, to, all);
}

// Whether a name has anything besides underscores.
fn has_letters(name: &[u8]) -> bool {
    for byte in name.iter() {
        if *byte != b'_' {
            return true;
        }
    }
    false
}

/// Proposes the name at the place without its underscores, wherever it occurs, and all others; or to remove one that is
/// only underscores.
pub(crate) fn exchange_underscores(cx: &Context<'_>, to: &mut Telling) {
    let name = name_at(cx.bytes, cx.place.from as usize);
    if !has_letters(cx.piece(name)) {
        take_away(cx, to, 0, name);
        return;
    }
    match all_found(cx.alloc, cx.bytes) {
        Ok(all) => propose_names(cx, to, all.as_slice(), cx.piece(name)),
        Err(AllocError) => to.has_failed = true,
    }
}
