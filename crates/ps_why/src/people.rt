//! An account as lines for people.

use crate::account::{Account, Ending};
use crate::loops::Loop;
use crate::shown::marked;
use ps_map::Place;
use ps_scene::{Activation, Scene, Value};
use ps_text::{Source, Span};
use std::alloc::{AllocError, Global};

// A line of values is continued on the next one after this many columns.
const WIDEST: usize = 100;

// The widest prefix of a line with which others are aligned.
const WIDEST_FRONT: usize = 40;

// The first line if the steps were used up, without its end: it says where the run was.
fn steps_head(alloc: Global, file: &str, account: &Account) -> Result<String, AllocError> {
    let text = account.text.as_str();
    match (account.round, account.at) {
        (Some(Loop { word, at }), _) => {
            let line = at.line;
            format!(in alloc; "{text}, in the `{word}` of {file}:{line}")
        }
        (None, Some(Place { line, column })) => format!(in alloc;
            "{text}, at {file}:{line}:{column}"
        ),
        (None, None) => String::from_str(alloc, text),
    }
}

// The first line, without its end.
fn head(alloc: Global, file: &str, account: &Account) -> Result<String, AllocError> {
    let text = account.text.as_str();
    match (account.ending, account.at) {
        (Ending::Steps, _) => steps_head(alloc, file, account),
        (Ending::Stack, Some(Place { line, .. })) => format!(in alloc; "{file}:{line}: {text}"),
        (Ending::Error | Ending::Heap, Some(Place { line, column })) => {
            format!(in alloc; "{file}:{line}:{column}: {text}")
        }
        _ => format!(in alloc; "{file}: {text}"),
    }
}

// What comes before the values of an open call.
fn front(alloc: Global, open: &Activation) -> Result<String, AllocError> {
    let name = if open.name.is_empty() {
        "?"
    } else {
        open.name.as_str()
    };
    let mark = if has_told(open.values.as_slice()) || !open.has_begun {
        ":"
    } else {
        ""
    };
    match open.called {
        Some(Place { line, .. }) => format!(in alloc; "  in {name}, called at {line}{mark}"),
        None => format!(in alloc; "  in {name}{mark}"),
    }
}

// Whether any of these values is shown. The result of a function is shown if it no longer has its first value.
fn has_told(values: &[Value]) -> bool {
    for value in values.iter() {
        if !value.is_unset {
            return true;
        }
    }
    false
}

// The widest of the prefixes, up to a limit.
fn width_of(alloc: Global, scene: &Scene) -> Result<usize, AllocError> {
    let mut widest = 0;
    for open in scene.open.iter() {
        let width = front(alloc, open)?.len();
        if widest < width && width <= WIDEST_FRONT {
            widest = width;
        }
    }
    Ok(widest)
}

// Adds values after a prefix of this many columns, in as many lines as they need.
fn put_values(out: &mut String, values: &[Value], indent: usize) -> Result<(), AllocError> {
    let mut column = indent;
    let mut is_first = true;
    for value in values.iter() {
        if value.is_unset {
            continue;
        }
        let (name, told) = (value.name.as_str(), value.value.as_str());
        let width = name.len().saturating_add(told.len()).saturating_add(5);
        if !is_first {
            column = put_comma(out, column, width, indent)?;
        }
        write!(out, "{name} = {told}")?;
        column = column.saturating_add(width);
        is_first = false;
    }
    Ok(())
}

// Adds this many spaces.
fn put_spaces(out: &mut String, count: usize) -> Result<(), AllocError> {
    for _ in 0..count {
        out.push_str(" ")?;
    }
    Ok(())
}

// Adds what comes before the next value, which has this width: it begins another line if it doesn't fit. Returns its
// column.
fn put_comma(
    out: &mut String,
    column: usize,
    width: usize,
    indent: usize,
) -> Result<usize, AllocError> {
    if column.saturating_add(width) > WIDEST {
        out.push_str(",\n")?;
        put_spaces(out, indent)?;
        return Ok(indent);
    }
    out.push_str(", ")?;
    Ok(column)
}

// Adds the lines of an open call, where the prefixes have this width.
fn put_activation(
    alloc: Global,
    out: &mut String,
    open: &Activation,
    width: usize,
) -> Result<(), AllocError> {
    let front = front(alloc, open)?;
    let len = front.len();
    out.push_str(front.as_str())?;
    if !has_told(open.values.as_slice()) && open.has_begun {
        return out.push_str("\n");
    }
    let gap = width.saturating_sub(len).saturating_add(2);
    put_spaces(out, gap)?;
    if open.has_begun {
        put_values(out, open.values.as_slice(), len.saturating_add(gap))?;
    } else {
        out.push_str("before its first statement")?;
    }
    out.push_str("\n")
}

// Adds the open calls, and before the last one how many are not shown.
fn put_calls(alloc: Global, out: &mut String, scene: &Scene) -> Result<(), AllocError> {
    let width = width_of(alloc, scene)?;
    let shown = scene.open.len();
    let hidden = scene.count.saturating_sub(shown as u64);
    for (number, open) in scene.open.iter().enumerate() {
        if hidden > 0 && number.saturating_add(1) == shown {
            write!(out, "  .. {hidden} more\n")?;
        }
        put_activation(alloc, out, open, width)?;
    }
    Ok(())
}

// Adds the contents of the objects.
fn put_objects(out: &mut String, objects: &[String]) -> Result<(), AllocError> {
    for (before, object) in objects.iter().enumerate() {
        let number = before.saturating_add(1);
        let object = object.as_str();
        write!(out, "  object {number} = {object}\n")?;
    }
    Ok(())
}

// Adds the line of the text with its mark, for an error or if the heap had no room.
fn put_source(
    alloc: Global,
    out: &mut String,
    source: &Source<'_>,
    account: &Account,
) -> Result<(), AllocError> {
    if account.at.is_some() && matches!(account.ending, Ending::Error | Ending::Heap) {
        let span = Span {
            from: account.from,
            to: account.to,
        };
        let lines = marked(alloc, source, span)?;
        out.push_str(lines.as_str())?;
    }
    Ok(())
}

/// The report of a run of the program of a text, in lines for people, each ended by byte 10: how it ended, the line of
/// the text with a mark, the open calls with the values of their variables, the contents of objects, and notes.
///
/// The file's name is shown as it is.
pub fn render(
    alloc: Global,
    file: &str,
    text: &[u8],
    account: &Account,
) -> Result<String, AllocError> {
    let mut out = head(alloc, file, account)?;
    out.push_str("\n")?;
    if let Ok(source) = Source::new(text) {
        put_source(alloc, &mut out, &source, account)?;
    }
    put_calls(alloc, &mut out, &account.scene)?;
    put_objects(&mut out, account.scene.objects.as_slice())?;
    for note in account.notes.iter() {
        let note = note.as_str();
        write!(out, "  {note}\n")?;
    }
    Ok(out)
}
