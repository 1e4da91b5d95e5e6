//! Loops that change nothing that their conditions depend on.

use crate::finding::{Finding, MOST, Names};
use crate::rows::{ALL_UNCHANGED, ALL_UNCHANGED_ALONE, ONE_UNCHANGED, ONE_UNCHANGED_ALONE};
use crate::text::Text;
use crate::uses::{Body, CALLS, CHANGED, CONTENTS, DISTANT, FIELDS, INPUTS, Uses};
use ps_diagnose::RequiredName;
use ps_diagnose_outline::{Construct, Construction, Denoted, Point, PointKind};
use ps_scan::Kind;

// A loop, the block that it is in, and what is done there.
#[derive(Clone, Copy)]
struct Loop<'a> {
    text: &'a Text<'a>,
    uses: &'a Uses,
    body: Body,
    first: usize,
    end: usize,
}

/// The tokens of a loop's condition, from one up to another; none if it has no condition.
pub(crate) fn condition_of(part: &Construction) -> (usize, usize) {
    match part.construct {
        Construct::While => (part.first.saturating_add(1), part.body.saturating_sub(1)),
        Construct::Repeat => (part.body, part.end),
        _ => (0, 0),
    }
}

// What is known of the value that a name in a condition depends on.
#[derive(Clone, Copy)]
enum Seen {
    /// It is as it was, after what the loop does.
    Same,
    /// It may be another one.
    Other,
    /// Nothing ever changes it.
    Fixed,
}

impl<'a> Loop<'a> {
    // Whether something is done in the loop.
    fn has(&self, about: u32) -> bool {
        self.uses.has(about, self.first, self.end)
    }

    // Whether a variable is surely as it was, after what the loop does.
    fn is_same(&self, point: &Point) -> bool {
        let is_near = point.region == self.body.region
            && !matches!(point.kind, PointKind::VariableParameter);
        if self
            .uses
            .has_of(CHANGED, point.number, self.first, self.end)
            || self.has(FIELDS)
        {
            false
        } else if is_near {
            !self.has(CALLS) || !self.uses.has_of(CHANGED, point.number, 0, self.body.first)
        } else {
            !self.has(CALLS) && !self.has(DISTANT)
        }
    }

    // What is known of a declared name.
    fn seen_declared(&self, point: &Point) -> Seen {
        match point.kind {
            PointKind::Variable | PointKind::ValueParameter | PointKind::VariableParameter => {
                same_if(self.is_same(point))
            }
            PointKind::Constant | PointKind::Member | PointKind::Type => Seen::Fixed,
            _ => Seen::Other,
        }
    }

    // What is known of a name: what is read of the input is another one after each reading.
    fn seen(&self, at: usize) -> Seen {
        match self.text.outline.denoted(self.text.span(at)) {
            Some(Denoted::Declared(point)) => self.seen_declared(&point),
            Some(Denoted::Required(required)) => match required.name {
                RequiredName::Eof | RequiredName::Eoln | RequiredName::Input => {
                    same_if(!self.has(CALLS) && !self.has(INPUTS))
                }
                _ => Seen::Fixed,
            },
            None => Seen::Other,
        }
    }

    // What is known of the value that a token of the condition depends on.
    fn look(&self, at: usize) -> Seen {
        match self.text.outline.kind(at) {
            Kind::Name if !self.text.is(at.saturating_sub(1), Kind::Dot) => self.seen(at),
            Kind::Caret if self.has(CALLS) || self.has(CONTENTS) || self.has(FIELDS) => {
                Seen::Other
            }
            _ => Seen::Fixed,
        }
    }

    // Adds a name, once.
    fn add(&self, names: &mut Names, at: usize) {
        let spelling = self.text.outline.spelling_of(at);
        for other in names.tokens() {
            if self.text.outline.spelling_of(*other) == spelling {
                return;
            }
        }
        names.add(at);
    }

    // The names of a condition, if all of it is as it was, after what the loop does; none if there are too many to
    // report.
    fn names(&self, from: usize, to: usize) -> Names {
        let mut names = Names::none();
        for at in from..to {
            match self.look(at) {
                Seen::Other => return Names::none(),
                Seen::Same if names.count == MOST => return Names::none(),
                Seen::Same => self.add(&mut names, at),
                Seen::Fixed => {}
            }
        }
        names
    }
}

// What is known of a thing that may be as it was.
fn same_if(is_same: bool) -> Seen {
    if is_same { Seen::Same } else { Seen::Other }
}

// The row of a loop; that of a `while` with a single statement says where the statement is.
fn row_of(text: &Text<'_>, part: &Construction, count: usize) -> usize {
    let is_single = matches!(part.construct, Construct::While)
        && part.body < part.end
        && !text.is(part.body, Kind::Begin);
    match (is_single, count) {
        (false, 1) => ONE_UNCHANGED,
        (false, _) => ALL_UNCHANGED,
        (true, 1) => ONE_UNCHANGED_ALONE,
        (true, _) => ALL_UNCHANGED_ALONE,
    }
}

/// A loop that changes nothing that its condition depends on.
pub(crate) fn unchanged<'a>(
    text: &'a Text<'a>,
    uses: &'a Uses,
    body: Body,
    part: &Construction,
) -> Option<Finding> {
    let (from, to) = condition_of(part);
    let seen = Loop {
        text,
        uses,
        body,
        first: part.first,
        end: part.end,
    };
    let names = seen.names(from, to);
    if names.count == 0 {
        return None;
    }
    let word = text.span(part.first);
    let mut found = Finding::new(row_of(text, part, names.count), word, word);
    found.names = names;
    found.at = text.span(part.body).from;
    Some(found)
}
