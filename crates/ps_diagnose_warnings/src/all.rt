//! All warnings for a text.

use crate::comments::comment_in;
use crate::directives::directive;
use crate::empty::empty;
use crate::finding::{Finding, Warning};
use crate::hidden::told_of;
use crate::indented::{indented, misplaced};
use crate::lost::lost;
use crate::nested::nested;
use crate::outside::outside;
use crate::reading::{body_of, uses_of};
use crate::tell::Teller;
use crate::text::Text;
use crate::unchanged::unchanged;
use crate::unreached::{undone, unreached};
use crate::uses::{Body, Uses};
use ps_diagnose_outline::{Construction, Outline, count_of};
use ps_scan::Token;
use ps_syntax::Program;
use ps_text::{Source, Span};
use std::alloc::{AllocError, Global};

// The most variables that may be open by `with` when names are looked up: each costs a step for each name.
const MOST_OPENED: u32 = 64;

// The most that may be found.
const MOST_FOUND: u32 = 67_108_864;

// What is found, and its order.
#[derive(Drop)]
struct Findings {
    found: Vec<Finding>,
    keys: Vec<u64>,
    // whether out of memory
    has_failed: bool,
}

impl Findings {
    // Adds a finding: findings are ordered by where they are reported, then by their row, and then by their number.
    fn add(&mut self, finding: Option<Finding>) {
        if let Some(found) = finding {
            let row = count_of(found.row).saturating_mul(MOST_FOUND);
            let low = row.saturating_add(count_of(self.found.len()));
            let key = u64::from(found.order) * 4_294_967_296 + u64::from(low);
            let is_kept = self.found.push(found).is_ok() && self.keys.push(key).is_ok();
            self.has_failed = self.has_failed || !is_kept;
        }
    }

    // What is reported for the comments in a part of the text that has no tokens.
    fn find_in_gap(&mut self, text: &Text<'_>, gap: Span) {
        let mut from = gap.from;
        for _ in gap.from..gap.to {
            match comment_in(text, Span { from, to: gap.to }) {
                Some(comment) => {
                    from = comment.to;
                    self.add(directive(text, comment));
                    self.add(nested(text, comment));
                }
                None => break,
            }
        }
    }

    // What is reported for the comments of a text, including those after its last token.
    fn find_comments(&mut self, text: &Text<'_>) {
        for at in 0..text.outline.token_count().saturating_add(1) {
            self.find_in_gap(text, text.gap(at));
        }
    }

    // Lines that are indented as if they belonged to the statement before them, each once.
    fn find_indented(&mut self, text: &Text<'_>) {
        let mut told = 0;
        for part in text.outline.constructions() {
            if part.end != told {
                let found = indented(text, part);
                if found.is_some() {
                    told = part.end;
                }
                self.add(found);
            }
            self.add(misplaced(text, part));
        }
    }

    // Constants in a block's statements that are outside the range of their places.
    fn find_outside(&mut self, text: &Text<'_>, body: Body) {
        for at in body.first..body.end {
            self.add(outside(text, at));
        }
    }

    // What is reported for the constructions, and for the parameters of the blocks.
    fn find_constructions(&mut self, text: &Text<'_>, uses: &Uses) {
        let mut body = Body {
            first: 0,
            end: 0,
            region: 0,
        };
        for part in text.outline.constructions() {
            if let Some(next) = body_of(text, part) {
                body = next;
                self.add(lost(text, uses, body));
                self.find_outside(text, body);
            } else {
                self.add(empty(text, uses, part));
                self.add(unchanged(&*text, &*uses, body, part));
                self.add(unreached(text, part));
                self.add(undone(text, part));
            }
        }
    }

    // What is reported for the variables.
    fn find_variables(&mut self, text: &Text<'_>, uses: &Uses) {
        for point in text.outline.points() {
            self.add(told_of(text, uses, point));
        }
    }

    // What is reported for names.
    fn find_of_names(&mut self, alloc: Global, text: &Text<'_>) {
        if text.outline.most_opened() > MOST_OPENED {
            return;
        }
        match uses_of(alloc, text) {
            Ok(uses) => {
                self.find_constructions(text, &uses);
                self.find_variables(text, &uses);
            }
            Err(_) => self.has_failed = true,
        }
    }

    // Puts it in its order.
    fn sort(&mut self) -> Result<(), AllocError> {
        if self.has_failed {
            return Err(AllocError);
        }
        self.keys.sort()
    }

    // Reports it, when it is its turn.
    fn tell(&self, teller: &mut Teller<'_>) {
        for key in self.keys.iter() {
            if let Some(found) = self.found.get((*key % 67_108_864) as usize) {
                teller.add(found);
            }
        }
    }
}

// What is found in a text, in its order.
fn found_in(alloc: Global, text: &Text<'_>) -> Result<Findings, AllocError> {
    let mut findings = Findings {
        found: Vec::new(alloc),
        keys: Vec::new(alloc),
        has_failed: false,
    };
    findings.find_comments(text);
    findings.find_indented(text);
    findings.find_of_names(alloc, text);
    findings.sort()?;
    Ok(findings)
}

// The warnings of a text.
fn warnings_of(alloc: Global, text: &Text<'_>) -> Result<Vec<Warning>, AllocError> {
    let findings = found_in(alloc, text)?;
    let mut teller = Teller::new(alloc, &*text);
    findings.tell(&mut teller);
    teller.told()
}

// The warnings of a text with its outline.
fn outlined(
    alloc: Global,
    bytes: &[u8],
    outline: &Outline<'_>,
) -> Result<Vec<Warning>, AllocError> {
    let text = Text::new(alloc, bytes, &*outline)?;
    warnings_of(alloc, &text)
}

/// The warnings for an accepted text, in the order of the text: a warning about a statement at the word with which the
/// statement begins. If it isn't certain that a reader would agree, nothing is reported.
pub fn warnings(
    alloc: Global,
    source: &Source<'_>,
    tokens: &[Token],
    program: &Program,
) -> Result<Vec<Warning>, AllocError> {
    let outline = Outline::new(alloc, &*source, tokens, program)?;
    outlined(alloc, source.bytes(), &outline)
}
