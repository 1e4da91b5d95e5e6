//! How findings are reported.

use crate::finding::{Finding, Names, Warning};
use crate::rows::{ALL_LOST, NESTED, NESTED_LONG, ONE_LOST, Row, row_at};
use crate::text::Text;
use crate::values::{Value, first_value};
use ps_diagnose::{Draft, Trial, put_shown};
use ps_diagnose_outline::count_of;
use ps_diagnostic::{Edit, Label};
use ps_scan::Kind;
use ps_text::Span;
use std::alloc::{AllocError, Global};

/// Reports findings. If out of memory, this is noted, and what was reported until then is dropped at the end.
#[derive(Drop)]
pub(crate) struct Teller<'a> {
    alloc: Global,
    text: &'a Text<'a>,
    warnings: Vec<Warning>,
    has_failed: bool,
}

// What comes before one of several names.
fn between(at: usize, count: usize) -> &'static str {
    if at == 0 {
        ""
    } else if at.saturating_add(1) == count {
        " and "
    } else {
        ", "
    }
}

// Whether all parameters of the section that begins at a token are among some.
fn is_section_among(text: &Text<'_>, names: &Names, first: usize) -> bool {
    for at in first..text.outline.token_count() {
        if text.is(at, Kind::Colon) {
            return true;
        }
        if text.is(at, Kind::Name) && !names.tokens().contains(&at) {
            return false;
        }
    }
    false
}

// Whether a parameter begins its section.
fn begins_section(text: &Text<'_>, at: usize) -> bool {
    !text.is(at.saturating_sub(1), Kind::Comma)
}

// Whether some parameters begin sections, and these have no others.
fn are_sections_among(text: &Text<'_>, names: &Names) -> bool {
    let mut begins = false;
    for at in names.tokens() {
        if begins_section(text, *at) {
            if !is_section_among(text, names, *at) {
                return false;
            }
            begins = true;
        }
    }
    begins
}

// The edit of the change that is tried: what is reported is taken away, but a comment is closed after a word.
fn edit_of(found: &Finding) -> (Span, &'static str) {
    let behind = Span {
        from: found.word.to,
        to: found.word.to,
    };
    match found.row {
        NESTED => (behind, " }"),
        NESTED_LONG => (behind, " *)"),
        _ => (found.place, ""),
    }
}

impl<'a> Teller<'a> {
    /// Nothing is reported yet.
    pub(crate) fn new(alloc: Global, text: &'a Text<'a>) -> Teller<'a> {
        Teller {
            alloc,
            text,
            warnings: Vec::new(alloc),
            has_failed: false,
        }
    }

    /// The reports, if all of them were kept.
    pub(crate) fn told(self) -> Result<Vec<Warning>, AllocError> {
        let Teller {
            alloc: _,
            text: _,
            warnings,
            has_failed,
        } = self;
        if has_failed {
            Err(AllocError)
        } else {
            Ok(warnings)
        }
    }

    // Puts words.
    fn push(&mut self, out: &mut String, words: &str) {
        self.has_failed |= out.push_str(words).is_err();
    }

    // Puts a part of the text as it is shown, between signs.
    fn push_span(&mut self, out: &mut String, before: &str, span: Span, behind: &str) {
        let written = self.text.written(span);
        self.push(out, before);
        self.has_failed |= put_shown(out, written).is_err();
        self.push(out, behind);
    }

    // Puts a number.
    fn push_number(&mut self, out: &mut String, number: i64) {
        let alloc = self.alloc;
        match format!(in alloc; "{number}") {
            Ok(digits) => self.push(out, digits.as_str()),
            Err(_) => self.has_failed = true,
        }
    }

    // Puts a line and a column, both from 1 on.
    fn push_place(&mut self, out: &mut String, offset: u32) {
        let line = count_of(self.text.line(offset));
        let column = offset.saturating_sub(self.text.start_of(offset));
        self.push_number(out, i64::from(line));
        self.push(out, ":");
        self.push_number(out, i64::from(column.saturating_add(1)));
    }

    // Puts names as a list in words.
    fn push_names(&mut self, out: &mut String, names: &Names) {
        for (at, token) in names.tokens().iter().enumerate() {
            self.push(out, between(at, names.count));
            let span = self.text.span(*token);
            self.push_span(out, "`", span, "`");
        }
    }

    // Puts a value in words.
    fn push_value(&mut self, out: &mut String, value: Value) {
        match value {
            Value::Is(words) => self.push(out, words),
            Value::Number(number) => self.push_number(out, number),
            Value::Character(number) => {
                self.push(out, "`chr(");
                self.push_number(out, number);
                self.push(out, ")`");
            }
            Value::Sign(byte) => {
                self.push(out, "`'");
                self.has_failed |= out.push(char::from(byte)).is_err();
                self.push(out, "'`");
            }
            Value::Name(name) => self.push_span(out, "`", name, "`"),
        }
    }

    // Puts the names that are reported, or the first value of a variable.
    fn push_more(&mut self, out: &mut String, found: &Finding) {
        if found.names.count > 0 {
            self.push_names(out, &found.names);
        } else if let Some(point) = self.text.outline.point(found.point) {
            let value = first_value(self.text, point.ty);
            self.push_value(out, value);
        }
    }

    // Puts a part of what is said.
    fn push_part(&mut self, out: &mut String, found: &Finding, part: &str) {
        match part {
            "@" => self.push_span(out, "", found.word, ""),
            "%" => self.push_more(out, found),
            "#" => self.push_place(out, found.at),
            "&" => {
                self.push_number(out, found.range.0);
                self.push(out, " to ");
                self.push_number(out, found.range.1);
            }
            _ => self.push(out, part),
        }
    }

    // What is said.
    fn words(&mut self, found: &Finding, words: &str) -> String {
        let mut out = String::new(self.alloc);
        for part in words.split('|') {
            self.push_part(&mut out, found, part);
        }
        out
    }

    // The second place.
    fn labels(&mut self, found: &Finding, words: &str) -> Vec<Label> {
        let mut labels = Vec::new(self.alloc);
        if !words.is_empty() {
            let text = self.words(found, words);
            let span = found.label;
            self.has_failed |= labels.push(Label { span, text }).is_err();
        }
        labels
    }

    // What to do.
    fn helps(&mut self, found: &Finding, words: &str) -> Vec<String> {
        let mut helps = Vec::new(self.alloc);
        if !words.is_empty() {
            let text = self.words(found, words);
            self.has_failed |= helps.push(text).is_err();
        }
        helps
    }

    // Adds an edit.
    fn add_edit(&mut self, edits: &mut Vec<Edit>, span: Span, words: &str) {
        let mut put = String::new(self.alloc);
        self.push(&mut put, words);
        self.has_failed |= edits.push(Edit { span, put }).is_err();
    }

    // Adds a change of the text that is to be tried.
    fn add_trial(&mut self, trials: &mut Vec<Trial>, text: String, edits: Vec<Edit>) {
        let trial = Trial {
            text,
            edits,
            cost: 1,
        };
        self.has_failed |= trials.push(trial).is_err();
    }

    // Puts what is said of a `var` before a parameter.
    fn push_var(&mut self, out: &mut String, name: Span) {
        if !out.is_empty() {
            self.push(out, ", and ");
        }
        self.push_span(out, "put `var` before `", name, "` at ");
        self.push_place(out, name.from);
    }

    // Has it tried to make variable parameters of those that begin their sections.
    fn try_vars(&mut self, trials: &mut Vec<Trial>, names: &Names) {
        let mut words = String::new(self.alloc);
        let mut edits = Vec::new(self.alloc);
        for at in names.tokens() {
            if begins_section(self.text, *at) {
                let name = self.text.span(*at);
                self.push_var(&mut words, name);
                let from = name.from;
                self.add_edit(&mut edits, Span { from, to: from }, "var ");
            }
        }
        self.add_trial(trials, words, edits);
    }

    // The changes to be tried: the one that is told, or variable parameters.
    fn trials(&mut self, found: &Finding, words: &str) -> Vec<Trial> {
        let mut trials = Vec::new(self.alloc);
        if !words.is_empty() {
            let mut edits = Vec::new(self.alloc);
            let (span, put) = edit_of(found);
            self.add_edit(&mut edits, span, put);
            let text = self.words(found, words);
            self.add_trial(&mut trials, text, edits);
        } else if matches!(found.row, ONE_LOST | ALL_LOST)
            && are_sections_among(self.text, &found.names)
        {
            self.try_vars(&mut trials, &found.names);
        }
        trials
    }

    // The report of a finding.
    fn draft(&mut self, found: &Finding, row: &Row) -> Draft {
        let text = self.words(found, row.sentence);
        let labels = self.labels(found, row.label);
        let trials = self.trials(found, row.trial);
        let helps = self.helps(found, row.help);
        Draft {
            text,
            labels,
            expects: false,
            trials,
            notes: Vec::new(self.alloc),
            helps,
        }
    }

    /// Adds the warning of what is found.
    pub(crate) fn add(&mut self, found: &Finding) {
        if let Some(row) = row_at(found.row) {
            let warning = Warning {
                number: row.number,
                name: row.name,
                place: found.place,
                draft: self.draft(found, row),
            };
            self.has_failed |= self.warnings.push(warning).is_err();
        }
    }
}
