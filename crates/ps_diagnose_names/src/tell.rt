//! A reason in words.

use crate::context::{Context, Own, Place};
use crate::facts::relation_word;
use crate::why::{Change, Help, Mark, NOWHERE, Why};
use ps_diagnose::{Telling, Text};
use ps_scan::Kind;
use ps_syntax::Relational;
use ps_text::Span;

// Where something is put next to a span: the word for it, the offset, and what is on both sides of it.
#[derive(Clone, Copy)]
struct Beside {
    word: &'static str,
    place: u32,
    gap: &'static str,
    next_gap: &'static str,
}

// The spans that a form has of its own.
fn words_of(text: Span, part: Span) -> Own {
    Own {
        text,
        part,
        spaces: 0,
        is_exact: false,
    }
}

// The spans that the form of an edit has of its own.
fn edit_of(text: Span, part: Span, spaces: u32) -> Own {
    Own {
        text,
        part,
        spaces,
        is_exact: true,
    }
}

const HERE: &str = "`@a` is declared here";

impl<'a> Place<'a> {
    /// Reports a reason.
    pub(crate) fn tell(&self, why: &Why, out: &mut Telling) {
        out.say(
            self.context
                .formed(why.form, why, words_of(NOWHERE, NOWHERE)),
        );
        self.context.mark(out, why, why.mark);
        self.context.mark(out, why, why.next_mark);
        self.change(out, why, why.change);
        self.change(out, why, why.next_change);
        self.context.help(out, why, why.help);
        self.context.help(out, why, why.next_help);
        if !why.note.is_empty() {
            out.note(
                self.context
                    .formed(why.note, why, words_of(NOWHERE, NOWHERE)),
            );
        }
    }

    // Adds a trial.
    fn change(&self, out: &mut Telling, why: &Why, change: Change) {
        match change {
            Change::None => {}
            Change::For(span, put) => self
                .context
                .try_for(out, why, span, put, edit_of(span, NOWHERE, 0)),
            Change::With(span, part, put) => {
                self.context
                    .try_for(out, why, span, put, edit_of(span, part, 0))
            }
            Change::Filled(span, spaces) => {
                self.context
                    .try_for(out, why, span, "'@i@s'", edit_of(span, NOWHERE, spaces))
            }
            Change::Behind(span, gap, put) => {
                let at = Beside {
                    word: "` after `",
                    place: span.to,
                    gap,
                    next_gap: "",
                };
                self.context.try_beside(out, why, span, put, at);
            }
            Change::Before(span, gap, put) => {
                let at = Beside {
                    word: "` before `",
                    place: span.from,
                    gap: "",
                    next_gap: gap,
                };
                self.context.try_beside(out, why, span, put, at);
            }
            Change::Without(span) => self.context.try_without(out, span),
            Change::Everywhere(put) => self.context.try_everywhere(out, why, put),
            Change::EachCompared => self.try_each_compared(out),
            Change::Commas => self.try_commas(out, why),
        }
    }

    // Tries a comparison for each operand of `or`, if the right side of one is meant as several values.
    fn try_each_compared(&self, out: &mut Telling) {
        let Some((left, relation, values)) = self.seen().compared else {
            return;
        };
        if values.first_token() != self.context.fault.place.from {
            return;
        }
        let left = self.context.simple_span(left);
        let mut put = Text::new(self.context.alloc);
        self.context.put_compared(
            &mut put,
            left,
            relation,
            self.context.term_span(&values.first),
        );
        for added in values.more.as_slice() {
            if put.is_cut {
                break;
            }
            put.put(" or ");
            self.context.put_compared(
                &mut put,
                left,
                relation,
                self.context.term_span(&added.term),
            );
        }
        let whole = Span {
            from: left.from,
            to: self.context.simple_span(values).to,
        };
        self.context.try_text(out, whole, put);
    }

    // Tries a comma for each `+` of the sum at the place.
    fn try_commas(&self, out: &mut Telling, why: &Why) {
        let Some(sum) = self.seen().sum else {
            return;
        };
        let terms = sum.more.as_slice();
        if let [only] = terms {
            return self
                .context
                .try_for(out, why, only.at, ",", edit_of(NOWHERE, NOWHERE, 0));
        }
        let mut text = Text::new(self.context.alloc);
        text.put("write `,` instead of each `+` of this sum");
        out.propose(self.context.alloc, 1, text);
        for added in terms {
            self.context.push_edit(out, added.at, why, ",");
        }
    }
}

impl<'a> Context<'a> {
    // A form as text.
    fn formed(&self, form: &str, why: &Why, own: Own) -> Text {
        let mut out = Text::new(self.alloc);
        self.put_form(&mut out, form, why, own);
        out
    }

    // Marks a second place.
    fn mark(&self, out: &mut Telling, why: &Why, mark: Mark) {
        let (form, span, own) = match mark {
            Mark::None => return,
            Mark::Variable(span) if !self.is_variable_text(span) => return,
            Mark::Declared(span) | Mark::Variable(span) => match self.outline.declared(span) {
                Some(point) => (HERE, point.name, point.name),
                None => return,
            },
            Mark::Here(span) => (HERE, span, span),
            Mark::At(form, span) => (form, span, NOWHERE),
            Mark::TypeOf(span, text) => ("the type of `@a`", span, text),
        };
        out.label(span, self.formed(form, why, words_of(own, NOWHERE)));
    }

    // Adds a help.
    fn help(&self, out: &mut Telling, why: &Why, help: Help) {
        let (form, own) = match help {
            Help::None => return,
            Help::Is(form) => (form, words_of(NOWHERE, NOWHERE)),
            Help::Of(form, text) => (form, words_of(text, NOWHERE)),
            Help::Both(form, text, part) => (form, words_of(text, part)),
        };
        out.help(self.formed(form, why, own));
    }

    // The words of a change: two words, what is put, and the text of a span with its place.
    fn change_words(&self, first: &str, put: &str, second: &str, span: Span, at: u32) -> Text {
        let mut out = Text::new(self.alloc);
        out.put_all(&[first, put, second]);
        self.put_text(&mut out, span);
        out.put("` at ");
        out.put_place(self.fault.source.bytes(), at);
        out
    }

    // Adds a trial with one edit.
    fn try_edit(&self, out: &mut Telling, text: Text, span: Span, put: Text) {
        out.propose(self.alloc, 1, text);
        out.change(span, put);
    }

    // Tries to replace a span by a text.
    fn try_text(&self, out: &mut Telling, span: Span, put: Text) {
        let words = self.change_words(
            "write `",
            put.string.as_str(),
            "` instead of `",
            span,
            span.from,
        );
        self.try_edit(out, words, span, put);
    }

    // Tries to replace a span by a form.
    fn try_for(&self, out: &mut Telling, why: &Why, span: Span, put: &str, own: Own) {
        self.try_text(out, span, self.formed(put, why, own));
    }

    // Tries to put a form next to a span.
    fn try_beside(&self, out: &mut Telling, why: &Why, span: Span, put: &str, beside: Beside) {
        let text = self.formed(put, why, edit_of(span, NOWHERE, 0));
        let put = text.string.as_str();
        let words = self.change_words("put `", put, beside.word, span, beside.place);
        let mut edit = Text::new(self.alloc);
        edit.put_all(&[beside.gap, put, beside.next_gap]);
        edit.has_failed |= text.has_failed;
        edit.is_cut |= text.is_cut;
        let at = Span {
            from: beside.place,
            to: beside.place,
        };
        self.try_edit(out, words, at, edit);
    }

    // Tries the text without a span.
    fn try_without(&self, out: &mut Telling, span: Span) {
        let words = self.change_words("remove `", "", "", span, span.from);
        self.try_edit(out, words, span, Text::new(self.alloc));
    }

    // Tries to replace the reported token by a form, there and everywhere else where it occurs, in the order of the
    // text.
    fn try_everywhere(&self, out: &mut Telling, why: &Why, put: &str) {
        let own = edit_of(NOWHERE, NOWHERE, 0);
        if self.uses.is_empty() {
            return self.try_for(out, why, self.fault.place, put, own);
        }
        let mut words = Text::new(self.alloc);
        words.put("write `");
        self.put_form(&mut words, put, why, words_of(NOWHERE, NOWHERE));
        words.put("` instead of `");
        self.put_text(&mut words, self.fault.place);
        words.put("` wherever it occurs");
        out.propose(self.alloc, 1, words);
        let place = self.fault.place;
        self.push_between(out, 0, place.from, why, put);
        self.push_edit(out, place, why, put);
        self.push_between(out, place.to, u32::MAX, why, put);
    }

    // Adds an edit for each other place from one offset up to another.
    fn push_between(&self, out: &mut Telling, from: u32, to: u32, why: &Why, put: &str) {
        for span in self.uses.iter() {
            if from <= span.from && span.from < to {
                self.push_edit(out, *span, why, put);
            }
        }
    }

    // Adds an edit.
    fn push_edit(&self, out: &mut Telling, span: Span, why: &Why, put: &str) {
        out.change(span, self.formed(put, why, edit_of(NOWHERE, NOWHERE, 0)));
    }

    // Puts a comparison between parentheses.
    fn put_compared(&self, put: &mut Text, left: Span, relation: Relational, right: Span) {
        let mut why = Why::new();
        why.text = left;
        why.other = right;
        why.word = relation_word(relation);
        self.put_form(put, "(@x @w @y)", &why, edit_of(NOWHERE, NOWHERE, 0));
    }

    // Whether a span is a variable with its selectors, and nothing else.
    fn is_variable_text(&self, span: Span) -> bool {
        let behind = match self.token_at(span.from) {
            Some(token) if token.kind == Kind::Name => token.span.to,
            _ => return false,
        };
        match self.token_at(behind) {
            Some(next) if next.kind == Kind::LeftParen => false,
            _ => self.factor_extent(span.from).to == span.to,
        }
    }
}
