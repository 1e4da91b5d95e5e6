// The numbers of values: whatever computes the same in a straight stretch has one number, and a value from before the
// stretch a new one.

use crate::addresses::{FIRST_WORD, MOST_TERMS, Numbers, Term};
use crate::flow::{NONE, Way};
use crate::sets::CONSIDERED;
use std::alloc::Global;
use tac_code::code::{Base, Instruction, Operand, OutOfMemory};
use tac_known::again::{Component, Fact, Sum, Word, given_by, holder_by};

// The number of what is given.
fn number_in(fact: Fact) -> Option<u32> {
    match fact {
        Fact::Empty => None,
        Fact::Pointed(component) => Some(component.holder),
        Fact::Summed(sum) => Some(sum.holder),
        Fact::Loaded(word) => Some(word.holder),
    }
}

// Whether memory is written.
fn is_written(instruction: &Instruction) -> bool {
    matches!(
        instruction,
        Instruction::Store { .. } | Instruction::StoreByte { .. } | Instruction::New { .. }
    )
}

impl Numbers {
    pub(super) fn new(alloc: Global, words: usize) -> Result<Numbers, OutOfMemory> {
        let many = words.saturating_add(FIRST_WORD);
        Ok(Numbers {
            list: vec![in alloc; 0u32; many]?,
            next: 0,
            terms: Vec::with_capacity(alloc, MOST_TERMS)?,
            oldest: 0,
        })
    }

    fn fresh(&mut self) -> u32 {
        self.next = self.next.saturating_add(1);
        self.next
    }

    // nothing is known
    pub(super) fn clear(&mut self) {
        for at in 0..self.list.len() {
            self.list[at] = 0;
        }
        self.terms.truncate(0);
        self.oldest = 0;
    }

    fn number(&mut self, at: usize) -> u32 {
        if at < self.list.len() && self.list[at] != 0 {
            return self.list[at];
        }
        let number = self.fresh();
        self.set(at, number);
        number
    }

    fn number_of(&mut self, temporary: u32) -> u32 {
        self.number(temporary.min(CONSIDERED) as usize)
    }

    fn numbered_base(&mut self, base: Base) -> Base {
        match base {
            Base::Temporary(temporary) => Base::Temporary(self.number_of(temporary)),
            other => other,
        }
    }

    // memory is written: what words hold is known no more
    fn lose_words(&mut self) {
        for at in 0..self.terms.len() {
            if let Fact::Loaded(_) = self.terms[at].fact {
                self.terms[at].fact = Fact::Empty;
            }
        }
    }

    // what is given, by numbers of values, and with a new number
    fn numbered(&mut self, fact: Fact) -> Fact {
        match fact {
            Fact::Empty => Fact::Empty,
            Fact::Pointed(component) => Fact::Pointed(Component {
                base: self.numbered_base(component.base),
                index: self.number_of(component.index),
                holder: self.fresh(),
                ..component
            }),
            Fact::Loaded(word) => Fact::Loaded(Word {
                base: self.numbered_base(word.base),
                holder: self.fresh(),
                ..word
            }),
            Fact::Summed(sum) => {
                let right = match sum.right {
                    Operand::Temporary(temporary) => Operand::Temporary(self.number_of(temporary)),
                    other => other,
                };
                Fact::Summed(Sum {
                    left: self.number_of(sum.left),
                    right,
                    holder: self.fresh(),
                    ..sum
                })
            }
        }
    }

    pub(super) fn set(&mut self, at: usize, number: u32) {
        if at < self.list.len() {
            self.list[at] = number;
        }
    }

    // replaces the one that was remembered first, if there are too many
    fn remember(&mut self, term: Term) -> Result<(), OutOfMemory> {
        if self.terms.len() < MOST_TERMS {
            self.terms.push(term)?;
            return Ok(());
        }
        let at = self.oldest;
        if at < self.terms.len() {
            self.terms[at] = term;
        }
        self.oldest = at.saturating_add(1) % MOST_TERMS;
        Ok(())
    }

    // the number of the result of a place, a new one or that of the place that computed the same before, and that place
    fn compute(
        &mut self,
        place: usize,
        fact: Fact,
        number: u32,
    ) -> Result<(u32, usize), OutOfMemory> {
        for at in 0..self.terms.len() {
            let term = self.terms[at];
            if let Some(found) = holder_by(fact, term.fact) {
                self.terms[at].place = place;
                return Ok((found, term.place));
            }
        }
        self.remember(Term { place, fact })?;
        Ok((number, NONE))
    }

    // a word that is held is loaded or stored
    fn pass_on(&mut self, way: &Way, word: usize) {
        let word = word.saturating_add(FIRST_WORD);
        if way.writes != 0 {
            let number = self.number(word);
            self.set(way.writes.trailing_zeros() as usize, number);
        } else {
            let number = self.number_of(way.reads.trailing_zeros());
            self.set(word, number);
        }
    }

    // goes on after a place; returns the place that computed the same before
    pub(super) fn go_on(
        &mut self,
        instruction: &Instruction,
        place: usize,
        way: &Way,
        word: usize,
    ) -> Result<usize, OutOfMemory> {
        if word != NONE {
            self.pass_on(way, word);
            return Ok(NONE);
        }
        if is_written(instruction) {
            self.lose_words();
        }
        if way.writes == 0 {
            return Ok(NONE);
        }
        let to = way.writes.trailing_zeros() as usize;
        let fact = self.numbered(given_by(instruction));
        let Some(new) = number_in(fact) else {
            let number = self.fresh();
            self.set(to, number);
            return Ok(NONE);
        };
        let (number, before) = self.compute(place, fact, new)?;
        self.set(to, number);
        Ok(before)
    }
}
