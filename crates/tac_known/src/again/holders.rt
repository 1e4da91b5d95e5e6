// What is known of temporaries: how it is found, and when it is lost.

ghost use Rattle.std.specs.Prelude.{◌≡◌};
ghost use Rattle.tac_known.specs.Again as specs;

use crate::again::same::hangs_on;
use crate::again::{Fact, Facts};

// Forgets a fact that depends on a temporary, which is written.
fn forget(fact: &mut Fact, temporary: u32)
    ensures { fact.new ≡ specs.unless_written temporary fact.old }
{
    if hangs_on(temporary, *fact) {
        *fact = Fact::Empty;
    }
}

// What is known after an instruction that computed it; nothing if that overwrites one of its own operands.
pub(super) fn lasting(fact: Fact) -> Fact
    ensures { result ≡ specs.lasting fact }
{
    match fact {
        Fact::Empty => Fact::Empty,
        Fact::Pointed(component) => {
            if component.uses(component.holder) {
                Fact::Empty
            } else {
                Fact::Pointed(component)
            }
        }
        Fact::Summed(sum) => {
            if sum.uses(sum.holder) {
                Fact::Empty
            } else {
                Fact::Summed(sum)
            }
        }
        Fact::Loaded(word) => {
            if word.uses(word.holder) {
                Fact::Empty
            } else {
                Fact::Loaded(word)
            }
        }
    }
}

// Forgets the content of a word, since memory is written.
fn lose_word(fact: &mut Fact)
    ensures { fact.new ≡ specs.unless_loaded fact.old }
{
    if let Fact::Loaded(_) = *fact {
        *fact = Fact::Empty;
    }
}

pub(super) fn no_facts() -> Facts
    ensures { result ≡ specs.no_facts }
{
    Facts {
        first: Fact::Empty,
        second: Fact::Empty,
        third: Fact::Empty,
        fourth: Fact::Empty,
        fifth: Fact::Empty,
        sixth: Fact::Empty,
        seventh: Fact::Empty,
        eighth: Fact::Empty,
        ninth: Fact::Empty,
        tenth: Fact::Empty,
        eleventh: Fact::Empty,
        twelfth: Fact::Empty,
    }
}

impl Facts {
    // Adds another one at the front; the last one is dropped.
    pub(super) fn add(&mut self, fact: Fact)
        ensures { self.new ≡ specs.with_fact fact self.old }
    {
        *self = Facts {
            first: fact,
            second: self.first,
            third: self.second,
            fourth: self.third,
            fifth: self.fourth,
            sixth: self.fifth,
            seventh: self.sixth,
            eighth: self.seventh,
            ninth: self.eighth,
            tenth: self.ninth,
            eleventh: self.tenth,
            twelfth: self.eleventh,
        };
    }

    pub(super) fn forget(&mut self, temporary: u32)
        ensures { self.new ≡ specs.each_unless_written temporary self.old }
    {
        forget(&mut self.first, temporary);
        forget(&mut self.second, temporary);
        forget(&mut self.third, temporary);
        forget(&mut self.fourth, temporary);
        forget(&mut self.fifth, temporary);
        forget(&mut self.sixth, temporary);
        forget(&mut self.seventh, temporary);
        forget(&mut self.eighth, temporary);
        forget(&mut self.ninth, temporary);
        forget(&mut self.tenth, temporary);
        forget(&mut self.eleventh, temporary);
        forget(&mut self.twelfth, temporary);
    }

    pub(super) fn lose_words(&mut self)
        ensures { self.new ≡ specs.each_unless_loaded self.old }
    {
        lose_word(&mut self.first);
        lose_word(&mut self.second);
        lose_word(&mut self.third);
        lose_word(&mut self.fourth);
        lose_word(&mut self.fifth);
        lose_word(&mut self.sixth);
        lose_word(&mut self.seventh);
        lose_word(&mut self.eighth);
        lose_word(&mut self.ninth);
        lose_word(&mut self.tenth);
        lose_word(&mut self.eleventh);
        lose_word(&mut self.twelfth);
    }

    // The temporary that already holds the same.
    pub(super) fn holder_of(&self, given: Fact) -> Option<u32>
        ensures { result ≡ specs.holder_in given self.now }
    {
        if let Fact::Empty = given {
            return None;
        }
        let last = or_other(
            holder_by(given, self.eleventh),
            holder_by(given, self.twelfth),
        );
        let last = or_other(holder_by(given, self.tenth), last);
        let last = or_other(holder_by(given, self.ninth), last);
        let last = or_other(holder_by(given, self.eighth), last);
        let last = or_other(holder_by(given, self.seventh), last);
        let last = or_other(holder_by(given, self.sixth), last);
        let last = or_other(holder_by(given, self.fifth), last);
        let last = or_other(holder_by(given, self.fourth), last);
        let last = or_other(holder_by(given, self.third), last);
        let last = or_other(holder_by(given, self.second), last);
        or_other(holder_by(given, self.first), last)
    }
}

fn or_other(holder: Option<u32>, other: Option<u32>) -> Option<u32>
    ensures { result ≡ specs.or_other holder other }
{
    match holder {
        None => other,
        Some(found) => Some(found),
    }
}

/// The temporary that holds what is computed, if that is the same.
pub fn holder_by(given: Fact, fact: Fact) -> Option<u32>
    ensures { result ≡ specs.holder_by given fact }
{
    match (given, fact) {
        (Fact::Pointed(component), Fact::Pointed(other)) => {
            if other.is_same(component) {
                Some(other.holder)
            } else {
                None
            }
        }
        (Fact::Summed(sum), Fact::Summed(other)) => {
            if other.is_same(sum) {
                Some(other.holder)
            } else {
                None
            }
        }
        (Fact::Loaded(word), Fact::Loaded(other)) => {
            if other.is_same(word) {
                Some(other.holder)
            } else {
                None
            }
        }
        _ => None,
    }
}
