// Forward jumps that are the only ones to their targets, with what is known there.

ghost use Rattle.std.specs.Prelude.{◌≡◌, IsTrue};
ghost use Rattle.tac_known.specs.Again as specs;

use crate::again::holders::no_facts;
use crate::again::marks::{Mark, is_once_ahead};
use crate::again::{Facts, Later, Standing, Waiting};

fn no_later() -> Later
    ensures { result ≡ specs.no_later }
{
    Later {
        from: 0,
        facts: no_facts(),
    }
}

pub(super) fn at_begin() -> Standing
    ensures { result ≡ specs.at_begin }
{
    Standing {
        facts: no_facts(),
        waiting: Waiting {
            first: no_later(),
            second: no_later(),
            third: no_later(),
            fourth: no_later(),
        },
    }
}

impl Waiting {
    // Adds another one at the front; the last one is dropped.
    fn add(&mut self, from: usize, facts: &Facts)
        ensures { self.new ≡ specs.with_later from facts.now self.old }
    {
        *self = Waiting {
            first: Later {
                from,
                facts: *facts,
            },
            second: self.first,
            third: self.second,
            fourth: self.third,
        };
    }

    // What is known at a jump; nothing if the jump isn't remembered.
    pub(super) fn facts_from(&self, from: usize) -> Facts
        ensures { result ≡ specs.facts_from self.now from }
    {
        if self.first.from == from {
            self.first.facts
        } else if self.second.from == from {
            self.second.facts
        } else if self.third.from == from {
            self.third.facts
        } else if self.fourth.from == from {
            self.fourth.facts
        } else {
            no_facts()
        }
    }

    // Remembers what is known at a forward jump, if it is the only one to its target. False if it leads nowhere.
    pub(super) fn wait(
        &mut self,
        marks: &[Mark],
        place: usize,
        forward: Option<u64>,
        facts: &Facts,
    ) -> bool
        ensures { IsTrue result → self.new ≡ specs.wait_for marks.now place forward facts.now self.old }
    {
        let Some(distance) = forward else {
            return true;
        };
        let Some(is_once) = is_once_ahead(marks, place, distance) else {
            return false;
        };
        if is_once {
            self.add(place, facts);
        }
        true
    }
}
