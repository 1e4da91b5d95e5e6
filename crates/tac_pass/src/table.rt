// What is claimed at a place, as data.

mod entries;

ghost use Rattle.std.specs.Prelude.{◌≡◌, IsTrue, IfOk, false};
ghost use Rattle.tac_pass.specs.Certified.{begins};
ghost use Rattle.tac_pass.specs.Tables as table;

use crate::table::entries::{
    are_fresh, are_new, are_no_more, are_no_more_words, are_passed, call_words, copy_values,
    copy_words, free_values, free_words, held_word, hit_all, meet_values, meet_words, place,
    sees_all, unminded,
};
pub use entries::{may_hit, unknown};
use std::alloc::Global;
use std::marker::Model;
use tac_code::code::OutOfMemory;

/// Where a value may point in the frame of the innermost activation, if it is an address in it.
#[derive(Clone, Copy)]
pub enum Reach {
    /// Nothing is known of it.
    Anywhere,
    /// To an offset in bytes, from the first on and below the second.
    Within(u32, u32),
}

/// What is known of a value of the old code.
#[derive(Clone, Copy)]
pub struct Known {
    /// The new temporary that holds it.
    pub holder: Option<u32>,
    /// Where it may point.
    pub reach: Reach,
}

/// What is known of a word of the own frame.
#[derive(Clone, Copy)]
pub struct Word {
    /// What is known of the value that the old code has there.
    pub value: Known,
    /// Whether the new code may have another value there.
    pub stale: bool,
    /// Whether it may never have been written.
    pub blank: bool,
}

/// What becomes of an instruction.
#[derive(Clone, Copy)]
pub enum Action {
    /// It is left out.
    Spare,
    /// It is kept; its result is in this new temporary.
    Keep(u32),
    /// A load or a store of the own frame becomes a copy to this new temporary.
    Move(u32),
}

/// What is claimed of each old temporary, by its number, and of each word that is kept in mind, by its place among
/// these.
#[derive(Drop)]
pub struct Rows {
    pub(crate) temporaries: Vec<Known>,
    pub(crate) words: Vec<Word>,
}

impl Model for Rows {
    ghost use Rattle.tac_pass.specs.Tables.{Table};

    ghost Value = { Table };

    ghost view = { λ t. record { temporaries = t.temporaries.items; words = t.words.items } };
}

impl Rows {
    /// Rows of these values and words.
    pub fn new(temporaries: Vec<Known>, words: Vec<Word>) -> Rows
        ensures { result ≡ record { temporaries = temporaries.items; words = words.items } }
    {
        Rows { temporaries, words }
    }

    /// The same rows.
    pub fn copied(&self, alloc: Global) -> Result<Rows, OutOfMemory>
        ensures { IfOk result (λ rows. rows ≡ self.now) }
    {
        Ok(Rows {
            temporaries: self.temporaries.as_slice().to_vec(alloc)?,
            words: self.words.as_slice().to_vec(alloc)?,
        })
    }

    /// Is replaced by other rows; false if there aren't as many.
    pub fn replace(&mut self, with: &Rows) -> bool
        ensures { IsTrue result → self.new ≡ with.now }
    {
        if self.temporaries.len() != with.temporaries.len()
            || self.words.len() != with.words.len()
        {
            return false;
        }
        copy_values(self.temporaries.as_mut_slice(), with.temporaries.as_slice());
        copy_words(self.words.as_mut_slice(), with.words.as_slice());
        true
    }

    /// Whether this may be claimed at the start of a routine.
    pub fn begins(&self) -> bool
        ensures { result ≡ begins self.now }
    {
        are_passed(self.temporaries.as_slice()) && are_new(self.words.as_slice())
    }

    /// What is claimed of an old temporary.
    pub fn known(&self, temporary: u32) -> Known
        ensures { result ≡ table.known_in self.now temporary }
    {
        let at = temporary as usize;
        if at < self.temporaries.len() {
            self.temporaries[at]
        } else {
            unknown()
        }
    }

    /// A new temporary holds nothing any more.
    pub fn free(&mut self, temporary: u32)
        ensures { self.new ≡ table.free temporary self.old }
    {
        free_values(self.temporaries.as_mut_slice(), temporary);
        free_words(self.words.as_mut_slice(), temporary);
    }

    /// Records something else about an old temporary.
    pub fn set_known(&mut self, temporary: u32, value: Known)
        ensures { self.new ≡ table.with_known temporary value self.old }
    {
        let at = temporary as usize;
        if at < self.temporaries.len() {
            self.temporaries[at] = value;
        }
    }

    /// t and a new temporary were given a value, which may point so far.
    pub fn give(&mut self, temporary: u32, holder: u32, reach: Reach)
        ensures { self.new ≡ table.give temporary holder reach self.old }
    {
        self.free(holder);
        self.set_known(
            temporary,
            Known {
                holder: Some(holder),
                reach,
            },
        );
    }

    /// An old temporary was found to hold the address of an object.
    pub fn find(&mut self, temporary: u32)
        ensures { self.new ≡ table.find temporary self.old }
    {
        let holder = self.known(temporary).holder;
        self.set_known(
            temporary,
            Known {
                holder,
                reach: Reach::Within(0, 0),
            },
        );
    }

    /// Whether no more is claimed by another table.
    pub fn is_forgetful(&self, to: &Rows) -> bool
        ensures { result ≡ table.is_forgetful self.now to.now }
    {
        self.temporaries.len() == to.temporaries.len()
            && (self.words.len() == to.words.len()
                && (are_no_more(self.temporaries.as_slice(), to.temporaries.as_slice())
                    && are_no_more_words(self.words.as_slice(), to.words.as_slice())))
    }

    /// Keeps of what is claimed only what others claim too, as far as is seen. Nothing is proved of it.
    pub fn meet(&mut self, others: &Rows) {
        meet_values(
            self.temporaries.as_mut_slice(),
            others.temporaries.as_slice(),
        );
        meet_words(self.words.as_mut_slice(), others.words.as_slice());
    }

    /// Whether no word is stale.
    pub fn are_fresh(&self) -> bool
        ensures { result ≡ table.are_fresh (self.now.words) }
    {
        are_fresh(self.words.as_slice())
    }

    /// A call gave its result to an old temporary and a new one.
    pub fn call(&mut self, temporary: u32, holder: u32)
        ensures { self.new ≡ table.call temporary holder self.old }
    {
        self.give(temporary, holder, Reach::Anywhere);
        call_words(self.words.as_mut_slice());
    }

    /// What is claimed of a word of the own frame.
    pub fn word(&self, minded: &[u32], word: u32) -> Word
        ensures { result ≡ table.word_in minded.now self.now word }
    {
        match place(minded, word) {
            Some(at) if at < self.words.len() => self.words[at],
            _ => unminded(),
        }
    }

    /// Records something else about a word that is tracked.
    pub fn set_word(&mut self, minded: &[u32], word: u32, value: Word)
        ensures { self.new ≡ table.with_word minded.now word value self.old }
    {
        if let Some(at) = place(minded, word)
            && at < self.words.len()
        {
            self.words[at] = value;
        }
    }

    /// Whether a word is kept in mind.
    pub fn is_minded(&self, minded: &[u32], word: u32) -> bool
        ensures { result ≡ table.is_minded minded.now word self.now }
    {
        match place(minded, word) {
            Some(at) => at < self.words.len(),
            None => false,
        }
    }

    /// The same, of a value that is that of a word. What held the word before goes on to hold it.
    pub fn give_word(&mut self, minded: &[u32], temporary: u32, holder: u32, word: u32)
        ensures { self.new ≡ table.give_word minded.now temporary holder word self.old }
    {
        let was = self.word(minded, word);
        self.give(temporary, holder, was.value.reach);
        let given = self.word(minded, word);
        self.set_word(minded, word, held_word(holder, given));
    }

    /// What an old temporary holds was stored in a word: of both frames, or of the old one, in which case the new one
    /// is stale.
    pub fn store(&mut self, minded: &[u32], from: u32, word: u32, is_stale: bool)
        ensures { self.new ≡ table.with_word minded.now word
            (record { value = table.known_in self.old from; stale = is_stale; blank = false }) self.old }
    {
        let value = self.known(from);
        self.set_word(
            minded,
            word,
            Word {
                value,
                stale: is_stale,
                blank: false,
            },
        );
    }

    /// What an old temporary holds was stored in a word of the old frame, and given to a new temporary.
    pub fn keep_word(&mut self, minded: &[u32], from: u32, word: u32, to: u32)
        ensures { self.new ≡ table.keep_word minded.now from word to self.old }
    {
        let reach = self.known(from).reach;
        self.free(to);
        self.set_word(
            minded,
            word,
            Word {
                value: Known {
                    holder: Some(to),
                    reach,
                },
                stale: true,
                blank: false,
            },
        );
    }

    /// A word is made to agree.
    pub fn clean(&mut self, minded: &[u32], word: u32)
        ensures { self.new ≡ table.clean minded.now word self.old }
    {
        let was = self.word(minded, word);
        self.set_word(
            minded,
            word,
            Word {
                value: was.value,
                stale: false,
                blank: was.blank,
            },
        );
    }

    /// A new temporary holds a word.
    pub fn fetch_word(&mut self, minded: &[u32], word: u32, to: u32)
        ensures { self.new ≡ table.fetch_word minded.now word to self.old }
    {
        let was = self.word(minded, word);
        self.free(to);
        self.set_word(
            minded,
            word,
            Word {
                value: Known {
                    holder: Some(to),
                    reach: was.value.reach,
                },
                stale: was.stale,
                blank: was.blank,
            },
        );
    }

    /// Whether nothing `bytes` bytes after an address is stale.
    pub fn is_seen(&self, minded: &[u32], reach: Reach, bytes: u32) -> bool
        ensures { result ≡ table.is_seen minded.now reach bytes self.now }
    {
        sees_all(reach, bytes, minded, self.words.as_slice())
    }

    /// A store of both codes `bytes` bytes after an address.
    pub fn write(&mut self, minded: &[u32], reach: Reach, bytes: u32)
        ensures { self.new ≡ table.write minded.now reach bytes self.old }
    {
        hit_all(reach, bytes, minded, self.words.as_mut_slice());
    }
}
