// Codes, and which of them are known to be the same.

ghost use Rattle.std.specs.Prelude.{◌≡◌, IfOk};
ghost use Rattle.ps_tree.specs.Names.{same};

use ps_tree::marked::Marked;
use std::alloc::{AllocError, Global};
use std::cell::Cell;
use std::marker::Model;
use std::rc::Rc;

/// A code, and one with the same words that represents it.
#[derive(Drop)]
struct Known {
    own: Rc<Marked>,
    representative: Rc<Marked>,
    ghost same: { own.value.list.items ≡ representative.value.list.items },
}

/// Words that don't change. Once two codes are found to be the same, one is represented by what represents the other,
/// so that they aren't compared again.
#[derive(Drop)]
pub(crate) struct Code {
    words: Rc<Marked>,
    known: Cell<Option<Known>>,
}

impl Model for Code {
    ghost use Rattle.std.specs.Prelude.{ℕ, List};

    ghost Value = { List ℕ };

    ghost view = { λ c. c.words.value.list.items };
}

impl Code {
    /// The code of these words, in this order. It represents itself.
    pub(crate) fn new(alloc: Global, words: Vec<u32>) -> Result<Code, AllocError>
        ensures { IfOk result (λ code. code ≡ words.items) }
    {
        let words = Rc::new(alloc, Marked::new(words))?;
        Ok(Code {
            words,
            known: Cell::new(None),
        })
    }

    /// The words, in their order.
    pub(crate) fn as_slice(&self) -> &[u32]
        ensures { result.now ≡ self.now }
    {
        self.words.list.as_slice()
    }

    /// What represents this code. No contract tells what a cell holds, so what is found there is only used if it is of
    /// this code.
    fn representative(&self) -> Result<Rc<Marked>, AllocError>
        ensures { IfOk result (λ words. words.value.list.items ≡ self.now) }
    {
        let Some(known) = self.known.take() else {
            return Ok(self.words.clone()?);
        };
        if !known.own.is_same(&self.words) {
            return Ok(self.words.clone()?);
        }
        let words: Result<Rc<Marked>, AllocError> = known.representative.clone();
        self.known.set(Some(known));
        words
    }

    /// Has this code represented by these words.
    fn represent(&self, representative: Rc<Marked>)
        requires { representative.value.list.items ≡ self.now }
    {
        if let Ok(own) = self.words.clone() {
            self.known.set(Some(Known {
                own,
                representative,
            }));
        }
    }

    /// Whether both have the same words; `mine` and `its` represent them. If so, what represents more codes represents
    /// both from then on: otherwise one code that is compared with two others by turns could be so each time.
    #[tactic(auto, using(crate::proofs::CodeLemmas::represented))]
    fn agrees(&self, other: &Code, mine: Rc<Marked>, its: Rc<Marked>) -> bool
        requires mine { mine.value.list.items ≡ self.now }
        requires its { its.value.list.items ≡ other.now }
        ensures { result ≡ same self.now other.now }
    {
        if mine.is_same(&its) {
            return true;
        }
        if self.as_slice() != other.as_slice() {
            return false;
        }
        if Rc::strong_count(&mine) < Rc::strong_count(&its) {
            self.represent(its);
        } else {
            other.represent(mine);
        }
        true
    }

    /// Whether both have the same words. If they are known to, no word is looked at.
    pub(crate) fn equals(&self, other: &Code) -> bool
        ensures { result ≡ same self.now other.now }
    {
        match (self.representative(), other.representative()) {
            (Ok(mine), Ok(its)) => self.agrees(other, mine, its),
            _ => self.as_slice() == other.as_slice(),
        }
    }
}
