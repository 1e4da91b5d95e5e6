//! The characters of strings.

ghost use Rattle.std.specs.Prelude.{◌≡◌, length, IfOk};
ghost use Rattle.ps_tree.specs.Characters.{filled};

use std::alloc::{AllocError, Global};
use std::marker::Model;
use std::rc::Rc;

/// The characters of a string (6.1.7), one byte each, which are in memory once: a clone shares them. They are padded
/// with zeros to whole words, as in a constant of the code. A contract sees them as a list.
pub struct Characters {
    bytes: Rc<Vec<u8>>,
    count: usize,
}

impl Drop for Characters {
    fn drop(self) {
        let Characters { bytes: _, count: _ } = self;
    }
}

impl Model for Characters {
    ghost use Rattle.std.specs.Prelude.{◌≡◌, ◌≤◌, ℕ, List, length, take};
    ghost use Rattle.ps_tree.specs.Characters.{filled};

    ghost Value = { List ℕ };

    ghost view = { λ c. take c.count c.bytes.value.items };

    ghost invariant = { λ c. (c.count ≤ length c.bytes.value.items) ×
        (c.bytes.value.items ≡ filled (take c.count c.bytes.value.items)) };
}

impl Clone for Characters {
    ghost is_clone = { λ characters shared. shared ≡ characters };

    fn clone(&self) -> Result<Characters, AllocError> {
        Ok(Characters {
            bytes: self.bytes.clone()?,
            count: self.count,
        })
    }
}

/// Characters padded with zeros to whole words.
#[tactic(auto, using(crate::proofs::CharacterLemmas::filled_is))]
fn filled(characters: Vec<u8>) -> Result<Vec<u8>, AllocError>
    ensures { IfOk result (λ bytes. bytes.items ≡ filled characters.items) }
{
    let zeros = (4 - characters.len() % 4) % 4;
    let mut bytes = characters;
    bytes.reserve_exact(zeros)?;
    bytes.extend_from_slice(&[0, 0, 0][..zeros])?;
    Ok(bytes)
}

impl Characters {
    /// These characters.
    #[tactic(auto, using(crate::proofs::CharacterLemmas::filled_from, crate::proofs::CharacterLemmas::filled_longer))]
    pub fn new(alloc: Global, characters: Vec<u8>) -> Result<Characters, AllocError>
        ensures { IfOk result (λ kept. kept ≡ characters.items) }
    {
        let count = characters.len();
        let bytes = Rc::new(alloc, filled(characters)?)?;
        Ok(Characters { bytes, count })
    }

    /// The number of characters.
    pub fn len(&self) -> usize
        ensures { result ≡ length self.now }
    {
        self.count
    }

    /// The characters, in order.
    pub fn as_slice(&self) -> &[u8]
        ensures { result.now ≡ self.now }
    {
        &self.bytes.as_slice()[..self.count]
    }

    /// The characters padded with zeros to whole words: the bytes that all uses share.
    pub fn filled(&self) -> Result<Rc<Vec<u8>>, AllocError>
        ensures { IfOk result (λ bytes. bytes.value.items ≡ filled self.now) }
    {
        self.bytes.clone()
    }
}
