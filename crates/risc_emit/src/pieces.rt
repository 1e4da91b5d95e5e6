// Words whose places are not known yet.

use risc_word::{Condition, Instr, Operand, Register, Target};
use std::alloc::Global;
use std::marker::Model;
use tac_code::code::OutOfMemory;

/// The least number that a word doesn't hold. A label has room for the numbers below it.
pub(crate) const WORD_LIMIT: usize = 4_294_967_296;

/// A first word: of the instruction at a place of a routine, of a routine, or of the constant of a place.
#[derive(Clone, Copy)]
pub(crate) enum Label {
    Place(u32, u32),
    Entry(u32),
    Text(u32, u32),
}

/// One word.
#[derive(Clone, Copy)]
pub(crate) enum Piece {
    Plain(Instr),
    /// A branch to a label if a condition holds.
    Goes(Condition, Label),
    /// A stop if a condition holds, with the number of an error and its line.
    Fails(Condition, u8, u16),
    /// A call of a routine of the program, with its line.
    Enters(u32, u16),
    /// A call of a run-time routine.
    Joins(u32),
    /// A call of the routine whose address is in a register, with its line.
    EntersAt(Register, u16),
    /// The two halves of a label's address, into a register.
    High(Register, Label),
    Low(Register, Label),
}

/// The words so far.
#[derive(Drop)]
pub(crate) struct Pieces {
    list: Vec<Piece>,
}

impl Model for Pieces {
    ghost use Rattle.std.specs.Prelude.{List};
    ghost use Rattle.risc_emit_forms.specs.Pieces.{Piece as Meaning};
    ghost use Rattle.risc_emit.specs.Meant.{all_meant};

    ghost Value = { List Meaning };

    ghost view = { λ p. all_meant p.list.items };
}

ghost use Rattle.std.specs.Prelude.{◌≡◌, [], ◌∷◌, ◌++◌, length, OnOk, IfOk};
ghost use Rattle.risc_emit_forms.specs.Pieces as piece;
ghost use Rattle.risc_emit.specs.Meant.{meant, all_meant};

impl Pieces {
    /// No words yet, with room for this many.
    pub(crate) fn with_capacity(alloc: Global, words: usize) -> Result<Pieces, OutOfMemory>
        ensures { IfOk result (λ pieces. pieces ≡ []) }
    {
        Ok(Pieces {
            list: Vec::with_capacity(alloc, words)?,
        })
    }

    pub(crate) fn len(&self) -> usize
        ensures { result ≡ length self.now }
    {
        self.list.len()
    }

    pub(crate) fn as_slice(&self) -> &[Piece]
        ensures { all_meant result.now ≡ self.now }
    {
        self.list.as_slice()
    }

    pub(crate) fn push(&mut self, piece: Piece) -> Result<(), OutOfMemory>
        ensures { OnOk result (self.new ≡ self.old ++ meant piece ∷ []) }
    {
        // The proof of the push needs the modules of a piece's parts where they are named.
        let _: Option<(Instr, Operand, Target)> = None;
        self.list.push(piece)?;
        Ok(())
    }

    /// Some words, one after the other.
    #[tactic(auto, using(crate::proofs::Joined::meant_more))]
    pub(crate) fn all(&mut self, pieces: &[Piece]) -> Result<(), OutOfMemory>
        ensures { OnOk result (self.new ≡ self.old ++ all_meant pieces.now) }
    {
        self.list.extend_from_slice(pieces)
    }

    /// An instruction of the machine.
    pub(crate) fn plain(&mut self, instr: Instr) -> Result<(), OutOfMemory>
        ensures { OnOk result (self.new ≡ self.old ++ piece.Plain instr ∷ []) }
    {
        self.push(Piece::Plain(instr))
    }
}
