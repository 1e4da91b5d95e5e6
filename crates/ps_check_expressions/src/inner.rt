//! What the routines of a block change.

ghost use Rattle.std.specs.Prelude.{◌≡◌, ◌<◌, ℕ, Some, None, get_or, length, if◌then◌else◌, IfOk, OnOk};
ghost use Rattle.ps_check_expressions.specs.Changed.{is_change_of, first_or, first_at};

use ps_check_judgement::change::Change;
use std::alloc::{AllocError, Global};

/// What the routines of a block change, as the block sees it, with a table of the first change of each of the block's
/// own entries.
#[derive(Drop)]
pub struct Inner<'a> {
    pub changes: &'a [Change],
    firsts: Vec<Option<u32>>,
    ghost table: { (k : ℕ) → get_or firsts.items k None ≡ first_at k changes.now },
}

/// Extends the table with `None`s until it has the entry.
fn reach(firsts: &mut Vec<Option<u32>>, entry: u32) -> Result<(), AllocError>
    ensures long { OnOk result (entry < length firsts.new.items) }
    ensures same { OnOk result ((k : ℕ) → get_or firsts.new.items k None ≡ get_or firsts.old.items k None) }
{
    let index = entry as usize;
    if firsts.len() <= index {
        firsts.resize(index + 1, None)?;
    }
    Ok(())
}

/// Records the offset of a change, if it is the first of its entry of the block.
fn note(firsts: &mut Vec<Option<u32>>, change: &Change) -> Result<(), AllocError>
    ensures { OnOk result ((k : ℕ) → get_or firsts.new.items k None ≡ first_or (get_or firsts.old.items k None)
        (if is_change_of k change.now then Some change.now.at else None)) }
{
    if change.up != 0 {
        return Ok(());
    }
    reach(firsts, change.entry)?;
    let first = &mut firsts[change.entry as usize];
    if first.is_none() {
        *first = Some(change.at);
    }
    Ok(())
}

/// The offset of the first change of each entry of the block.
#[tactic(auto, using(crate::proofs::Firsts::filled_start, crate::proofs::Firsts::filled_next, crate::proofs::Firsts::filled_end))]
fn firsts(alloc: Global, changes: &[Change]) -> Result<Vec<Option<u32>>, AllocError>
    ensures { IfOk result (λ firsts. (k : ℕ) → get_or firsts.items k None ≡ first_at k changes.now) }
{
    let mut firsts = Vec::new(alloc);
    for change in changes {
        note(&mut firsts, change)?;
    }
    Ok(firsts)
}

impl<'a> Inner<'a> {
    /// The same with its table.
    pub fn new(alloc: Global, changes: &'a [Change]) -> Result<Inner<'a>, AllocError>
        ensures { IfOk result (λ inner. inner.changes.now ≡ changes.now) }
    {
        let firsts = firsts(alloc, changes)?;
        Ok(Inner { changes, firsts })
    }

    /// The offset of the first change of an entry of the block, if it is changed.
    pub fn first_of(&self, entry: u32) -> Option<u32>
        ensures { result ≡ first_at entry self.now.changes.now }
    {
        match self.firsts.get(entry as usize) {
            None => None,
            Some(first) => *first,
        }
    }
}
