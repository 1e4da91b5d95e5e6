//! What a block changes: its function's result, and variables of the blocks that enclose it.

ghost use Rattle.std.specs.Prelude.{◌≡◌, ◌++◌, ◌∷◌, [], OnOk, option_map};
ghost use Rattle.std.specs.List.{list_any};
ghost use Rattle.ps_tree.specs.View.{type_of};
ghost use Rattle.ps_check.specs.Changes.{is_of_result, assigns, outward};

use ps_check_judgement::change::Change;
use ps_tree::types::Ty;
use std::alloc::AllocError;

/// Whether it is a change of a function's result in the function's own block.
fn is_of_result(change: &Change) -> bool
    ensures { result ≡ is_of_result change.now }
{
    change.up == 0 && change.entry == 0
}

/// Whether these changes of a function's block include its result.
fn is_result_changed(changes: &[Change]) -> bool
    ensures { result ≡ list_any is_of_result changes.now }
{
    changes.iter().any(is_of_result)
}

/// Whether a routine's block, which makes these changes, assigns the result, if the routine is a function (6.6.2).
#[tactic(auto, unfolding(crate::specs::Changes::assigns))]
pub fn assigns(result_type: &Option<Ty>, changes: &[Change]) -> bool
    ensures { result ≡ assigns (option_map type_of result_type.now) changes.now }
{
    match result_type {
        None => true,
        Some(_) => is_result_changed(changes),
    }
}

/// Adds a change of a block as the enclosing block sees it, if it reaches further out.
#[tactic(auto, using(crate::proofs::Lists::outward_own))]
fn add_one_outward(change: &Change, outer: &mut Vec<Change>) -> Result<(), AllocError>
    ensures { OnOk result (outer.new.items ≡ outer.old.items ++ outward (change.now ∷ [])) }
{
    if change.up == 0 {
        return Ok(());
    }
    outer.push(Change {
        up: change.up - 1,
        entry: change.entry,
        at: change.at,
    })?;
    Ok(())
}

/// Adds those changes of a block that reach further out, as the enclosing block sees them.
#[tactic(auto, using(crate::proofs::Lists::reached_start, crate::proofs::Lists::reached_next, crate::proofs::Lists::reached_end))]
pub fn add_outward(changes: &[Change], outer: &mut Vec<Change>) -> Result<(), AllocError>
    ensures { OnOk result (outer.new.items ≡ outer.old.items ++ outward changes.now) }
{
    for change in changes {
        add_one_outward(change, outer)?;
    }
    Ok(())
}
