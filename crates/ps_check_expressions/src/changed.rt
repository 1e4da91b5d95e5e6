//! What statements change: variables that are assigned to, read, counted or passed as variable parameters (ISO 7185,
//! 6.8.3.9), and results of functions (6.6.2).

ghost use Rattle.ps_tree.specs.View.{place_of};
ghost use Rattle.ps_check_judgement.specs.Judged.{Answers};
ghost use Rattle.ps_check_expressions.specs.Changed.{changed_entry, changed};
ghost use Rattle.ps_check_expressions.specs.View.{context_at};

use crate::site::Site;
use ps_check_judgement::answer::broken;
use ps_check_judgement::change::Change;
use ps_check_judgement::refusal::{CheckFault, Rule};
use ps_tree::tree::{Place, PlaceBase};

/// Adds the change of an entry, which must not be the control variable of an enclosing `for` statement.
#[tactic(auto, unfolding(crate::specs::Changed::changed_entry))]
pub fn changed_entry(
    site: &Site<'_>,
    changes: &mut Vec<Change>,
    change: Change,
) -> Result<(), CheckFault>
    ensures { Answers result (λ _. (tt, changes.new.items))
        (changed_entry (context_at site.now) change.up change.entry change.at changes.old.items) }
{
    if change.up == 0 && site.controls.contains(&change.entry) {
        return Err(broken(Rule::ControlVariable, change.at));
    }
    changes.push(change)?;
    Ok(())
}

/// Adds the change of a variable at `at`, if the variable is an entire one.
#[tactic(auto, using(crate::proofs::ChangeLemmas::changed_part, crate::proofs::ChangeLemmas::changed_whole), unfolding(crate::specs::Changed::changed))]
pub fn changed(
    site: &Site<'_>,
    changes: &mut Vec<Change>,
    place: &Place,
    at: u32,
) -> Result<(), CheckFault>
    ensures { Answers result (λ _. (tt, changes.new.items))
        (changed (context_at site.now) (place_of place.now) at changes.old.items) }
{
    if !place.selectors.is_empty() {
        return Ok(());
    }
    match &place.base {
        PlaceBase::Opened(_) => Ok(()),
        PlaceBase::Entry { up, index } => {
            let change = Change {
                up: *up,
                entry: *index,
                at,
            };
            changed_entry(site, changes, change)
        }
    }
}
