// Case constants (6.8.3.5).

ghost use Rattle.std.specs.Prelude.{◌≡◌, ◌++◌, ℤ, List, IfOk, OnOk};
ghost use Rattle.ps_check_judgement.specs.Judged.{Answers};
ghost use Rattle.ps_check_names.specs.Views.{constant_of};
ghost use Rattle.ps_check_expressions.specs.View.{context_at, regions_at};
ghost use Rattle.ps_check_statements.specs.Structured.{case_label, next_label, labels};

use indexmap::IndexSet;
use ps_check_expressions::site::Site;
use ps_check_judgement::answer::broken;
use ps_check_judgement::refusal::{CheckFault, Rule};
use ps_check_names::constants::{ConstantValue, constant};
use ps_syntax::Constant;
use ps_tree::names::Seed;
use ps_tree::types::{Ordinal, same_host};

/// The value of a case constant; the index is of an ordinal type.
#[tactic(auto, unfolding(crate::specs::Structured::case_constant, ps_check_names::specs::Views::constant_of))]
fn case_label(site: &Site<'_>, index: Ordinal, label: Constant) -> Result<i32, CheckFault>
    ensures { Answers result (λ n. n) (case_label (context_at site.now) (regions_at site.now) index label) }
{
    match constant(site.reading, site.alloc, site.scope, label)? {
        ConstantValue::Ordinal(ordinal, number) => {
            if same_host(index.host, ordinal.host) {
                Ok(number)
            } else {
                Err(broken(Rule::WrongType, label.first_token()))
            }
        }
        ConstantValue::Text(_) => Err(broken(Rule::WrongType, label.first_token())),
    }
}

/// One more constant of a case element, which must not have occurred before. `seen` has those of the elements before
/// it, and receives its own.
fn next_label(
    site: &Site<'_>,
    index: Ordinal,
    seen: &mut IndexSet<i32, Seed>,
    own: &mut Vec<i32>,
    label: Constant,
) -> Result<(), CheckFault>
    ensures label { (before : List ℤ) → seen.old.keys ≡ before ++ own.old.items → Answers result (λ _. own.new.items)
        (next_label (context_at site.now) (regions_at site.now) index before own.old.items label) }
    ensures seen { (before : List ℤ) → seen.old.keys ≡ before ++ own.old.items → OnOk result
        (seen.new.keys ≡ before ++ own.new.items) }
{
    let number = case_label(site, index, label)?;
    let (_, is_new) = seen.insert_full(number)?;
    if !is_new {
        return Err(broken(Rule::CaseTwice, label.first_token()));
    }
    own.push(number)?;
    Ok(())
}

/// The constants of a case element, which are added to those seen in the elements before it; the index is of an ordinal
/// type.
#[tactic(auto, unfolding(crate::specs::Structured::labels))]
pub(crate) fn case_labels(
    site: &Site<'_>,
    index: Ordinal,
    seen: &mut IndexSet<i32, Seed>,
    constants: &[Constant],
) -> Result<Vec<i32>, CheckFault>
    ensures labels { Answers result (λ own. own.items)
        (labels (context_at site.now) (regions_at site.now) index seen.old.keys constants.now) }
    ensures seen { IfOk result (λ own. seen.new.keys ≡ seen.old.keys ++ own.items) }
{
    let mut own = Vec::new(site.alloc);
    for label in constants {
        next_label(site, index, seen, &mut own, *label)?;
    }
    Ok(own)
}
