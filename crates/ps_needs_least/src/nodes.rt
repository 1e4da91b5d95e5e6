// The calls of a program.

ghost use Rattle.std.specs.Prelude.{◌≡◌, ◌^◌, ◌<◌, ◌≤◌, ◌++◌, [], length, map, get_or, flat_map, OnOk, IfOk};
ghost use Rattle.ps_tree.specs.Checked.{program_in};
ghost use Rattle.ps_tree.specs.View.{routine_of};
ghost use Rattle.ps_needs_least.specs.Uses.{statements_uses};
ghost use Rattle.ps_needs_least.specs.Nodes.{passed_in, nodes_of};

use crate::gather::uses_of;
use crate::uses::Use;
use ps_tree::program::Checked;
use ps_tree::tree::Routine;
use std::alloc::{AllocError, Global};
use std::marker::Model;

/// What each block of a program does with routines, by the routines' numbers. The last node has the routines that are
/// passed, as calls of them: a call of a parameter may call any of these.
pub(crate) struct Nodes {
    lists: Vec<Vec<Use>>,
}

impl Model for Nodes {
    ghost use Rattle.std.specs.Prelude.{List, map};
    ghost use Rattle.ps_needs_least.specs.declared.uses.Use.{Use};

    ghost Value = { List (List Use) };

    ghost view = { λ a. map (λ uses. uses.items) a.lists.items };
}

impl Drop for Nodes {
    fn drop(self) {
        let Nodes { lists: _ } = self;
    }
}

impl Nodes {
    /// How many nodes there are: one more than there are routines.
    pub fn count(&self) -> usize
        ensures { result ≡ length self.now }
    {
        self.lists.len()
    }

    /// The uses of a node.
    pub fn uses(&self, node: usize) -> &[Use]
        requires { node < length self.now }
        ensures { result.now ≡ get_or self.now node [] }
    {
        &self.lists[node]
    }
}

// The uses of each block.
fn blocks_of(alloc: Global, routines: &[Routine]) -> Result<Vec<Vec<Use>>, AllocError>
    ensures { IfOk result (λ lists. map (λ uses. uses.items) lists.items ≡ map
        (λ r. statements_uses (routine_of r).body) routines.now) }
{
    let mut lists = Vec::new(alloc);
    for routine in routines {
        let uses = uses_of(alloc, routine)?;
        lists.push(uses)?;
    }
    Ok(lists)
}

// Adds the routine that is passed, if the use passes one, as a call of it.
fn add_use(part: Use, passed: &mut Vec<Use>) -> Result<(), AllocError>
    ensures { OnOk result (passed.new.items ≡ passed.old.items ++ passed_in part) }
{
    match part {
        Use::Passed(routine) => {
            passed.push(Use::Called(routine))?;
            Ok(())
        }
        Use::Called(_) => Ok(()),
        Use::ParameterCalled => Ok(()),
    }
}

// Adds the routines that a block passes, as calls of them.
fn add_passed(uses: &[Use], passed: &mut Vec<Use>) -> Result<(), AllocError>
    ensures { OnOk result (passed.new.items ≡ passed.old.items ++ flat_map passed_in uses.now) }
{
    for part in uses {
        add_use(*part, passed)?;
    }
    Ok(())
}

fn all_passed(alloc: Global, lists: &[Vec<Use>]) -> Result<Vec<Use>, AllocError>
    ensures { IfOk result (λ passed. passed.items ≡ flat_map (λ uses. flat_map passed_in uses.items) lists.now) }
{
    let mut passed = Vec::new(alloc);
    for uses in lists {
        add_passed(uses, &mut passed)?;
    }
    Ok(passed)
}

/// The nodes of a program.
pub(crate) fn nodes_of(alloc: Global, checked: &Checked) -> Result<Nodes, AllocError>
    ensures nodes { IfOk result (λ nodes. nodes ≡ nodes_of (program_in checked.now)) }
    ensures few { IfOk result (λ nodes. length nodes ≤ 2 ^ 21) }
{
    let mut lists = blocks_of(alloc, checked.routines())?;
    let passed = all_passed(alloc, &lists)?;
    lists.push(passed)?;
    Ok(Nodes { lists })
}
