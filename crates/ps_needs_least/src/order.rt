// An order in which nodes are settled. Any order is correct; in this one each node comes after everything that it
// calls, so that one round settles all nodes that are not recursive.

use crate::nodes::Nodes;
use crate::uses::Use;
use std::alloc::{AllocError, Global};

/// A step of the walk: to enter a node, or to leave it, once everything that it calls has been left.
#[derive(Clone, Copy)]
enum Step {
    Enter(usize),
    Leave(usize),
}

/// A walk through the nodes.
struct Walk {
    seen: Vec<bool>,
    steps: Vec<Step>,
    left: Vec<usize>,
}

impl Drop for Walk {
    fn drop(self) {
        let Walk {
            seen: _,
            steps: _,
            left: _,
        } = self;
    }
}

impl Walk {
    // The nodes, in the order in which they were left.
    fn order(self) -> Vec<usize> {
        let Walk {
            seen: _,
            steps: _,
            left,
        } = self;
        left
    }
}

// The node that a use leads to.
fn target(part: Use, parameters: usize) -> Option<usize> {
    match part {
        Use::Called(routine) => Some(routine as usize),
        Use::ParameterCalled => Some(parameters),
        Use::Passed(_) => None,
    }
}

// Adds a step to each node that the uses lead to.
fn add_targets(steps: &mut Vec<Step>, uses: &[Use], parameters: usize) -> Result<(), AllocError> {
    for part in uses {
        if let Some(node) = target(*part, parameters) {
            steps.push(Step::Enter(node))?;
        }
    }
    Ok(())
}

// Enters a node for the first time.
fn enter(walk: &mut Walk, nodes: &Nodes, node: usize) -> Result<(), AllocError> {
    if node < nodes.count() && node < walk.seen.len() && !walk.seen[node] {
        walk.seen[node] = true;
        walk.steps.push(Step::Leave(node))?;
        add_targets(&mut walk.steps, nodes.uses(node), nodes.count() - 1)?;
    }
    Ok(())
}

fn take(walk: &mut Walk, nodes: &Nodes, step: Step) -> Result<(), AllocError> {
    match step {
        Step::Enter(node) => enter(walk, nodes, node),
        Step::Leave(node) => {
            walk.left.push(node)?;
            Ok(())
        }
    }
}

// A walk that is to enter each node.
fn begun(alloc: Global, count: usize) -> Result<Walk, AllocError> {
    let mut seen = Vec::new(alloc);
    let mut steps = Vec::new(alloc);
    for node in 0..count {
        seen.push(false)?;
        steps.push(Step::Enter(node))?;
    }
    Ok(Walk {
        seen,
        steps,
        left: Vec::new(alloc),
    })
}

/// The nodes, each after everything that it calls, unless a call leads back.
pub(crate) fn order_of(alloc: Global, nodes: &Nodes) -> Result<Vec<usize>, AllocError> {
    let mut walk = begun(alloc, nodes.count())?;
    for _ in 0..u64::MAX {
        match walk.steps.pop() {
            None => break,
            Some(step) => take(&mut walk, nodes, step)?,
        }
    }
    Ok(walk.order())
}
