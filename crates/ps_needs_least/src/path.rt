// The paths of calls that show why an answer is right.

ghost use Rattle.std.specs.Prelude.{◌≡◌, ◌≢◌, ◌↔◌, ◌+◌, ◌<◌, ◌≤◌, IfOk, IsTrue, None, Some, [], get_or, length};
ghost use Rattle.std.specs.Prelude.{reverse};
ghost use Rattle.std.specs.List.{Contains};
ghost use Rattle.ps_needs_least.specs.Answers.{ComesBack, Takes};
ghost use Rattle.ps_needs_least.specs.Tabled.{IsPathOf, IsTabled, Leads, Tabled, passed_of};
ghost use Rattle.ps_needs_least.specs.Settled.{depth_of};
ghost use Rattle.ps_needs_least.specs.declared.uses.Use.{Use};
ghost use Rattle.ps_needs_least.specs.declared.uses.Use.TheVariants.{Called, ParameterCalled};

use crate::depths::{depth_of, frame_of};
use crate::nodes::Nodes;
use crate::uses::Use;
use std::alloc::{AllocError, Global};

// Whether the called node of a use has this depth.
fn has_depth(depths: &[Option<u64>], part: Use, wanted: Option<u64>) -> bool
    requires { 1 ≤ length depths.now }
    ensures { IsTrue result ↔ (depth_of depths.now part ≡ wanted) }
{
    match (depth_of(depths, part), wanted) {
        (Some(depth), Some(wanted)) => depth == wanted,
        (None, None) => true,
        (Some(_), None) => false,
        (None, Some(_)) => false,
    }
}

// The first use of this depth; there must be one.
fn first_use(depths: &[Option<u64>], uses: &[Use], wanted: Option<u64>) -> Use
    requires some { 1 ≤ length depths.now }
    requires there { (u : Use) × Contains uses.now u × (depth_of depths.now u ≡ wanted) }
    ensures there { Contains uses.now result }
    ensures depth { depth_of depths.now result ≡ wanted }
{
    for part in uses {
        if has_depth(depths, *part, wanted) {
            return *part;
        }
    }
    unreachable!()
}

// A routine of this depth that a call of a parameter may call: there is one if the parameters have that depth.
fn first_passed(nodes: &Nodes, depths: &[Option<u64>], wanted: Option<u64>) -> u32
    requires tabled { IsTabled nodes.now depths.now }
    requires deep { wanted ≢ Some 0 }
    requires depth { depth_of depths.now ParameterCalled ≡ wanted }
    ensures passed { Contains (passed_of nodes.now) (Called result) }
    ensures depth { depth_of depths.now (Called result) ≡ wanted }
{
    match first_use(depths, nodes.uses(nodes.count() - 1), wanted) {
        Use::Called(routine) => routine,
        Use::Passed(_) => unreachable!(),
        Use::ParameterCalled => unreachable!(),
    }
}

// A routine of this depth that a routine calls, by its name or as a parameter.
fn first_called(nodes: &Nodes, depths: &[Option<u64>], routine: u32, wanted: Option<u64>) -> u32
    requires tabled { IsTabled nodes.now depths.now }
    requires deep { wanted ≢ Some 0 }
    requires within { routine + 1 < length nodes.now }
    requires there { (u : Use) × Contains (get_or nodes.now routine []) u × (depth_of depths.now u ≡ wanted) }
    ensures leads { Leads nodes.now routine result }
    ensures depth { depth_of depths.now (Called result) ≡ wanted }
{
    match first_use(depths, nodes.uses(routine as usize), wanted) {
        Use::Called(called) => called,
        Use::Passed(_) => unreachable!(),
        Use::ParameterCalled => first_passed(nodes, depths, wanted),
    }
}

/// The path of calls that takes all of the program block's depth.
pub(crate) fn dearest_path(
    alloc: Global,
    nodes: &Nodes,
    frames: &[u32],
    depths: &[Option<u64>],
    bytes: u64,
) -> Result<Vec<u32>, AllocError>
    requires tabled { Tabled nodes.now frames.now depths.now }
    requires begins { depth_of depths.now (Called 0) ≡ Some bytes }
    ensures path { IfOk result (λ path. IsPathOf nodes.now (reverse path.items)) }
    ensures takes { IfOk result (λ path. Takes frames.now path.items bytes) }
{
    let mut path = Vec::new(alloc);
    let mut routine = 0;
    let mut left = bytes;
    'calls: loop {
        path.push(routine)?;
        left -= frame_of(frames, routine as usize);
        if left == 0 {
            return Ok(path);
        }
        routine = first_called(nodes, depths, routine, Some(left));
    }
}

/// A path of calls of routines without a depth, up to one that already occurs in it.
pub(crate) fn endless_path(
    alloc: Global,
    nodes: &Nodes,
    depths: &[Option<u64>],
) -> Result<Vec<u32>, AllocError>
    requires tabled { IsTabled nodes.now depths.now }
    requires begins { depth_of depths.now (Called 0) ≡ None }
    ensures path { IfOk result (λ path. IsPathOf nodes.now (reverse path.items)) }
    ensures again { IfOk result (λ path. ComesBack path.items) }
{
    let mut path = Vec::new(alloc);
    let mut seen = vec![in alloc; false; nodes.count()]?;
    let mut routine: u32 = 0;
    'calls: while !seen[routine as usize] {
        seen[routine as usize] = true;
        path.push(routine)?;
        routine = first_called(nodes, depths, routine, None);
    }
    path.push(routine)?;
    Ok(path)
}
