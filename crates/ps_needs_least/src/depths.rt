// The depths of nodes: the most stack that a node and the calls within it take.

ghost use Rattle.std.specs.Prelude.{◌≡◌, ℕ, ◌+◌, ◌^◌, ◌<◌, ◌≤◌, max, length, get_or, None, true, false};
ghost use Rattle.ps_needs_least.specs.Settled.{depth_of, dearest, undone, Sound, IsBlocked};

use crate::nodes::Nodes;
use crate::uses::Use;

// The depth of what a use calls; a routine that a block passes is not called there.
pub(crate) fn depth_of(depths: &[Option<u64>], part: Use) -> Option<u64>
    requires { 1 ≤ length depths.now }
    ensures { result ≡ depth_of depths.now part }
{
    let parameters = depths.len() - 1;
    match part {
        Use::Called(routine) => {
            let routine = routine as usize;
            if routine < parameters {
                depths[routine]
            } else {
                Some(0)
            }
        }
        Use::ParameterCalled => depths[parameters],
        Use::Passed(_) => Some(0),
    }
}

fn larger(a: u64, b: u64) -> u64
    ensures { result ≡ max a b }
{
    if a < b { b } else { a }
}

// The greatest depth of what the uses call, if each is known.
fn dearest(depths: &[Option<u64>], uses: &[Use]) -> Option<u64>
    requires { 1 ≤ length depths.now }
    ensures { result ≡ dearest depths.now uses.now }
{
    let mut most = 0;
    for part in uses {
        match depth_of(depths, *part) {
            None => return None,
            Some(depth) => most = larger(most, depth),
        }
    }
    Some(most)
}

// The bytes of a node's frame: the node of the parameters has none.
pub(crate) fn frame_of(frames: &[u32], node: usize) -> u64
    ensures frame { result ≡ get_or frames.now node 0 }
    ensures small { result < 2 ^ 32 }
{
    if node < frames.len() {
        frames[node] as u64
    } else {
        0
    }
}

/// Gives a node its depth, if it has none yet and everything that it calls has one. Returns whether it did.
pub(crate) fn settle(
    nodes: &Nodes,
    frames: &[u32],
    depths: &mut Vec<Option<u64>>,
    node: usize,
) -> bool
    requires node { node < length depths.old.items }
    requires few { length depths.old.items ≤ 2 ^ 21 }
    requires sound { Sound nodes.now frames.now depths.old.items }
    ensures sound { Sound nodes.now frames.now depths.new.items }
    ensures count { length depths.new.items ≡ length depths.old.items }
    ensures fewer { result ≡ true → undone depths.new.items + 1 ≡ undone depths.old.items }
    ensures same { result ≡ false → depths.new.items ≡ depths.old.items }
    ensures blocked { result ≡ false → IsBlocked nodes.now depths.old.items node }
{
    if depths[node].is_some() {
        return false;
    }
    match dearest(depths, nodes.uses(node)) {
        None => false,
        Some(most) => {
            depths[node] = Some(frame_of(frames, node) + most);
            true
        }
    }
}

/// Settles nodes in this order.
pub(crate) fn settle_in_order(
    nodes: &Nodes,
    frames: &[u32],
    depths: &mut Vec<Option<u64>>,
    order: &[usize],
)
    requires few { length depths.old.items ≤ 2 ^ 21 }
    requires sound { Sound nodes.now frames.now depths.old.items }
    ensures sound { Sound nodes.now frames.now depths.new.items }
    ensures count { length depths.new.items ≡ length depths.old.items }
{
    for node in order {
        if *node < depths.len() {
            let _ = settle(nodes, frames, depths, *node);
        }
    }
}

// Settles each node that can be settled, one after another. Returns whether there was one.
fn settle_each(nodes: &Nodes, frames: &[u32], depths: &mut Vec<Option<u64>>) -> bool
    requires few { length depths.old.items ≤ 2 ^ 21 }
    requires sound { Sound nodes.now frames.now depths.old.items }
    ensures sound { Sound nodes.now frames.now depths.new.items }
    ensures count { length depths.new.items ≡ length depths.old.items }
    ensures fewer { result ≡ true → undone depths.new.items < undone depths.old.items }
    ensures blocked { result ≡ false → (r : ℕ) → IsBlocked nodes.now depths.new.items r }
{
    let mut changed = false;
    for node in 0..depths.len() {
        if settle(nodes, frames, depths, node) {
            changed = true;
        }
    }
    changed
}

/// Settles nodes until each node left calls one of those left.
pub(crate) fn settle_all(nodes: &Nodes, frames: &[u32], depths: &mut Vec<Option<u64>>)
    requires few { length depths.old.items ≤ 2 ^ 21 }
    requires sound { Sound nodes.now frames.now depths.old.items }
    ensures sound { Sound nodes.now frames.now depths.new.items }
    ensures blocked { (r : ℕ) → IsBlocked nodes.now depths.new.items r }
{
    'rounds: while settle_each(nodes, frames, depths) {}
}
