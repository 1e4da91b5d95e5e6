// The least stack that holds each path of calls of a program.

ghost use Rattle.std.specs.Prelude.{◌≡◌, ◌^◌, ◌<◌, ◌≤◌, ℕ, length, get_or, replicate, None, IfOk};
ghost use Rattle.ps_tree.specs.Checked.{program_in};
ghost use Rattle.ps_needs_least.specs.Settled.{dearest, undone, Sound, IsBlocked, depth_of};
ghost use Rattle.ps_needs_least.specs.Answers.{IsAnswer};
ghost use Rattle.ps_needs_least.specs.declared.uses.Use.TheVariants.{Called};

use crate::depths::{depth_of, settle_all, settle_in_order};
use crate::nodes::{Nodes, nodes_of};
use crate::order::order_of;
use crate::path::{dearest_path, endless_path};
use crate::uses::Use;
use ps_tree::program::Checked;
use std::alloc::{AllocError, Global};

/// How much stack a program needs, and the calls that need it: routines by their numbers, each called by the one before
/// it, beginning with the program block.
#[derive(Drop)]
pub enum Need {
    /// This many bytes hold the frames of each path of calls, and the frames of this path take them all.
    Least { bytes: u64, path: Vec<u32> },
    /// There is no bound. The last routine of this path also occurs earlier in it.
    Endless { path: Vec<u32> },
}

// A table without depths.
fn no_depths(alloc: Global, count: usize) -> Result<Vec<Option<u64>>, AllocError>
    ensures { IfOk result (λ depths. depths.items ≡ replicate count None) }
{
    let depths = vec![in alloc; None; count]?;
    Ok(depths)
}

// The depths of the nodes.
fn depths_of(alloc: Global, nodes: &Nodes, frames: &[u32]) -> Result<Vec<Option<u64>>, AllocError>
    requires { length nodes.now ≤ 2 ^ 21 }
    ensures sound { IfOk result (λ depths. Sound nodes.now frames.now depths.items) }
    ensures blocked { IfOk result (λ depths. (r : ℕ) → IsBlocked nodes.now depths.items r) }
{
    let order = order_of(alloc, nodes)?;
    let mut depths = no_depths(alloc, nodes.count())?;
    settle_in_order(nodes, frames, &mut depths, &order);
    settle_all(nodes, frames, &mut depths);
    Ok(depths)
}

/// The least stack that holds each path of calls of a program whose routines have frames of these sizes in bytes; or
/// that no stack does.
pub fn least_stack(alloc: Global, checked: &Checked, frames: &[u32]) -> Result<Need, AllocError>
    requires count { length frames.now ≡ length checked.now.routines }
    requires positive { (r : ℕ) → r < length frames.now → 1 ≤ get_or frames.now r 0 }
    ensures { IfOk result (IsAnswer (program_in checked.now) frames.now) }
{
    let nodes = nodes_of(alloc, checked)?;
    let depths = depths_of(alloc, &nodes, frames)?;
    match depth_of(&depths, Use::Called(0)) {
        Some(bytes) => {
            let path = dearest_path(alloc, &nodes, frames, &depths, bytes)?;
            Ok(Need::Least { bytes, path })
        }
        None => {
            let path = endless_path(alloc, &nodes, &depths)?;
            Ok(Need::Endless { path })
        }
    }
}
