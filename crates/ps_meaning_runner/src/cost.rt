// What a run costs, and whether it exceeds its budget.

ghost use Rattle.std.specs.Prelude.{◌≡◌, ◌+◌, ◌<◌, ◌++◌, ◌∷◌, [], get_or, sum_by, MatchOption};
ghost use Rattle.ps_meaning.specs.Statements as m;
ghost use Rattle.ps_meaning_runner.specs.Worlds.{costs_in, numbers_of};

use crate::world::{Numbers, Setup};

/// The cost with this number; 0 if none is listed.
fn cost_of(costs: &[u32], number: u32) -> u64
    ensures { result ≡ get_or costs.now number 0 }
{
    match costs.get(number as usize) {
        Some(cost) => u64::from(*cost),
        None => 0,
    }
}

/// What is left of a budget after the costs of these numbers; `None` if they exceed it. If no costs are listed, nothing
/// is added up.
#[tactic(auto, using(crate::proofs::Costs::free_of_cost))]
fn left_after(costs: &[u32], numbers: &[u32], budget: u64) -> Option<u64>
    ensures { MatchOption result (budget < sum_by (λ n. get_or costs.now n 0) numbers.now)
        (λ left. left + sum_by (λ n. get_or costs.now n 0) numbers.now ≡ budget) }
{
    if costs.len() == 0 {
        return Some(budget);
    }
    let mut left = budget;
    for number in numbers {
        let cost = cost_of(costs, *number);
        if left < cost {
            return None;
        }
        left -= cost;
    }
    Some(left)
}

/// Whether the bytes of the objects made, and of one more of this pointer type, exceed the heap.
pub fn passes_heap(setup: &Setup, made: &[u32], pointer: u32) -> bool
    ensures { result ≡ m.passes_heap (costs_in setup.now) (made.now ++ pointer ∷ []) }
{
    match left_after(setup.objects, made, setup.heap) {
        Some(left) => left < cost_of(setup.objects, pointer),
        None => true,
    }
}

/// Whether the frame bytes of the open routines exceed the stack. If no costs are listed, nothing is added up.
#[tactic(auto, using(crate::proofs::Worlds::numbers_of_Number, crate::proofs::Costs::free_of_cost), unfolding(crate::specs::Worlds::numbers_of))]
pub fn passes_stack(setup: &Setup, active: &Numbers) -> bool
    ensures { result ≡ m.passes_stack (costs_in setup.now) (numbers_of active.now) }
{
    if setup.frames.len() == 0 {
        return false;
    }
    let mut left = setup.stack;
    let mut open = active;
    while let Numbers::Number { first, rest } = open {
        let cost = cost_of(setup.frames, *first);
        if left < cost {
            return true;
        }
        left -= cost;
        open = rest;
    }
    false
}
