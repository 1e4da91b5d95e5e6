// The pass over a whole code.

ghost use Rattle.std.specs.Prelude.{◌≡◌, length, map, ◌≤◌, IfOk, IfSome};
ghost use Rattle.tac_code.specs.Meaning.{size};
ghost use Rattle.tac_code.specs.Sound.{IsSoundRoutine, AreSoundRoutines, limits_of};
ghost use Rattle.tac_known.specs.Again.{AgainBody};
ghost use Rattle.tac_known.specs.Lean.{LeanBody};
ghost use Rattle.tac_pass.specs.Walk.{Passed as PassedBody};
ghost use Rattle.tac_pass_laws.specs.Passed.{IsPassed};
ghost use Rattle.tac_plan.specs.Passes.{PassesBody, PassesRoutine, PassesSoFar, Passes};
ghost use Rattle.tac_plan.specs.Roomy.{roomy, HasRoom, FillsRoom};

use crate::choice::plan_of;
use crate::flow::has_loop;
use crate::room::{roomy, temporaries_for};
use crate::spares::spares_of;
use crate::stays::stayed;
use std::alloc::Global;
use tac_code::code::{Body, Instruction, OutOfMemory, TacRaw, TacRoutine};
use tac_code::tac::Tac;
use tac_known::again::again_body;
use tac_known::claims::claims;
use tac_known::walk::lean_body;
use tac_pass::plan::Plan;
use tac_pass::walk::{starts_of, walk};

// For how many places plans are chosen, besides an eighth of all places: choosing and walking takes some 2,000
// instructions of the host for each place, whereas the rest of the compiler takes 4,500.
const CHOSEN: usize = 384;

// Code with more places than a quarter of an image's words stays as it is. The pass would change at most an eighth of
// it, and both codes would be placed and emitted if they were too large.
const MOST_PLACES: usize = 262_144;

fn places_of(routines: &[TacRoutine]) -> usize {
    let mut places = 0usize;
    for routine in routines {
        places = places.saturating_add(routine.body.as_slice().len());
    }
    places
}

fn chosen_of(routines: &[TacRoutine]) -> usize {
    CHOSEN.saturating_add(places_of(routines) / 8)
}

// How many places a routine counts for: each once, plus once for every twenty temporaries, since all of them are
// examined.
fn cost_of(routine: &TacRoutine) -> usize {
    let times = (routine.temporaries as usize / 20).saturating_add(1);
    routine.body.as_slice().len().saturating_mul(times)
}

// Plans for routines with loops, or for those without, as long as places are left; how many are.
fn choose(
    alloc: Global,
    routines: &[TacRoutine],
    plans: &mut Vec<Option<Plan>>,
    has_loops: bool,
    left: usize,
) -> Result<usize, OutOfMemory> {
    let mut left = left;
    for (number, routine) in routines.iter().enumerate() {
        let cost = cost_of(routine);
        if cost <= left && has_loop(routine.body.as_slice()) == has_loops && number < plans.len() {
            left = left.saturating_sub(cost);
            plans[number] = plan_of(alloc, number, routine)?;
        }
    }
    Ok(left)
}

// Plans for the routines, first for those with loops.
fn plans_of(alloc: Global, routines: &[TacRoutine]) -> Result<Vec<Option<Plan>>, OutOfMemory> {
    let mut plans = Vec::with_capacity(alloc, routines.len())?;
    for _ in routines {
        plans.push(None)?;
    }
    let left = choose(alloc, routines, &mut plans, true, chosen_of(routines))?;
    choose(alloc, routines, &mut plans, false, left)?;
    Ok(plans)
}

fn is_any(plans: &[Option<Plan>]) -> bool {
    for plan in plans {
        if plan.is_some() {
            return true;
        }
    }
    false
}

fn plan_at(plans: &[Option<Plan>], at: usize) -> Option<&Plan> {
    if at < plans.len() {
        match &plans[at] {
            Some(plan) => Some(plan),
            None => None,
        }
    } else {
        None
    }
}

// A body with copies of addresses that temporaries hold. `None` if it jumps past its end.
fn copied(alloc: Global, body: Vec<Instruction>) -> Result<Option<Vec<Instruction>>, OutOfMemory>
    ensures { IfOk result (λ made. IfSome made (λ new_body. AgainBody body.items new_body.items)) }
{
    let mut list = body;
    if again_body(alloc, list.as_mut_slice())? {
        Ok(Some(list))
    } else {
        Ok(None)
    }
}

// A body without copies whose source holds the same, and without checks that can't fail. `None` if no plan is found, or
// the rules don't allow it; otherwise the start of the new code of each place comes after it.
fn spared(
    alloc: Global,
    number: usize,
    temporaries: u32,
    body: &[Instruction],
    later: &mut Option<Vec<u64>>,
) -> Result<Option<Vec<Instruction>>, OutOfMemory>
    ensures passed { IfOk result (λ made. IfSome made (λ new_body. PassedBody number body.now new_body.items)) }
    ensures shorter { IfOk result (λ made. IfSome made (λ new_body. length new_body.items ≤ length body.now)) }
{
    let Some(plan) = spares_of(alloc, temporaries, body)? else {
        return Ok(None);
    };
    *later = Some(starts_of(alloc, plan.steps.as_slice())?);
    walk(alloc, number, body, &plan)
}

// A body whose tests that can't fail have the number 0. `None` if more was claimed of it than is known.
#[tactic(auto, using(tac_known::proofs::Itself::itself_is_lean))]
fn leaned(
    alloc: Global,
    temporaries: usize,
    body: Vec<Instruction>,
) -> Result<Option<Vec<Instruction>>, OutOfMemory>
    ensures { IfOk result (λ made. IfSome made (λ new_body. LeanBody body.items new_body.items)) }
{
    let mut list = body;
    let Some(claims) = claims(alloc, temporaries, list.as_slice())? else {
        return Ok(Some(list));
    };
    let (kinds, orders) = (claims.kinds.as_slice(), claims.orders.as_slice());
    if lean_body(alloc, temporaries, kinds, orders, list.as_mut_slice())? {
        Ok(Some(list))
    } else {
        Ok(None)
    }
}

// A body made by a plan, then with copies of addresses that temporaries hold, then without tests that can't fail, and
// then with fewer copies. `None` if the rules don't allow what is planned or claimed.
#[tactic(auto, using(crate::proofs::Passing::body_passes))]
fn passed_body(
    alloc: Global,
    number: usize,
    routine: &TacRoutine,
    plan: &Plan,
    later: &mut Option<Vec<u64>>,
) -> Result<Option<Vec<Instruction>>, OutOfMemory>
    ensures { IfOk result (λ made. IfSome made (λ new_body. PassesBody number routine.now.body new_body.items)) }
{
    let Some(list) = walk(alloc, number, routine.body.as_slice(), plan)? else {
        return Ok(None);
    };
    let Some(list) = copied(alloc, list)? else {
        return Ok(None);
    };
    let temporaries = temporaries_for(routine, list.as_slice());
    let Some(list) = leaned(alloc, temporaries as usize, list)? else {
        return Ok(None);
    };
    spared(alloc, number, temporaries, list.as_slice(), later)
}

// By the plan that was chosen, or as it is.
#[tactic(auto, using(crate::proofs::Passing::routine_passes))]
fn passed_routine(
    alloc: Global,
    tac: &Tac,
    number: usize,
    routine: &TacRoutine,
    plan: Option<&Plan>,
    later: &mut Option<Vec<u64>>,
) -> Result<TacRoutine, OutOfMemory>
    requires { IsSoundRoutine (limits_of tac.now routine.now) routine.now }
    ensures passes { IfOk result (PassesRoutine number routine.now) }
    ensures fills { IfOk result (λ made. size made ≡ size routine.now) }
{
    let Some(plan) = plan else {
        return stayed(alloc, tac, number, routine);
    };
    let Some(list) = passed_body(alloc, number, routine, plan, later)? else {
        *later = None;
        return stayed(alloc, tac, number, routine);
    };
    Ok(TacRoutine {
        parameters: routine.parameters,
        temporaries: routine.temporaries,
        frame: routine.frame,
        scratch: routine.scratch,
        line: routine.line,
        body: Body::new(alloc, list)?,
    })
}

#[tactic(auto, using(crate::proofs::Passing::so_far_none))]
fn passed_routines(
    alloc: Global,
    tac: &Tac,
    routines: &[TacRoutine],
    first: usize,
    plans: &[Option<Plan>],
    laters: &mut Vec<Option<Vec<u64>>>,
) -> Result<Option<Vec<TacRoutine>>, OutOfMemory>
    requires { AreSoundRoutines tac.now routines.now }
    ensures passes { IfOk result (λ made. IfSome made
        (λ list. PassesSoFar first routines.now (length routines.now) list.items)) }
    ensures fills { IfOk result (λ made. IfSome made (λ list. map size list.items ≡ map size routines.now)) }
{
    let mut list = Vec::with_capacity(alloc, routines.len())?;
    for at in 0..routines.len() {
        let Some(number) = first.checked_add(at) else {
            return Ok(None);
        };
        let mut later = None;
        let plan = plan_at(plans, at);
        let routine = passed_routine(alloc, tac, number, &routines[at], plan, &mut later)?;
        list.push(routine)?;
        laters.push(later)?;
    }
    Ok(Some(list))
}

// New code that was made by plans.
#[tactic(auto, using(crate::proofs::Passing::passes))]
fn made_by(
    alloc: Global,
    tac: &Tac,
    plans: &[Option<Plan>],
    laters: &mut Vec<Option<Vec<u64>>>,
) -> Result<Option<Tac>, OutOfMemory>
    ensures made { IfOk result (λ made. IfSome made (λ new_one. Passes tac.now new_one)) }
    ensures fills { IfOk result (λ made. IfSome made (λ new_one. map size new_one.program
        ≡ map size tac.now.program)) }
{
    tac.keeps_invariant();
    let Some(program) = passed_routines(alloc, tac, tac.program(), 0, plans, laters)? else {
        return Ok(None);
    };
    let many = tac.program().len();
    let Some(run_time) = passed_routines(alloc, tac, tac.run_time(), many, &[], laters)? else {
        return Ok(None);
    };
    let objects = tac.objects().to_vec(alloc)?;
    Ok(Tac::new(TacRaw {
        program,
        run_time,
        objects,
    }))
}

// Where the new code of each place of a routine begins. `None` if the routine stays as it was, as it does if a plan was
// refused.
fn starts_in(
    alloc: Global,
    plan: Option<&Plan>,
    later: &[u64],
    made: &TacRoutine,
) -> Result<Option<Vec<u64>>, OutOfMemory> {
    let Some(plan) = plan else {
        return Ok(None);
    };
    let mut starts = starts_of(alloc, plan.steps.as_slice())?;
    for place in 0..starts.len() {
        let between = starts[place] as usize;
        starts[place] = if between < later.len() {
            later[between]
        } else {
            0
        };
    }
    match starts.last() {
        Some(end) if *end == made.body.as_slice().len() as u64 => Ok(Some(starts)),
        _ => Ok(None),
    }
}

fn later_at(laters: &[Option<Vec<u64>>], at: usize) -> &[u64] {
    if at < laters.len()
        && let Some(later) = &laters[at]
    {
        later.as_slice()
    } else {
        &[]
    }
}

fn starts_by(
    alloc: Global,
    plans: &[Option<Plan>],
    laters: &[Option<Vec<u64>>],
    made: &[TacRoutine],
) -> Result<Vec<Option<Vec<u64>>>, OutOfMemory> {
    let mut starts = Vec::with_capacity(alloc, made.len())?;
    for (number, routine) in made.iter().enumerate() {
        let later = later_at(laters, number);
        starts.push(starts_in(alloc, plan_at(plans, number), later, routine)?)?;
    }
    Ok(starts)
}

/// Code that a pass made.
#[derive(Drop)]
pub struct Passed {
    pub tac: Tac,
    /// For each routine of the program, and for each place of its old code, where its new code begins, with the end of
    /// the new code last; `None` if the routine stays as it was. Nothing is proved about it: it serves to show places.
    pub starts: Vec<Option<Vec<u64>>>,
}

/// New code that keeps what the old one shows, with words of frames in temporaries, with copies of addresses that
/// temporaries hold, and with the number 0 at tests that can't fail. Each routine has the same blocks, no more
/// instructions, and all the temporaries that there is room for, whatever it needs. `None` if there is no such code, or
/// if there are more than [`MOST_PLACES`] places: then the old code stays.
pub fn pass(alloc: Global, tac: &Tac) -> Result<Option<Passed>, OutOfMemory>
    requires { HasRoom tac.now }
    ensures made { IfOk result (λ made. IfSome made (λ passed. Passes (roomy tac.now) passed.tac)) }
    ensures passed { IfOk result (λ made. IfSome made (λ passed. IsPassed tac.now passed.tac)) }
    ensures fills { IfOk result (λ made. IfSome made (λ passed. FillsRoom tac.now passed.tac)) }
{
    if places_of(tac.program()) > MOST_PLACES {
        return Ok(None);
    }
    let plans = plans_of(alloc, tac.program())?;
    if !is_any(plans.as_slice()) {
        return Ok(None);
    }
    let mut laters = Vec::new(alloc);
    let tac = roomy(alloc, tac)?;
    let Some(made) = made_by(alloc, &tac, plans.as_slice(), &mut laters)? else {
        return Ok(None);
    };
    let starts = starts_by(alloc, plans.as_slice(), laters.as_slice(), made.program())?;
    Ok(Some(Passed { tac: made, starts }))
}
