// The run of a program.

ghost use Rattle.std.specs.Prelude.{◌≡◌, ◌*◌, ◌<◌, ◌≤◌, [], ℕ, List, IfOk, IfErr};
ghost use Rattle.std.specs.List.{All};
ghost use Rattle.behavior.specs.Endings.{calls_of};
ghost use Rattle.behavior.specs.Transcripts.{output};
ghost use Rattle.ps_tree.specs.Checked.{program_in};
ghost use Rattle.ps_meaning.specs.Worlds.{Outside};
ghost use Rattle.ps_meaning.specs.Run as m;
ghost use Rattle.ps_meaning_runner.specs.Worlds.{caller, context_of, env_of, numbers_of, world_of, done_of, program_of};
ghost use Rattle.ps_meaning_runner.specs.Worlds.{costs_in};
ghost use Rattle.ps_meaning_runner.specs.declared.run.TheConstants.{DEPTH};
ghost use Rattle.ps_meaning_runner.specs.declared.run.Refusal.TheVariants.{TooDeep};
ghost use Rattle.ps_meaning_runner.specs.declared.run.TranscriptFault.TheVariants.{NoByteAndNoMark};
ghost use Rattle.ps_meaning_runner.specs.Heights.{highest};
ghost use Rattle.ps_meaning_runner.specs.Runs.{Runs, levels, shown};

use crate::calls::do_block;
use crate::ending::Ending;
use crate::stop::Halt;
use crate::world::{Context, Env, Here, Input, Numbers, Setup, World};
use ps_tree::program::Checked;
use std::alloc::{AllocError, Global};
use std::rc::Rc;

/// How deeply calls, statements and expressions may be nested on a host's stack of 8 MB: each of them takes at most
/// about 4 KB there. A call of a Pascal function takes some four of them.
pub const DEPTH: u32 = 2_000;

/// Why there is no answer.
#[derive(Clone, Copy)]
pub enum Refusal {
    /// A growth was refused.
    OutOfMemory,
    /// Calls, statements and expressions are nested deeper than was allowed.
    TooDeep,
}

/// The result of a run: its transcript, where 256 marks a first look at a byte of the input or at its end; how it
/// ended; and the lines of the calls that were open at its end, innermost first.
#[derive(Drop)]
pub struct Ran {
    pub transcript: Vec<u16>,
    pub ending: Ending,
    pub calls: Vec<u32>,
}

/// The world before a run.
#[tactic(auto, using(crate::proofs::Runs::first_world_is))]
fn first_world(alloc: Global, input: &[u8]) -> World<'_>
    ensures { world_of result ≡ m.first_world input.now }
{
    World {
        next: 0,
        store: Vec::new(alloc),
        objects: Vec::new(alloc),
        made: Vec::new(alloc),
        input: Input {
            left: input,
            looked: false,
            in_line: false,
        },
        transcript: Vec::new(alloc),
    }
}

/// No calls, and no routines.
#[tactic(auto, unfolding(crate::specs::Worlds::numbers_of))]
fn no_numbers(alloc: Global) -> Result<Rc<Numbers>, AllocError>
    ensures { IfOk result (λ k. numbers_of k.value ≡ []) }
{
    Ok(Rc::new(alloc, Numbers::End)?)
}

/// The environment of the program block.
#[tactic(auto, unfolding(crate::specs::Worlds::env_of))]
fn outside(alloc: Global) -> Result<Rc<Env>, AllocError>
    ensures { IfOk result (λ k. env_of k.value ≡ Outside) }
{
    Ok(Rc::new(alloc, Env::Outside)?)
}

/// The context before a run.
fn first_context(alloc: Global) -> Result<Context, AllocError>
    ensures { IfOk result (λ k. context_of k ≡ m.first_context) }
{
    let env = outside(alloc)?;
    let active = no_numbers(alloc)?;
    let calls = no_numbers(alloc)?;
    Ok(Context {
        alloc,
        env,
        opened: Vec::new(alloc),
        active,
        calls,
    })
}

/// Executes the program block.
#[tactic(auto, using(crate::proofs::Heights::body_within, crate::proofs::Answers::stopped_halts))]
fn run_setup(world: &mut World, setup: &Setup, fuel: u64, depth: u32) -> Result<(), Halt>
    ensures { Runs done_of (caller setup.now fuel 0 Outside [] m.first_context (world_of world.old)) depth
        (levels setup.now fuel 0) result world.new }
{
    let c = first_context(setup.alloc)?;
    let parent = outside(setup.alloc)?;
    let calls = no_numbers(setup.alloc)?;
    let (body, inner) = world.enter_with(0, parent, &[], calls, &c, setup)?;
    let here = Here {
        setup,
        context: &inner,
        fuel,
        depth,
    };
    do_block(world, body, here)
}

/// How a run on an input went.
#[tactic(auto, unfolding(crate::specs::Runs::call_levels))]
fn run_on(setup: &Setup, input: &[u8], fuel: u64, depth: u32) -> Result<Ran, Refusal>
    ensures told { IfOk result (λ k. shown k ≡ m.shown
        (m.answer (program_of setup.now) (costs_in setup.now) input.now fuel)) }
    ensures refused { IfErr result (λ refusal. refusal ≡ TooDeep → depth < fuel * highest (program_of setup.now)) }
{
    let mut world = first_world(setup.alloc, input);
    match run_setup(&mut world, setup, fuel, depth) {
        Ok(()) => Ok(Ran {
            transcript: world.transcript,
            ending: Ending::Normal,
            calls: Vec::new(setup.alloc),
        }),
        Err(Halt::Ended { ending, calls }) => Ok(Ran {
            transcript: world.transcript,
            ending,
            calls,
        }),
        Err(Halt::OutOfMemory) => Err(Refusal::OutOfMemory),
        Err(Halt::TooDeep) => Err(Refusal::TooDeep),
    }
}

/// What a run costs, and what it may use: the frame bytes of each routine and the object bytes of each pointer type, by
/// their numbers, and the bytes of stack and heap.
#[derive(Clone, Copy)]
pub struct Budget<'a> {
    pub frames: &'a [u32],
    pub objects: &'a [u32],
    pub stack: u64,
    pub heap: u64,
}

/// The run of a program on an input with `fuel`, within costs and a budget. It is refused when out of memory, or if
/// calls, statements and expressions are nested deeper than `depth`: `DEPTH` of them fit onto a stack of 8 MB, and more
/// onto a larger one. The fuel times the height of the program's highest body is enough.
pub fn reference_to_depth(
    alloc: Global,
    program: &Checked,
    budget: &Budget,
    input: &[u8],
    fuel: u64,
    depth: u32,
) -> Result<Ran, Refusal>
    ensures run { IfOk result (λ k. shown k ≡ m.run_within
        (program_in program.now) budget.now.frames.now budget.now.objects.now budget.now.stack budget.now.heap input.now
        fuel) }
    ensures refused { IfErr result (λ refusal. refusal ≡ TooDeep → depth < fuel * highest (program_in program.now)) }
{
    let setup = Setup {
        alloc,
        program,
        frames: budget.frames,
        objects: budget.objects,
        stack: budget.stack,
        heap: budget.heap,
    };
    run_on(&setup, input, fuel, depth)
}

/// The run of a program on an input with `fuel`, within costs and a budget. It is refused when out of memory, or if
/// calls, statements and expressions are nested deeper than `DEPTH`.
pub fn reference_within(
    alloc: Global,
    program: &Checked,
    budget: &Budget,
    input: &[u8],
    fuel: u64,
) -> Result<Ran, Refusal>
    ensures run { IfOk result (λ k. shown k ≡ m.run_within
        (program_in program.now) budget.now.frames.now budget.now.objects.now budget.now.stack budget.now.heap input.now
        fuel) }
    ensures refused { IfErr result (λ refusal. refusal ≡ TooDeep → DEPTH < fuel * highest (program_in program.now)) }
{
    reference_to_depth(alloc, program, budget, input, fuel, DEPTH)
}

/// The run of a program on an input with `fuel`, without costs. It is refused as the one within costs is.
pub fn reference(alloc: Global, program: &Checked, input: &[u8], fuel: u64) -> Result<Ran, Refusal>
    ensures run { IfOk result (λ k. shown k ≡ m.run (program_in program.now) input.now fuel) }
    ensures refused { IfErr result (λ refusal. refusal ≡ TooDeep → DEPTH < fuel * highest (program_in program.now)) }
{
    let free = Budget {
        frames: &[],
        objects: &[],
        stack: 0,
        heap: 0,
    };
    reference_within(alloc, program, &free, input, fuel)
}

/// The lines of the calls that are open at an error; only the first 16 are reported.
fn first_lines(ran: Ran) -> Vec<u32>
    ensures { result.items ≡ calls_of (shown ran).1 }
{
    let Ran { ending, calls, .. } = ran;
    let mut lines = calls;
    match ending {
        Ending::Error { .. } => lines.truncate(16),
        Ending::Normal | Ending::Stack { .. } | Ending::Heap { .. } | Ending::More => lines.clear(),
    }
    lines
}

/// The lines of the calls that are open at an error, innermost first, the first 16 of them; none if there is no error.
pub fn trail(alloc: Global, program: &Checked, input: &[u8], fuel: u64) -> Result<Vec<u32>, Refusal>
    ensures told { IfOk result (λ v. v.items ≡ calls_of (m.run (program_in program.now) input.now fuel).1) }
    ensures refused { IfErr result (λ refusal. refusal ≡ TooDeep → DEPTH < fuel * highest (program_in program.now)) }
{
    let ran = reference(alloc, program, input, fuel)?;
    Ok(first_lines(ran))
}

/// Why a transcript shows nothing.
#[derive(Clone, Copy)]
pub enum TranscriptFault {
    /// A growth was refused.
    OutOfMemory,
    /// An item is neither a byte nor a mark; no run's transcript has such an item.
    NoByteAndNoMark,
}

/// The bytes that a transcript shows, without its marks.
#[tactic(auto, using(crate::proofs::Runs::shown_mark, crate::proofs::Runs::shown_byte, crate::proofs::Runs::neither_byte_nor_mark))]
pub fn output(alloc: Global, transcript: &[u16]) -> Result<Vec<u8>, TranscriptFault>
    ensures shown { IfOk result (λ v. v.items ≡ output transcript.now) }
    ensures refused { IfErr result (λ fault. fault ≡ NoByteAndNoMark → All (λ b. b ≤ 256) transcript.now → ⊥) }
{
    let mut bytes = Vec::new(alloc);
    for item in transcript {
        if *item == 256 {
            continue;
        }
        let Ok(byte) = u8::try_from(*item) else {
            return Err(TranscriptFault::NoByteAndNoMark);
        };
        if bytes.push(byte).is_err() {
            return Err(TranscriptFault::OutOfMemory);
        }
    }
    Ok(bytes)
}
