// What a program acts in: environments, contexts, and the world of stored values, input and output.

ghost use Rattle.std.specs.Prelude.{◌≡◌, ◌+◌, ◌<◌, ◌≤◌, ◌∷◌, map, IfOk, OnOk, MatchOption, length};
ghost use Rattle.ps_meaning.specs.Values as v;
ghost use Rattle.ps_meaning.specs.Statements.{with_opened};
ghost use Rattle.ps_meaning.specs.Worlds.{above, frame_of, spot_in, routine_in, env_in, contents_in, with_contents};
ghost use Rattle.ps_meaning.specs.Worlds.{put, write_text, value_at_root, with_new, says, unset, no_spot, Outside};
ghost use Rattle.ps_meaning_runner.specs.View.{value_of, root_of, spot_of};
ghost use Rattle.ps_meaning_runner.specs.Worlds.{context_of, env_of, entries_of, entry_spot, entry_routine, entry_env};
ghost use Rattle.ps_meaning_runner.specs.Worlds.{numbers_of, world_of, done_of, ending_of, Answers, Stopped, ends};
ghost use Rattle.ps_meaning_runner.specs.Worlds.{faults};

use crate::ending::Ending;
use crate::stop::Halt;
use crate::value::{Root, Spot, Value, part};
use ps_tree::program::Checked;
use std::alloc::{AllocError, Global};
use std::mem;
use std::rc::Rc;

/// What a program is run with: the frame bytes of each routine, the object bytes of each pointer type, and the bytes
/// of stack and heap.
#[derive(Clone, Copy)]
pub struct Setup<'a> {
    pub alloc: Global,
    pub program: &'a Checked,
    pub frames: &'a [u32],
    pub objects: &'a [u32],
    pub stack: u64,
    pub heap: u64,
}

/// The frames that enclose a place in the text, innermost first.
#[cycle(env)]
#[derive(Drop)]
pub enum Env {
    Outside,
    Within { frame: Vec<Entry>, outer: Rc<Env> },
}

/// What a name of a block denotes.
#[cycle(env)]
#[derive(Drop)]
pub enum Entry {
    Variable(Spot),
    Routine { routine: u32, env: Rc<Env> },
}

/// Numbers, the last added first.
#[derive(Drop)]
pub enum Numbers {
    End,
    Number { first: u32, rest: Rc<Numbers> },
}

/// The context of an expression or a statement: its environment, the records that enclosing `with` statements opened,
/// the routines whose blocks are open, and the lines of the open calls, each innermost first.
pub struct Context {
    pub alloc: Global,
    pub env: Rc<Env>,
    pub opened: Vec<Spot>,
    pub active: Rc<Numbers>,
    pub calls: Rc<Numbers>,
}

// A context is dropped part by part, by one call wherever one is dropped.
impl Drop for Context {
    fn drop(self) {
        let Context {
            alloc: _,
            env: _,
            opened: _,
            active: _,
            calls: _,
        } = self;
    }
}

/// Where a part of a run is executed: in which setup and context, with how much fuel and at most how many levels.
#[derive(Clone, Copy)]
pub struct Here<'a> {
    pub setup: &'a Setup<'a>,
    pub context: &'a Context,
    pub fuel: u64,
    pub depth: u32,
}

/// The input that is left; whether its first byte, or the end, was looked at; and whether a line was begun.
#[derive(Clone, Copy)]
pub struct Input<'a> {
    pub left: &'a [u8],
    pub looked: bool,
    pub in_line: bool,
}

/// The stored values, the objects and the numbers of their pointer types, the input that is left, and the transcript,
/// where 256 marks a first look at the input.
#[derive(Drop)]
pub struct World<'a> {
    pub next: usize,
    pub store: Vec<Value>,
    pub objects: Vec<Value>,
    pub made: Vec<u32>,
    pub input: Input<'a>,
    pub transcript: Vec<u16>,
}

/// The environment `up` frames out.
#[tactic(auto, using(crate::proofs::Worlds::env_of_Within, crate::proofs::Worlds::above_outside, crate::proofs::Worlds::above_within), unfolding(crate::specs::Worlds::env_of))]
pub fn above(env: &Rc<Env>, up: u32) -> Result<Rc<Env>, AllocError>
    ensures { IfOk result (λ e. env_of e.value ≡ above (env_of env.now.value) up) }
{
    let mut inner = env;
    let mut left = up;
    while left > 0 {
        match &**inner {
            Env::Outside => return inner.clone(),
            Env::Within { outer, .. } => inner = outer,
        }
        left -= 1;
    }
    inner.clone()
}

/// The entries of the innermost frame.
#[tactic(auto, using(crate::proofs::Worlds::frame_of_Within, crate::proofs::Worlds::frame_of_Outside))]
fn entries(env: &Env) -> &[Entry]
    ensures { entries_of result.now ≡ frame_of (env_of env.now) }
{
    match env {
        Env::Outside => &[],
        Env::Within { frame, .. } => frame.as_slice(),
    }
}

/// What a name of the innermost frame denotes, if the frame has it.
#[tactic(auto, using(crate::proofs::Worlds::spot_within, crate::proofs::Worlds::spot_past, crate::proofs::Worlds::routine_within, crate::proofs::Worlds::routine_past, crate::proofs::Worlds::env_within, crate::proofs::Worlds::env_past))]
fn entry_at(env: &Env, index: u32) -> Option<&Entry>
    ensures spot { MatchOption result (spot_in (frame_of (env_of env.now)) index ≡ no_spot)
        (λ e. spot_in (frame_of (env_of env.now)) index ≡ entry_spot e.now) }
    ensures routine { MatchOption result (routine_in (frame_of (env_of env.now)) index ≡ 0)
        (λ e. routine_in (frame_of (env_of env.now)) index ≡ entry_routine e.now) }
    ensures env { MatchOption result (env_in (frame_of (env_of env.now)) index ≡ Outside)
        (λ e. env_in (frame_of (env_of env.now)) index ≡ entry_env e.now) }
{
    entries(env).get(index as usize)
}

/// The spot that a name of the innermost frame denotes.
#[tactic(auto, using(crate::proofs::Worlds::spot_of_Routine), unfolding(crate::specs::Worlds::entry_spot))]
pub fn spot_in(alloc: Global, env: &Env, index: u32) -> Result<Spot, AllocError>
    ensures { IfOk result (λ s. spot_of s ≡ spot_in (frame_of (env_of env.now)) index) }
{
    match entry_at(env, index) {
        Some(Entry::Variable(spot)) => spot.copy(alloc),
        Some(Entry::Routine { .. }) | None => Ok(Spot::entire(alloc, Root::Declared(0))),
    }
}

/// The spot that a name of the frame `up` frames out denotes.
pub fn spot_above(context: &Context, up: u32, index: u32) -> Result<Spot, AllocError>
    ensures { IfOk result (λ s. spot_of s ≡ spot_in (frame_of (above (env_of context.now.env.value) up)) index) }
{
    let env = above(&context.env, up)?;
    spot_in(context.alloc, &env, index)
}

/// The routine that a name of the innermost frame denotes, with its environment.
#[tactic(auto, using(crate::proofs::Worlds::routine_of_Routine, crate::proofs::Worlds::env_of_Routine), unfolding(crate::specs::Worlds::env_of, crate::specs::Worlds::entry_routine, crate::specs::Worlds::entry_env))]
fn routine_in(alloc: Global, env: &Env, index: u32) -> Result<(u32, Rc<Env>), AllocError>
    ensures routine { IfOk result (λ r. r.0 ≡ routine_in (frame_of (env_of env.now)) index) }
    ensures env { IfOk result (λ r. env_of r.1.value ≡ env_in (frame_of (env_of env.now)) index) }
{
    match entry_at(env, index) {
        Some(Entry::Routine { routine, env }) => Ok((*routine, env.clone()?)),
        Some(Entry::Variable(_)) | None => Ok((0, Rc::new(alloc, Env::Outside)?)),
    }
}

/// The routine that a name of the frame `up` frames out denotes, with its environment.
pub fn routine_above(context: &Context, up: u32, index: u32) -> Result<(u32, Rc<Env>), AllocError>
    ensures routine { IfOk result (λ r. r.0 ≡ routine_in (frame_of (above (env_of context.now.env.value) up)) index) }
    ensures env { IfOk result
        (λ r. env_of r.1.value ≡ env_in (frame_of (above (env_of context.now.env.value) up)) index) }
{
    let env = above(&context.env, up)?;
    routine_in(context.alloc, &env, index)
}

impl Numbers {
    /// A number before others.
    #[tactic(auto, using(crate::proofs::Worlds::numbers_of_Number))]
    pub fn before(alloc: Global, first: u32, rest: &Rc<Numbers>) -> Result<Rc<Numbers>, AllocError>
        ensures { IfOk result (λ n. numbers_of n.value ≡ first ∷ numbers_of rest.now.value) }
    {
        let rest = rest.clone()?;
        Ok(Rc::new(alloc, Numbers::Number { first, rest })?)
    }
}

impl<'a> World<'a> {
    /// The value of an entire variable.
    #[tactic(auto, using(crate::proofs::Worlds::stored_within, crate::proofs::Worlds::stored_past, crate::proofs::Worlds::object_within, crate::proofs::Worlds::object_past))]
    fn value_at_root(&self, root: Root) -> Option<&Value>
        ensures { MatchOption result (value_at_root (world_of self.now) (root_of root) ≡ unset)
            (λ x. value_at_root (world_of self.now) (root_of root) ≡ value_of x.now) }
    {
        match root {
            Root::Declared(name) => self.store.as_slice().get(name),
            Root::Made(object) => self.objects.as_slice().get(object),
        }
    }

    /// The value of the variable at a spot.
    #[tactic(auto, using(crate::proofs::Values::part_of_unset, crate::proofs::Values::value_of_Ordinal))]
    pub fn contents(&self, alloc: Global, spot: &Spot) -> Result<Value, AllocError>
        ensures { IfOk result (λ x. value_of x ≡ contents_in (world_of self.now) (spot_of spot.now)) }
    {
        match self.value_at_root(spot.root) {
            Some(value) => part(alloc, value, spot.path.as_slice()),
            None => Ok(Value::Ordinal(0)),
        }
    }

    /// Makes room for a name's value.
    #[tactic(auto, using(crate::proofs::Worlds::stored_unset))]
    fn reach(&mut self, name: usize) -> Result<(), AllocError>
        ensures same { OnOk result (world_of self.new ≡ world_of self.old) }
        ensures within { OnOk result (name < length self.new.store.items) }
    {
        while self.store.len() <= name {
            self.store.push(Value::Ordinal(0))?;
        }
        Ok(())
    }

    /// Assigns to a part of a variable that was declared.
    #[tactic(auto, using(crate::proofs::Worlds::stored_put))]
    fn put_declared(&mut self, name: usize, path: &[u32], value: Value) -> Result<(), AllocError>
        ensures { OnOk result (world_of self.new ≡ with_contents (world_of self.old)
            (record { root = v.Declared name; path = path.now }) (value_of value)) }
    {
        self.reach(name)?;
        let old = mem::replace(&mut self.store[name], Value::Nil);
        self.store[name] = old.with_part(path, value);
        Ok(())
    }

    /// Assigns to a part of an object.
    #[tactic(auto, using(crate::proofs::Worlds::object_put, crate::proofs::Worlds::no_object_put))]
    fn put_made(&mut self, object: usize, path: &[u32], value: Value)
        ensures { world_of self.new ≡ with_contents (world_of self.old)
            (record { root = v.Made object; path = path.now }) (value_of value) }
    {
        if object < self.objects.len() {
            let old = mem::replace(&mut self.objects[object], Value::Nil);
            self.objects[object] = old.with_part(path, value);
        }
    }

    /// Assigns to the variable at a spot.
    pub fn put(&mut self, spot: &Spot, value: Value) -> Result<(), Halt>
        ensures { Answers done_of (put (spot_of spot.now) (value_of value) (world_of self.old)) result self.new }
    {
        let path = spot.path.as_slice();
        match spot.root {
            Root::Declared(name) => self.put_declared(name, path, value)?,
            Root::Made(object) => self.put_made(object, path, value),
        }
        Ok(())
    }

    /// A new variable with a value; returns its name.
    #[tactic(auto, using(crate::proofs::Worlds::stored_set))]
    pub fn declare(&mut self, value: Value) -> Result<usize, AllocError>
        ensures world { OnOk result (world_of self.new ≡ with_new (world_of self.old) (value_of value)) }
        ensures name { IfOk result (λ name. name ≡ self.old.next) }
    {
        let name = self.next;
        if name == usize::MAX {
            return Err(AllocError);
        }
        self.reach(name)?;
        self.store[name] = value;
        self.next = name + 1;
        Ok(name)
    }

    /// Adds bytes to the transcript.
    #[tactic(auto, using(std::proofs::lemmas::List::take_more))]
    fn say(&mut self, bytes: &[u8]) -> Result<(), AllocError>
        ensures { OnOk result (world_of self.new ≡ says (world_of self.old) bytes.now) }
    {
        for byte in bytes {
            self.transcript.push(u16::from(*byte))?;
        }
        Ok(())
    }

    /// Writes bytes.
    pub fn write(&mut self, bytes: &[u8]) -> Result<(), Halt>
        ensures { Answers done_of (write_text bytes.now (world_of self.old)) result self.new }
    {
        Ok(self.say(bytes)?)
    }
}

impl Numbers {
    /// The numbers, in a list.
    #[tactic(auto, using(crate::proofs::Worlds::numbers_of_Number), unfolding(crate::specs::Worlds::numbers_of))]
    pub fn listed(&self, alloc: Global) -> Result<Vec<u32>, AllocError>
        ensures { IfOk result (λ v. v.items ≡ numbers_of self.now) }
    {
        let mut numbers = Vec::new(alloc);
        let mut left = self;
        while let Numbers::Number { first, rest } = left {
            numbers.push(*first)?;
            left = rest;
        }
        Ok(numbers)
    }
}

impl<'a> World<'a> {
    /// The end of the run, with the lines of the calls that are open; or out of memory for them.
    pub fn ended(&self, ending: Ending, calls: &Numbers, alloc: Global) -> Halt
        ensures { Stopped (ends (ending_of ending (numbers_of calls.now)) (world_of self.now)) result self.now }
    {
        match calls.listed(alloc) {
            Ok(calls) => Halt::Ended { ending, calls },
            Err(_) => Halt::OutOfMemory,
        }
    }

    /// The end with an error at a line.
    pub fn fault(&self, number: u16, line: u16, context: &Context) -> Halt
        ensures { Stopped (faults number line (context_of context.now) (world_of self.now)) result self.now }
    {
        self.ended(
            Ending::Error { number, line },
            &context.calls,
            context.alloc,
        )
    }
}

/// The same spots.
#[tactic(auto, using(crate::proofs::Worlds::spots_next))]
fn copy_spots(alloc: Global, spots: &[Spot]) -> Result<Vec<Spot>, AllocError>
    ensures { IfOk result (λ v. map spot_of v.items ≡ map spot_of spots.now) }
{
    let mut copies = Vec::new(alloc);
    for spot in spots {
        copies.push(spot.copy(alloc)?)?;
    }
    Ok(copies)
}

impl Context {
    /// The same context.
    pub fn copy(&self) -> Result<Context, AllocError>
        ensures { IfOk result (λ k. context_of k ≡ context_of self.now) }
    {
        let env = self.env.clone()?;
        let active = self.active.clone()?;
        let calls = self.calls.clone()?;
        Ok(Context {
            alloc: self.alloc,
            env,
            opened: copy_spots(self.alloc, self.opened.as_slice())?,
            active,
            calls,
        })
    }

    /// Opens one more record.
    #[tactic(auto)]
    pub fn open(&mut self, spot: Spot) -> Result<(), AllocError>
        ensures { OnOk result (context_of self.new ≡ with_opened (spot_of spot ∷ map spot_of self.old.opened.items)
            (context_of self.old)) }
    {
        self.opened.insert(0, spot)?;
        Ok(())
    }
}
