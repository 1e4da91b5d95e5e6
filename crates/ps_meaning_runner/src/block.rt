// The blocks of called routines, and their frames.

ghost use Rattle.std.specs.Prelude.{◌≡◌, ℕ, ◌∷◌, List, map, option_map, option_copied, IfOk, IfErr, OnOk};
ghost use Rattle.ps_tree.specs.Types.{DataType};
ghost use Rattle.ps_tree.specs.Tree.{routine_at};
ghost use Rattle.ps_tree.specs.View.{type_of, statements_of};
ghost use Rattle.ps_meaning.specs.Worlds as w;
ghost use Rattle.ps_meaning.specs.Expressions as m;
ghost use Rattle.ps_meaning.specs.Statements.{Block};
ghost use Rattle.ps_meaning.specs.Calls as d;
ghost use Rattle.ps_meaning_runner.specs.View.{value_of};
ghost use Rattle.ps_meaning_runner.specs.Worlds.{Stopped, actual_of, callee_env, callee_routine, caller, context_of};
ghost use Rattle.ps_meaning_runner.specs.Worlds.{entries_of, env_of, next, numbers_of, program_of, with_calls};
ghost use Rattle.ps_meaning_runner.specs.Worlds.{world_of};
ghost use Rattle.ps_meaning_runner.specs.Blocks.{with_entry, with_entries, bound_in};

use crate::cost::passes_stack;
use crate::ending::Ending;
use crate::operands::{Actual, Callee};
use crate::stop::Halt;
use crate::value::{Root, Spot, Value, first};
use crate::world::{Context, Entry, Env, Numbers, Setup, World};
use ps_tree::tree::Statement;
use ps_tree::types::Ty;
use std::alloc::{AllocError, Global};
use std::rc::Rc;

/// What a call needs of a routine: the type of its result, its variables, its statements, and the line of its `begin`.
#[derive(Clone, Copy)]
struct Called<'b> {
    result: Option<&'b Ty>,
    variables: &'b [Ty],
    body: &'b [Statement],
    line: u16,
}

impl<'a> World<'a> {
    /// The entry of a new variable with a value.
    fn declared(&mut self, alloc: Global, value: Value) -> Result<Entry, AllocError>
        ensures { IfOk result (λ e. (others : w.World → d.Bound) → d.declared (value_of value) others
            (world_of self.old) ≡ with_entry e (others (world_of self.new))) }
    {
        let name = self.declare(value)?;
        Ok(Entry::Variable(Spot::entire(alloc, Root::Declared(name))))
    }

    /// The entry of an actual parameter: a new variable, the variable that was accessed, or a routine with its
    /// environment.
    #[tactic(auto, unfolding(crate::specs::Worlds::actual_of, crate::specs::Worlds::entry_before))]
    fn actual_entry(&mut self, alloc: Global, actual: &Actual) -> Result<Entry, AllocError>
        ensures { IfOk result (λ e. (rest : List m.Actual) (variables : List DataType) → d.bind_actuals
            (actual_of actual.now ∷ rest) variables (world_of self.old) ≡ with_entry e
            (d.bind_actuals rest variables (world_of self.new))) }
    {
        match actual {
            Actual::Value(value) => self.declared(alloc, value.copy(alloc)?),
            Actual::Variable(spot) => Ok(Entry::Variable(spot.copy(alloc)?)),
            Actual::Routine(routine, env) => Ok(Entry::Routine {
                routine: *routine,
                env: env.clone()?,
            }),
        }
    }

    /// The entry of a function's result, if there is one.
    fn bind_result(
        &mut self,
        alloc: Global,
        result_ty: Option<&Ty>,
    ) -> Result<Vec<Entry>, AllocError>
        ensures { IfOk result (λ frame. (actuals : List m.Actual) (variables : List DataType) → d.bind
            (option_map type_of (option_copied result_ty.entry)) actuals variables (world_of self.old)
            ≡ with_entries frame.items (d.bind_actuals actuals variables (world_of self.new))) }
    {
        match result_ty {
            Some(ty) => {
                let outcome = first(alloc, ty)?;
                let entry = self.declared(alloc, outcome)?;
                let mut frame = Vec::new(alloc);
                frame.push(entry)?;
                Ok(frame)
            }
            None => Ok(Vec::new(alloc)),
        }
    }

    /// The entries of the actual parameters.
    #[tactic(auto, using(crate::proofs::Blocks::actuals_end))]
    fn bind_actuals(
        &mut self,
        alloc: Global,
        actuals: &[Actual],
        frame: &mut Vec<Entry>,
    ) -> Result<(), AllocError>
        ensures { OnOk result ((variables : List DataType) → with_entries frame.old.items
            (d.bind_actuals (map actual_of actuals.now) variables (world_of self.old)) ≡ with_entries frame.new.items
            (d.bind_variables variables (world_of self.new))) }
    {
        for actual in actuals {
            frame.push(self.actual_entry(alloc, actual)?)?;
        }
        Ok(())
    }

    /// The entries of a block's variables, with their first values.
    #[tactic(auto, using(crate::proofs::Blocks::variables_end))]
    fn bind_variables(
        &mut self,
        alloc: Global,
        types: &[Ty],
        frame: &mut Vec<Entry>,
    ) -> Result<(), AllocError>
        ensures { OnOk result (with_entries frame.old.items
            (d.bind_variables (map type_of types.now) (world_of self.old)) ≡ bound_in frame.new.items
            (world_of self.new)) }
    {
        for ty in types {
            let value = first(alloc, ty)?;
            frame.push(self.declared(alloc, value)?)?;
        }
        Ok(())
    }

    /// The frame of a routine with a result and variables of these types that is called with these actual parameters.
    fn bind(
        &mut self,
        alloc: Global,
        result_ty: Option<&Ty>,
        actuals: &[Actual],
        variables: &[Ty],
    ) -> Result<Vec<Entry>, AllocError>
        ensures { IfOk result (λ frame. d.bind (option_map type_of (option_copied result_ty.entry))
            (map actual_of actuals.now) (map type_of variables.now) (world_of self.old) ≡ bound_in frame.items
            (world_of self.new)) }
    {
        let mut frame = self.bind_result(alloc, result_ty)?;
        self.bind_actuals(alloc, actuals, &mut frame)?;
        self.bind_variables(alloc, variables, &mut frame)?;
        Ok(frame)
    }
}

/// What a call needs of the routine with this number; past its own routines, the program has an empty one for each
/// number.
#[tactic(auto, using(crate::proofs::Blocks::routine_found, crate::proofs::Blocks::routine_past), unfolding(ps_tree::specs::View::statements_of))]
fn routine_numbered<'b>(setup: &'b Setup<'b>, number: u32) -> Called<'b>
    ensures result { (routine_at (program_of setup.now) number).result ≡ option_map type_of
        (option_copied result.result) }
    ensures variables { (routine_at (program_of setup.now) number).variables ≡ map type_of result.variables.now }
    ensures body { (routine_at (program_of setup.now) number).body ≡ statements_of result.body.now }
    ensures line { (routine_at (program_of setup.now) number).line ≡ result.line }
{
    match setup.program.routines().get(number as usize) {
        Some(routine) => Called {
            result: routine.result.as_ref(),
            variables: routine.variables.as_slice(),
            body: routine.body.as_slice(),
            line: routine.line.number,
        },
        None => Called {
            result: None,
            variables: &[],
            body: &[],
            line: 0,
        },
    }
}

/// An environment with one more frame.
#[tactic(auto, using(crate::proofs::Worlds::env_of_Within))]
fn env_within(alloc: Global, frame: Vec<Entry>, outer: Rc<Env>) -> Result<Rc<Env>, AllocError>
    ensures { IfOk result (λ env. env_of env.value ≡ w.Within (entries_of frame.items) (env_of outer.value)) }
{
    Ok(Rc::new(alloc, Env::Within { frame, outer })?)
}

impl<'a> World<'a> {
    /// Enters the block of a routine that was declared in an environment, at a call with these actual parameters, and
    /// returns its statements and the context in which to execute them. `calls` are the lines of the calls that are
    /// then open. Ends for stack if the frame bytes of the open routines would exceed it.
    #[tactic(auto, using(crate::proofs::Blocks::block_entered))]
    pub fn enter_with<'b>(
        &mut self,
        routine: u32,
        parent: Rc<Env>,
        actuals: &[Actual],
        calls: Rc<Numbers>,
        outer: &Context,
        setup: &'b Setup<'b>,
    ) -> Result<(&'b [Statement], Context), Halt>
        ensures entered { IfOk result (λ b. (n : ℕ) → caller setup.now n routine (env_of parent.value)
            (map actual_of actuals.now) (with_calls (numbers_of calls.value) (context_of outer.now)) (world_of self.old)
            ≡ next setup.now n (Block (statements_of b.0.now)) (context_of b.1) (world_of self.new)) }
        ensures body { IfOk result (λ b. statements_of b.0.now ≡ (routine_at (program_of setup.now) routine).body) }
        ensures stopped { IfErr result (λ stop. (n : ℕ) → Stopped
            (caller setup.now n routine (env_of parent.value) (map actual_of actuals.now)
            (with_calls (numbers_of calls.value) (context_of outer.now)) (world_of self.old)) stop self.new) }
    {
        let called = routine_numbered(setup, routine);
        let active = Numbers::before(setup.alloc, routine, &outer.active)?;
        if passes_stack(setup, &active) {
            let ending = Ending::Stack { line: called.line };
            return Err(self.ended(ending, &calls, setup.alloc));
        }
        let frame = self.bind(setup.alloc, called.result, actuals, called.variables)?;
        let env = env_within(setup.alloc, frame, parent)?;
        let opened = Vec::new(setup.alloc);
        let context = Context {
            alloc: setup.alloc,
            env,
            opened,
            active,
            calls,
        };
        Ok((called.body, context))
    }

    /// Enters the block of what is called, at a line and with these actual parameters.
    pub fn enter<'b>(
        &mut self,
        callee: Callee,
        actuals: Vec<Actual>,
        line: u16,
        context: &Context,
        setup: &'b Setup<'b>,
    ) -> Result<(&'b [Statement], Context), Halt>
        ensures entered { IfOk result
            (λ b. (n : ℕ) → caller setup.now n (callee_routine callee (context_of context.now))
            (callee_env callee (context_of context.now)) (map actual_of actuals.items)
            (m.calling line (context_of context.now))
            (world_of self.old) ≡ next setup.now n (Block (statements_of b.0.now)) (context_of b.1)
            (world_of self.new)) }
        ensures body { IfOk result (λ b. statements_of b.0.now
            ≡ (routine_at (program_of setup.now) (callee_routine callee (context_of context.now))).body) }
        ensures stopped { IfErr result (λ stop. (n : ℕ) → Stopped
            (caller setup.now n (callee_routine callee (context_of context.now))
            (callee_env callee (context_of context.now))
            (map actual_of actuals.items) (m.calling line (context_of context.now)) (world_of self.old)) stop
            self.new) }
    {
        let (routine, parent) = callee.found(context)?;
        let calls = Numbers::before(context.alloc, u32::from(line), &context.calls)?;
        self.enter_with(routine, parent, actuals.as_slice(), calls, context, setup)
    }
}
