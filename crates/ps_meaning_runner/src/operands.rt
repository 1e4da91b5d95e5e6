// Operands and actual parameters as they were taken, the parts of variables, and the tests of values.

ghost use Rattle.std.specs.Prelude.{◌≡◌, ◌++◌, ◌∷◌, [], map, get_or, IfOk, OnOk};
ghost use Rattle.ps_tree.specs.View.{type_of, base_of};
ghost use Rattle.ps_meaning.specs.Worlds.{contents_in, settled, no_spot, Gives, and_then, give, done};
ghost use Rattle.ps_meaning.specs.Expressions as m;
ghost use Rattle.ps_meaning.specs.Values.{step};
ghost use Rattle.ps_meaning.specs.Statements.{index_place};
ghost use Rattle.ps_meaning_runner.specs.View.{listed, members_of_set, number_of_place, value_of, spot_of, computed_of};
ghost use Rattle.ps_meaning_runner.specs.Worlds.{Answers, callee_env, callee_routine, context_of, env_of, world_of};
ghost use Rattle.ps_meaning_runner.specs.Worlds.{actual_of, held_of, done_of, putting_fitting, putting_fitting_set};
ghost use Rattle.ps_meaning_runner.specs.Worlds.{putting_contents, strings_compared};

use crate::operators::{Computed, fits, interval, set_fits, strings_hold, truth};
use crate::stop::Halt;
use crate::value::{Root, Spot, Value, text_values};
use crate::world::{Context, Env, World, above, routine_above, spot_above};
use ps_tree::tree::{OpenedField, OrderRelation, PlaceBase, Range};
use ps_tree::types::{Host, Ordinal, Ty};
use std::alloc::AllocError;
use std::rc::Rc;

/// An actual parameter as it was taken.
pub enum Actual {
    Value(Value),
    Variable(Spot),
    Routine(u32, Rc<Env>),
}

// Actual parameters and operands are dropped part by part, by one call wherever one is dropped.
impl Drop for Actual {
    fn drop(self) {
        match self {
            Actual::Value(_) => {}
            Actual::Variable(_) => {}
            Actual::Routine(_, _) => {}
        }
    }
}

/// What a call names: a routine that is declared `up` frames out, or a procedural or functional parameter of the frame
/// `up` frames out.
#[derive(Clone, Copy)]
pub enum Callee {
    Declared { routine: u32, up: u32 },
    Formal { up: u32, index: u32 },
}

impl Callee {
    /// Its routine, with the environment in which that was declared.
    pub fn found(self, context: &Context) -> Result<(u32, Rc<Env>), AllocError>
        ensures routine { IfOk result (λ r. r.0 ≡ callee_routine self (context_of context.now)) }
        ensures env { IfOk result (λ r. env_of r.1.value ≡ callee_env self (context_of context.now)) }
    {
        match self {
            Callee::Declared { routine, up } => {
                let parent = above(&context.env, up)?;
                Ok((routine, parent))
            }
            Callee::Formal { up, index } => routine_above(context, up, index),
        }
    }
}

/// An operand of an array or record type as it was taken: a string in the text, or a variable.
pub enum Held<'t> {
    Text(&'t [u8]),
    Place(Spot),
}

impl<'t> Drop for Held<'t> {
    fn drop(self) {
        match self {
            Held::Text(_) => {}
            Held::Place(_) => {}
        }
    }
}

/// The bounds of a set type's base type.
#[derive(Clone, Copy)]
pub struct BaseType {
    pub low: i32,
    pub high: i32,
}

/// The values of an array's indices.
#[tactic(auto, unfolding(ps_tree::specs::View::type_of))]
pub fn index_of(ty: &Ty) -> Ordinal
    ensures { result ≡ m.index_of (type_of ty.now) }
{
    match ty {
        Ty::Array { index, .. } => *index,
        Ty::Simple(_)
        | Ty::Pointer { .. }
        | Ty::Nil
        | Ty::Set { .. }
        | Ty::EmptySet
        | Ty::Text { .. }
        | Ty::Record { .. } => Ordinal {
            host: Host::Integer,
            subrange: None,
            low: 0,
            high: 0,
        },
    }
}

impl<'a> World<'a> {
    /// The actual parameter of a value parameter of this range; error 4 for a value outside it.
    #[tactic(auto, using(crate::proofs::Answers::stopped_then), unfolding(crate::specs::Worlds::actual_of))]
    pub fn value_passed(
        &self,
        range: Range,
        value: Value,
        line: u16,
        context: &Context,
    ) -> Result<Actual, Halt>
        ensures { Answers actual_of (and_then (m.fitting range (value_of value) line (context_of context.now)
            (world_of self.now)) (λ x. give (m.ValueActual x))) result self.now }
    {
        Ok(Actual::Value(self.fitting(range, value, line, context)?))
    }

    /// The actual parameter of a value parameter of a set type; error 8 for a member outside its base.
    #[tactic(auto, using(crate::proofs::Answers::stopped_then), unfolding(crate::specs::Worlds::actual_of))]
    pub fn set_passed(
        &self,
        base: BaseType,
        tests: Vec<bool>,
        line: u16,
        context: &Context,
    ) -> Result<Actual, Halt>
        ensures { Answers actual_of
            (and_then (m.fitting_set base.low base.high (members_of_set tests) line (context_of context.now)
            (world_of self.now)) (λ x. give (m.ValueActual x))) result self.now }
    {
        Ok(Actual::Value(self.fitting_set(base, tests, line, context)?))
    }

    /// The actual parameter of a value parameter that takes a copy of an operand's contents.
    #[tactic(auto, unfolding(crate::specs::Worlds::actual_of))]
    pub fn copy_passed(&self, held: &Held, context: &Context) -> Result<Actual, Halt>
        ensures { Answers actual_of (and_then (m.contents_of (held_of held.now) (world_of self.now))
            (λ x. give (m.ValueActual x))) result self.now }
    {
        Ok(Actual::Value(self.contents_of(held, context)?))
    }

    /// The actual parameter that passes on a routine.
    #[tactic(auto, unfolding(crate::specs::Worlds::actual_of))]
    pub fn passed(&self, callee: Callee, context: &Context) -> Result<Actual, Halt>
        ensures { Answers actual_of (Gives (m.RoutineActual (callee_routine callee (context_of context.now))
            (callee_env callee (context_of context.now))) (world_of self.now)) result self.now }
    {
        let (routine, parent) = callee.found(context)?;
        Ok(Actual::Routine(routine, parent))
    }

    /// What was computed, or its error at a line.
    #[tactic(auto, using(crate::proofs::Answers::stops), unfolding(crate::specs::View::value_of))]
    pub fn settled(&self, computed: Computed, line: u16, context: &Context) -> Result<Value, Halt>
        ensures { Answers value_of (settled (computed_of computed) line (context_of context.now) (world_of self.now))
            result self.now }
    {
        match computed {
            Computed::Result(number) => Ok(Value::Ordinal(number)),
            Computed::Fault(number) => Err(self.fault(number, line, context)),
        }
    }

    /// The component of an array; error 5 for an index outside its type.
    #[tactic(auto, using(crate::proofs::Answers::stops))]
    pub fn component_of(
        &self,
        spot: Spot,
        index: Ordinal,
        number: i32,
        line: u16,
        context: &Context,
    ) -> Result<Spot, Halt>
        ensures { Answers spot_of
            (m.component_of (spot_of spot) index number line (context_of context.now) (world_of self.now))
            result self.now }
    {
        if index.low <= number && number <= index.high {
            Ok(spot.step(number.abs_diff(index.low))?)
        } else {
            Err(self.fault(5, line, context))
        }
    }

    /// The number of an index's component; error 5 for one outside the index type.
    #[tactic(auto, using(crate::proofs::Answers::stops))]
    pub fn index_place(
        &self,
        index: Ordinal,
        number: i32,
        line: u16,
        context: &Context,
    ) -> Result<u32, Halt>
        ensures { Answers number_of_place (index_place index number line (context_of context.now)
            (world_of self.now)) result
            self.now }
    {
        if index.low <= number && number <= index.high {
            Ok(number.abs_diff(index.low))
        } else {
            Err(self.fault(5, line, context))
        }
    }

    /// The object that a pointer points to; error 6 for nil.
    #[tactic(auto, using(crate::proofs::Answers::stops), unfolding(crate::specs::View::value_of))]
    pub fn object_of(&self, value: &Value, line: u16, context: &Context) -> Result<Spot, Halt>
        ensures { Answers spot_of (m.object_of (value_of value.now) line (context_of context.now) (world_of self.now))
            result self.now }
    {
        match value {
            Value::Object(object) => Ok(Spot::entire(context.alloc, Root::Made(*object))),
            Value::Ordinal(_) | Value::Nil | Value::Set(_) | Value::Structure(_) => {
                Err(self.fault(6, line, context))
            }
        }
    }

    /// The object that the pointer in a variable points to; error 6 for nil.
    pub fn target_of(&self, spot: &Spot, line: u16, context: &Context) -> Result<Spot, Halt>
        ensures { Answers spot_of (m.object_of (contents_in (world_of self.now) (spot_of spot.now)) line
            (context_of context.now) (world_of self.now)) result self.now }
    {
        let pointer = self.contents(context.alloc, spot)?;
        self.object_of(&pointer, line, context)
    }

    /// The record that a `with` opened.
    #[tactic(auto, using(crate::proofs::Worlds::opened_within, crate::proofs::Worlds::opened_past))]
    pub fn opened(&self, which: u32, context: &Context) -> Result<Spot, AllocError>
        ensures { IfOk result (λ s. spot_of s ≡ get_or (map spot_of context.now.opened.items) which no_spot) }
    {
        match context.opened.as_slice().get(which as usize) {
            Some(spot) => spot.copy(context.alloc),
            None => Ok(Spot::entire(context.alloc, Root::Declared(0))),
        }
    }

    /// A field of a record that a `with` opened.
    fn field(&self, field: &OpenedField, context: &Context) -> Result<Spot, AllocError>
        ensures { IfOk result (λ s. spot_of s
            ≡ step (get_or (map spot_of context.now.opened.items) field.now.which no_spot) field.now.number) }
    {
        self.opened(field.which, context)?.step(field.number)
    }

    /// What a variable's name denotes without its selectors.
    pub fn denoted(&self, base: &PlaceBase, context: &Context) -> Result<Spot, AllocError>
        ensures { IfOk result (λ s. spot_of s ≡ m.denoted (base_of base.now) (context_of context.now)) }
    {
        match base {
            PlaceBase::Entry { up, index } => spot_above(context, *up, *index),
            PlaceBase::Opened(field) => self.field(field, context),
        }
    }

    /// The contents of an operand.
    #[tactic(auto, using(crate::proofs::Values::value_of_Structure), unfolding(crate::specs::Worlds::held_of))]
    pub fn contents_of(&self, held: &Held, context: &Context) -> Result<Value, AllocError>
        ensures { IfOk result (λ v. m.contents_of (held_of held.now) (world_of self.now) ≡ Gives (value_of v)
            (world_of self.now)) }
    {
        match held {
            Held::Text(characters) => Ok(Value::Structure(text_values(context.alloc, characters)?)),
            Held::Place(spot) => self.contents(context.alloc, spot),
        }
    }

    /// A value to be stored in a variable of this range; error 4 for one outside it.
    #[tactic(auto, using(crate::proofs::Answers::stops))]
    pub fn fitting(
        &self,
        range: Range,
        value: Value,
        line: u16,
        context: &Context,
    ) -> Result<Value, Halt>
        ensures { Answers value_of (m.fitting range (value_of value) line (context_of context.now) (world_of self.now))
            result self.now }
    {
        if fits(range, &value) {
            Ok(value)
        } else {
            Err(self.fault(4, line, context))
        }
    }

    /// A set to be stored in a variable of a set type; error 8 for a member outside its base.
    #[tactic(auto, using(crate::proofs::Answers::stops), unfolding(crate::specs::View::value_of))]
    pub fn fitting_set(
        &self,
        base: BaseType,
        tests: Vec<bool>,
        line: u16,
        context: &Context,
    ) -> Result<Value, Halt>
        ensures { Answers value_of (m.fitting_set base.low base.high (listed tests.items) line
            (context_of context.now) (world_of self.now)) result self.now }
    {
        if set_fits(base.low, base.high, tests.as_slice()) {
            Ok(Value::Set(tests))
        } else {
            Err(self.fault(8, line, context))
        }
    }

    /// The members from one number to another; error 8 outside 0..255.
    #[tactic(auto, using(crate::proofs::Answers::stops, crate::proofs::Values::listed_none))]
    pub fn set_between(
        &self,
        x: i32,
        y: i32,
        line: u16,
        context: &Context,
    ) -> Result<Vec<bool>, Halt>
        ensures { Answers members_of_set (m.set_between x y line (context_of context.now) (world_of self.now)) result
            self.now }
    {
        if y < x {
            Ok(Vec::new(context.alloc))
        } else if 0 <= x && x <= 255 && 0 <= y && y <= 255 {
            Ok(interval(context.alloc, x as u8, y as u8)?)
        } else {
            Err(self.fault(8, line, context))
        }
    }

    /// Assigns a value to a variable of this range; error 4 for one outside it.
    #[tactic(auto, using(crate::proofs::Answers::stopped_then))]
    pub fn put_fitting(
        &mut self,
        spot: &Spot,
        range: Range,
        value: Value,
        line: u16,
        context: &Context,
    ) -> Result<(), Halt>
        ensures { Answers done_of
            (putting_fitting (spot_of spot.now) range (value_of value) line (context_of context.now)
            (world_of self.old)) result self.new }
    {
        let fitting = self.fitting(range, value, line, context)?;
        self.put(spot, fitting)
    }

    /// Assigns a set to a variable of a set type; error 8 for a member outside its base.
    #[tactic(auto, using(crate::proofs::Answers::stopped_then))]
    pub fn put_fitting_set(
        &mut self,
        spot: &Spot,
        base: BaseType,
        tests: Vec<bool>,
        line: u16,
        context: &Context,
    ) -> Result<(), Halt>
        ensures { Answers done_of (putting_fitting_set (spot_of spot.now) base.low base.high (members_of_set tests) line
            (context_of context.now) (world_of self.old)) result self.new }
    {
        let fitting = self.fitting_set(base, tests, line, context)?;
        self.put(spot, fitting)
    }

    /// Assigns the contents of an operand to a variable.
    pub fn put_contents(&mut self, spot: &Spot, held: &Held, context: &Context) -> Result<(), Halt>
        ensures { Answers done_of (putting_contents (spot_of spot.now) (held_of held.now) (world_of self.old)) result
            self.new }
    {
        let value = self.contents_of(held, context)?;
        self.put(spot, value)
    }

    /// A relation between the contents of two operands that are strings.
    #[tactic(auto, unfolding(crate::specs::View::value_of))]
    pub fn strings_compared(
        &self,
        relation: OrderRelation,
        x: &Held,
        y: &Held,
        context: &Context,
    ) -> Result<Value, Halt>
        ensures { Answers value_of (strings_compared relation (held_of x.now) (held_of y.now) (world_of self.now))
            result self.now }
    {
        let left = self.contents_of(x, context)?;
        let right = self.contents_of(y, context)?;
        let is_so = strings_hold(relation, left.components(), right.components());
        Ok(Value::Ordinal(truth(is_so)))
    }
}

/// Adds an actual parameter.
pub fn keep(actuals: &mut Vec<Actual>, actual: Actual) -> Result<(), AllocError>
    ensures { OnOk result (map actual_of actuals.new.items ≡ map actual_of actuals.old.items ++ actual_of actual ∷ []) }
{
    actuals.push(actual)?;
    Ok(())
}
