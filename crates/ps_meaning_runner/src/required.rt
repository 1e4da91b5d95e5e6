// The required procedures new, pack and unpack, once their variables were accessed.

ghost use Rattle.std.specs.Prelude.{◌≡◌, ◌+◌, ◌++◌, ◌∷◌, [], ℕ, List, IfOk, OnOk, length, take, drop};
ghost use Rattle.ps_tree.specs.Tree.{domain_at};
ghost use Rattle.ps_meaning.specs.Values as v;
ghost use Rattle.ps_meaning.specs.Worlds.{contents_in};
ghost use Rattle.ps_meaning_runner.specs.View.{value_of, values_of, spot_of};
ghost use Rattle.ps_meaning_runner.specs.Worlds as r;
ghost use Rattle.ps_meaning_runner.specs.Worlds.{Answers, context_of, world_of, done_of, program_of};
ghost use Rattle.ps_meaning_runner.specs.Procedures.{world_made};

use crate::cost::passes_heap;
use crate::ending::Ending;
use crate::stop::Halt;
use crate::value::{Spot, Value, copy_all, first};
use crate::world::{Context, Setup, World};
use ps_tree::types::Ordinal;
use std::alloc::{AllocError, Global};

/// An array variable that was accessed, with the values of its indices.
#[derive(Clone, Copy)]
pub struct ArraySpot<'s> {
    pub spot: &'s Spot,
    pub index: Ordinal,
}

/// The first value of a pointer type's objects.
#[tactic(auto, using(crate::proofs::Procedures::domain_past), unfolding(crate::specs::View::value_of))]
fn first_object(setup: &Setup, pointer: u32) -> Result<Value, AllocError>
    ensures { IfOk result (λ x. value_of x ≡ v.first (domain_at (program_of setup.now) pointer)) }
{
    match setup.program.domains().get(pointer as usize) {
        Some(ty) => first(setup.alloc, ty),
        None => Ok(Value::Nil),
    }
}

impl<'a> World<'a> {
    /// Assigns a new object with its first value; ends for heap if its bytes would exceed it.
    #[tactic(auto, using(crate::proofs::Answers::stops))]
    pub fn put_object(
        &mut self,
        spot: &Spot,
        pointer: u32,
        line: u16,
        context: &Context,
        setup: &Setup,
    ) -> Result<(), Halt>
        ensures { (n : ℕ) → Answers done_of (r.putting_object setup.now n (spot_of spot.now) pointer line
            (world_of self.old)) result self.new }
    {
        if passes_heap(setup, self.made.as_slice(), pointer) {
            return Err(self.ended(Ending::Heap { line }, &context.calls, context.alloc));
        }
        let object = self.make(pointer, setup)?;
        self.put(spot, object)
    }

    /// A new object with its first value.
    #[tactic(auto, unfolding(crate::specs::View::value_of))]
    fn make(&mut self, pointer: u32, setup: &Setup) -> Result<Value, AllocError>
        ensures value { IfOk result (λ x. value_of x ≡ v.ObjectValue (length (world_of self.old).objects)) }
        ensures world { OnOk result
            (world_of self.new ≡ world_made (program_of setup.now) pointer (world_of self.old)) }
    {
        let object = self.objects.len();
        self.objects.push(first_object(setup, pointer)?)?;
        self.made.push(pointer)?;
        Ok(Value::Object(object))
    }
}

/// The values from a place on.
#[tactic(auto, using(std::proofs::lemmas::List::drop_all, crate::proofs::Procedures::rest_whole))]
fn values_from(values: &[Value], from: usize) -> &[Value]
    ensures { result.now ≡ drop from values.now }
{
    if from < values.len() {
        &values[from..]
    } else {
        &[]
    }
}

/// The first `count` values.
#[tactic(auto, using(std::proofs::lemmas::List::take_all))]
fn first_values(values: &[Value], count: usize) -> &[Value]
    ensures { result.now ≡ take count values.now }
{
    if count < values.len() {
        &values[..count]
    } else {
        values
    }
}

/// `count` of the values, from a place on.
#[tactic(auto, using(crate::proofs::Procedures::values_between))]
fn values_between(
    alloc: Global,
    values: &[Value],
    from: u32,
    count: u64,
) -> Result<Vec<Value>, AllocError>
    ensures { IfOk result (λ xs. values_of xs.items ≡ v.first_values count
        (v.values_from (values_of values.now) from)) }
{
    let rest = values_from(values, from as usize);
    copy_all(alloc, first_values(rest, count as usize))
}

/// The values, with those from a place on replaced.
#[tactic(auto, using(crate::proofs::Procedures::replaced_next, crate::proofs::Procedures::replaced_past, crate::proofs::Procedures::replaced_end))]
fn with_values(
    alloc: Global,
    olds: &[Value],
    from: u32,
    news: &[Value],
) -> Result<Vec<Value>, AllocError>
    ensures { IfOk result (λ xs. values_of xs.items ≡ v.with_values (values_of olds.now) from (values_of news.now)) }
{
    let mut values = copy_all(alloc, olds)?;
    let mut place = from as usize;
    for new in news {
        if values.len() <= place {
            return Ok(values);
        }
        values[place] = new.copy(alloc)?;
        place += 1;
    }
    Ok(values)
}

impl<'a> World<'a> {
    /// An array's value: `count` components of another array, from a place on.
    #[tactic(auto, using(crate::proofs::Values::value_of_Structure))]
    fn packed(
        &self,
        alloc: Global,
        from: &Spot,
        place: u32,
        count: u64,
    ) -> Result<Value, AllocError>
        ensures { IfOk result (λ x. value_of x ≡ v.StructureValue
            (v.first_values count (v.values_from (v.components_of (contents_in (world_of self.now) (spot_of from.now)))
            place))) }
    {
        let value = self.contents(alloc, from)?;
        Ok(Value::Structure(values_between(alloc, value.components(), place, count)?))
    }

    /// An array's value, with the components from a place on replaced by those of another array.
    #[tactic(auto, using(crate::proofs::Values::value_of_Structure))]
    fn unpacked(
        &self,
        alloc: Global,
        from: &Spot,
        to: &Spot,
        place: u32,
    ) -> Result<Value, AllocError>
        ensures { IfOk result (λ x. value_of x ≡ v.StructureValue
            (v.with_values (v.components_of (contents_in (world_of self.now) (spot_of to.now))) place
            (v.components_of (contents_in (world_of self.now) (spot_of from.now))))) }
    {
        let news = self.contents(alloc, from)?;
        let olds = self.contents(alloc, to)?;
        Ok(Value::Structure(with_values(alloc, olds.components(), place, news.components())?))
    }

    /// Packs the components of an array, from a place on, into another; error 5 if there are too few of them.
    #[tactic(auto, using(crate::proofs::Answers::stops))]
    pub fn pack(
        &mut self,
        from: ArraySpot,
        place: u32,
        to: ArraySpot,
        line: u16,
        context: &Context,
    ) -> Result<(), Halt>
        ensures { Answers done_of (r.packing (spot_of from.entry.spot.now) from.entry.index place
            (spot_of to.entry.spot.now) to.entry.index line (context_of context.now) (world_of self.old)) result
            self.new }
    {
        let count = to.index.value_count();
        if from.index.value_count() < u64::from(place) + count {
            return Err(self.fault(5, line, context));
        }
        let value = self.packed(context.alloc, from.spot, place, count)?;
        self.put(to.spot, value)
    }

    /// Unpacks an array into the components of another, from a place on; error 5 if there are too few of them.
    #[tactic(auto, using(crate::proofs::Answers::stops))]
    pub fn unpack(
        &mut self,
        from: ArraySpot,
        to: ArraySpot,
        place: u32,
        line: u16,
        context: &Context,
    ) -> Result<(), Halt>
        ensures { Answers done_of (r.unpacking (spot_of from.entry.spot.now) from.entry.index
            (spot_of to.entry.spot.now) to.entry.index place line (context_of context.now) (world_of self.old)) result
            self.new }
    {
        if to.index.value_count() < u64::from(place) + from.index.value_count() {
            return Err(self.fault(5, line, context));
        }
        let value = self.unpacked(context.alloc, from.spot, to.spot, place)?;
        self.put(to.spot, value)
    }
}
