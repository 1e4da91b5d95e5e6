// Values, first values, and the parts of variables.

ghost use Rattle.std.specs.Prelude.{◌≡◌, pos, IfOk, MatchOption};
ghost use Rattle.ps_meaning.specs.Values.{OrdinalValue, StructureValue, number_of, set_of, components_of, component};
ghost use Rattle.ps_meaning.specs.Values.{first, first_fields, first_ordinal, copies, nth, with_nth, part, with_part};
ghost use Rattle.ps_meaning.specs.Values.{entire, step, text_values};
ghost use Rattle.ps_meaning.specs.Worlds.{unset};
ghost use Rattle.ps_tree.specs.View.{type_of};
ghost use Rattle.ps_meaning_runner.specs.View.{listed, value_of, values_of, root_of, spot_of};

use ps_tree::types::{Fields, Host, Ordinal, Ty, same_host};
use std::alloc::{AllocError, Global};
use std::mem;

/// A value. A set has the tests of its members, from 0 on.
pub enum Value {
    Ordinal(i32),
    Nil,
    Object(usize),
    Set(Vec<bool>),
    Structure(Vec<Value>),
}

/// A variable that was declared, by its name, or that `new` made.
#[derive(Clone, Copy)]
pub enum Root {
    Declared(usize),
    Made(usize),
}

/// A variable, or the part of it at the end of a path of component numbers.
pub struct Spot {
    pub root: Root,
    pub path: Vec<u32>,
}

// Values are dropped part by part. A written `drop` is one call wherever a value is dropped; a derived one would be
// expanded there.
impl Drop for Value {
    #[cycle(letting_go)]
    fn drop(self) {
        match self {
            Value::Ordinal(_) => {}
            Value::Nil => {}
            Value::Object(_) => {}
            Value::Set(_) => {}
            Value::Structure(_) => {}
        }
    }
}

impl Drop for Spot {
    fn drop(self) {
        let Spot { root: _, path: _ } = self;
    }
}

impl Spot {
    /// A whole variable.
    pub fn entire(alloc: Global, root: Root) -> Spot
        ensures { spot_of result ≡ entire (root_of root) }
    {
        Spot {
            root,
            path: Vec::new(alloc),
        }
    }

    /// The same spot.
    pub fn copy(&self, alloc: Global) -> Result<Spot, AllocError>
        ensures { IfOk result (λ s. spot_of s ≡ spot_of self.now) }
    {
        Ok(Spot {
            root: self.root,
            path: Vec::from_slice(alloc, self.path.as_slice())?,
        })
    }

    /// A component of it.
    pub fn step(self, number: u32) -> Result<Spot, AllocError>
        ensures { IfOk result (λ s. spot_of s ≡ step (spot_of self) number) }
    {
        let Spot { root, mut path } = self;
        path.push(number)?;
        Ok(Spot { root, path })
    }
}

impl Value {
    /// The number of an ordinal, and 0 for any other value.
    #[tactic(auto, unfolding(crate::specs::View::value_of))]
    pub fn number(&self) -> i32
        ensures { result ≡ number_of (value_of self.now) }
    {
        match self {
            Value::Ordinal(number) => *number,
            Value::Nil | Value::Object(_) | Value::Set(_) | Value::Structure(_) => 0,
        }
    }

    /// The tests of a set's members; none for any other value.
    #[tactic(auto, unfolding(crate::specs::View::value_of))]
    pub fn members(&self) -> &[bool]
        ensures { listed result.now ≡ set_of (value_of self.now) }
    {
        match self {
            Value::Set(tests) => tests.as_slice(),
            Value::Ordinal(_) | Value::Nil | Value::Object(_) | Value::Structure(_) => &[],
        }
    }

    /// The components of an array or a record; none for any other value.
    #[tactic(auto, using(crate::proofs::Values::value_of_Structure), unfolding(crate::specs::View::value_of, crate::specs::View::values_of))]
    pub fn components(&self) -> &[Value]
        ensures { values_of result.now ≡ components_of (value_of self.now) }
    {
        match self {
            Value::Structure(values) => values.as_slice(),
            Value::Ordinal(_) | Value::Nil | Value::Object(_) | Value::Set(_) => &[],
        }
    }

    /// The same value.
    #[cycle(copy)]
    #[tactic(auto, using(crate::proofs::Values::value_of_Structure), unfolding(crate::specs::View::value_of))]
    pub fn copy(&self, alloc: Global) -> Result<Value, AllocError>
        ensures { IfOk result (λ v. value_of v ≡ value_of self.now) }
    {
        match self {
            Value::Ordinal(number) => Ok(Value::Ordinal(*number)),
            Value::Nil => Ok(Value::Nil),
            Value::Object(object) => Ok(Value::Object(*object)),
            Value::Set(tests) => Ok(Value::Set(Vec::from_slice(alloc, tests.as_slice())?)),
            Value::Structure(values) => Ok(Value::Structure(copy_all(alloc, values)?)),
        }
    }
}

/// The same values.
#[cycle(copy)]
#[tactic(auto, using(crate::proofs::Values::values_next))]
pub fn copy_all(alloc: Global, values: &[Value]) -> Result<Vec<Value>, AllocError>
    ensures { IfOk result (λ v. values_of v.items ≡ values_of values.now) }
{
    let mut copies = Vec::new(alloc);
    for value in values {
        copies.push(value.copy(alloc)?)?;
    }
    Ok(copies)
}

/// The first value of an ordinal type's variables.
fn first_ordinal(ordinal: Ordinal) -> i32
    ensures { result ≡ first_ordinal ordinal }
{
    if same_host(ordinal.host, Host::Integer) && ordinal.subrange.is_none() {
        0
    } else {
        ordinal.low
    }
}

/// The value of an array: `count` copies of a value.
#[tactic(auto, using(crate::proofs::Values::copies_next, crate::proofs::Values::value_of_Structure), unfolding(crate::specs::View::values_of))]
fn filled(alloc: Global, count: u64, value: &Value) -> Result<Value, AllocError>
    ensures { IfOk result (λ v. value_of v ≡ StructureValue (copies count (value_of value.now))) }
{
    let mut made = Vec::new(alloc);
    for _turn in 0..count {
        made.push(value.copy(alloc)?)?;
    }
    Ok(Value::Structure(made))
}

/// The first value of a type's variables.
#[cycle(first)]
#[tactic(auto, using(crate::proofs::Values::value_of_Structure, crate::proofs::Values::listed_none), unfolding(crate::specs::View::value_of, ps_tree::specs::View::type_of))]
pub fn first(alloc: Global, ty: &Ty) -> Result<Value, AllocError>
    ensures { IfOk result (λ v. value_of v ≡ first (type_of ty.now)) }
{
    match ty {
        Ty::Simple(ordinal) => Ok(Value::Ordinal(first_ordinal(*ordinal))),
        Ty::Pointer { .. } | Ty::Nil => Ok(Value::Nil),
        Ty::Set { .. } | Ty::EmptySet => Ok(Value::Set(Vec::new(alloc))),
        Ty::Text { length } => filled(alloc, u64::from(*length), &Value::Ordinal(0)),
        Ty::Array {
            index,
            component,
            ..
        } => {
            let value = first(alloc, component.ty())?;
            filled(alloc, index.value_count(), &value)
        }
        Ty::Record { fields, .. } => first_fields(alloc, fields),
    }
}

/// The first value of the variables of a record type with these fields.
#[cycle(first)]
#[tactic(auto, using(crate::proofs::Values::types_next, crate::proofs::Values::types_all), unfolding(crate::specs::View::values_of))]
fn first_fields(alloc: Global, fields: &Fields) -> Result<Value, AllocError>
    ensures { IfOk result (λ v. value_of v ≡ StructureValue (first_fields fields.now)) }
{
    let mut values = Vec::new(alloc);
    for ty in fields.types() {
        values.push(first(alloc, ty)?)?;
    }
    Ok(Value::Structure(values))
}

/// The value of a character.
#[tactic(auto, unfolding(crate::specs::View::value_of))]
fn character_value(character: u8) -> Value
    ensures { value_of result ≡ OrdinalValue (pos character) }
{
    Value::Ordinal(i32::from(character))
}

/// The value of a string.
#[tactic(auto, unfolding(crate::specs::View::values_of))]
pub fn text_values(alloc: Global, characters: &[u8]) -> Result<Vec<Value>, AllocError>
    ensures { IfOk result (λ v. values_of v.items ≡ text_values characters.now) }
{
    let mut values = Vec::new(alloc);
    for character in characters {
        values.push(character_value(*character))?;
    }
    Ok(values)
}

impl Value {
    /// The component with this number, if there is one.
    #[tactic(auto, using(crate::proofs::Values::nth_within, crate::proofs::Values::nth_past))]
    fn component(&self, number: u32) -> Option<&Value>
        ensures { MatchOption result (component (value_of self.now) number ≡ unset)
            (λ v. component (value_of self.now) number ≡ value_of v.now) }
    {
        self.components().get(number as usize)
    }
}

/// The part of a value at the end of a path.
#[tactic(auto, using(crate::proofs::Values::part_of_unset, crate::proofs::Values::value_of_Ordinal))]
pub fn part(alloc: Global, value: &Value, path: &[u32]) -> Result<Value, AllocError>
    ensures { IfOk result (λ v. value_of v ≡ part (value_of value.now) path.now) }
{
    let mut whole = value;
    let mut left = path;
    while let [first, rest @ ..] = left {
        let Some(component) = whole.component(*first) else {
            return Ok(Value::Ordinal(0));
        };
        whole = component;
        left = rest;
    }
    whole.copy(alloc)
}

/// The values, with the part at the end of a path replaced; the path begins with the number of one of them.
#[cycle(with)]
#[tactic(auto, using(crate::proofs::Values::component_put, crate::proofs::Values::with_nth_past))]
fn with_component(values: Vec<Value>, first: u32, rest: &[u32], new: Value) -> Vec<Value>
    ensures { values_of result.items ≡ with_nth (values_of values.items) first
        (with_part (nth (values_of values.items) first) rest.now (value_of new)) }
{
    let mut values = values;
    let place = first as usize;
    if place >= values.len() {
        return values;
    }
    let old = mem::replace(&mut values[place], Value::Nil);
    values[place] = old.with_part(rest, new);
    values
}

impl Value {
    /// The value, with the part at the end of a path replaced.
    #[cycle(with)]
    #[tactic(auto, using(crate::proofs::Values::value_of_Structure), unfolding(crate::specs::View::value_of))]
    pub fn with_part(self, path: &[u32], new: Value) -> Value
        ensures { value_of result ≡ with_part (value_of self) path.now (value_of new) }
    {
        match path {
            [] => new,
            [first, rest @ ..] => match self {
                Value::Structure(values) => {
                    Value::Structure(with_component(values, *first, rest, new))
                }
                whole => whole,
            },
        }
    }
}
