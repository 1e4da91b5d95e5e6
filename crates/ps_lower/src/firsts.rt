// First values: their code is as long as the text of a type, not as its cells. Parts that take no bytes are not walked
// through.

ghost use Rattle.std.specs.Prelude.{◌≡◌, ◌++◌, ◌+◌, ◌*◌, ◌≤◌, [], ◌∷◌, map, OnOk, IfOk};
ghost use Rattle.ps_lower_bounds.specs.Weights.{first_weight, fields_weight, firsts_weight};
ghost use Rattle.ps_lower_code.specs.Statements.{first_code};
ghost use Rattle.ps_lower_layout.specs.Frames.{variable_kinds, words_of_all};
ghost use Rattle.ps_lower_layout.specs.Shapes.{ArrayShape, RecordShape, shape_of, shapes_of, field_shapes, word_count};
ghost use Rattle.ps_lower.specs.Firsts.{firsts_code, array_shape};
ghost use Rattle.ps_lower.specs.FirstTasks.{weight, task_code, task_weight, task_reach, IsDone, IsLeft, AreLeft};
ghost use Rattle.ps_lower.specs.Levels.{scope_of};
ghost use Rattle.ps_tree.specs.Sizes.{value_count};
ghost use Rattle.ps_tree.specs.View.{type_of, types_of};
ghost use Rattle.tac_code.specs.declared.code.Base.TheVariants as base;

use crate::depth::MAX_NUMBER;
use crate::first_stores::{byte_array, bytes, first_ordinal, number, spread, zero};
use crate::frame::words;
use crate::level::Level;
use crate::numbers::narrow;
use crate::out::Code;
use crate::shapes::{byte_count, fits_byte};
use crate::site::Site;
use crate::task::Task;
use ps_tree::types::{Fields, Ordinal, Ty};
use std::alloc::AllocError;
use tac_code::code::Base;

/// The bytes of an array whose components take `each` bytes.
fn array_bytes(index: Ordinal, each: u32) -> u32
    requires { value_count index * each ≤ MAX_NUMBER }
    ensures { result ≡ value_count index * each }
{
    narrow(index.value_count() * u64::from(each))
}

/// Leaves a task, after the others.
fn leave<'a>(tasks: &mut Vec<Task<'a>>, task: Task<'a>) -> Result<(), AllocError>
    ensures { OnOk result (tasks.new.items ≡ tasks.old.items ++ task.entry ∷ []) }
{
    tasks.push(task)?;
    Ok(())
}

/// The first component of an array, and copies of it.
fn components<'a>(
    tasks: &mut Vec<Task<'a>>,
    component: &'a Ty,
    index: Ordinal,
    offset: u32,
) -> Result<(), AllocError>
    requires { offset + first_weight (ArrayShape (value_count index) (shape_of (type_of component.now))) ≤ MAX_NUMBER }
    ensures { OnOk result (IsLeft offset (ArrayShape (value_count index) (shape_of (type_of component.now)))
        tasks.old.items tasks.new.items) }
{
    if index.value_count() == 0 {
        return Ok(());
    }
    let each = byte_count(component);
    let whole = array_bytes(index, each);
    if whole == 0 {
        return Ok(());
    }
    let copies = Task::Copies {
        offset,
        each,
        whole,
    };
    leave(tasks, copies)?;
    let first = Task::FirstValue {
        ty: component,
        offset,
    };
    leave(tasks, first)
}

/// An array type.
#[derive(Clone, Copy)]
struct ArrayType<'a> {
    packed: bool,
    index: Ordinal,
    component: &'a Ty,
}

/// The first value of an array.
fn array<'a>(
    out: &mut Code,
    level: &Level,
    tasks: &mut Vec<Task<'a>>,
    ty: ArrayType<'a>,
    site: Site,
    t: u32,
) -> Result<(), AllocError>
    requires depth { t ≤ 4294960000 }
    requires reach { site.offset + first_weight (array_shape ty.packed ty.index (type_of ty.component.now)) ≤
        MAX_NUMBER }
    ensures { OnOk result (IsDone (scope_of level.now) site.base t
        (first_code (scope_of level.now) site.base t site.offset (array_shape ty.entry.packed ty.entry.index
        (type_of ty.entry.component.now))) (weight (array_shape ty.entry.packed ty.entry.index
        (type_of ty.entry.component.now))) (site.offset + first_weight (array_shape ty.entry.packed ty.entry.index
        (type_of ty.entry.component.now))) out.old out.new tasks.old.items tasks.new.items) }
{
    if ty.packed && fits_byte(ty.component) {
        byte_array(
            out,
            level,
            ty.component,
            ty.index,
            site.base,
            t,
            site.offset,
        )
    } else {
        components(tasks, ty.component, ty.index, site.offset)
    }
}

/// The fields of a record that take bytes.
fn record<'a>(tasks: &mut Vec<Task<'a>>, fields: &'a Fields, offset: u32) -> Result<(), AllocError>
    ensures { OnOk result (IsLeft offset (RecordShape (field_shapes fields.now)) tasks.old.items tasks.new.items) }
{
    let types = fields.solid();
    leave(tasks, Task::FieldsLeft { types, offset })
}

/// The first value of a variable of a type at an offset from a base, except for components and fields, which are left
/// as tasks.
#[tactic(auto, unfolding(ps_tree::specs::TypeView::type_of))]
fn begin_core<'a>(
    out: &mut Code,
    level: &Level,
    tasks: &mut Vec<Task<'a>>,
    ty: &'a Ty,
    base: Base,
    t: u32,
    offset: u32,
) -> Result<(), AllocError>
    requires depth { t ≤ 4294960000 }
    requires reach { offset + first_weight (shape_of (type_of ty.now)) ≤ MAX_NUMBER }
    ensures { OnOk result (IsDone (scope_of level.now) base t
        (first_code (scope_of level.now) base t offset (shape_of (type_of ty.now))) (weight (shape_of (type_of ty.now)))
        (offset + first_weight (shape_of (type_of ty.now))) out.old out.new tasks.old.items tasks.new.items) }
{
    match ty {
        Ty::Simple(ordinal) => number(out, base, t, offset, first_ordinal(*ordinal)),
        Ty::Pointer { .. } | Ty::Nil => number(out, base, t, offset, 0),
        Ty::Set { .. } | Ty::EmptySet => zero(out, level, base, t, offset, 32),
        Ty::Text { length } => bytes(out, level, base, t, offset, *length, 0),
        Ty::Array {
            packed,
            index,
            component,
            ..
        } => array(
            out,
            level,
            tasks,
            ArrayType {
                packed: *packed,
                index: *index,
                component: component.ty(),
            },
            Site { base, offset },
            t,
        ),
        Ty::Record { fields, .. } => record(tasks, fields, offset),
    }
}

/// The same for any type. Its core has the same first value, and is at hand, however deeply it is nested.
fn begin<'a>(
    out: &mut Code,
    level: &Level,
    tasks: &mut Vec<Task<'a>>,
    ty: &'a Ty,
    base: Base,
    t: u32,
    offset: u32,
) -> Result<(), AllocError>
    requires depth { t ≤ 4294960000 }
    requires reach { offset + first_weight (shape_of (type_of ty.now)) ≤ MAX_NUMBER }
    ensures { OnOk result (IsDone (scope_of level.now) base t
        (first_code (scope_of level.now) base t offset (shape_of (type_of ty.now))) (weight (shape_of (type_of ty.now)))
        (offset + first_weight (shape_of (type_of ty.now))) out.old out.new tasks.old.items tasks.new.items) }
{
    let core = ty.core();
    begin_core(out, level, tasks, core, base, t, offset)
}

/// The next of the fields left, and those after it.
fn field<'a>(tasks: &mut Vec<Task<'a>>, types: &'a [Ty], offset: u32) -> Result<(), AllocError>
    requires { offset + fields_weight (shapes_of (types_of types.now)) ≤ MAX_NUMBER }
    ensures { OnOk result (AreLeft offset (shapes_of (types_of types.now)) tasks.old.items tasks.new.items) }
{
    let Some((ty, rest)) = types.split_first() else {
        return Ok(());
    };
    let next = offset + byte_count(ty);
    let behind = Task::FieldsLeft {
        types: rest,
        offset: next,
    };
    leave(tasks, behind)?;
    leave(tasks, Task::FirstValue { ty, offset })
}

/// Does one task; what it leaves comes after the others.
fn step<'a>(
    out: &mut Code,
    level: &Level,
    tasks: &mut Vec<Task<'a>>,
    task: Task<'a>,
    base: Base,
    t: u32,
) -> Result<(), AllocError>
    requires depth { t ≤ 4294960000 }
    requires reach { task_reach task ≤ MAX_NUMBER }
    ensures { OnOk result (IsDone (scope_of level.now) base t (task_code (scope_of level.now) base t task.entry)
        (task_weight task.entry) (task_reach task.entry) out.old out.new tasks.old.items tasks.new.items) }
{
    match task {
        Task::FirstValue { ty, offset } => begin(out, level, tasks, ty, base, t, offset),
        Task::Copies {
            offset,
            each,
            whole,
        } => spread(out, level, base, t, offset, each, whole),
        Task::FieldsLeft { types, offset } => field(tasks, types, offset),
    }
}

/// The first value of a variable of a type at an offset from a base. Types may be deeply nested, so what is left to do
/// is kept in a list, not in calls.
fn first(
    out: &mut Code,
    level: &Level,
    ty: &Ty,
    base: Base,
    t: u32,
    offset: u32,
) -> Result<(), AllocError>
    requires depth { t ≤ 4294960000 }
    requires reach { offset + first_weight (shape_of (type_of ty.now)) ≤ MAX_NUMBER }
    ensures { OnOk result (out.new ≡ out.old
        ++ first_code (scope_of level.now) base t offset (shape_of (type_of ty.now))) }
{
    let mut tasks = Vec::new(out.alloc());
    tasks.push(Task::FirstValue { ty, offset })?;
    while let Some(task) = tasks.pop() {
        step(out, level, &mut tasks, task, base, t)?;
    }
    Ok(())
}

/// The first value of an object whose address is in a temporary.
pub fn first_object(
    out: &mut Code,
    level: &Level,
    ty: &Ty,
    object: u32,
    t: u32,
) -> Result<(), AllocError>
    requires depth { t ≤ 4294960000 }
    requires reach { first_weight (shape_of (type_of ty.now)) ≤ MAX_NUMBER }
    ensures { OnOk result (out.new ≡ out.old ++ first_code (scope_of level.now) (base.Temporary object) t 0
        (shape_of (type_of ty.now))) }
{
    first(out, level, ty, Base::Temporary(object), t, 0)
}

/// The first value of a variable at a word of the frame, and the word after it.
pub fn first_at(
    out: &mut Code,
    level: &Level,
    ty: &Ty,
    t: u32,
    place: u32,
) -> Result<u32, AllocError>
    requires depth { t ≤ MAX_NUMBER }
    requires reach { 4 * place + first_weight (shape_of (type_of ty.now)) ≤ MAX_NUMBER }
    requires words { 4 * (place + word_count (shape_of (type_of ty.now))) ≤ MAX_NUMBER }
    ensures code { OnOk result (out.new ≡ out.old ++ first_code (scope_of level.now) base.Frame t (4 * place)
        (shape_of (type_of ty.now))) }
    ensures next { IfOk result (λ next. next ≡ place + word_count (shape_of (type_of ty.now))) }
{
    first(out, level, ty, Base::Frame, t, 4 * place)?;
    Ok(place + words(ty))
}

/// The first values of variables, one after another, from a word of the frame on.
pub fn firsts(
    out: &mut Code,
    level: &Level,
    variables: &[Ty],
    t: u32,
    begin: u32,
) -> Result<(), AllocError>
    requires depth { t ≤ MAX_NUMBER }
    requires reach { firsts_weight begin (map type_of variables.now) ≤ MAX_NUMBER }
    requires words { 4 * (begin + words_of_all (variable_kinds (map type_of variables.now))) ≤ MAX_NUMBER }
    ensures { OnOk result (out.new ≡ out.old ++ firsts_code (scope_of level.now) t begin (map type_of variables.now)) }
{
    let mut place = begin;
    for ty in variables {
        place = first_at(out, level, ty, t, place)?;
    }
    Ok(())
}
