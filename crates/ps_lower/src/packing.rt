// Pack and unpack.

ghost use Rattle.std.specs.Prelude.{◌≡◌, ◌++◌, ◌∷◌, ◌≤◌, ◌+◌, ◌-◌, ◌*◌, ◌+ℤ◌, [], pos, Bool, OnOk};
ghost use Rattle.ps_lower_bounds.specs.Weights.{excess, unless, part_weight, statement_weight};
ghost use Rattle.ps_lower_code.specs.Scopes.{helper};
ghost use Rattle.ps_lower_code.specs.Values.{is_byte_array};
ghost use Rattle.ps_lower_code.specs.Statements.{components_code, room_code, statement_code};
ghost use Rattle.ps_lower_layout.specs.Shapes.{shape_of, component_bytes};
ghost use Rattle.ps_lower.specs.Levels.{scope_of, site_of};
ghost use Rattle.ps_meaning.specs.Expressions.{index_of};
ghost use Rattle.ps_tree.specs.Sizes.{value_count};
ghost use Rattle.ps_tree.specs.Tree as tree;
ghost use Rattle.tac_code.specs.Numbers.{is_integer};
ghost use Rattle.ps_tree.specs.View.{type_of, expr_of, place_of};
ghost use Rattle.tac_code.specs.declared.code.Base.TheVariants as base;
ghost use Rattle.tac_code.specs.declared.code.Instruction.TheVariants as i;

use crate::depth::{MAX_NUMBER, even_above, held};
use crate::helpers::{amount, copy, help};
use crate::level::Level;
use crate::numbers::narrow;
use crate::out::Code;
use crate::places::address;
use crate::shapes::{component_bytes, index_of, is_byte_array};
use crate::site::Site;
use crate::values::{place, value};
use ps_tree::line::Line;
use ps_tree::tree::{Expr, Place};
use ps_tree::types::{Ordinal, Ty};
use std::alloc::AllocError;
use tac_code::code::Base;
use tac_rt::RunTime;

/// An array, with its type.
#[derive(Clone, Copy)]
pub struct Array<'a> {
    pub place: &'a Place,
    pub ty: &'a Ty,
}

/// The temporaries of a copy: they hold its source and its target, or are free for it.
#[derive(Clone, Copy)]
struct Copying {
    from: u32,
    to: u32,
    free: u32,
}

/// The address of the component of an array whose index is in a temporary, or error 5.
fn component(
    out: &mut Code,
    ty: &Ty,
    site: Site,
    t: u32,
    index: u32,
    line: Line,
) -> Result<(), AllocError>
    requires { component_bytes (shape_of (type_of ty.now)) ≤ MAX_NUMBER }
    ensures { OnOk result (out.new ≡ out.old ++ i.Index t (site_of site).base index (index_of (type_of ty.now)).low
        (index_of (type_of ty.now)).high (component_bytes (shape_of (type_of ty.now))) 5 line.number ∷ i.Offset t
        (base.Temporary t) (site_of site).offset 0 ∷ []) }
{
    let width = component_bytes(ty);
    out.index(t, site.base, index, index_of(ty), width, line)?;
    out.offset(t, Base::Temporary(t), site.offset, 0)
}

/// The lowest value of a range, plus `more`.
fn above(range: Ordinal, more: u32) -> i32
    requires { unless (is_integer (range.low +ℤ pos more)) ≤ MAX_NUMBER }
    ensures { result ≡ range.low +ℤ pos more }
{
    (i64::from(range.low) + i64::from(more)) as i32
}

/// The test that an index is at most `more` above the lowest.
fn check_room(
    out: &mut Code,
    t: u32,
    range: Ordinal,
    more: u32,
    line: Line,
) -> Result<(), AllocError>
    requires { unless (is_integer (range.low +ℤ pos more)) ≤ MAX_NUMBER }
    ensures { OnOk result (out.new ≡ out.old ++ i.CheckRange t range.low (range.low +ℤ pos more) 5 line.number ∷ []) }
{
    let last = above(range, more);
    out.check_range(t, range.low, last, 5, line)
}

/// The test that an array has room, from an index on, for as many components as another has, or error 5.
fn room(out: &mut Code, whole_ty: &Ty, part_ty: &Ty, t: u32, line: Line) -> Result<(), AllocError>
    requires { unless (is_integer ((index_of (type_of whole_ty.now)).low +ℤ pos
        (value_count (index_of (type_of whole_ty.now)) - value_count (index_of (type_of part_ty.now))))) ≤ MAX_NUMBER }
    ensures { OnOk result (out.new ≡ out.old ++ room_code (type_of whole_ty.now) (type_of part_ty.now) t line.number) }
{
    let whole = index_of(whole_ty);
    let count = whole.value_count();
    let part = index_of(part_ty).value_count();
    if count < part {
        return out.trap(5, line);
    }
    let more = narrow(count - part);
    check_room(out, t, whole, more, line)
}

/// Copies `count` components from one address to another by a run-time routine.
fn bytes(
    out: &mut Code,
    level: &Level,
    routine: RunTime,
    count: u32,
    at: Copying,
) -> Result<(), AllocError>
    requires { count ≤ MAX_NUMBER }
    ensures { OnOk result (out.new ≡ out.old ++ i.Literal at.free (pos count) ∷ helper (scope_of level.now) routine
        (at.to ∷ at.from ∷ at.free ∷ []) at.free ∷ []) }
{
    amount(out, count, at.free)?;
    help(out, level, routine, &[at.to, at.from, at.free], at.free)
}

/// The bytes of `count` components. If there are none, their type may be of any size.
fn part_bytes(ty: &Ty, count: u32) -> u32
    requires { count * component_bytes (shape_of (type_of ty.now)) ≤ MAX_NUMBER }
    ensures { result ≡ count * component_bytes (shape_of (type_of ty.now)) }
{
    if count == 0 {
        return 0;
    }
    count * component_bytes(ty)
}

/// The components of a part, from one address to another: word by word, if neither array is a byte array.
fn components(
    out: &mut Code,
    level: &Level,
    from_ty: &Ty,
    to_ty: &Ty,
    count: u32,
    at: Copying,
) -> Result<(), AllocError>
    requires count { count ≤ MAX_NUMBER }
    requires bytes { count * component_bytes (shape_of (type_of from_ty.now)) ≤ MAX_NUMBER }
    ensures { (packing : Bool) → OnOk result (out.new ≡ out.old ++ components_code (scope_of level.now) packing at.from
        at.to count (is_byte_array (shape_of (type_of from_ty.now))) (is_byte_array (shape_of (type_of to_ty.now)))
        (component_bytes (shape_of (type_of from_ty.now))) at.free) }
{
    if is_byte_array(to_ty) {
        return bytes(out, level, RunTime::PackBytes, count, at);
    }
    if is_byte_array(from_ty) {
        return bytes(out, level, RunTime::UnpackBytes, count, at);
    }
    copy(
        out,
        level,
        at.to,
        at.from,
        at.free,
        part_bytes(from_ty, count),
    )
}

/// `pack(from, index, to)`
pub fn pack(
    out: &mut Code,
    level: &Level,
    from: Array<'_>,
    index: &Expr,
    to: Array<'_>,
    line: Line,
    d: u32,
) -> Result<(), AllocError>
    requires { d + statement_weight (scope_of level.now)
        (tree.Pack (place_of from.place.now) (type_of from.ty.now) (expr_of index.now) line.number
        (place_of to.place.now) (type_of to.ty.now)) d ≤ MAX_NUMBER }
    ensures { OnOk result (out.new ≡ out.old ++ statement_code (scope_of level.now)
        (tree.Pack (place_of from.entry.place.now) (type_of from.entry.ty.now) (expr_of index.now) line.number
        (place_of to.entry.place.now) (type_of to.entry.ty.now)) d) }
{
    let a = held(true, d);
    let b = held(true, a + 1);
    let c = held(true, b + 1);
    let count = narrow(index_of(to.ty).value_count());
    let first = place(out, level, from.place, a, 0)?;
    value(out, level, index, b, 0)?;
    component(out, from.ty, first, a, b, line)?;
    let second = place(out, level, to.place, c, 0)?;
    room(out, from.ty, to.ty, b, line)?;
    address(out, c, second, 0)?;
    let at = Copying {
        from: a,
        to: c,
        free: even_above(c),
    };
    components(out, level, from.ty, to.ty, count, at)
}

/// `unpack(from, to, index)`
pub fn unpack(
    out: &mut Code,
    level: &Level,
    from: Array<'_>,
    to: Array<'_>,
    index: &Expr,
    line: Line,
    d: u32,
) -> Result<(), AllocError>
    requires { d + statement_weight (scope_of level.now)
        (tree.Unpack (place_of from.place.now) (type_of from.ty.now) (place_of to.place.now) (type_of to.ty.now)
        (expr_of index.now) line.number) d ≤ MAX_NUMBER }
    ensures { OnOk result (out.new ≡ out.old ++ statement_code (scope_of level.now)
        (tree.Unpack (place_of from.entry.place.now) (type_of from.entry.ty.now) (place_of to.entry.place.now)
        (type_of to.entry.ty.now) (expr_of index.now) line.number) d) }
{
    let a = held(true, d);
    let b = held(true, a + 1);
    let c = held(true, b + 1);
    let count = narrow(index_of(from.ty).value_count());
    let first = place(out, level, from.place, a, 0)?;
    address(out, a, first, 0)?;
    let second = place(out, level, to.place, b, 0)?;
    value(out, level, index, c, 0)?;
    component(out, to.ty, second, b, c, line)?;
    room(out, to.ty, from.ty, c, line)?;
    let at = Copying {
        from: a,
        to: b,
        free: even_above(c),
    };
    components(out, level, from.ty, to.ty, count, at)
}
