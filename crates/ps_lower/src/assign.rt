// The code of assignments.

ghost use Rattle.std.specs.Prelude.{◌≡◌, ◌++◌, ◌+◌, ◌≤◌, OnOk};
ghost use Rattle.ps_lower_bounds.specs.Weights.{statement_weight};
ghost use Rattle.ps_lower_code.specs.Statements.{statement_code};
ghost use Rattle.ps_lower.specs.Levels.{scope_of};
ghost use Rattle.ps_tree.specs.Tree as tree;
ghost use Rattle.ps_tree.specs.View.{place_of, expr_of, structure_of, set_of};

use crate::calling::{expr_calls, structure_calls};
use crate::depth::{MAX_NUMBER, beside, even_above, held, kept, next};
use crate::helpers::copy;
use crate::known::{gives_byte, literal};
use crate::level::Level;
use crate::out::Code;
use crate::pieces::fitting;
use crate::places::{address, is_byte, keep, place_temporary};
use crate::set_values::set;
use crate::sets::{check_set, keep_set};
use crate::texts::structure_bytes;
use crate::values::{place, structure, value};
use ps_tree::line::Line;
use ps_tree::tree::{Expr, Place, Range, SetExpr, Structure};
use std::alloc::AllocError;

/// An assignment to an ordinal or pointer variable.
pub fn assign(
    out: &mut Code,
    level: &Level,
    target: &Place,
    range: Range,
    e: &Expr,
    line: Line,
    d: u32,
) -> Result<(), AllocError>
    requires { d + statement_weight (scope_of level.now)
        (tree.Assign (place_of target.now) range (expr_of e.now) line.number) d ≤ MAX_NUMBER }
    ensures { OnOk result (out.new ≡ out.old ++ statement_code (scope_of level.now)
        (tree.Assign (place_of target.now) range (expr_of e.now) line.number) d) }
{
    let t = kept(expr_calls(e), d);
    let at = even_above(place_temporary(target, t));
    let site = place(out, level, target, t, 0)?;
    value(out, level, e, at, 0)?;
    fitting(out, gives_byte(e), literal(e), at, range, line)?;
    keep(out, is_byte(target), site, at)
}

/// An assignment to an array or record variable.
pub fn assign_structure(
    out: &mut Code,
    level: &Level,
    target: &Place,
    e: &Structure,
    d: u32,
) -> Result<(), AllocError>
    requires { d + statement_weight (scope_of level.now)
        (tree.AssignStructure (place_of target.now) (structure_of e.now)) d ≤ MAX_NUMBER }
    ensures { OnOk result (out.new ≡ out.old ++ statement_code (scope_of level.now)
        (tree.AssignStructure (place_of target.now) (structure_of e.now)) d) }
{
    let t = held(structure_calls(e), d);
    let from = even_above(place_temporary(target, t));
    let to = beside(from);
    let free = beside(to);
    let bytes = structure_bytes(e);
    let site = place(out, level, target, t, 0)?;
    structure(out, level, e, from, 0)?;
    address(out, to, site, bytes)?;
    copy(out, level, to, from, free, bytes)
}

/// The least and the greatest member that a set variable may have.
#[derive(Clone, Copy)]
pub struct Members<'a> {
    pub low: &'a i32,
    pub high: &'a i32,
}

/// An assignment to a set variable.
pub fn assign_set(
    out: &mut Code,
    level: &Level,
    target: &Place,
    members: Members<'_>,
    e: &SetExpr,
    line: Line,
    d: u32,
) -> Result<(), AllocError>
    requires { d + statement_weight (scope_of level.now)
        (tree.AssignSet (place_of target.now) members.low.now members.high.now (set_of e.now) line.number) d
        ≤ MAX_NUMBER }
    ensures { OnOk result (out.new ≡ out.old ++ statement_code (scope_of level.now)
        (tree.AssignSet (place_of target.now) members.entry.low.now members.entry.high.now
        (set_of e.now) line.number) d) }
{
    let at = held(true, d);
    let t = even_above(at);
    let site = place(out, level, target, at, 0)?;
    set(out, level, e, next(at), 0)?;
    check_set(out, t, 0, members.low, members.high, line)?;
    keep_set(out, site, t)
}
