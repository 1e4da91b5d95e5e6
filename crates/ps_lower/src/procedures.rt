// Calls of procedures.

ghost use Rattle.std.specs.Prelude.{◌≡◌, ◌++◌, ◌+◌, ◌≤◌, OnOk};
ghost use Rattle.ps_lower_bounds.specs.Weights.{statement_weight};
ghost use Rattle.ps_lower_code.specs.Statements.{statement_code};
ghost use Rattle.ps_lower.specs.Levels.{scope_of};
ghost use Rattle.ps_tree.specs.Tree as tree;
ghost use Rattle.ps_tree.specs.View.{arguments_of};

use crate::calls::{Callee, FormalCallee, call, call_formal, link_temporary};
use crate::depth::MAX_NUMBER;
use crate::level::Level;
use crate::out::Code;
use crate::values::arguments;
use ps_tree::line::Line;
use ps_tree::tree::Argument;
use std::alloc::AllocError;

/// A call of a procedure declared in the block `up` levels out.
pub fn call_procedure(
    out: &mut Code,
    level: &Level,
    actual: &[Argument],
    routine: u32,
    up: u32,
    line: Line,
    d: u32,
) -> Result<(), AllocError>
    requires { d + statement_weight (scope_of level.now)
        (tree.CallProcedure routine up (arguments_of actual.now) line.number) d ≤ MAX_NUMBER }
    ensures { OnOk result (out.new ≡ out.old ++ statement_code (scope_of level.now)
        (tree.CallProcedure routine up (arguments_of actual.now) line.number) d) }
{
    let t = link_temporary(actual, d);
    arguments(out, level, actual, d, 0)?;
    call(out, level, actual, Callee { routine, up }, line, d, t)
}

/// A call of a procedural parameter.
pub fn call_formal_procedure(
    out: &mut Code,
    level: &Level,
    actual: &[Argument],
    up: u32,
    index: u32,
    line: Line,
    d: u32,
) -> Result<(), AllocError>
    requires { d + statement_weight (scope_of level.now)
        (tree.CallFormalProcedure up index (arguments_of actual.now) line.number) d ≤ MAX_NUMBER }
    ensures { OnOk result (out.new ≡ out.old ++ statement_code (scope_of level.now)
        (tree.CallFormalProcedure up index (arguments_of actual.now) line.number) d) }
{
    let t = link_temporary(actual, d);
    arguments(out, level, actual, d, 0)?;
    call_formal(out, level, actual, FormalCallee { up, index }, line, d, t)
}
