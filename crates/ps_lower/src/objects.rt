// New objects.

ghost use Rattle.std.specs.Prelude.{◌≡◌, ◌++◌, ◌+◌, ◌∷◌, ◌≤◌, OnOk};
ghost use Rattle.ps_lower_bounds.specs.Weights.{first_weight, statement_weight};
ghost use Rattle.ps_lower_code.specs.Statements.{first_code, statement_code};
ghost use Rattle.ps_lower_layout.specs.Shapes.{shape_of};
ghost use Rattle.ps_lower.specs.Levels.{scope_of};
ghost use Rattle.ps_tree.specs.Tree as tree;
ghost use Rattle.ps_tree.specs.Tree.{domain_at};
ghost use Rattle.ps_tree.specs.View.{place_of};
ghost use Rattle.tac_code.specs.declared.code.Base.TheVariants as base;
ghost use Rattle.tac_code.specs.declared.code.Instruction.TheVariants as i;

use crate::depth::{MAX_NUMBER, even_above, held};
use crate::firsts::first_object;
use crate::level::Level;
use crate::out::Code;
use crate::places::{is_byte, keep};
use crate::values::place;
use ps_tree::line::Line;
use ps_tree::tree::Place;
use ps_tree::types::Ty;
use std::alloc::AllocError;
use tac_code::code::Instruction;

/// The first value of the object of a pointer type; a number that is not of a pointer type gives a pointer.
fn first_of_domain(
    out: &mut Code,
    level: &Level,
    pointer: u32,
    to: u32,
    t: u32,
) -> Result<(), AllocError>
    requires depth { t ≤ 4294960000 }
    requires reach { first_weight (shape_of (domain_at (scope_of level.now).program pointer)) ≤ MAX_NUMBER }
    ensures { OnOk result (out.new ≡ out.old ++ first_code (scope_of level.now) (base.Temporary to) t 0
        (shape_of (domain_at (scope_of level.now).program pointer))) }
{
    match level.checked.domains().get(pointer as usize) {
        Some(ty) => first_object(out, level, ty, to, t),
        None => first_object(out, level, &Ty::Pointer { number: 0 }, to, t),
    }
}

/// A new object of a pointer type's domain type, with its first value; its address goes to a temporary.
fn object(
    out: &mut Code,
    level: &Level,
    pointer: u32,
    to: u32,
    t: u32,
    line: Line,
) -> Result<(), AllocError>
    requires depth { t ≤ 4294960000 }
    requires reach { first_weight (shape_of (domain_at (scope_of level.now).program pointer)) ≤ MAX_NUMBER }
    ensures { OnOk result (out.new ≡ out.old ++ i.New to pointer line.number ∷ first_code (scope_of level.now)
        (base.Temporary to) t 0 (shape_of (domain_at (scope_of level.now).program pointer))) }
{
    out.push_at(
        Instruction::New {
            to,
            object_type: pointer,
            line: line.number,
        },
        line,
    )?;
    first_of_domain(out, level, pointer, to, t)
}

/// A new object, to which a pointer variable points from then on.
pub fn create(
    out: &mut Code,
    level: &Level,
    target: &Place,
    pointer: u32,
    line: Line,
    d: u32,
) -> Result<(), AllocError>
    requires { d + statement_weight (scope_of level.now)
        (tree.New (place_of target.now) pointer line.number) d ≤ MAX_NUMBER }
    ensures { OnOk result (out.new ≡ out.old ++ statement_code (scope_of level.now)
        (tree.New (place_of target.now) pointer line.number) d) }
{
    let at = held(true, d);
    let to = held(true, at + 1);
    let free = even_above(to);
    let site = place(out, level, target, at, 0)?;
    object(out, level, pointer, to, free, line)?;
    keep(out, is_byte(target), site, to)
}
