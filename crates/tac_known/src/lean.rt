// What an instruction becomes, and what is known after it.

ghost use Rattle.std.specs.Prelude.{◌≡◌};
ghost use Rattle.tac_known.specs.Lean as specs;
ghost use Rattle.tac_known.specs.Lean.{is_vain, cleared, behind};
ghost use Rattle.tac_known.specs.Walk as specs_walk;
ghost use Rattle.tac_known.specs.Walk.{falls};

use crate::kind::{Kind, Kinds, opposite};
use crate::order::{Orders, orders_behind, orders_where, sharp};
use tac_code::code::{Instruction, Operand, Relation};

fn is_unequal(relation: Relation) -> bool
    ensures { result ≡ specs.is_unequal relation }
{
    match relation {
        Relation::NotEqual => true,
        _ => false,
    }
}

fn is_nought(operand: Operand) -> bool
    ensures { result ≡ specs.is_nought operand }
{
    match operand {
        Operand::Number(number) => number == 0,
        Operand::Temporary(_) => false,
    }
}

// Whether the result of a comparison equals its left operand.
fn is_truth(kinds: &Kinds, relation: Relation, left: u32, right: Operand) -> bool
    ensures { result ≡ specs.is_truth kinds.now relation left right }
{
    is_unequal(relation) && (is_nought(right) && kinds.lies_within(left, 0, 1))
}

/// Whether an instruction's test can't fail, or the result of its comparison equals its left operand.
pub fn is_vain(kinds: &Kinds, instruction: &Instruction) -> bool
    ensures { result ≡ is_vain kinds.now instruction.now }
{
    match instruction {
        Instruction::Arithmetic {
            operator,
            left,
            right,
            ..
        } => kinds.fit(*operator, *left, *right),
        Instruction::Compare {
            relation,
            left,
            right,
            ..
        } => is_truth(kinds, *relation, *left, *right),
        Instruction::CheckRange {
            value,
            low,
            high,
            ..
        } => kinds.lies_within(*value, *low, *high),
        Instruction::CheckPointer { pointer, .. } => kinds.is_pointer(*pointer),
        Instruction::Index {
            index,
            low,
            high,
            ..
        } => kinds.lies_within(*index, *low, *high),
        _ => false,
    }
}

// The test loses the number of its error; the comparison becomes a copy.
fn clear(instruction: &mut Instruction)
    ensures { instruction.new ≡ cleared instruction.old }
{
    match instruction {
        Instruction::Compare { to, left, .. } => {
            let copy = Instruction::Copy {
                to: *to,
                from: *left,
            };
            *instruction = copy;
        }
        Instruction::Arithmetic { error, .. } => *error = 0,
        Instruction::CheckRange { error, .. } => *error = 0,
        Instruction::CheckPointer { error, .. } => *error = 0,
        Instruction::Index { error, .. } => *error = 0,
        _ => {}
    }
}

/// A test that can't fail loses the number of its error; a comparison whose result equals its left operand becomes a
/// copy.
pub fn lean(is_vain: bool, instruction: &mut Instruction)
    ensures { instruction.new ≡ specs.cleared_if is_vain instruction.old }
{
    if is_vain {
        clear(instruction);
    }
}

/// What is known after an instruction that goes on to the next place.
pub fn behind(kinds: &mut Kinds, instruction: &Instruction)
    ensures { kinds.new ≡ behind kinds.old instruction.now }
{
    match instruction {
        Instruction::Literal { to, value } => kinds.learn(*to, Kind::Between(*value, *value)),
        Instruction::Copy { to, from } => {
            let kind = kinds.kind(*from);
            kinds.learn(*to, kind);
        }
        Instruction::Arithmetic {
            operator,
            to,
            left,
            right,
            ..
        } => kinds.compute(*operator, *to, *left, *right),
        Instruction::Bits {
            operator,
            to,
            left,
            right,
        } => kinds.combine(*operator, *to, *left, *right),
        Instruction::Compare { to, .. } => kinds.learn(*to, Kind::Between(0, 1)),
        Instruction::CheckRange {
            value,
            low,
            high,
            ..
        } => kinds.meet(*value, *low, *high),
        Instruction::CheckPointer { pointer, .. } => kinds.learn(*pointer, Kind::NotNil),
        Instruction::Index {
            to,
            index,
            low,
            high,
            ..
        } => {
            kinds.meet(*index, *low, *high);
            kinds.learn(*to, Kind::Unknown);
        }
        Instruction::New { to, .. } => kinds.learn(*to, Kind::NotNil),
        Instruction::Text { to, .. }
        | Instruction::Offset { to, .. }
        | Instruction::RoutineValue { to, .. }
        | Instruction::Load { to, .. }
        | Instruction::LoadByte { to, .. }
        | Instruction::Take { to } => kinds.learn(*to, Kind::Unknown),
        Instruction::Store { .. } | Instruction::StoreByte { .. } | Instruction::Put { .. } => {}
        _ => kinds.forget(),
    }
}

/// What falls to the next place.
pub fn fall(kinds: &mut Kinds, orders: Orders, instruction: &Instruction)
    ensures { kinds.new ≡ falls kinds.old orders instruction.now }
{
    match instruction {
        Instruction::Branch {
            relation,
            left,
            right,
            ..
        }
        | Instruction::BranchBack {
            relation,
            left,
            right,
            ..
        } => {
            let known = sharp(orders, opposite(*relation), *left, *right);
            kinds.relate(known, *left, *right);
        }
        _ => behind(kinds, instruction),
    }
}

/// What falls to the next place of the order of temporaries.
pub fn orders_fall(kinds: &Kinds, orders: Orders, instruction: &Instruction) -> Orders
    ensures { result ≡ specs_walk.orders_fall kinds.now orders instruction.now }
{
    match instruction {
        Instruction::Branch {
            relation,
            left,
            right,
            ..
        }
        | Instruction::BranchBack {
            relation,
            left,
            right,
            ..
        } => orders_where(orders, opposite(*relation), *left, *right),
        _ => orders_behind(kinds, orders, instruction),
    }
}
