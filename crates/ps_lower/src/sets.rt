// Sets, each in the scratch block from a byte on, and the operations on them there.

ghost use Rattle.std.specs.Prelude.{◌≡◌, ◌++◌, ◌+◌, ◌%◌, ◌^◌, ◌≤◌, ◌∷◌, [], pos, suc, OnOk};
ghost use Rattle.tac_rt.specs.declared.run_time.RunTime.TheVariants.{AddRange};
ghost use Rattle.ps_lower_code.specs.Scopes.{even_from, moved, words_code, helper};
ghost use Rattle.ps_lower_code.specs.Values.{set_routine, bit_code, is_union, adds, joining_code, membership_code};
ghost use Rattle.ps_lower_code.specs.Values.{holds_all, outside_bits, masked, joined_word, outside_code, set_check};
ghost use Rattle.ps_lower_code.specs.Values.{included_code, same_sets_code, sets_code, range_members};
ghost use Rattle.ps_lower.specs.Levels.{scope_of, site_of};
ghost use Rattle.ps_tree.specs.View.{set_of};
ghost use Rattle.ps_lower.specs.Sets.{cleared_code, offsets_code, includes_code, numbers_below, numbers_to};
ghost use Rattle.ps_lower.specs.Sets.{lowest_bits, member_word, member_bit, one_member, copied_code, kept_code};
ghost use Rattle.tac_code.specs.declared.code.Base.TheVariants as base;
ghost use Rattle.tac_code.specs.declared.code.Instruction.TheVariants as i;
ghost use Rattle.tac_code.specs.declared.code.Operand.TheVariants as operand;
ghost use Rattle.tac_code.specs.declared.code.Relation.TheVariants.{Equal};

use crate::depth::{MAX_NUMBER, beside, even_above, even_from, next};
use crate::helpers::help;
use crate::level::Level;
use crate::out::Code;
use crate::pieces::moved;
use crate::places::address;
use crate::site::Site;
use ps_tree::line::Line;
use ps_tree::tree::{SetExpr, SetOperator, SetRelation};
use std::alloc::AllocError;
use tac_code::code::{Base, BitOperator, Instruction, Operand, Operator, Relation};
use tac_rt::RunTime;

/// The first byte after the set from x on.
pub fn above(x: u32) -> u32
    requires { x ≤ MAX_NUMBER }
    ensures { result ≡ x + 32 }
{
    x + 32
}

/// The empty set, from x on.
pub fn clear(out: &mut Code, t: u32, x: u32) -> Result<(), AllocError>
    requires { x ≤ MAX_NUMBER }
    ensures { OnOk result (out.new ≡ out.old ++ cleared_code t x) }
{
    out.literal(t, 0)?;
    for word in 0..8 {
        out.store(Base::Scratch, x + 4 * word, t)?;
    }
    Ok(())
}

/// Copies the words of a set from one place to another, one by one.
fn copy_words(
    out: &mut Code,
    to: Base,
    offset: u32,
    from: Base,
    start: u32,
    spare: u32,
) -> Result<(), AllocError>
    requires to { offset ≤ MAX_NUMBER }
    requires from { start ≤ MAX_NUMBER }
    ensures { OnOk result (out.new ≡ out.old ++ words_code to offset from start spare 8) }
{
    for word in 0..8 {
        out.load(spare, from, start + 4 * word)?;
        out.store(to, offset + 4 * word, spare)?;
    }
    Ok(())
}

/// Copies the words of a set from a site to the set from x on.
pub fn copied_set(out: &mut Code, site: Site, d: u32, x: u32) -> Result<(), AllocError>
    requires depth { d ≤ MAX_NUMBER }
    requires place { x ≤ MAX_NUMBER }
    ensures { OnOk result (out.new ≡ out.old ++ copied_code (site_of site) (even_from (suc d)) x) }
{
    let from = even_above(d);
    address(out, from, site, 32)?;
    copy_words(
        out,
        Base::Scratch,
        x,
        Base::Temporary(from),
        0,
        beside(from),
    )
}

/// The addresses of the set from x on and of the one after it.
fn offsets(out: &mut Code, first: u32, second: u32, x: u32) -> Result<(), AllocError>
    requires { x ≤ MAX_NUMBER }
    ensures { OnOk result (out.new ≡ out.old ++ offsets_code first second x) }
{
    let behind = above(x);
    out.offset(first, Base::Scratch, x, 32)?;
    out.offset(second, Base::Scratch, behind, 32)
}

fn set_routine(operator: SetOperator) -> RunTime
    ensures { result ≡ set_routine operator }
{
    match operator {
        SetOperator::Union => RunTime::UniteSets,
        SetOperator::Difference => RunTime::SubtractSet,
        SetOperator::Intersection => RunTime::IntersectSets,
    }
}

/// An operator on the set from x on and the one whose address is in the next temporary of t's class.
pub fn combined(
    out: &mut Code,
    level: &Level,
    operator: SetOperator,
    t: u32,
    x: u32,
) -> Result<(), AllocError>
    requires { t ≤ 4294960000 }
    ensures { OnOk result (out.new ≡ out.old ++ joining_code (scope_of level.now) operator t x) }
{
    let second = beside(t);
    out.offset(t, Base::Scratch, x, 32)?;
    help(out, level, set_routine(operator), &[t, second], t)
}

fn is_union(operator: SetOperator) -> bool
    ensures { result ≡ is_union operator }
{
    match operator {
        SetOperator::Union => true,
        SetOperator::Difference | SetOperator::Intersection => false,
    }
}

/// Whether a set is joined to another as the members of a constructor are, one by one.
#[tactic(auto, using(ps_tree::proofs::TreeLemmas::set_of_Load, ps_tree::proofs::TreeLemmas::set_of_Constructor, ps_tree::proofs::TreeLemmas::set_of_Combine), unfolding(ps_tree::specs::View::set_of))]
pub fn adds(operator: SetOperator, e: &SetExpr) -> bool
    ensures { result ≡ adds operator (set_of e.now) }
{
    match e {
        SetExpr::Constructor(_) => is_union(operator),
        SetExpr::Load(_) | SetExpr::Combine { .. } => false,
    }
}

/// Whether the set from x on is included in the one after it.
fn included(
    out: &mut Code,
    level: &Level,
    first: u32,
    second: u32,
    to: u32,
    x: u32,
) -> Result<(), AllocError>
    requires { x ≤ MAX_NUMBER }
    ensures { OnOk result (out.new ≡ out.old ++ included_code (scope_of level.now) first second to x) }
{
    offsets(out, first, second, x)?;
    help(out, level, RunTime::IsIncluded, &[first, second], to)
}

/// Whether the set from x on includes the one after it.
fn includes(out: &mut Code, level: &Level, t: u32, x: u32) -> Result<(), AllocError>
    requires depth { t ≤ 4294960000 }
    requires place { x ≤ MAX_NUMBER }
    ensures { OnOk result (out.new ≡ out.old ++ includes_code (scope_of level.now) t x) }
{
    let second = beside(t);
    offsets(out, t, second, x)?;
    help(out, level, RunTime::IsIncluded, &[second, t], t)
}

/// Whether the set from x on equals the one after it.
fn same_sets(out: &mut Code, level: &Level, t: u32, x: u32) -> Result<(), AllocError>
    requires depth { t ≤ 4294960000 }
    requires place { x ≤ MAX_NUMBER }
    ensures { OnOk result (out.new ≡ out.old ++ same_sets_code (scope_of level.now) t x) }
{
    let both = next(t);
    included(out, level, t, beside(t), both, x)?;
    includes(out, level, t, x)?;
    out.bits(BitOperator::And, t, t, Operand::Temporary(both))
}

fn other_sets(out: &mut Code, level: &Level, t: u32, x: u32) -> Result<(), AllocError>
    requires depth { t ≤ 4294960000 }
    requires place { x ≤ MAX_NUMBER }
    ensures { OnOk result (out.new ≡ out.old ++ (same_sets_code (scope_of level.now) t x ++ i.Compare Equal t t
        (operand.Number (pos 0)) ∷ [])) }
{
    same_sets(out, level, t, x)?;
    out.compare(Relation::Equal, t, t, Operand::Number(0))
}

/// The truth value of a relation between the set from x on and the one after it.
fn truth(
    out: &mut Code,
    level: &Level,
    relation: SetRelation,
    t: u32,
    x: u32,
) -> Result<(), AllocError>
    requires depth { t ≤ 4294960000 }
    requires place { x ≤ MAX_NUMBER }
    ensures { OnOk result (out.new ≡ out.old ++ sets_code (scope_of level.now) relation t x) }
{
    match relation {
        SetRelation::Included => included(out, level, t, beside(t), t, x),
        SetRelation::Includes => includes(out, level, t, x),
        SetRelation::Same => same_sets(out, level, t, x),
        SetRelation::Other => other_sets(out, level, t, x),
    }
}

/// The same, moved to where it is wanted.
pub fn compare_sets(
    out: &mut Code,
    level: &Level,
    relation: SetRelation,
    t: u32,
    x: u32,
    d: u32,
) -> Result<(), AllocError>
    requires depth { t ≤ 4294960000 }
    requires place { x ≤ MAX_NUMBER }
    ensures { OnOk result (out.new ≡ out.old ++ (sets_code (scope_of level.now) relation t x ++ moved t d)) }
{
    truth(out, level, relation, t, x)?;
    moved(out, t, d)
}

/// The word of a set in which a number is looked up. A number outside 0..255 is not a member: the branch skips the
/// look-up.
fn member_word(out: &mut Code, member: u32, set: u32, spare: u32) -> Result<(), AllocError>
    ensures { OnOk result (out.new ≡ out.old ++ member_word member set spare) }
{
    out.bits(BitOperator::And, spare, member, Operand::Number(255))?;
    out.branch(Relation::NotEqual, spare, Operand::Temporary(member), 8)?;
    out.push(Instruction::Arithmetic {
        operator: Operator::Divide,
        to: spare,
        left: member,
        right: Operand::Number(32),
        error: 0,
        line: 1,
    })?;
    out.push(Instruction::Index {
        to: set,
        base: Base::Temporary(set),
        index: spare,
        low: 0,
        high: 7,
        width: 4,
        error: 0,
        line: 1,
    })?;
    out.load(set, Base::Temporary(set), 0)
}

/// Whether the bit of a number is set in the word.
fn member_bit(out: &mut Code, member: u32, word: u32, spare: u32, to: u32) -> Result<(), AllocError>
    ensures { OnOk result (out.new ≡ out.old ++ member_bit member word spare to) }
{
    out.literal(spare, 1)?;
    out.bits(
        BitOperator::ShiftLeft,
        spare,
        spare,
        Operand::Temporary(member),
    )?;
    out.bits(BitOperator::And, to, word, Operand::Temporary(spare))?;
    out.compare(Relation::NotEqual, to, to, Operand::Number(0))
}

/// Whether the number in `member` is a member of the set at the address in `set`. That temporary and the next of its
/// class are used.
pub fn is_member(out: &mut Code, member: u32, set: u32, to: u32) -> Result<(), AllocError>
    requires { set ≤ 4294960000 }
    ensures { OnOk result (out.new ≡ out.old ++ membership_code member set to) }
{
    let spare = beside(set);
    member_word(out, member, set, spare)?;
    member_bit(out, member, set, spare, to)?;
    out.jump(1)?;
    out.literal(to, 0)
}

/// Adds the members from the number in `first` to the number in `last` to a set.
fn add_range(
    out: &mut Code,
    level: &Level,
    set: u32,
    first: u32,
    last: u32,
    to: u32,
) -> Result<(), AllocError>
    ensures { OnOk result (out.new ≡ out.old
        ++ helper (scope_of level.now) AddRange (set ∷ first ∷ last ∷ []) to ∷ []) }
{
    help(out, level, RunTime::AddRange, &[set, first, last], to)
}

/// Adds a member to the set from x on.
pub fn add_member(
    out: &mut Code,
    level: &Level,
    member: u32,
    x: u32,
    line: Line,
) -> Result<(), AllocError>
    requires { member ≤ 4294960000 }
    ensures { OnOk result (out.new ≡ out.old ++ one_member (scope_of level.now) member x line.number) }
{
    let set = beside(member);
    out.check_range(member, 0, 255, 8, line)?;
    out.offset(set, Base::Scratch, x, 32)?;
    add_range(out, level, set, member, member, member)
}

/// A word in which only the bit of a member is set.
fn bit(number: u32) -> u32
    ensures { result ≡ 2 ^ (number % 32) }
{
    1 << (number % 32)
}

/// Adds a known member to the set from x on.
pub fn add_bit(out: &mut Code, number: u32, t: u32, x: u32) -> Result<(), AllocError>
    requires number { number ≤ 255 }
    requires place { x ≤ MAX_NUMBER }
    ensures { OnOk result (out.new ≡ out.old ++ bit_code number t x) }
{
    let offset = x + 4 * (number / 32);
    out.load(t, Base::Scratch, offset)?;
    out.bits(
        BitOperator::Or,
        t,
        t,
        Operand::Number(bit(number).cast_signed()),
    )?;
    out.store(Base::Scratch, offset, t)
}

/// Adds the members from a first to a last to the set from x on.
pub fn add_members(
    out: &mut Code,
    level: &Level,
    first: u32,
    last: u32,
    x: u32,
    line: Line,
) -> Result<(), AllocError>
    requires { last ≤ 4294960000 }
    ensures { OnOk result (out.new ≡ out.old ++ range_members (scope_of level.now) first last x line.number) }
{
    let set = beside(last);
    out.branch(Relation::Less, last, Operand::Temporary(first), 4)?;
    out.check_range(first, 0, 255, 8, line)?;
    out.check_range(last, 0, 255, 8, line)?;
    out.offset(set, Base::Scratch, x, 32)?;
    add_range(out, level, set, first, last, set)
}

/// Whether every member that a set can have is within the bounds of a base.
fn holds_all(low: &i32, high: &i32) -> bool
    ensures { result ≡ holds_all low.now high.now }
{
    *low <= 0 && 255 <= *high
}

/// How many natural numbers are below the bounds of a base.
fn numbers_below(low: &i32) -> u32
    ensures { result ≡ numbers_below low.now }
{
    if *low < 0 { 0 } else { *low as u32 }
}

/// How many natural numbers are not above them.
fn numbers_to(high: &i32) -> u32
    ensures { result ≡ numbers_to high.now }
{
    if *high < 0 { 0 } else { *high as u32 + 1 }
}

/// A word with its lowest `count` bits set.
fn lowest_bits(count: u32) -> u32
    ensures { result ≡ lowest_bits count }
{
    if count < 32 {
        (1 << count) - 1
    } else {
        u32::MAX
    }
}

/// The bits of a word of a set that are outside the bounds of a base.
fn outside_bits(low: &i32, high: &i32, word: u32) -> u32
    requires { word ≤ 7 }
    ensures { result ≡ outside_bits low.now high.now word }
{
    let first = 32 * word;
    let to = lowest_bits(numbers_to(high).saturating_sub(first));
    let below = lowest_bits(numbers_below(low).saturating_sub(first));
    u32::MAX - to.saturating_sub(below)
}

/// Selects some bits of a word.
fn masked(out: &mut Code, t: u32, mask: u32) -> Result<(), AllocError>
    ensures { OnOk result (out.new ≡ out.old ++ masked t mask) }
{
    if mask == u32::MAX {
        return Ok(());
    }
    out.bits(BitOperator::And, t, t, Operand::Number(mask.cast_signed()))
}

/// Joins those bits of the word at x of the scratch block to the content of t.
fn joined_word(out: &mut Code, t: u32, x: u32, mask: u32) -> Result<(), AllocError>
    requires { t ≤ 4294960000 }
    ensures { OnOk result (out.new ≡ out.old ++ joined_word t x mask) }
{
    if mask == 0 {
        return Ok(());
    }
    let word = beside(t);
    out.load(word, Base::Scratch, x)?;
    masked(out, word, mask)?;
    out.bits(BitOperator::Or, t, t, Operand::Temporary(word))
}

/// The members of the set from x on that are outside the bounds of a base.
fn outside(out: &mut Code, low: &i32, high: &i32, t: u32, x: u32) -> Result<(), AllocError>
    requires depth { t ≤ 4294960000 }
    requires place { x ≤ MAX_NUMBER }
    ensures { OnOk result (out.new ≡ out.old ++ outside_code low.now high.now t x 8) }
{
    for word in 0..8 {
        joined_word(out, t, x + 4 * word, outside_bits(low, high, word))?;
    }
    Ok(())
}

/// The test that the set from x on is within the bounds of a base, or error 8.
pub fn check_set(
    out: &mut Code,
    t: u32,
    x: u32,
    low: &i32,
    high: &i32,
    line: Line,
) -> Result<(), AllocError>
    requires depth { t ≤ 4294960000 }
    requires place { x ≤ MAX_NUMBER }
    ensures { OnOk result (out.new ≡ out.old ++ set_check t x low.now high.now line.number) }
{
    if holds_all(low, high) {
        return Ok(());
    }
    out.literal(t, 0)?;
    outside(out, low, high, t, x)?;
    out.branch(Relation::Equal, t, Operand::Number(0), 1)?;
    out.trap(8, line)
}

/// The set from x on as an actual parameter for a formal one with this base.
pub fn hand_set(
    out: &mut Code,
    t: u32,
    x: u32,
    low: &i32,
    high: &i32,
    line: Line,
) -> Result<(), AllocError>
    requires depth { t ≤ 4294950000 }
    requires place { x ≤ MAX_NUMBER }
    ensures { OnOk result (out.new ≡ out.old ++ (set_check (even_from t) x low.now high.now line.number
        ++ i.Offset t base.Scratch x 32 ∷ [])) }
{
    check_set(out, even_from(t), x, low, high, line)?;
    out.offset(t, Base::Scratch, x, 32)
}

/// Stores the set at the beginning of the scratch block at a site.
pub fn keep_set(out: &mut Code, site: Site, t: u32) -> Result<(), AllocError>
    requires { t ≤ 4294960000 }
    ensures { OnOk result (out.new ≡ out.old ++ kept_code (site_of site) t) }
{
    address(out, t, site, 32)?;
    copy_words(out, Base::Temporary(t), 0, Base::Scratch, 0, beside(t))
}
