// What first values are made of: stores, and copies of what was stored.

ghost use Rattle.std.specs.Prelude.{◌≡◌, ◌++◌, ◌+◌, ◌*◌, ◌≤◌, ◌≤ℤ◌, pos, [], ◌∷◌, OnOk};
ghost use Rattle.ps_lower_bounds.specs.Weights.{first_weight};
ghost use Rattle.ps_lower_code.specs.Scopes.{beside, copy_code};
ghost use Rattle.ps_lower_code.specs.Statements.{bytes_below, byte_word, spread_code, zero_code, bytes_code};
ghost use Rattle.ps_lower_layout.specs.Shapes.{ByteShape, first_of};
ghost use Rattle.ps_lower.specs.Firsts.{whole_bytes, last_bytes};
ghost use Rattle.ps_lower.specs.Levels.{scope_of};
ghost use Rattle.ps_meaning.specs.Values.{first_ordinal};
ghost use Rattle.ps_tree.specs.Sizes.{value_count};
ghost use Rattle.ps_tree.specs.View.{type_of};
ghost use Rattle.tac_code.specs.Numbers.{natural};
ghost use Rattle.tac_code.specs.declared.code.Instruction.TheVariants as i;

use crate::depth::{MAX_NUMBER, beside};
use crate::helpers::copy;
use crate::level::Level;
use crate::numbers::narrow;
use crate::out::Code;
use ps_tree::types::{Host, Ordinal, Ty, same_host};
use std::alloc::AllocError;
use tac_code::code::Base;

pub fn first_ordinal(ordinal: Ordinal) -> i32
    ensures { result ≡ first_ordinal ordinal }
{
    if same_host(ordinal.host, Host::Integer) && ordinal.subrange.is_none() {
        0
    } else {
        ordinal.low
    }
}

/// The first value of the components of a byte array.
#[tactic(auto, unfolding(ps_tree::specs::TypeView::type_of))]
pub fn first_of(ty: &Ty) -> i32
    ensures { result ≡ first_of (type_of ty.now) }
{
    match ty {
        Ty::Simple(ordinal) => first_ordinal(*ordinal),
        _ => 0,
    }
}

/// Stores a number in a word.
pub fn number(out: &mut Code, base: Base, t: u32, offset: u32, value: i32) -> Result<(), AllocError>
    ensures { OnOk result (out.new ≡ out.old ++ i.Literal t value ∷ i.Store base offset t ∷ []) }
{
    out.literal(t, value)?;
    out.store(base, offset, t)
}

/// Copies the first bytes at an offset to the `bytes` bytes after the first n.
fn copies(
    out: &mut Code,
    level: &Level,
    base: Base,
    t: u32,
    offset: u32,
    n: u32,
    bytes: u32,
) -> Result<(), AllocError>
    requires depth { t ≤ 4294960000 }
    requires reach { offset + n ≤ MAX_NUMBER }
    requires length { bytes ≤ MAX_NUMBER }
    ensures { OnOk result (out.new ≡ out.old ++ i.Offset t base (offset + n) 0 ∷ i.Offset (beside t) base offset 0
        ∷ copy_code (scope_of level.now) t (beside t) (beside (beside t)) bytes) }
{
    let from = beside(t);
    out.offset(t, base, offset + n, 0)?;
    out.offset(from, base, offset, 0)?;
    copy(out, level, t, from, beside(from), bytes)
}

/// Copies of the first n bytes at an offset, after them up to the whole.
pub fn spread(
    out: &mut Code,
    level: &Level,
    base: Base,
    t: u32,
    offset: u32,
    n: u32,
    whole: u32,
) -> Result<(), AllocError>
    requires depth { t ≤ 4294960000 }
    requires reach { offset + n ≤ MAX_NUMBER }
    requires length { whole ≤ MAX_NUMBER }
    ensures { OnOk result (out.new ≡ out.old ++ spread_code (scope_of level.now) base t offset n whole) }
{
    if whole <= n {
        return Ok(());
    }
    copies(out, level, base, t, offset, n, whole - n)
}

/// The first value of a set.
pub fn zero(
    out: &mut Code,
    level: &Level,
    base: Base,
    t: u32,
    offset: u32,
    whole: u32,
) -> Result<(), AllocError>
    requires depth { t ≤ 4294960000 }
    requires reach { offset + 32 ≤ MAX_NUMBER }
    requires length { whole ≤ MAX_NUMBER }
    ensures { OnOk result (out.new ≡ out.old ++ zero_code (scope_of level.now) base t offset whole) }
{
    number(out, base, t, offset, 0)?;
    spread(out, level, base, t, offset, 4, whole)
}

/// `n` bytes of one value, up to four, lowest first.
fn bytes_below(n: u32, byte: u32) -> u32
    requires some { 1 ≤ n }
    requires few { n ≤ 4 }
    requires small { byte ≤ 255 }
    ensures { result ≡ bytes_below n byte }
{
    if n == 1 {
        return byte;
    }
    if n == 2 {
        return 0x101 * byte;
    }
    if n == 3 {
        return 0x1_0101 * byte;
    }
    0x101_0101 * byte
}

/// The byte of a number from 0 to 255.
fn byte_of(number: i32) -> u32
    requires low { pos 0 ≤ℤ number }
    requires high { number ≤ℤ pos 255 }
    ensures value { result ≡ natural number }
    ensures small { result ≤ 255 }
{
    number as u32
}

/// A word of `n` bytes of one value, up to four.
fn byte_word(n: u32, first: i32) -> i32
    requires some { 1 ≤ n }
    requires few { n ≤ 4 }
    requires low { pos 0 ≤ℤ first }
    requires high { first ≤ℤ pos 255 }
    ensures { result ≡ byte_word n first }
{
    bytes_below(n, byte_of(first)).cast_signed()
}

/// The whole words of `count` bytes of one value.
fn whole_bytes(
    out: &mut Code,
    level: &Level,
    base: Base,
    t: u32,
    offset: u32,
    count: u32,
    first: i32,
) -> Result<(), AllocError>
    requires depth { t ≤ 4294960000 }
    requires reach { offset + count ≤ MAX_NUMBER }
    requires low { pos 0 ≤ℤ first }
    requires high { first ≤ℤ pos 255 }
    ensures { OnOk result (out.new ≡ out.old ++ whole_bytes (scope_of level.now) base t offset count first) }
{
    if count < 4 {
        return Ok(());
    }
    let word = byte_word(4, first);
    number(out, base, t, offset, word)?;
    spread(out, level, base, t, offset, 4, 4 * (count / 4))
}

/// The last word, if they do not fill it.
fn last_bytes(
    out: &mut Code,
    base: Base,
    t: u32,
    offset: u32,
    count: u32,
    first: i32,
) -> Result<(), AllocError>
    requires reach { offset + count ≤ MAX_NUMBER }
    requires low { pos 0 ≤ℤ first }
    requires high { first ≤ℤ pos 255 }
    ensures { OnOk result (out.new ≡ out.old ++ last_bytes base t offset count first) }
{
    let left = count % 4;
    if left == 0 {
        return Ok(());
    }
    let word = byte_word(left, first);
    number(out, base, t, offset + 4 * (count / 4), word)
}

/// `count` bytes of one value, padded to whole words.
pub fn bytes(
    out: &mut Code,
    level: &Level,
    base: Base,
    t: u32,
    offset: u32,
    count: u32,
    first: i32,
) -> Result<(), AllocError>
    requires depth { t ≤ 4294960000 }
    requires reach { offset + first_weight (ByteShape count first) ≤ MAX_NUMBER }
    ensures { OnOk result (out.new ≡ out.old ++ bytes_code (scope_of level.now) base t offset count first) }
{
    whole_bytes(out, level, base, t, offset, count, first)?;
    last_bytes(out, base, t, offset, count, first)
}

/// A byte array.
pub fn byte_array(
    out: &mut Code,
    level: &Level,
    component: &Ty,
    index: Ordinal,
    base: Base,
    t: u32,
    offset: u32,
) -> Result<(), AllocError>
    requires depth { t ≤ 4294960000 }
    requires reach { offset + first_weight (ByteShape (value_count index) (first_of (type_of component.now))) ≤
        MAX_NUMBER }
    ensures { OnOk result (out.new ≡ out.old ++ bytes_code (scope_of level.now) base t offset (value_count index)
        (first_of (type_of component.now))) }
{
    let count = narrow(index.value_count());
    bytes(out, level, base, t, offset, count, first_of(component))
}
