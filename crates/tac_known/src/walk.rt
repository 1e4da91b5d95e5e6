// A walk over a body, a place after the other.

ghost use Rattle.std.specs.Prelude.{◌≡◌, ℕ, suc, ◌+◌, ◌-◌, length, slice_get, IsTrue, IfOk, IfSome, true};
ghost use Rattle.std.specs.Option.{option_copied};
ghost use Rattle.tac_known.specs.Kinds.{say_no_more};
ghost use Rattle.tac_known.specs.Lean.{lean, where_related, LeanBody};
ghost use Rattle.tac_known.specs.Walk.{claim_at, claimed_or, falls, nothing, allows, aims, aims_well};
ghost use Rattle.tac_known.specs.Walk.{goes_on_to_next, falls_well, is_well, order_claim_at, order_claimed_or};
ghost use Rattle.tac_known.specs.Walk.{orders_fall, orders_allowed, orders_aimed, orders_aim_well, orders_fall_well};
ghost use Rattle.tac_known.specs.Walk.{allowed_if_falls, orders_are_well};

use crate::kind::Kinds;
use crate::lean::{fall, is_vain, lean, orders_fall};
use crate::order::{Orders, no_orders, orders_where, say_all, sharp};
use std::alloc::Global;
use tac_code::code::{Instruction, Operand, OutOfMemory, Relation};

// What is claimed at a place.
fn claim(claims: &[Option<Kinds>], place: usize) -> Option<&Kinds>
    ensures { option_copied result ≡ claim_at claims.now place }
{
    if place < claims.len() {
        match &claims[place] {
            Some(claimed) => Some(claimed),
            None => None,
        }
    } else {
        None
    }
}

// Takes what is claimed at a place, if that is no more than what arrives there from the place before.
fn fall_in(claims: &[Option<Kinds>], kinds: &mut Kinds, place: usize) -> bool
    ensures allowed { IsTrue result → allows (claim_at claims.now place) kinds.old ≡ true }
    ensures taken { IsTrue result → kinds.new ≡ claimed_or (claim_at claims.now place) kinds.old }
{
    match claim(claims, place) {
        Some(claimed) => kinds.allow(claimed) && kinds.replace(claimed),
        None => true,
    }
}

// The same if nothing arrives from there.
fn take_in(claims: &[Option<Kinds>], kinds: &mut Kinds, place: usize) -> bool
    ensures { IsTrue result → kinds.new ≡ claimed_or (claim_at claims.now place) kinds.old }
{
    match claim(claims, place) {
        Some(claimed) => kinds.replace(claimed),
        None => true,
    }
}

// Whether no more is claimed at the target of a jump than is known here.
fn aim(claims: &[Option<Kinds>], kinds: &Kinds, place: usize) -> bool
    ensures { IsTrue result → aims (claim_at claims.now place) kinds.now ≡ true }
{
    match claim(claims, place) {
        Some(claimed) => kinds.allow(claimed),
        None => false,
    }
}

fn ahead(place: usize, distance: u64) -> Option<usize>
    ensures { IfSome result (λ target. target ≡ suc place + distance) }
{
    let target = (place as u64).checked_add(1)?.checked_add(distance)?;
    Some(target as usize)
}

fn back(place: usize, distance: u64) -> Option<usize>
    ensures { IfSome result (λ target. target ≡ place - distance) }
{
    let target = (place as u64).checked_sub(distance)?;
    Some(target as usize)
}

// The same at the target of a branch, whose relation holds there. What is known is restored afterwards.
#[tactic(auto, using(crate::proofs::Walked::set_back))]
fn aim_related(
    claims: &[Option<Kinds>],
    kinds: &mut Kinds,
    place: usize,
    relation: Relation,
    left: u32,
    right: Operand,
) -> bool
    ensures aimed { IsTrue result → aims (claim_at claims.now place)
        (where_related relation left right kinds.old) ≡ true }
    ensures kept { kinds.new ≡ kinds.old }
{
    let was = kinds.kind(left);
    kinds.relate(relation, left, right);
    let is_aimed = aim(claims, kinds, place);
    kinds.learn(left, was);
    is_aimed
}

// Whether no more is claimed at the target of an instruction than is known here.
fn turn(
    claims: &[Option<Kinds>],
    kinds: &mut Kinds,
    orders: Orders,
    place: usize,
    instruction: &Instruction,
) -> bool
    ensures well { IsTrue result → aims_well claims.now kinds.old orders place instruction.now ≡ true }
    ensures kept { kinds.new ≡ kinds.old }
{
    match instruction {
        Instruction::Jump { forward } => match ahead(place, *forward) {
            Some(target) => aim(claims, kinds, target),
            None => false,
        },
        Instruction::JumpBack { back: distance } => match back(place, *distance) {
            Some(target) => aim(claims, kinds, target),
            None => false,
        },
        Instruction::Branch {
            relation,
            left,
            right,
            forward,
        } => match ahead(place, *forward) {
            Some(target) => {
                let known = sharp(orders, *relation, *left, *right);
                aim_related(claims, kinds, target, known, *left, *right)
            }
            None => false,
        },
        Instruction::BranchBack {
            relation,
            left,
            right,
            back: distance,
        } => match back(place, *distance) {
            Some(target) => {
                let known = sharp(orders, *relation, *left, *right);
                aim_related(claims, kinds, target, known, *left, *right)
            }
            None => false,
        },
        _ => true,
    }
}

/// Whether an instruction goes on to the next place.
pub fn goes_on(instruction: &Instruction) -> bool
    ensures { result ≡ goes_on_to_next instruction.now }
{
    match instruction {
        Instruction::Jump { .. }
        | Instruction::JumpBack { .. }
        | Instruction::Return { .. }
        | Instruction::Trap { .. }
        | Instruction::End => false,
        _ => true,
    }
}

// Goes on to the next place.
fn go_on(
    claims: &[Option<Kinds>],
    kinds: &mut Kinds,
    orders: Orders,
    place: usize,
    instruction: &Instruction,
) -> bool
    ensures well { IsTrue result → falls_well claims.now kinds.old orders place instruction.now ≡ true }
    ensures taken { IsTrue result → kinds.new ≡ claimed_or (claim_at claims.now (suc place))
        (falls kinds.old orders instruction.now) }
{
    let Some(next) = place.checked_add(1) else {
        return false;
    };
    fall(kinds, orders, instruction);
    if goes_on(instruction) {
        fall_in(claims, kinds, next)
    } else {
        take_in(claims, kinds, next)
    }
}

// What is claimed of the order of temporaries at a place.
fn order_claim(claims: &[Option<Orders>], place: usize) -> Option<Orders>
    ensures { result ≡ order_claim_at claims.now place }
{
    if place < claims.len() {
        claims[place]
    } else {
        None
    }
}

fn or_claimed(claimed: Option<Orders>, orders: Orders) -> Orders
    ensures { result ≡ order_claimed_or claimed orders }
{
    match claimed {
        Some(claimed) => claimed,
        None => orders,
    }
}

fn are_allowed(claimed: Option<Orders>, orders: Orders) -> bool
    ensures { result ≡ orders_allowed claimed orders }
{
    match claimed {
        Some(claimed) => say_all(orders, claimed),
        None => true,
    }
}

fn are_aimed(claimed: Option<Orders>, orders: Orders) -> bool
    ensures { result ≡ orders_aimed claimed orders }
{
    match claimed {
        Some(claimed) => say_all(orders, claimed),
        None => false,
    }
}

// Whether no more is claimed at the target of an instruction than is known here.
fn turn_orders(
    claims: &[Option<Orders>],
    orders: Orders,
    place: usize,
    instruction: &Instruction,
) -> bool
    ensures { IsTrue result → orders_aim_well claims.now orders place instruction.now ≡ true }
{
    match instruction {
        Instruction::Jump { forward } => match ahead(place, *forward) {
            Some(target) => are_aimed(order_claim(claims, target), orders),
            None => false,
        },
        Instruction::JumpBack { back: distance } => match back(place, *distance) {
            Some(target) => are_aimed(order_claim(claims, target), orders),
            None => false,
        },
        Instruction::Branch {
            relation,
            left,
            right,
            forward,
        } => match ahead(place, *forward) {
            Some(target) => are_aimed(
                order_claim(claims, target),
                orders_where(orders, *relation, *left, *right),
            ),
            None => false,
        },
        Instruction::BranchBack {
            relation,
            left,
            right,
            back: distance,
        } => match back(place, *distance) {
            Some(target) => are_aimed(
                order_claim(claims, target),
                orders_where(orders, *relation, *left, *right),
            ),
            None => false,
        },
        _ => true,
    }
}

// Whether no more is claimed at the next place than is known here.
fn fall_to(claimed: Option<Orders>, orders: Orders, instruction: &Instruction) -> bool
    ensures { IsTrue result → allowed_if_falls instruction.now claimed orders ≡ true }
{
    !goes_on(instruction) || are_allowed(claimed, orders)
}

// Goes on to the next place with what is known of the order of temporaries.
fn go_on_ordered(
    claims: &[Option<Orders>],
    kinds: &Kinds,
    orders: &mut Orders,
    place: usize,
    instruction: &Instruction,
) -> bool
    ensures well { IsTrue result → orders_fall_well claims.now kinds.now orders.old place instruction.now ≡ true }
    ensures taken { IsTrue result → orders.new ≡ order_claimed_or (order_claim_at claims.now (suc place))
        (orders_fall kinds.now orders.old instruction.now) }
{
    let Some(next) = place.checked_add(1) else {
        return false;
    };
    let behind = orders_fall(kinds, *orders, instruction);
    let claimed = order_claim(claims, next);
    *orders = or_claimed(claimed, behind);
    fall_to(claimed, behind, instruction)
}

// What is known of the order of temporaries at one place; false if more is claimed.
fn order_place(
    claims: &[Option<Orders>],
    kinds: &Kinds,
    orders: &mut Orders,
    place: usize,
    instruction: &Instruction,
) -> bool
    ensures well { IsTrue result → orders_are_well claims.now kinds.now orders.old place instruction.now ≡ true }
    ensures taken { IsTrue result → orders.new ≡ order_claimed_or (order_claim_at claims.now (suc place))
        (orders_fall kinds.now orders.old instruction.now) }
{
    turn_orders(claims, *orders, place, instruction)
        && go_on_ordered(claims, kinds, orders, place, instruction)
}

// One place; false if more is claimed than is known.
#[tactic(auto, using(crate::proofs::Leaned::lean_is))]
fn lean_place(
    claims: &[Option<Kinds>],
    kinds: &mut Kinds,
    orders: Orders,
    place: usize,
    instruction: &mut Instruction,
) -> bool
    ensures well { IsTrue result → is_well claims.now kinds.old orders place instruction.old ≡ true }
    ensures made { IsTrue result → instruction.new ≡ lean kinds.old instruction.old }
    ensures taken { IsTrue result → kinds.new ≡ claimed_or (claim_at claims.now (suc place))
        (falls kinds.old orders instruction.old) }
{
    if !turn(claims, kinds, orders, place, instruction) {
        return false;
    }
    let vain = is_vain(kinds, instruction);
    if !go_on(claims, kinds, orders, place, instruction) {
        return false;
    }
    lean(vain, instruction);
    true
}

// The same with what is known of the order of temporaries.
fn whole_place(
    claims: &[Option<Kinds>],
    order_claims: &[Option<Orders>],
    kinds: &mut Kinds,
    orders: &mut Orders,
    place: usize,
    instruction: &mut Instruction,
) -> bool
    ensures well { IsTrue result → is_well claims.now kinds.old orders.old place instruction.old ≡ true }
    ensures ordered { IsTrue result
        → orders_are_well order_claims.now kinds.old orders.old place instruction.old ≡ true }
    ensures made { IsTrue result → instruction.new ≡ lean kinds.old instruction.old }
    ensures taken { IsTrue result → kinds.new ≡ claimed_or (claim_at claims.now (suc place))
        (falls kinds.old orders.old instruction.old) }
    ensures next { IsTrue result → orders.new ≡ order_claimed_or (order_claim_at order_claims.now (suc place))
        (orders_fall kinds.old orders.old instruction.old) }
{
    let known = *orders;
    order_place(order_claims, kinds, orders, place, instruction)
        && lean_place(claims, kinds, known, place, instruction)
}

/// Makes a body lean, if what is claimed by places, about temporaries and about their order, is no more than what is
/// known there. If it returns false, the body is of no use.
pub fn lean_body(
    alloc: Global,
    temporaries: usize,
    claims: &[Option<Kinds>],
    order_claims: &[Option<Orders>],
    body: &mut [Instruction],
) -> Result<bool, OutOfMemory>
    ensures { IfOk result (λ done. IsTrue done → LeanBody body.old body.new) }
{
    let mut kinds = Kinds::new(alloc, temporaries)?;
    let first = order_claim(order_claims, 0);
    if !are_allowed(first, no_orders()) {
        return Ok(false);
    }
    let mut orders = or_claimed(first, no_orders());
    if claims.len() != body.len() || !fall_in(claims, &mut kinds, 0) {
        return Ok(false);
    }
    for place in 0..body.len() {
        if !whole_place(
            claims,
            order_claims,
            &mut kinds,
            &mut orders,
            place,
            &mut body[place],
        ) {
            return Ok(false);
        }
    }
    Ok(true)
}
