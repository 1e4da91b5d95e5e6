// The targets of jumps, with what is claimed at each and what arrived there.

use crate::claims::bounds::{Bounds, widen};
use crate::claims::{Claimed, target};
use crate::kind::{Kinds, says_no_more};
use crate::order::{Order, Orders, join_orders, no_orders, say_all};
use std::alloc::Global;
use tac_code::code::{Instruction, Operand, OutOfMemory};

// The target of a jump.
#[derive(Drop)]
pub(super) struct Meeting {
    // Whether a jump back leads to it.
    is_head: bool,
    // What is claimed there, from the second sweep on, if anything is.
    claimed: Option<Kinds>,
    claimed_orders: Orders,
    // What arrived there in this sweep, if anything did.
    come: Kinds,
    come_orders: Orders,
    has_come: bool,
    // How often what is claimed of each temporary was widened.
    widened: Vec<u8>,
}

// Weakens a claim if more arrived; returns whether it did.
fn claim_less(bounds: &Bounds, claimed: &mut Kinds, come: &Kinds, widened: &mut [u8]) -> bool {
    let mut has_changed = false;
    for at in 0..widened.len() {
        let Ok(temporary) = u32::try_from(at) else {
            return has_changed;
        };
        let (was, now) = (claimed.kind(temporary), come.kind(temporary));
        if !says_no_more(now, was) {
            let times = widened[at];
            claimed.learn(temporary, widen(bounds, at, times, was, now));
            widened[at] = times.saturating_add(1);
            has_changed = true;
        }
    }
    has_changed
}

// Narrows the claim about a temporary by the claim about the one that it is ordered with, if what arrived allows it.
fn narrow(claimed: &mut Kinds, come: &Kinds, known: Option<Order>) {
    let Some(order) = known else {
        return;
    };
    let was = claimed.kind(order.left);
    claimed.relate(order.relation, order.left, Operand::Temporary(order.right));
    if !says_no_more(come.kind(order.left), claimed.kind(order.left)) {
        claimed.learn(order.left, was);
    }
}

fn narrow_all(claimed: &mut Kinds, come: &Kinds, orders: Orders) {
    narrow(claimed, come, orders.first);
    narrow(claimed, come, orders.second);
    narrow(claimed, come, orders.third);
    narrow(claimed, come, orders.fourth);
}

impl Meeting {
    fn new(alloc: Global, count: usize, is_head: bool) -> Result<Meeting, OutOfMemory> {
        let widened = if is_head { count } else { 0 };
        Ok(Meeting {
            is_head,
            claimed: None,
            claimed_orders: no_orders(),
            come: Kinds::new(alloc, count)?,
            come_orders: no_orders(),
            has_come: false,
            widened: vec![in alloc; 0; widened]?,
        })
    }

    // This is known where control arrives at the place.
    pub(super) fn arrive(&mut self, kinds: &Kinds, orders: Orders) {
        if self.has_come {
            self.come.join(kinds);
            self.come_orders = join_orders(self.come_orders, orders);
        } else {
            self.has_come = self.come.replace(kinds);
            self.come_orders = orders;
        }
    }

    // Takes what is claimed, or what arrived so far; false if nothing did.
    pub(super) fn enter(&self, kinds: &mut Kinds) -> bool {
        match &self.claimed {
            Some(claimed) => kinds.replace(claimed),
            None => self.has_come && kinds.replace(&self.come),
        }
    }

    // The same for the order of temporaries.
    pub(super) fn orders(&self) -> Orders {
        match &self.claimed {
            Some(_) => self.claimed_orders,
            None => self.come_orders,
        }
    }

    // Weakens the claims if more arrived than is claimed; returns whether it did.
    fn settle(&mut self, alloc: Global, bounds: &Bounds) -> Result<bool, OutOfMemory> {
        if !self.is_head || !self.has_come {
            return Ok(false);
        }
        if let Some(claimed) = &mut self.claimed {
            let has_less = claim_less(bounds, claimed, &self.come, self.widened.as_mut_slice());
            let is_told = say_all(self.come_orders, self.claimed_orders);
            if !is_told {
                self.claimed_orders = join_orders(self.claimed_orders, self.come_orders);
            }
            narrow_all(claimed, &self.come, self.claimed_orders);
            return Ok(has_less || !is_told);
        }
        self.claimed = Some(self.come.copied(alloc)?);
        self.claimed_orders = self.come_orders;
        Ok(true)
    }

    // Before another sweep nothing has arrived. After the last one that weakened a claim, what arrived is claimed.
    fn begin_again(&mut self, is_settled: bool) {
        if is_settled
            && self.has_come
            && let Some(claimed) = &mut self.claimed
        {
            let _ = claimed.replace(&self.come);
        }
        self.has_come = false;
    }
}

pub(super) fn settle_all(
    alloc: Global,
    meetings: &mut [Option<Meeting>],
    bounds: &Bounds,
) -> Result<bool, OutOfMemory> {
    let mut has_changed = false;
    for at in 0..meetings.len() {
        if let Some(meeting) = &mut meetings[at] {
            has_changed = meeting.settle(alloc, bounds)? || has_changed;
        }
    }
    Ok(has_changed)
}

pub(super) fn begin_all_again(meetings: &mut [Option<Meeting>], is_settled: bool) {
    for at in 0..meetings.len() {
        if let Some(meeting) = &mut meetings[at] {
            meeting.begin_again(is_settled);
        }
    }
}

// A jump leads to a place, perhaps back.
fn meet(
    alloc: Global,
    temporaries: usize,
    meeting: &mut Option<Meeting>,
    is_back: bool,
) -> Result<(), OutOfMemory> {
    if let Some(known) = meeting
        && (known.is_head || !is_back)
    {
        return Ok(());
    }
    *meeting = Some(Meeting::new(alloc, temporaries, is_back)?);
    Ok(())
}

pub(super) fn meetings_of(
    alloc: Global,
    temporaries: usize,
    body: &[Instruction],
) -> Result<Vec<Option<Meeting>>, OutOfMemory> {
    let mut meetings = Vec::with_capacity(alloc, body.len())?;
    for _ in 0..body.len() {
        meetings.push(None)?;
    }
    for place in 0..body.len() {
        if let Some(there) = target(place, &body[place])
            && there < meetings.len()
        {
            meet(alloc, temporaries, &mut meetings[there], there <= place)?;
        }
    }
    Ok(meetings)
}

impl Claimed {
    // What arrived in the last sweep, which is no more than was claimed; for the order, what was claimed there.
    pub(super) fn add(
        &mut self,
        alloc: Global,
        temporaries: usize,
        meeting: Option<Meeting>,
    ) -> Result<(), OutOfMemory> {
        let Some(meeting) = meeting else {
            self.kinds.push(None)?;
            self.orders.push(None)?;
            return Ok(());
        };
        let orders = if meeting.has_come {
            meeting.orders()
        } else {
            no_orders()
        };
        let Meeting {
            is_head: _,
            claimed: _,
            claimed_orders: _,
            come,
            come_orders: _,
            has_come,
            widened: _,
        } = meeting;
        let kinds = if has_come {
            come
        } else {
            Kinds::new(alloc, temporaries)?
        };
        self.kinds.push(Some(kinds))?;
        self.orders.push(Some(orders))?;
        Ok(())
    }
}
