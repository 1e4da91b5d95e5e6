// A console over lists that fails at chosen calls, for tests of what comes after a device fault.

ghost use Rattle.std.specs.Prelude.{◌≡◌, ◌∷◌, [], ◌↔◌, drop, slice_get, IfOk, OnOk, OnErr, IsErr, MatchResult, IsTrue};
ghost use Rattle.risc_machine.specs.Console.{Took, Wrote, Failed, one_more};
ghost use Rattle.risc_machine.specs.Fused.{Fuse, fused_world, FailsTake, FailsPut, after_take, after_failed_take};
ghost use Rattle.risc_machine.specs.Fused.{after_put, after_failed_put};

use crate::OutOfMemory;
use crate::console::{Console, DeviceFault};
use std::alloc::Global;
use std::marker::Model;

/// A console over lists that reports its bytes, and fails at one call of `take` and one of `put`.
#[derive(Drop)]
pub struct Fused {
    input: Vec<u8>,
    at: usize,
    output: Vec<u8>,
    room: usize,
    failing_take: u64,
    failing_put: u64,
    faults: u64,
}

impl Model for Fused {
    ghost use Rattle.std.specs.Prelude.{◌≤◌, drop, length, vec_capacity};
    ghost use Rattle.risc_machine.specs.Fused.{Fuse};

    ghost Value = { Fuse };

    ghost view = { λ a. record {
      input = drop a.at a.input.items;
      output = a.output.items;
      room = a.room;
      failing_take = a.failing_take;
      failing_put = a.failing_put;
      faults = a.faults;
    } };

    ghost invariant = { λ a. a.room ≤ vec_capacity a.output };
}

impl Fused {
    /// The console with this input that fails at the call of `take` and at the call of `put` with these numbers (from
    /// 1; 0 for none), each once, and at any `put` past its room.
    ///
    /// Its room is reserved here; every other call is Ok.
    pub fn new(
        alloc: Global,
        input: &[u8],
        room: usize,
        take: u64,
        put: u64,
    ) -> Result<Fused, OutOfMemory>
        ensures { IfOk result (λ f. f ≡ record {
          input = input.now;
          output = [];
          room = room;
          failing_take = take;
          failing_put = put;
          faults = 0;
        }) }
    {
        Ok(Fused {
            input: input.to_vec(alloc)?,
            at: 0,
            output: Vec::with_capacity(alloc, room)?,
            room,
            failing_take: take,
            failing_put: put,
            faults: 0,
        })
    }

    /// The bytes that were put.
    pub fn output(&self) -> &[u8]
        ensures { result.now ≡ self.now.output }
    {
        &self.output
    }

    // Removes and returns the first byte left.
    fn next_byte(&mut self) -> Option<u8>
        ensures byte { result ≡ slice_get self.old.input 0 }
        ensures rest { self.new ≡ record self.old { input = drop 1 self.old.input } }
    {
        let byte = self.input.get(self.at).copied()?;
        self.at += 1;
        Some(byte)
    }

    // Counts a device fault.
    fn fault(&mut self) -> DeviceFault
        ensures { self.new ≡ record self.old { faults = one_more self.old.faults } }
    {
        self.faults = self.faults.saturating_add(1);
        DeviceFault
    }
}

impl Console for Fused {
    ghost use Rattle.risc_machine.specs.Fused.{fused_world};

    ghost world = { fused_world };

    fn take(&mut self) -> Result<Option<u8>, DeviceFault>
        ensures world { MatchResult result (λ byte. Took byte (fused_world self.old) (fused_world self.new))
            (λ _. Failed (fused_world self.old) (fused_world self.new)) }
        ensures fails { IsErr result ↔ FailsTake self.old }
        ensures ok { IfOk result (λ byte. byte ≡ slice_get self.old.input 0) }
        ensures after_ok { OnOk result (self.new ≡ after_take self.old) }
        ensures after_err { OnErr result (self.new ≡ after_failed_take self.old) }
    {
        let fails = self.failing_take == 1;
        self.failing_take = self.failing_take.saturating_sub(1);
        if fails {
            return Err(self.fault());
        }
        Ok(self.next_byte())
    }

    fn put(&mut self, byte: u8) -> Result<(), DeviceFault>
        ensures world { MatchResult result (λ _. Wrote byte (fused_world self.old) (fused_world self.new))
            (λ _. Failed (fused_world self.old) (fused_world self.new)) }
        ensures fails { IsErr result ↔ FailsPut self.old }
        ensures after_ok { OnOk result (self.new ≡ after_put byte self.old) }
        ensures after_err { OnErr result (self.new ≡ after_failed_put self.old) }
    {
        let fails = self.failing_put == 1 || self.room <= self.output.len();
        self.failing_put = self.failing_put.saturating_sub(1);
        if fails {
            return Err(self.fault());
        }
        self.output.push_reserved(byte);
        Ok(())
    }
}
