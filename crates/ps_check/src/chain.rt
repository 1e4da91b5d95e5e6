//! How deeply routines are nested: at most 15 levels within the program block.

ghost use Rattle.std.specs.Prelude.{◌≤◌, length};

use ps_check_judgement::answer::broken;
use ps_check_judgement::refusal::{CheckFault, Rule};
use ps_tree::tree::Routine;
use std::alloc::{AllocError, Global};
use std::marker::Model;

/// The numbers of a block's routine and of those that enclose it, innermost first. A contract sees them as a list.
#[derive(Drop)]
pub struct Chain {
    numbers: Vec<u32>,
}

impl Model for Chain {
    ghost use Rattle.std.specs.Prelude.{ℕ, List, ◌≤◌, length};

    ghost Value = { List ℕ };

    ghost view = { λ c. c.numbers.items };

    ghost invariant = { λ c. length c.numbers.items ≤ 16 };
}

impl Chain {
    ghost use Rattle.std.specs.Prelude.{◌≡◌, ◌≤◌, ◌∷◌, [], IfOk, IfErr, Some, None, length, nat_lt};
    ghost use Rattle.ps_check_judgement.specs.Judged.{Answers, provided};
    ghost use Rattle.ps_check_judgement.specs.declared.refusal.Rule.TheVariants.{Limit};
    ghost use Rattle.ps_check.specs.Blocks.{own_number};
    ghost use Rattle.ps_check.specs.Programs.{program_chain};

    /// The chain of the program block.
    pub fn program(alloc: Global) -> Result<Chain, AllocError>
        ensures { IfOk result (λ chain. chain ≡ program_chain) }
    {
        let mut numbers = Vec::new(alloc);
        numbers.push(0)?;
        Ok(Chain { numbers })
    }

    /// The chain of a routine of the block, which must not be nested too deeply. `at` is where a fault is reported.
    pub fn inner(&self, alloc: Global, number: u32, at: u32) -> Result<Chain, CheckFault>
        ensures { Answers result (λ inner. inner)
            (provided (nat_lt (length self.now) 16) Limit at (number ∷ self.now)) }
    {
        if self.numbers.len() >= 16 {
            return Err(broken(Rule::Limit, at));
        }
        let mut numbers = Vec::new(alloc);
        numbers.push(number)?;
        numbers.extend_from_slice(&self.numbers)?;
        Ok(Chain { numbers })
    }

    /// The number of the block's routine.
    #[tactic(auto, unfolding(crate::specs::Blocks::own_number))]
    pub fn own_number(&self) -> u32
        ensures { result ≡ own_number self.now }
    {
        match self.numbers.first() {
            None => 0,
            Some(number) => *number,
        }
    }

    /// The length of the list.
    pub fn depth(&self) -> usize
        ensures { result ≡ length self.now }
    {
        self.numbers.len()
    }

    /// The numbers.
    pub fn into_numbers(self) -> Vec<u32>
        ensures numbers { result.items ≡ self }
        ensures shallow { length result.items ≤ 16 }
    {
        let Chain { numbers } = self;
        numbers
    }
}

/// A routine whose block has been read.
#[derive(Drop)]
pub struct Finished {
    pub routine: Routine,
    ghost shallow: { length routine.chain.items ≤ 16 },
}
