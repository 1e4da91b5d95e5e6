//! Combines the results of calls that may fail. The value of a result is passed on as it is, whatever its type.

ghost use Rattle.std.specs.Prelude.{◌≡◌, ◌++◌, ◌∷◌, [], IfOk, IfErr, Ok, Err};
ghost use Rattle.std.specs.Result.{IsOkAnd};
ghost use Rattle.ps_check_judgement.specs.Judged.{both};
ghost use Rattle.ps_check_judgement.specs.Refusal.{IsFault};
ghost use Rattle.ps_check_judgement.specs.declared.refusal.CheckFault.TheVariants.{Broken};

use crate::refusal::{CheckFault, Rule};
use std::alloc::Global;

/// The fault of a broken rule, with the offset of the token at which it is reported.
pub fn broken(rule: Rule, at: u32) -> CheckFault
    ensures { result ≡ Broken rule at }
{
    CheckFault::Broken { rule, at }
}

/// Two results as one: both values, or the first error.
pub fn paired<A: Drop, B: Drop, E: Drop>(
    first: Result<A, E>,
    second: Result<B, E>,
) -> Result<(A, B), E>
    ensures { result ≡ both first second }
{
    match (first, second) {
        (Ok(first), Ok(second)) => Ok((first, second)),
        (Err(error), _) | (Ok(_), Err(error)) => Err(error),
    }
}

/// The value of a result, on the heap.
pub fn boxed_answer<A: Drop>(
    alloc: Global,
    answer: Result<A, CheckFault>,
) -> Result<Box<A>, CheckFault>
    ensures ok { IfOk result (λ part. answer ≡ Ok part.value) }
    ensures err { IfErr result (λ fault. IsFault fault → answer ≡ Err fault) }
{
    Ok(Box::new(alloc, answer?)?)
}

/// Adds the value of a result to a list, which stays unchanged if that fails.
pub fn push_answer<A: Drop>(
    list: &mut Vec<A>,
    answer: Result<A, CheckFault>,
) -> Result<(), CheckFault>
    ensures ok { IfOk result (λ _. IsOkAnd answer (λ part. list.new.items ≡ list.old.items ++ part ∷ [])) }
    ensures err { IfErr result (λ fault. IsFault fault → answer ≡ Err fault) }
    ensures kept { IfErr result (λ _. list.new.items ≡ list.old.items) }
{
    list.push(answer?)?;
    Ok(())
}
