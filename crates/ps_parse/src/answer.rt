//! Combines the results of calls that may fail. The value of a result is passed on as it is, whatever its type.

ghost use Rattle.std.specs.Prelude.{◌≡◌, ◌≢◌, ◌++◌, ◌∷◌, [], OnOk, IfOk, IfErr, IsOkAnd, Ok, Err};
ghost use Rattle.ps_parse.specs.declared.error.ReadFailure.TheVariants.{OutOfMemory};

use crate::error::ReadFailure;
use ps_syntax::{Boxed, Items};
use std::alloc::Global;

/// Adds the value of a result to a list.
pub fn push_answer<A: Drop>(
    list: &mut Items<A>,
    answer: Result<A, ReadFailure>,
) -> Result<(), ReadFailure>
    ensures ok { OnOk result (IsOkAnd answer (λ item. list.new ≡ list.old ++ item ∷ [])) }
    ensures err { IfErr result (λ fault. fault ≢ OutOfMemory → answer ≡ Err fault) }
{
    list.push(answer?)?;
    Ok(())
}

/// The value of a result, on the heap.
pub fn boxed_answer<A: Drop>(
    alloc: Global,
    answer: Result<A, ReadFailure>,
) -> Result<Boxed<A>, ReadFailure>
    ensures ok { IfOk result (λ value. answer ≡ Ok value) }
    ensures err { IfErr result (λ fault. fault ≢ OutOfMemory → answer ≡ Err fault) }
{
    Ok(Boxed::new(alloc, answer?)?)
}

/// A value, and the value of a result.
pub fn beside<A: Drop, B: Drop>(
    value: A,
    answer: Result<B, ReadFailure>,
) -> Result<(A, B), ReadFailure>
    ensures first { IfOk result (λ pair. value ≡ pair.0) }
    ensures second { IfOk result (λ pair. answer ≡ Ok pair.1) }
    ensures err { IfErr result (λ fault. answer ≡ Err fault) }
{
    Ok((value, answer?))
}
