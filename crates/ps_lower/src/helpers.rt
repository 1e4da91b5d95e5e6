// Calls of run-time routines.

ghost use Rattle.std.specs.Prelude.{◌≡◌, ◌++◌, ◌≤◌, ◌∷◌, [], pos, OnOk};
ghost use Rattle.tac_rt.specs.declared.run_time.RunTime.TheVariants.{CompareBytes};
ghost use Rattle.ps_lower_code.specs.Scopes.{beside, helper, copy_code};
ghost use Rattle.ps_lower_code.specs.Values.{text_length};
ghost use Rattle.ps_lower.specs.Levels.{scope_of};
ghost use Rattle.ps_tree.specs.View.{structure_of};
ghost use Rattle.tac_code.specs.declared.code.Instruction.TheVariants as i;

use crate::depth::{MAX_NUMBER, beside};
use crate::level::Level;
use crate::levels::run_time_number;
use crate::out::Code;
use crate::texts::text_length;
use ps_tree::tree::Structure;
use std::alloc::AllocError;
use tac_rt::RunTime;

/// Loads a natural number.
pub fn amount(out: &mut Code, n: u32, t: u32) -> Result<(), AllocError>
    requires { n ≤ MAX_NUMBER }
    ensures { OnOk result (out.new ≡ out.old ++ i.Literal t (pos n) ∷ []) }
{
    out.literal(t, n as i32)
}

/// A call of a run-time routine.
pub fn help(
    out: &mut Code,
    level: &Level,
    routine: RunTime,
    operands: &[u32],
    to: u32,
) -> Result<(), AllocError>
    ensures { OnOk result (out.new ≡ out.old ++ helper (scope_of level.now) routine operands.now to ∷ []) }
{
    let number = run_time_number(level, routine);
    out.call_run_time(to, number, operands)
}

/// Copies the words at the address in `from` to the address in `to`. The temporary t is used.
pub fn copy(
    out: &mut Code,
    level: &Level,
    to: u32,
    from: u32,
    t: u32,
    bytes: u32,
) -> Result<(), AllocError>
    requires { bytes ≤ MAX_NUMBER }
    ensures { OnOk result (out.new ≡ out.old ++ copy_code (scope_of level.now) to from t bytes) }
{
    amount(out, bytes, t)?;
    help(out, level, RunTime::CopyWords, &[to, from, t], t)
}

/// The comparison of two strings of the same length.
pub fn compare_strings(
    out: &mut Code,
    level: &Level,
    e: &Structure,
    left: u32,
    right: u32,
    to: u32,
) -> Result<(), AllocError>
    requires depth { right ≤ 4294960000 }
    requires length { text_length (structure_of e.now) ≤ MAX_NUMBER }
    ensures { OnOk result (out.new ≡ out.old ++ i.Literal (beside right) (pos (text_length (structure_of e.now)))
        ∷ helper (scope_of level.now) CompareBytes (left ∷ right ∷ beside right ∷ []) to ∷ []) }
{
    let t = beside(right);
    amount(out, text_length(e), t)?;
    help(out, level, RunTime::CompareBytes, &[left, right, t], to)
}
