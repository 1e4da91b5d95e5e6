// Looking ahead at the input.

ghost use Rattle.std.specs.Prelude.{◌≡◌, ◌++◌, ◌≤◌, ◌∷◌, [], pos, OnOk};
ghost use Rattle.tac_rt.specs.declared.run_time.RunTime.TheVariants.{LookAhead};
ghost use Rattle.ps_lower_code.specs.Scopes.{even_from, input_site, site_code, helper};
ghost use Rattle.ps_lower.specs.Levels.{scope_of, site_of};
ghost use Rattle.tac_code.specs.declared.code.Instruction.TheVariants as i;

use crate::depth::{MAX_NUMBER, even_from};
use crate::helpers::help;
use crate::level::Level;
use crate::out::Code;
use crate::places::address;
use crate::site::Site;
use ps_tree::line::Line;
use std::alloc::AllocError;
use tac_code::code::Base;
use tac_rt::RunTime;

/// Where the words are that record how much of the input was read ahead.
pub fn input(level: &Level) -> Site
    ensures { site_of result ≡ input_site (scope_of level.now) }
{
    Site {
        base: Base::Program,
        offset: 4 * level.checked.words(0),
    }
}

/// What comes next in the input: a character, the end of a line, or the end of the input.
pub fn look_ahead(out: &mut Code, level: &Level, d: u32) -> Result<(), AllocError>
    requires { d ≤ MAX_NUMBER }
    ensures { OnOk result (out.new ≡ out.old ++ (site_code (even_from d) (input_site (scope_of level.now)) 8 ++ helper
        (scope_of level.now) LookAhead (even_from d ∷ []) d ∷ [])) }
{
    let t = even_from(d);
    let site = input(level);
    address(out, t, site, 8)?;
    help(out, level, RunTime::LookAhead, &[t], d)
}

/// The same, but the end of the input is an error.
pub fn look_on(out: &mut Code, level: &Level, line: Line, d: u32) -> Result<(), AllocError>
    requires { d ≤ MAX_NUMBER }
    ensures { OnOk result (out.new ≡ out.old ++ (site_code (even_from d) (input_site (scope_of level.now)) 8 ++ helper
        (scope_of level.now) LookAhead (even_from d ∷ []) d ∷ i.CheckRange d (pos 1) (pos 2) 9 line.number ∷ [])) }
{
    look_ahead(out, level, d)?;
    out.check_range(d, 1, 2, 9, line)
}
