// `with`: records are opened one after another, each within those before it.

ghost use Rattle.std.specs.Prelude.{◌≡◌, ◌++◌, ◌+◌, ◌≤◌, map, OnOk, IfOk};
ghost use Rattle.ps_lower_bounds.specs.Weights.{place_weight, with_weight};
ghost use Rattle.ps_lower_code.specs.Statements.{with_code, with_scope, with_depth};
ghost use Rattle.ps_lower_code.specs.Values.{place_code, place_site};
ghost use Rattle.ps_lower.specs.Levels.{scope_of, site_of, within, where_open, opened_of, opened_within};
ghost use Rattle.ps_tree.specs.View.{place_of};

use crate::depth::{MAX_NUMBER, held};
use crate::level::{Level, Records};
use crate::out::Code;
use crate::places::place_temporary;
use crate::site::Site;
use crate::values::place;
use ps_tree::tree::Place;
use std::alloc::AllocError;

/// Up to this many records are copied for a `with` within theirs. Without copies, a search would walk over as many
/// lists as there are statements nested in one another.
const FEW: usize = 1024;

/// The records that a `with` opens, innermost last, and the depth of the code within them.
#[derive(Drop)]
struct Opening {
    sites: Vec<Site>,
    depth: u32,
}

/// The records that are open in a `with`, and the depth of the code within them. `sites` has some of those that were
/// open before, followed by those that it opens, innermost last; `outer` has the rest.
#[derive(Drop)]
pub struct Opened<'a> {
    pub sites: Vec<Site>,
    pub outer: &'a Records<'a>,
    pub depth: u32,
}

/// A record within others that the same `with` opens.
fn open<'a>(
    out: &mut Code,
    level: &'a Level<'a>,
    variable: &Place,
    sites: &'a [Site],
    t: u32,
) -> Result<Site, AllocError>
    requires { t + place_weight (within (scope_of level.now) sites.now) (place_of variable.now) ≤ MAX_NUMBER }
    ensures code { OnOk result (out.new ≡ out.old ++ place_code (within (scope_of level.now) sites.now)
        (place_of variable.now) t 0) }
    ensures site { IfOk result (λ s. site_of s ≡ place_site (within (scope_of level.now) sites.now)
        (place_of variable.now) t) }
{
    let inner = Level {
        checked: level.checked,
        chain: level.chain,
        opened: Records::Inside {
            sites,
            outer: &level.opened,
        },
    };
    place(out, &inner, variable, t, 0)
}

/// Opens records, each within those before it.
fn open_all(
    out: &mut Code,
    level: &Level,
    records: &[Place],
    calls: bool,
    d: u32,
) -> Result<Opening, AllocError>
    requires { d + with_weight (scope_of level.now) (map place_of records.now) calls d ≤ MAX_NUMBER }
    ensures code { OnOk result
        (out.new ≡ out.old ++ with_code (scope_of level.now) (map place_of records.now) calls d) }
    ensures scope { IfOk result (λ o. within (scope_of level.now) o.sites.items ≡ with_scope (scope_of level.now)
        (map place_of records.now) calls d) }
    ensures depth { IfOk result (λ o. o.depth ≡ with_depth (map place_of records.now) calls d) }
{
    let mut sites = Vec::new(out.alloc());
    let mut depth = d;
    for variable in records {
        let t = held(calls, depth);
        let site = open(out, &*level, variable, sites.as_slice(), t)?;
        sites.push(site)?;
        depth = place_temporary(variable, t) + 1;
    }
    Ok(Opening { sites, depth })
}

/// The innermost of these records, if they are few, and those outside them.
fn near<'a>(records: &'a Records<'a>) -> (&'a [Site], &'a Records<'a>)
    ensures { opened_within (opened_of result.1.now) result.0.now ≡ opened_of records.now }
{
    match records {
        Records::Inside { sites, outer } if sites.len() <= FEW => (sites, outer),
        _ => (&[], records),
    }
}

/// Opens the records of a `with`.
#[tactic(auto, using(crate::proofs::Opening::joined))]
pub fn open_within<'a>(
    out: &mut Code,
    level: &'a Level<'a>,
    records: &[Place],
    calls: bool,
    d: u32,
) -> Result<Opened<'a>, AllocError>
    requires { d + with_weight (scope_of level.now) (map place_of records.now) calls d ≤ MAX_NUMBER }
    ensures code { OnOk result
        (out.new ≡ out.old ++ with_code (scope_of level.now) (map place_of records.now) calls d) }
    ensures scope { IfOk result (λ o. where_open (scope_of level.now)
        (opened_within (opened_of o.outer.now) o.sites.items)
        ≡ with_scope (scope_of level.now) (map place_of records.now) calls d) }
    ensures depth { IfOk result (λ o. o.depth ≡ with_depth (map place_of records.now) calls d) }
{
    let Opening { sites: own, depth } = open_all(out, level, records, calls, d)?;
    let (before, outer) = near(&level.opened);
    let mut sites = Vec::from_slice(out.alloc(), before)?;
    sites.extend_from_slice(own.as_slice())?;
    Ok(Opened {
        sites,
        outer,
        depth,
    })
}
