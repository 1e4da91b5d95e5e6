// Variables: the code that reaches them, and where they are after it.

ghost use Rattle.std.specs.Prelude.{◌≡◌, ◌++◌, ◌≤◌, ◌∷◌, [], ◌+◌, None, option_map, slice_get, false, OnOk, IfOk};
ghost use Rattle.ps_lower_code.specs.Scopes.{kind_at, frame_base, site_code};
ghost use Rattle.ps_lower_code.specs.Values.{field_site, reference_code, entry_site, name_code, name_site};
ghost use Rattle.ps_lower_code.specs.Values.{place_temporary, element_site, index_code, is_byte_selector};
ghost use Rattle.ps_lower_code.specs.Values.{is_byte_after, is_byte, load_code, store_code};
ghost use Rattle.ps_lower_bounds.specs.Weights.{name_reach};
ghost use Rattle.ps_lower_layout.specs.Shapes.{shape_of, component_bytes, field_offset};
ghost use Rattle.ps_lower.specs.Levels.{scope_of, site_of};
ghost use Rattle.ps_lower.specs.Sites.{site_behind, site_at};
ghost use Rattle.ps_tree.specs.View.{type_of, base_of, selector_of, selectors_of, place_of};
ghost use Rattle.tac_code.specs.declared.code.Instruction.TheVariants as i;

use crate::calling::selectors_call;
use crate::depth::{MAX_NUMBER, kept};
use crate::level::{Level, Records};
use crate::levels::{entry, frame};
use crate::out::Code;
use crate::shapes::{component_bytes, field_offset, index_of, is_byte_array};
use crate::site::Site;
use ps_tree::line::Line;
use ps_tree::tree::{OpenedField, Place, PlaceBase, Selector};
use ps_tree::types::Ty;
use std::alloc::AllocError;
use tac_code::code::{Base, Instruction};

/// The temporary that may hold a variable's address.
pub fn place_temporary(place: &Place, d: u32) -> u32
    requires { d ≤ 4294967000 }
    ensures value { result ≡ place_temporary (place_of place.now) d }
    ensures small { result ≤ d + 1 }
{
    kept(selectors_call(&place.selectors), d)
}

#[tactic(auto, unfolding(ps_tree::specs::View::selector_of))]
fn is_byte_selector(selector: &Selector) -> bool
    ensures { result ≡ is_byte_selector (selector_of selector.now) }
{
    match selector {
        Selector::Element { ty, .. } => is_byte_array(ty),
        Selector::Field { .. } | Selector::Target { .. } => false,
    }
}

fn is_byte_behind(selectors: &[Selector]) -> bool
    ensures { result ≡ is_byte_after false (selectors_of selectors.now) }
{
    let mut byte = false;
    for selector in selectors {
        byte = is_byte_selector(selector);
    }
    byte
}

/// Whether a variable is one byte of a word.
pub fn is_byte(place: &Place) -> bool
    ensures { result ≡ is_byte (place_of place.now) }
{
    is_byte_behind(&place.selectors)
}

/// An entry of the frame `up` levels out, whose parts are addressed from a base: a variable, or the address of one.
fn reference(
    out: &mut Code,
    level: &Level,
    base: Base,
    t: u32,
    up: u32,
    index: u32,
) -> Result<Site, AllocError>
    ensures code { OnOk result (base ≡ frame_base (scope_of level.now) t up → out.new ≡ out.old ++ reference_code
        (scope_of level.now) (kind_at (scope_of level.now) up index) t up index) }
    ensures site { IfOk result
        (λ s. base ≡ frame_base (scope_of level.now) t up → site_of s ≡ entry_site (scope_of level.now)
        (kind_at (scope_of level.now) up index) t up index) }
{
    let spot = entry(level, up, index);
    if spot.reference {
        out.load(t, base, spot.offset)?;
        Ok(Site {
            base: Base::Temporary(t),
            offset: 0,
        })
    } else {
        Ok(Site {
            base,
            offset: spot.offset,
        })
    }
}

/// Where the record with this number is that `with` opened, if there is one; the innermost is 0.
fn opened(level: &Level, which: u32) -> Option<Site>
    ensures { option_map site_of result ≡ slice_get (scope_of level.now).opened which }
{
    let mut here = &level.opened;
    let mut left = which as usize;
    loop {
        match here {
            Records::Outside => return None,
            Records::Inside { sites, outer } => {
                let count = sites.len();
                if left < count {
                    return Some(sites[count - 1 - left]);
                }
                left -= count;
                here = outer;
            }
        }
    }
}

/// A field of a record that `with` opened.
fn field(level: &Level, field: &OpenedField) -> Site
    requires { (field_site (scope_of level.now) (slice_get (scope_of level.now).opened field.now.which)
        (field_offset (shape_of (type_of field.now.ty)) field.now.number)).offset ≤ MAX_NUMBER }
    ensures { site_of result ≡ field_site (scope_of level.now) (slice_get (scope_of level.now).opened field.now.which)
        (field_offset (shape_of (type_of field.now.ty)) field.now.number) }
{
    let Some(record) = opened(level, field.which) else {
        return Site {
            base: Base::Frame,
            offset: 0,
        };
    };
    behind(record, field_offset(&field.ty, field.number))
}

/// The variable that a name denotes.
pub fn name(out: &mut Code, level: &Level, name: &PlaceBase, t: u32) -> Result<Site, AllocError>
    requires depth { t ≤ 4294960000 }
    requires reach { name_reach (scope_of level.now) (base_of name.now) ≤ MAX_NUMBER }
    ensures code { OnOk result (out.new ≡ out.old ++ name_code (scope_of level.now) (base_of name.now) t) }
    ensures site { IfOk result (λ s. site_of s ≡ name_site (scope_of level.now) (base_of name.now) t) }
{
    match name {
        PlaceBase::Entry { up, index } => {
            let base = frame(out, level, t, *up)?;
            reference(out, level, base, t, *up, *index)
        }
        PlaceBase::Opened(opened) => Ok(field(level, opened)),
    }
}

/// The site `bytes` bytes further on.
pub fn behind(site: Site, bytes: u32) -> Site
    requires { site.offset + bytes ≤ 4294967295 }
    ensures { site_of result ≡ site_behind (site_of site) bytes }
{
    Site {
        base: site.base,
        offset: site.offset + bytes,
    }
}

/// The component of an array whose index is in a temporary.
pub fn indexed(
    out: &mut Code,
    ty: &Ty,
    site: Site,
    t: u32,
    index: u32,
    line: Line,
) -> Result<Site, AllocError>
    requires { component_bytes (shape_of (type_of ty.now)) ≤ MAX_NUMBER }
    ensures code { OnOk result (out.new ≡ out.old ++ index_code None (type_of ty.now)
        (site_of site) t index line.number []) }
    ensures site { IfOk result (λ s. site_of s ≡ element_site None (site_of site) t) }
{
    let width = component_bytes(ty);
    out.index(t, site.base, index, index_of(ty), width, line)?;
    Ok(Site {
        base: Base::Temporary(t),
        offset: site.offset,
    })
}

/// The object that a pointer points to.
pub fn pointed(out: &mut Code, site: Site, t: u32, line: Line) -> Result<Site, AllocError>
    ensures code { OnOk result (out.new ≡ out.old ++ i.Load t site.base site.offset ∷ i.CheckPointer t 6 line.number
        ∷ []) }
    ensures site { IfOk result (λ s. site_of s ≡ site_at t) }
{
    out.load(t, site.base, site.offset)?;
    out.push_at(
        Instruction::CheckPointer {
            pointer: t,
            error: 6,
            line: line.number,
        },
        line,
    )?;
    Ok(Site {
        base: Base::Temporary(t),
        offset: 0,
    })
}

/// Loads what is at a site, a byte or a word, as the word in d.
pub fn fetch(out: &mut Code, byte: bool, d: u32, site: Site) -> Result<(), AllocError>
    ensures { OnOk result (out.new ≡ out.old ++ load_code byte d (site_of site)) }
{
    if byte {
        out.load_byte(d, site.base, site.offset)
    } else {
        out.load(d, site.base, site.offset)
    }
}

/// Stores the word in t at a site, as a byte or a word.
pub fn keep(out: &mut Code, byte: bool, site: Site, t: u32) -> Result<(), AllocError>
    ensures { OnOk result (out.new ≡ out.old ++ store_code byte (site_of site) t) }
{
    if byte {
        out.store_byte(site.base, site.offset, t)
    } else {
        out.store(site.base, site.offset, t)
    }
}

/// The address of a site of `extent` bytes.
pub fn address(out: &mut Code, t: u32, site: Site, extent: u32) -> Result<(), AllocError>
    ensures { OnOk result (out.new ≡ out.old ++ site_code t (site_of site) extent) }
{
    out.offset(t, site.base, site.offset, extent)
}
