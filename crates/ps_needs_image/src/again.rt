// An accepted text, read again for what its image doesn't contain.

ghost use Rattle.std.specs.Prelude.{IfSome};
ghost use Rattle.ps_tree.specs.Checked.{program_in};
ghost use Rattle.ps_build.specs.Accepts.{IsProgramOf};

use crate::names::names_of;
use ps_check::check;
use ps_parse::{parse, release};
use ps_scan::scan;
use ps_text::{Source, Span};
use ps_tree::program::Checked;
use std::alloc::Global;

/// The checked program of a text, and where the names of its routines are.
pub(crate) struct Again {
    pub checked: Checked,
    pub names: Vec<Span>,
}

/// The program of an accepted text; `None` if out of memory.
pub(crate) fn read_again(alloc: Global, text: &[u8]) -> Option<Again>
    ensures { IfSome result (λ again. IsProgramOf text.now (program_in again.checked)) }
{
    let Ok(source) = Source::new(text) else {
        return None;
    };
    let Ok(tokens) = scan(alloc, &source) else {
        return None;
    };
    let Ok(tree) = parse(alloc, &source, &tokens) else {
        return None;
    };
    let names = names_of(alloc, &source, &tree);
    let checked = check(alloc, &source, &tree);
    release(tree);
    match (checked, names) {
        (Ok(checked), Ok(names)) => Some(Again { checked, names }),
        _ => None,
    }
}
