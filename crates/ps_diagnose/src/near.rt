//! Names that are near by spelling.

ghost use Rattle.std.specs.Prelude.{◌<◌, length, IfOk, IfSome};

use std::alloc::{AllocError, Global};
use strsim::damerau_levenshtein;

// How far a name may be from another one: a third of its length, and at least one letter.
fn reach_of(name: &str) -> usize {
    (name.len() / 3).max(1)
}

/// Which of several names is nearest in spelling, by its number from 0: the one with the fewest letters left out,
/// inserted, swapped or changed; none if all are further away than a third of the length. Of several equally near ones
/// it is the last. Names are in lower case.
pub fn nearest(alloc: Global, name: &str, names: &[&str]) -> Result<Option<usize>, AllocError>
    ensures { IfOk result (λ best. IfSome best (λ at. at < length names.now)) }
{
    let mut best = None;
    let mut least = reach_of(name);
    for (at, other) in names.iter().enumerate() {
        let distance = damerau_levenshtein(alloc, name, other)?;
        if distance <= least {
            least = distance;
            best = Some(at);
        }
    }
    Ok(best)
}
