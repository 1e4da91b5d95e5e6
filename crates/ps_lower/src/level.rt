// Where code is made: in a routine of a program, within the routines that enclose it, and within the records that
// `with` opened.

use crate::frames::Frames;
use crate::site::Site;

/// The records that are open. Those of a `with` are not copied for the ones nested in it: there may be very many of
/// each.
#[derive(Clone, Copy)]
pub enum Records<'a> {
    Outside,
    /// Those that one `with` opened, innermost last, and those that were open before it.
    Inside {
        sites: &'a [Site],
        outer: &'a Records<'a>,
    },
}

/// A program with its frames, the numbers of a routine and of those that enclose it, innermost first, and the records
/// that are open.
#[derive(Clone, Copy)]
pub struct Level<'a> {
    pub checked: &'a Frames<'a>,
    pub chain: &'a [u32],
    pub opened: Records<'a>,
}
