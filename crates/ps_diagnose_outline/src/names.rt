//! The names that are near to one.

use crate::outline::Outline;
use crate::parts::Point;
use ps_diagnose::nearest;
use std::alloc::{AllocError, Global};

// The longest name that is compared with others.
const LONGEST: usize = 64;

// A name, or an empty one if it is too long to be compared.
fn compared(name: &str) -> &str {
    if name.len() > LONGEST { "" } else { name }
}

impl<'a> Outline<'a> {
    /// The one of some points whose name is nearest in spelling; of several equally near ones the last. Names of more
    /// than 64 letters are near to none.
    pub fn nearest_point(
        &self,
        alloc: Global,
        name: &str,
        points: &[Point],
    ) -> Result<Option<Point>, AllocError> {
        let mut names = Vec::new(alloc);
        for point in points {
            names.push(compared(self.spelling(point.spelling)))?;
        }
        match nearest(alloc, compared(name), names.as_slice())? {
            Some(number) => Ok(points.get(number).copied()),
            None => Ok(None),
        }
    }
}
