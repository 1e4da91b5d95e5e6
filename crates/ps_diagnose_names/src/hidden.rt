//! Names that a field or a parameter hides in its own record or heading (32, 33).

use crate::context::Context;
use crate::why::{Help, Mark, Why};
use ps_diagnose_outline::{Point, PointKind, RegionKind};

// How many records and headings in one another are searched.
const DEEPEST: usize = 500;

// What is told of a field, or of a parameter.
#[derive(Clone, Copy)]
struct Words {
    /// If it hides a type or a constant.
    form: &'static str,
    /// If it doesn't.
    alone: &'static str,
    mark: &'static str,
    help: &'static str,
}

const FIELD: Words = Words {
    form: "`@p` is a field of this record, which hides @w of that name",
    alone: "`@p` is a field of this record, not a type or a constant",
    mark: "the field",
    help: "give the field another name",
};

const PARAMETER: Words = Words {
    form: "`@p` is a parameter of this heading, which hides @w of that name",
    alone: "`@p` is a parameter of this heading, not a type",
    mark: "the parameter",
    help: "give the parameter another name",
};

impl<'a> Context<'a> {
    /// A name that denotes a field of the record around it, or a parameter of the heading.
    pub(crate) fn hidden(&self, why: &mut Why) -> bool {
        let Some(part) = self.part_here() else {
            return false;
        };
        let words = if matches!(part.kind, PointKind::Field) {
            FIELD
        } else {
            PARAMETER
        };
        why.mark = Mark::At(words.mark, part.name);
        let hidden = match self.kind_of(self.fault.place) {
            Some(PointKind::Type) => "a type",
            Some(PointKind::Constant | PointKind::Member) => "a constant",
            _ => {
                why.form = words.alone;
                return true;
            }
        };
        why.form = words.form;
        why.word = hidden;
        why.next_mark = Mark::Declared(self.fault.place);
        why.help = Help::Is(words.help);
        true
    }

    // The field or the parameter that the name at the place denotes.
    fn part_here(&self) -> Option<Point> {
        let spelling = self.outline.spelling_at(self.fault.place.from)?;
        let mut at = self.outline.region_at(self.fault.place.from);
        for _ in 0..DEEPEST {
            let region = self.outline.region(at)?;
            if !matches!(region.kind, RegionKind::Record | RegionKind::Heading) {
                return None;
            }
            if let Some(part) = self.outline.point_in(at, spelling) {
                return Some(part);
            }
            at = region.around;
        }
        None
    }
}
