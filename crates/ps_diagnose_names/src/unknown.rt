//! Names that are not declared (30).

use crate::context::{Context, Place, long};
use crate::facts::{
    ALL, ALL_FUNCTIONS, CONSTANTS, PROCEDURES, TYPES, VALUES, VARIABLES, is_among, is_variable,
    required_kind,
};
use crate::spot::Spot;
use crate::why::{Change, Help, Mark, Why};
use ps_diagnose::{Telling, Text, nearest};
use ps_diagnose_outline::{Form, Point, PointKind, RegionKind, required_names};
use ps_scan::Kind;
use ps_syntax::Variable;
use ps_text::Span;
use std::alloc::AllocError;

// How many letters a name must have for a similar one to be reported.
const SHORTEST: usize = 3;

// How many letters it has at most.
const LONGEST: usize = 64;

// How many records that have a field of this name are considered.
const MOST_RECORDS: u32 = 20;

// How many other places of a name are reported.
const MOST_PLACES: usize = 6;

impl<'a> Place<'a> {
    /// Reports a name that is not declared.
    pub(crate) fn unknown(&self, out: &mut Telling) -> Result<(), AllocError> {
        if let Some((variable, before)) = self.seen().selected {
            return self.unknown_field(out, variable, before);
        }
        let mut why = Why::new();
        let is_known = self.context.unheaded(&mut why)
            || self.field_alone(&mut why)
            || self.out_of_reach(&mut why);
        if !is_known && !self.near_name(&mut why)? {
            self.undeclared(&mut why);
        }
        self.tell(&why, out);
        if !self.context.uses.is_empty() {
            out.note(self.context.told_uses());
        }
        Ok(())
    }

    // A field after a point.
    fn unknown_field(
        &self,
        out: &mut Telling,
        variable: &Variable,
        before: u32,
    ) -> Result<(), AllocError> {
        let mut why = Why::new();
        why.form = "`@p` is not a field of `@x`";
        why.text = match self
            .context
            .outline
            .token_before(self.context.fault.place.from)
        {
            Some(point) => Span {
                from: variable.name.from,
                to: point.span.from,
            },
            None => variable.name,
        };
        match self.context.record_before(variable, before) {
            Some(region) => self.tell_fields(out, &mut why, region),
            None => {
                self.tell(&why, out);
                Ok(())
            }
        }
    }

    // Reports the fields of a record, and tries the nearest.
    fn tell_fields(&self, out: &mut Telling, why: &mut Why, region: u32) -> Result<(), AllocError> {
        let fields = self.context.fields_of(region)?;
        if let Some(near) = self.context.nearest_of(fields.as_slice())? {
            why.other = near.name;
            why.change = Change::For(self.context.fault.place, "@y");
        }
        if let Some(record) = self.context.outline.region(region) {
            if let Some(token) = self.context.token_at(record.from) {
                why.mark = Mark::At("its record", token.span);
            }
        }
        self.tell(why, out);
        out.help(self.context.told_fields(fields.as_slice()));
        Ok(())
    }

    // A field without its record before it.
    fn field_alone(&self, why: &mut Why) -> bool {
        if !self.could_stand(PointKind::Variable) {
            return false;
        }
        let spelling = self.context.spelling_here();
        let mut tried: u32 = 0;
        for point in self.context.outline.points() {
            if matches!(point.kind, PointKind::Field)
                && Some(point.spelling) == spelling
                && tried < MOST_RECORDS
            {
                tried = tried.saturating_add(1);
                if self.context.field_of(*point, why) {
                    return true;
                }
            }
        }
        false
    }

    // A name that is declared in a routine which doesn't reach so far.
    fn out_of_reach(&self, why: &mut Why) -> bool {
        for point in self.context.outline.points() {
            if Some(point.spelling) == self.context.spelling_here()
                && self.could_stand(point.kind)
            {
                if self.local_of(*point, why) {
                    return true;
                }
            }
        }
        false
    }

    // A name of a routine.
    fn local_of(&self, point: Point, why: &mut Why) -> bool {
        match (
            self.context.outline.region(point.region),
            self.context.region_name(point.region),
        ) {
            (Some(region), Some(routine))
                if matches!(region.kind, RegionKind::Routine | RegionKind::Heading) => {
                why.form = "`@p` is not declared here: it is @k of `@x`";
                why.kind = point.kind;
                why.text = routine;
                why.mark = Mark::Here(point.name);
                if self.is_control() {
                    why.help = Help::Is("declare it in this block too");
                    self.with_variable(self.context.block_here(), why);
                } else if is_variable(point.kind) {
                    why.help = Help::Is(
                        "declare it in the block that contains both, or pass it as a parameter",
                    );
                } else {
                    why.help = Help::Is("declare it in the block that contains both");
                }
                true
            }
            _ => false,
        }
    }

    // Whether a kind of name is possible at the place.
    fn could_stand(&self, kind: PointKind) -> bool {
        let kinds = match self.spots.last() {
            Some(Spot::Statement(_, given)) if given.is_empty() => PROCEDURES | VARIABLES,
            Some(Spot::Statement(..)) => PROCEDURES,
            Some(Spot::TypeName(_) | Spot::IndexType(_) | Spot::Result(..)) => TYPES,
            Some(Spot::Call(..)) => ALL_FUNCTIONS,
            Some(Spot::Control(_)) => VARIABLES,
            Some(Spot::Definition(..) | Spot::Range(..) | Spot::CaseConstant(..)) => CONSTANTS,
            Some(Spot::Named(_)) => VALUES | ALL_FUNCTIONS,
            _ => ALL,
        };
        is_among(kind, kinds)
    }

    // A name that is near by its spelling.
    fn near_name(&self, why: &mut Why) -> Result<bool, AllocError> {
        let fitting = self.points_that_fit()?;
        let Some(point) = self.context.nearest_of(fitting.as_slice())? else {
            return self.near_required(why);
        };
        why.form = "`@p` is not declared, `@x` is";
        why.text = point.name;
        why.mark = Mark::Here(point.name);
        why.change = Change::Everywhere("@x");
        Ok(true)
    }

    // The visible names of a kind that is possible at the place.
    fn points_that_fit(&self) -> Result<Vec<Point>, AllocError> {
        let mut fitting = Vec::new(self.context.alloc);
        let region = self
            .context
            .outline
            .region_at(self.context.fault.place.from);
        for point in self.context.outline.points() {
            if self.could_stand(point.kind) && self.context.is_visible(region, *point) {
                fitting.push(*point)?;
            }
        }
        Ok(fitting)
    }

    // A required name that is near by its spelling.
    fn near_required(&self, why: &mut Why) -> Result<bool, AllocError> {
        let name = self.context.compared_here();
        if name.is_empty() {
            return Ok(false);
        }
        let names = self.required_that_fit()?;
        let Some(number) = nearest(self.context.alloc, name, names.as_slice())? else {
            return Ok(false);
        };
        let Some(near) = names.get(number) else {
            return Ok(false);
        };
        why.form = "`@p` is not declared, `@w` is";
        why.word = *near;
        why.change = Change::Everywhere("@w");
        Ok(true)
    }

    // The required names of a kind that is possible at the place.
    fn required_that_fit(&self) -> Result<Vec<&'static str>, AllocError> {
        let mut names = Vec::new(self.context.alloc);
        for required in required_names() {
            if let Some(kind) = required_kind(*required) {
                if self.could_stand(kind) {
                    names.push(required.name.spelling())?;
                }
            }
        }
        Ok(names)
    }
}

impl<'a> Context<'a> {
    // The number of the spelling at the place.
    fn spelling_here(&self) -> Option<u32> {
        self.outline.spelling_at(self.fault.place.from)
    }

    // Where else the name occurs.
    fn told_uses(&self) -> Text {
        let mut text = Text::new(self.alloc);
        text.put("it is used at ");
        let told = self.uses.len().min(MOST_PLACES);
        let mut number: usize = 0;
        for span in self.uses.iter().take(told) {
            number = number.saturating_add(1);
            text.put(joint(number, told, self.uses.len()));
            text.put_place(self.fault.source.bytes(), span.from);
        }
        if told < self.uses.len() {
            text.put(" and at ");
            text.put_number(long(self.uses.len().saturating_sub(told)));
            text.put(" more places");
        }
        text.put(" too");
        text
    }

    // The region of the record that this many selectors of a variable select.
    fn record_before(&self, variable: &Variable, before: u32) -> Option<u32> {
        let Some(selectors) = variable.selectors.as_slice().get(..before as usize) else {
            return None;
        };
        match self
            .outline
            .form_of(self.outline.type_behind(variable.name, selectors))
        {
            Some(Form::Record(region)) => Some(region),
            _ => None,
        }
    }

    fn fields_of(&self, region: u32) -> Result<Vec<Point>, AllocError> {
        let mut fields = Vec::new(self.alloc);
        for number in self.outline.points_of(region) {
            if let Some(point) = self.outline.point(*number) {
                fields.push(point)?;
            }
        }
        Ok(fields)
    }

    // The names of fields.
    fn told_fields(&self, fields: &[Point]) -> Text {
        let mut text = Text::new(self.alloc);
        text.put(if fields.len() == 1 {
            "its field is "
        } else {
            "its fields are "
        });
        let told = fields.len().min(MOST_PLACES);
        let mut number: usize = 0;
        for field in fields.iter().take(told) {
            number = number.saturating_add(1);
            text.put(joint(number, told, fields.len()));
            text.put_sign('`');
            self.put_text(&mut text, field.name);
            text.put_sign('`');
        }
        if told < fields.len() {
            text.put(" and others");
        }
        text
    }

    // The spelling at the place, if a similar one is searched for.
    fn compared_here(&self) -> &str {
        match self.spelling_here() {
            Some(spelling) => {
                let name = self.outline.spelling(spelling);
                if name.len() < SHORTEST || name.len() > LONGEST {
                    ""
                } else {
                    name
                }
            }
            None => "",
        }
    }

    // The nearest of some points by its spelling.
    fn nearest_of(&self, points: &[Point]) -> Result<Option<Point>, AllocError> {
        let name = self.compared_here();
        if name.is_empty() {
            return Ok(None);
        }
        self.outline.nearest_point(self.alloc, name, points)
    }

    // A heading that completes nothing.
    fn unheaded(&self, why: &mut Why) -> bool {
        let form = "`@p` has no heading above: `: TYPE` is missing here, or `forward` there";
        match self.outline.token_before(self.fault.place.from) {
            Some(word) if word.kind == Kind::Function => {
                why.form = form;
                why.change = Change::Behind(self.fault.place, "", ": integer");
                true
            }
            Some(word) if word.kind == Kind::Procedure => {
                why.form = form;
                true
            }
            _ => false,
        }
    }

    // A field, if a variable of its record is visible.
    fn field_of(&self, field: Point, why: &mut Why) -> bool {
        let Some((variable, is_pointer)) = self.record_variable(field.region) else {
            return false;
        };
        why.form = "`@p` is not declared: it is a field of `@x@w`";
        why.text = variable.name;
        why.other = field.name;
        why.word = if is_pointer { "^" } else { "" };
        why.mark = Mark::At("the field is declared here", field.name);
        why.change = Change::For(self.fault.place, "@x@w.@y");
        true
    }

    // A visible variable whose type is a record, or a pointer to it.
    fn record_variable(&self, record: u32) -> Option<(Point, bool)> {
        let region = self.outline.region_at(self.fault.place.from);
        let mut best = None;
        for point in self.outline.points() {
            if let Some(is_pointer) = self.leads_to(*point, record) {
                if self.is_visible(region, *point) {
                    best = Some((*point, is_pointer));
                }
            }
        }
        best
    }

    // Whether a variable is of a record's type, or a pointer to it.
    fn leads_to(&self, point: Point, record: u32) -> Option<bool> {
        if !is_variable(point.kind) {
            return None;
        }
        match self.outline.form_of(point.ty) {
            Some(Form::Record(region)) if region == record => Some(false),
            Some(Form::Pointer(domain)) => match self.outline.form_of(domain) {
                Some(Form::Record(region)) if region == record => Some(true),
                _ => None,
            },
            _ => None,
        }
    }
}

// What joins a part of a list to those before it, by its number from 1; this many of all are shown.
fn joint(number: usize, told: usize, all: usize) -> &'static str {
    if number == 1 {
        ""
    } else if number == told && told == all {
        " and "
    } else {
        ", "
    }
}
