//! Control variables (39), and parts of packed variables (40).

use crate::context::{Context, Place};
use crate::spot::Passed;
use crate::why::{Help, Mark, Why};
use ps_diagnose::RequiredName;
use ps_diagnose_outline::{Point, PointKind};
use ps_scan::Kind;
use ps_text::Span;

impl<'a> Place<'a> {
    /// A variable that controls a `for`.
    pub(crate) fn control_variable(&self, why: &mut Why) -> bool {
        let Some(point) = self.context.outline.declared(self.context.fault.place) else {
            return false;
        };
        match self.context.open_control(point) {
            Some(control) => self.changed_within(control, why),
            None if self.is_control() => self.context.foreign_control(point, why),
            None => {
                why.form = "`@p` controls a `for` of the surrounding block, and is changed here";
                if let Some(control) = self.context.for_of(point) {
                    why.mark = self.context.for_mark(control);
                }
                why.help = Help::Is("use a variable that no routine within this block changes");
            }
        }
        true
    }

    // A change within the `for`.
    fn changed_within(&self, control: Span, why: &mut Why) {
        why.mark = self.context.for_mark(control);
        if self.is_control() {
            why.form = "`@p` controls a `for`, and another one within it";
            why.help = Help::Is("two loops, one inside the other, need a variable each");
            return;
        }
        why.help = Help::Is("a loop that may end early is a `while` or a `repeat`");
        let Some(passed) = self.passed() else {
            why.form = "`@p` controls a `for`, and is assigned within it";
            return;
        };
        why.form = match self.context.required(passed.routine) {
            Some(RequiredName::Read | RequiredName::Readln) => {
                "`@p` controls a `for`, and is read within it"
            }
            _ => "`@p` controls a `for`, and is passed as a `var` parameter within it",
        };
    }

    /// A part of a packed variable that is passed.
    pub(crate) fn packed_variable(&self, why: &mut Why) -> bool {
        let Some(passed) = self.passed() else {
            return false;
        };
        let Some(formal) = self.context.formal_of(passed) else {
            return false;
        };
        why.form =
            "`@x` is a part of a packed variable, and cannot be passed as `@y` of `@z`, a `var` parameter";
        why.text = self.context.expr_span(passed.value);
        why.other = formal.name;
        why.third = passed.routine;
        why.mark = Mark::Declared(self.context.fault.place);
        why.next_mark = Mark::Here(formal.name);
        why.help = Help::Is(
            "pass a separate variable, then assign it to the part; or leave `packed` out",
        );
        true
    }
}

impl<'a> Context<'a> {
    // The control variable of the innermost `for` around the place that a point controls.
    fn open_control(&self, point: Point) -> Option<Span> {
        for control in self.controls.iter() {
            if self.is_same(*control, point) {
                return Some(*control);
            }
        }
        None
    }

    // Whether a name denotes a point.
    fn is_same(&self, name: Span, point: Point) -> bool {
        match self.outline.declared(name) {
            Some(found) => found.number == point.number,
            None => false,
        }
    }

    // A variable that is not one of the block's own.
    fn foreign_control(&self, point: Point, why: &mut Why) {
        let is_parameter = matches!(
            point.kind,
            PointKind::ValueParameter | PointKind::VariableParameter
        );
        why.mark = Mark::Here(point.name);
        why.help = match self.region_name(self.block_here()) {
            Some(routine) if !is_parameter => {
                Help::Of("declare `@p` in `@a` too: var @p: integer;", routine)
            }
            _ => Help::Is("declare a variable of the block for it, by another name"),
        };
        why.form = match self.region_name(point.region) {
            _ if is_parameter => {
                "a `for` takes a variable of its own block, and `@p` is a parameter"
            }
            _ if matches!(point.kind, PointKind::Field) => {
                "a `for` takes a variable of its own block, and `@p` is a field"
            }
            Some(routine) => {
                why.text = routine;
                "a `for` takes a variable of its own block, and `@p` is of `@x`"
            }
            None => "a `for` takes a variable of its own block, and `@p` is the program's",
        };
    }

    // Marks the `for` of a control variable.
    fn for_mark(&self, control: Span) -> Mark {
        match self.outline.token_before(control.from) {
            Some(token) => Mark::At("that `for`", token.span),
            None => Mark::None,
        }
    }

    // The control variable of the first `for` that a variable controls.
    fn for_of(&self, point: Point) -> Option<Span> {
        let mut is_for = false;
        for token in self.fault.tokens {
            if is_for && self.outline.spelling_at(token.span.from) == Some(point.spelling) {
                if self.is_same(token.span, point) {
                    return Some(token.span);
                }
            }
            is_for = token.kind == Kind::For;
        }
        None
    }

    /// The formal parameter of a routine that is declared, for which a parameter is given.
    pub(crate) fn formal_of(&self, passed: Passed<'_>) -> Option<Point> {
        match self.outline.declared(passed.routine) {
            Some(point) => self.formal(point, passed.number),
            None => None,
        }
    }
}
