//! Numbers of parameters (41).

use crate::context::{Context, Place};
use crate::why::{Help, Mark, Why};
use ps_diagnose::RequiredName;
use ps_diagnose_outline::{Point, PointKind};
use ps_text::Span;

impl<'a> Place<'a> {
    /// A number of parameters that is another than that of the routine.
    pub(crate) fn not_congruous(&self, why: &mut Why) -> bool {
        if self.unlike_passed(why) {
            return true;
        }
        let Some((name, given)) = self.seen().called else {
            return false;
        };
        match self.context.outline.declared(name) {
            Some(routine) if routine.count == given => false,
            Some(routine) => {
                self.context.count_declared(name, routine, given, why);
                true
            }
            None => match self.context.required(name) {
                Some(required) => {
                    count_required(required, given, why);
                    true
                }
                None => false,
            },
        }
    }

    // A routine that is passed and has other parameters.
    fn unlike_passed(&self, why: &mut Why) -> bool {
        let Some(passed) = self.passed() else {
            return false;
        };
        match self.context.formal_of(passed) {
            Some(formal)
                if matches!(
                    formal.kind,
                    PointKind::ProcedureParameter | PointKind::FunctionParameter
                ) => {
                why.form = "`@p` is passed as `@y`, but their parameters differ";
                why.other = formal.name;
                why.mark = Mark::Declared(self.context.fault.place);
                why.next_mark = Mark::Here(formal.name);
                true
            }
            _ => false,
        }
    }
}

impl<'a> Context<'a> {
    // A routine that is declared.
    fn count_declared(&self, name: Span, routine: Point, given: u32, why: &mut Why) {
        why.form = match routine.count {
            0 => "`@x` has no parameters, but is given @M",
            1 => "`@x` has 1 parameter, but is given @M",
            _ => "`@x` has @N parameters, but is given @M",
        };
        why.text = name;
        why.number = i64::from(routine.count);
        why.further = i64::from(given);
        why.mark = Mark::Here(routine.name);
        if let Some(formal) = self.formal(routine, given) {
            self.with_missing(routine, formal, given, why);
        } else if routine.count == 0 {
            why.help = Help::Of("write `@a` alone, without parentheses", routine.name);
        } else if let Some(heading) = self.heading_of(routine) {
            why.help = Help::Of("it is declared as: @a", heading);
        }
    }

    // Which parameter nothing is given for.
    fn with_missing(&self, routine: Point, formal: Point, given: u32, why: &mut Why) {
        let is_alone = given == 0;
        if is_alone
            && matches!(routine.kind, PointKind::Function)
            && self.outline.routine_of(self.block_here()) == Some(routine.number)
        {
            why.help = Help::Is(
                "in an expression `@x` calls the function, as `@x(..)`; keep what is computed in a variable, and assign it at the end",
            );
            return;
        }
        let form = match self.told(formal.ty) {
            Some(ty) => {
                why.ty = ty;
                match (formal.kind, is_alone) {
                    (PointKind::VariableParameter, true) => {
                        "nothing is given for `@a`, @t variable (`var`): write `@x(..)`"
                    }
                    (PointKind::VariableParameter, false) => {
                        "nothing is given for `@a`, @t variable (`var`)"
                    }
                    (_, true) => "nothing is given for `@a`, @t: write `@x(..)`",
                    (_, false) => "nothing is given for `@a`, @t",
                }
            }
            None if is_alone => "nothing is given for `@a`: write `@x(..)`",
            None => "nothing is given for `@a`",
        };
        why.help = Help::Of(form, formal.name);
    }
}

// A required routine.
fn count_required(required: RequiredName, given: u32, why: &mut Why) {
    why.form = match required {
        RequiredName::Read => "`read` takes at least one variable",
        RequiredName::Write => "`write` takes at least one value",
        RequiredName::Eof | RequiredName::Eoln => {
            "`@w` takes at most 1 parameter, but is given @N"
        }
        RequiredName::Pack | RequiredName::Unpack => "`@w` takes 3 parameters, but is given @N",
        _ => "`@w` takes 1 parameter, but is given @N",
    };
    why.word = required.spelling();
    why.number = i64::from(given);
    match required {
        RequiredName::Read => why.help = Help::Is("`readln` alone skips the rest of a line"),
        RequiredName::Write => why.help = Help::Is("`writeln` alone ends a line"),
        _ => {}
    }
}
