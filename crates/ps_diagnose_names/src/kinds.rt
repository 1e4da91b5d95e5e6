//! Names of a kind that their place doesn't allow (33).

mod rows;

use crate::context::{Context, Place};
use crate::facts::{is_among, is_text, is_variable, variable_in};
use crate::spot::{AssignmentPart, Passed, Spot};
use crate::why::{Change, Help, Mark, Why};
use ps_diagnose::RequiredName;
use ps_diagnose_outline::{Form, Part, Point, PointKind, Type, required_names};
use ps_scan::Kind;
use ps_syntax::{Constant, Expr, Parameter, Selector, Variable};
use ps_text::Span;
use rows::{
    ALONE, ANYWHERE, BOUND, CALL, CONSTANT, CONTROL, Row, SELECTED, SELECTED_TARGET, STATEMENT,
    TARGET, TYPE,
};

impl<'a> Place<'a> {
    /// A name of a kind that its place doesn't allow.
    pub(crate) fn wrong_kind(&self, why: &mut Why) -> bool {
        let is_told = self.kind_told(why);
        if is_told && self.context.hides_required(why.text) {
            why.help = Help::Is("it hides the `@x` of the language: give it another name");
        }
        is_told
    }

    // A name of a kind that its place doesn't allow, as far as the constructs around it show why.
    fn kind_told(&self, why: &mut Why) -> bool {
        let is_found = match (self.passed(), self.seen().target) {
            (Some(passed), _) => self.context.wrong_parameter(passed, why),
            (None, Some(variable)) => self.context.no_target(variable, why),
            (None, None) => false,
        };
        if is_found {
            return true;
        }
        for spot in self.spots.iter().rev() {
            if self.wrong_kind_at(*spot, why) {
                return true;
            }
        }
        self.context
            .kind_in(self.context.fault.place, &ANYWHERE, why)
    }

    // One construct.
    fn wrong_kind_at(&self, spot: Spot<'_>, why: &mut Why) -> bool {
        match spot {
            Spot::Named(variable) => self.no_value(variable, why),
            Spot::Statement(name, parameters) => self.context.no_procedure(name, parameters, why),
            Spot::Call(name, parameters) => self.no_function(name, parameters, why),
            Spot::Control(name) => self.context.kind_in(name, &CONTROL, why),
            Spot::Opened(variable) => {
                why.form = "`@x` is not a variable, but `with` takes one";
                why.text = self.context.variable_span(variable);
                why.mark = Mark::Declared(variable.name);
                true
            }
            Spot::Range(low, _) => self.context.no_bound(low, why),
            Spot::Definition(..) | Spot::CaseConstant(..) => self.no_constant(why),
            Spot::TypeName(name) | Spot::Result(_, name) => self.context.kind_in(name, &TYPE, why),
            _ => false,
        }
    }

    // A name in an expression that does not denote a value.
    fn no_value(&self, variable: &Variable, why: &mut Why) -> bool {
        let is_told = if variable.selectors.is_empty() {
            self.context.kind_in(variable.name, &ALONE, why)
        } else {
            self.context.kind_in(variable.name, &SELECTED, why)
        };
        if !is_told {
            return false;
        }
        match (why.kind, variable.selectors.as_slice().first()) {
            (PointKind::Type, _) => self.context.with_values(variable, why),
            (PointKind::Procedure | PointKind::ProcedureParameter, _) => {
                self.with_statement(variable.name, why);
            }
            (PointKind::Function, Some(Selector::Index(_))) => {
                why.help = Help::Is("parameters are written between `(` and `)`");
            }
            _ => {}
        }
        true
    }

    // Tries to call a procedure that gives a variable its value as a statement, with the variable to which the value
    // seems to be assigned.
    fn with_statement(&self, name: Span, why: &mut Why) {
        if !matches!(
            self.context.required(name),
            Some(RequiredName::Read | RequiredName::Readln | RequiredName::New)
        ) {
            return;
        }
        why.help = Help::Is("it gives a variable its value, as a statement: `@x(..)`");
        for spot in self.spots.iter() {
            if let Spot::Assignment(AssignmentPart::Value, variable, _) = spot {
                let text = self.context.variable_span(variable);
                let whole = Span {
                    from: text.from,
                    to: self.context.factor_extent(name.from).to,
                };
                why.help = Help::Of(
                    "it gives a variable its value, as a statement: `@x(@a)`",
                    text,
                );
                why.change = Change::With(whole, text, "@x(@b)");
            }
        }
    }

    // A name with parameters in an expression that is not a function.
    fn no_function(&self, name: Span, parameters: &[Expr], why: &mut Why) -> bool {
        if !self.context.kind_in(name, &CALL, why) {
            return false;
        }
        match why.kind {
            PointKind::Procedure | PointKind::ProcedureParameter => self.with_statement(name, why),
            PointKind::Type => {}
            _ => self.context.with_index(name, parameters, why),
        }
        true
    }

    // A constant's place elsewhere.
    fn no_constant(&self, why: &mut Why) -> bool {
        let is_told = self
            .context
            .kind_in(self.context.fault.place, &CONSTANT, why);
        if is_told && self.seen().case_constant.is_some() {
            why.help = Help::Is("compare with variables by `if .. then .. else`");
        }
        is_told
    }
}

impl<'a> Context<'a> {
    // Whether a name is declared that the language requires.
    fn hides_required(&self, name: Span) -> bool {
        let written = self.outline.bytes(name);
        for required in required_names() {
            if written.eq_ignore_ascii_case(required.name.spelling().as_bytes()) {
                return self.outline.declared(name).is_some();
            }
        }
        false
    }

    // What kind of name it is, in the words of the first row that has its kind.
    fn kind_in(&self, name: Span, rows: &'static [Row], why: &mut Why) -> bool {
        let Some(kind) = self.kind_of(name) else {
            return false;
        };
        for row in rows {
            if is_among(kind, row.kinds) {
                why.form = row.form;
                why.text = name;
                why.kind = kind;
                why.mark = Mark::Declared(name);
                why.help = row.help;
                return true;
            }
        }
        false
    }

    // What cannot be assigned, as a whole or by selectors.
    fn no_target(&self, variable: &Variable, why: &mut Why) -> bool {
        let selector = variable.selectors.as_slice().first();
        if selector.is_none() || !self.kind_in(variable.name, &SELECTED_TARGET, why) {
            return self.kind_in(variable.name, &TARGET, why);
        }
        if matches!(selector, Some(Selector::Content(_))) {
            why.help = self.result_built(variable.name);
        }
        true
    }

    // How the result of a function is built up: in its own block, where only its name denotes it.
    fn result_built(&self, function: Span) -> Help {
        let block = self.outline.block_at(self.fault.place.from);
        match (
            self.outline.declared(function),
            self.outline.routine_of(block),
        ) {
            (Some(point), Some(own)) if point.number == own => Help::Of(
                "use a variable of its type, and assign that to `@a` at the end",
                function,
            ),
            _ => Help::None,
        }
    }

    // What may be meant by a type: the constant after its point, or the set of its values after `in`.
    fn with_values(&self, variable: &Variable, why: &mut Why) {
        let ty = self.outline.type_named(variable.name);
        match (
            variable.selectors.as_slice().first(),
            self.outline.form_of(ty),
        ) {
            (Some(Selector::Field(field)), Some(Form::Enumeration(_))) => {
                why.help = Help::Of(
                    "a constant of an enumeration is written by itself: `@a`",
                    *field,
                );
                why.change = Change::With(self.variable_span(variable), *field, "@b");
            }
            (None, Some(_)) => self.with_set(variable.name, ty, why),
            _ => {}
        }
    }

    // The set of a type's values, if its name comes after `in`.
    fn with_set(&self, name: Span, ty: Option<Type>, why: &mut Why) {
        match self.outline.token_before(name.from) {
            Some(before) if matches!(before.kind, Kind::In) => {}
            _ => return,
        }
        why.help = Help::Is("`in` needs a set of values after it, as `[a..b]`");
        let Some(ty) = ty else {
            return;
        };
        if let Some(from) = self.outline.denoter_at(ty) {
            let denoter = self.outline.extent(from, Part::Denoter);
            why.change = Change::With(name, denoter, "[@b]");
        }
    }

    // What begins a statement and is not a procedure.
    fn no_procedure(&self, name: Span, parameters: &[Parameter], why: &mut Why) -> bool {
        if !self.kind_in(name, &STATEMENT, why) {
            return false;
        }
        match why.kind {
            PointKind::Function | PointKind::FunctionParameter => {
                why.help = self.value_used(name, parameters.is_empty());
            }
            kind if parameters.is_empty() && is_variable(kind) => {
                why.help = Help::Is("a value is assigned to it by `@x := ..`");
            }
            _ => {}
        }
        true
    }

    // How to use the value of a function that is called as a statement.
    fn value_used(&self, name: Span, is_alone: bool) -> Help {
        let call = if is_alone {
            name
        } else {
            self.factor_extent(name.from)
        };
        let result = match self.outline.declared(name) {
            Some(point) => point.ty,
            None => None,
        };
        match self.variable_like(result) {
            Some(variable) => Help::Both("use its value: `@a := @b`", variable.name, call),
            None => Help::Of("use its value: `.. := @a`", call),
        }
    }

    // Tries brackets if an array comes before parentheses.
    fn with_index(&self, name: Span, parameters: &[Expr], why: &mut Why) {
        let whole = self.factor_extent(name.from);
        let form = self.outline.form_of(self.outline.type_of_name(name));
        match (
            form,
            parameters.first(),
            self.outline.token_before(whole.to),
        ) {
            (Some(Form::Array { .. }), Some(first), Some(close)) => {
                why.change = Change::With(
                    whole,
                    Span {
                        from: first.first_token(),
                        to: close.span.from,
                    },
                    "@x[@b]",
                );
                why.help = Help::Is("an index is written between brackets");
            }
            _ => {}
        }
    }

    // A constant's place in a range.
    fn no_bound(&self, low: Constant, why: &mut Why) -> bool {
        let is_told = self.kind_in(self.fault.place, &BOUND, why);
        match self.outline.token_before(low.first_token()) {
            Some(token) if is_told && matches!(token.kind, Kind::LeftBracket | Kind::Comma) => {
                why.help = Help::Is(
                    "declare a constant for the largest bound that is needed, and count in a variable how many are used",
                );
            }
            _ => {}
        }
        is_told
    }

    // A parameter that is not a variable, or not a routine, where one is needed.
    fn wrong_parameter(&self, passed: Passed<'_>, why: &mut Why) -> bool {
        let Some(routine) = self.outline.declared(passed.routine) else {
            return self.wrong_required(passed.routine, passed.value, why);
        };
        let Some(formal) = self.formal(routine, passed.number) else {
            return false;
        };
        let word = match formal.kind {
            PointKind::VariableParameter => return self.no_variable_passed(passed, formal, why),
            PointKind::ProcedureParameter => "a procedure",
            PointKind::FunctionParameter => "a function",
            _ => return false,
        };
        self.no_routine(passed, formal, word, why);
        true
    }

    // Whether an expression is a variable, as far as its first name shows.
    fn is_a_variable(&self, value: &Expr) -> bool {
        match variable_in(value) {
            Some(variable) => match self.kind_of(variable.name) {
                Some(kind) => is_variable(kind) || matches!(kind, PointKind::Field),
                None => false,
            },
            None => false,
        }
    }

    fn no_variable_passed(&self, passed: Passed<'_>, formal: Point, why: &mut Why) -> bool {
        if self.is_a_variable(passed.value) {
            return false;
        }
        why.form = "`@x` is not a variable, but `@y` of `@z` is a `var` parameter";
        why.text = self.expr_span(passed.value);
        why.other = formal.name;
        why.third = passed.routine;
        why.mark = Mark::Here(formal.name);
        why.help = Help::Is("assign it to a variable, and pass that");
        true
    }

    fn no_routine(&self, passed: Passed<'_>, formal: Point, word: &'static str, why: &mut Why) {
        match self.required(self.fault.place) {
            Some(required) => {
                why.form = "`@w` is required by the language, and cannot be passed";
                why.word = required.spelling();
                why.help = Help::Is("declare a routine of your own that calls it, and pass that");
            }
            None => {
                why.form = "`@y` of `@z` is @w, but `@x` is not";
                why.word = word;
                why.text = self.expr_span(passed.value);
                why.other = formal.name;
                why.third = passed.routine;
                why.mark = Mark::Here(formal.name);
            }
        }
    }

    // A parameter of a required procedure that takes a variable.
    fn wrong_required(&self, routine: Span, value: &Expr, why: &mut Why) -> bool {
        let Some(required) = self.required(routine) else {
            return false;
        };
        let (form, is_read) = match required {
            RequiredName::Read | RequiredName::Readln => {
                ("`@x` is not a variable, and cannot be read", true)
            }
            RequiredName::New | RequiredName::Pack | RequiredName::Unpack => {
                ("`@x` is not a variable, but `@w` takes one", false)
            }
            _ => return false,
        };
        if self.is_a_variable(value) {
            return false;
        }
        let text = self.expr_span(value);
        why.form = form;
        why.text = text;
        why.word = required.spelling();
        why.mark = Mark::Variable(text);
        if is_read && is_text(value) {
            why.help = Help::Is("write the question first, with `write`");
        } else if let Some(variable) = variable_in(value) {
            why.help = self.result_built(variable.name);
        }
        true
    }
}
