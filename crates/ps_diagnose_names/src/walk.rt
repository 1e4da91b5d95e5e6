//! The walk to what a place may be the place of.

use crate::declared::behind_sign;
use crate::spot::{AssignmentPart, Role, Spot};
use ps_syntax::{
    Element, Expr, Factor, Member, Parameter, Selector, Simple, Statement, Term, Variable,
};
use ps_text::Span;

/// A walk that looks for an offset.
#[derive(Drop)]
pub(crate) struct Walk<'a> {
    pub(crate) at: u32,
    /// What is found, from the outside in.
    pub(crate) found: Vec<Spot<'a>>,
    /// The control variables of the `for` statements around the first that was found, from the inside out.
    pub(crate) controls: Vec<Span>,
    /// Whether memory ran out.
    pub(crate) is_short: bool,
}

impl<'a> Walk<'a> {
    /// Notes a construct, if its place is the one searched for.
    pub(crate) fn note(&mut self, at: u32, spot: Spot<'a>) {
        if at == self.at && self.found.push(spot).is_err() {
            self.is_short = true;
        }
    }

    #[cycle(statement)]
    pub(crate) fn statements(&mut self, statements: &'a [Statement]) {
        for statement in statements {
            self.statement(statement);
        }
    }

    #[cycle(statement)]
    fn statement(&mut self, statement: &'a Statement) {
        match statement {
            Statement::Empty => {}
            Statement::Assign(variable, at, value) => self.assign(variable, *at, value.get()),
            Statement::Call(name, parameters) => self.call(*name, parameters.as_slice()),
            Statement::Compound(statements) => self.statements(statements.as_slice()),
            Statement::If(condition, then) => {
                self.value(condition.get(), Role::Condition);
                self.statement(then.get())
            }
            Statement::IfElse(condition, then, otherwise) => {
                self.value(condition.get(), Role::Condition);
                self.statement(then.get());
                self.statement(otherwise.get())
            }
            Statement::Case(_, index, elements) => {
                self.value(index.get(), Role::CaseIndex);
                self.elements(elements.as_slice(), index.get())
            }
            Statement::While(condition, body) => {
                self.value(condition.get(), Role::Condition);
                self.statement(body.get())
            }
            Statement::Repeat(statements, condition) => {
                self.statements(statements.as_slice());
                self.value(condition.get(), Role::Condition)
            }
            Statement::For {
                variable,
                first,
                last,
                body,
                ..
            } => {
                self.bounds(*variable, first.get(), last.get());
                self.counted(*variable, body.get())
            }
            Statement::With(records, body) => {
                self.records(records.as_slice());
                self.statement(body.get())
            }
        }
    }

    // The statement of a `for`, which lies around the place if it is the first to find something.
    #[cycle(statement)]
    fn counted(&mut self, variable: Span, body: &'a Statement) {
        let was_empty = self.found.is_empty();
        self.statement(body);
        if was_empty && !self.found.is_empty() && self.controls.push(variable).is_err() {
            self.is_short = true;
        }
    }

    // The constants and the statements of a `case`.
    #[cycle(statement)]
    fn elements(&mut self, elements: &'a [Element], index: &'a Expr) {
        for element in elements {
            for constant in element.constants.as_slice() {
                self.note(
                    constant.first_token(),
                    Spot::CaseConstant(*constant, index, elements),
                );
                self.note(
                    behind_sign(*constant),
                    Spot::CaseConstant(*constant, index, elements),
                );
            }
            self.statement(&element.statement);
        }
    }

    fn assign(&mut self, variable: &'a Variable, at: Span, value: &'a Expr) {
        self.note(
            variable.name.from,
            Spot::Assignment(AssignmentPart::Target, variable, value),
        );
        self.note(
            at.from,
            Spot::Assignment(AssignmentPart::Sign, variable, value),
        );
        self.variable(variable);
        self.note(
            value.first_token(),
            Spot::Assignment(AssignmentPart::Value, variable, value),
        );
        self.expr(value)
    }

    fn call(&mut self, name: Span, parameters: &'a [Parameter]) {
        self.note(name.from, Spot::Statement(name, parameters));
        let mut number: u32 = 0;
        for parameter in parameters {
            match parameter {
                Parameter::Plain(value) => self.value(value, Role::Parameter(name, number)),
                Parameter::Width(value, width) => {
                    self.value(value, Role::Parameter(name, number));
                    self.value(width.get(), Role::Width(name));
                }
            }
            number = number.saturating_add(1);
        }
    }

    // The control variable and the bounds of a `for`.
    fn bounds(&mut self, variable: Span, first: &'a Expr, last: &'a Expr) {
        self.note(variable.from, Spot::Control(variable));
        self.value(first, Role::Bound(variable));
        self.value(last, Role::Bound(variable));
    }

    fn records(&mut self, records: &'a [Variable]) {
        for variable in records {
            self.note(variable.name.from, Spot::Opened(variable));
            self.variable(variable);
        }
    }

    #[cycle(expression)]
    fn variable(&mut self, variable: &'a Variable) {
        self.note(variable.name.from, Spot::Named(variable));
        let mut before: u32 = 0;
        for selector in variable.selectors.as_slice() {
            self.selector(selector, variable, before);
            before = before.saturating_add(1);
        }
    }

    #[cycle(expression)]
    fn selector(&mut self, selector: &'a Selector, variable: &'a Variable, before: u32) {
        match selector {
            Selector::Index(indices) => {
                let mut number: u32 = 0;
                for index in indices.as_slice() {
                    self.value(index, Role::Index(variable, before, number));
                    number = number.saturating_add(1);
                }
            }
            Selector::Field(at) | Selector::Content(at) => {
                self.note(at.from, Spot::Selected(variable, before))
            }
        }
    }

    // An expression in its role.
    #[cycle(expression)]
    fn value(&mut self, value: &'a Expr, role: Role<'a>) {
        self.note(value.first_token(), Spot::Expression(role, value));
        self.expr(value)
    }

    #[cycle(expression)]
    fn expr(&mut self, expr: &'a Expr) {
        match expr {
            Expr::Simple(simple) => self.simple(simple),
            Expr::Compare(left, relation, _, right) => {
                let spot = Spot::Compare(left, *relation, right.get());
                self.note(left.first_token(), spot);
                self.note(right.get().first_token(), spot);
                self.simple(left);
                self.simple(right.get())
            }
        }
    }

    #[cycle(expression)]
    fn simple(&mut self, simple: &'a Simple) {
        if simple.sign.is_some() || !simple.more.is_empty() {
            self.note(simple.first.first_token(), Spot::Added(simple, None));
            self.note(simple.first_token(), Spot::Added(simple, None));
        }
        self.term(&simple.first);
        for added in simple.more.as_slice() {
            self.note(added.term.first_token(), Spot::Added(simple, Some(added)));
            self.term(&added.term);
        }
    }

    #[cycle(expression)]
    fn term(&mut self, term: &'a Term) {
        if let Some(next) = term.more.get(0) {
            self.note(
                term.first_token(),
                Spot::Multiplied(term, &term.first, next.operator),
            );
        }
        self.factor(&term.first);
        for multiplied in term.more.as_slice() {
            let factor = &multiplied.factor;
            self.note(
                factor.first_token(),
                Spot::Multiplied(term, factor, multiplied.operator),
            );
            self.factor(factor);
        }
    }

    #[cycle(expression)]
    fn factor(&mut self, factor: &'a Factor) {
        match factor {
            Factor::Variable(variable) => self.variable(variable),
            Factor::Call(name, parameters) => self.function(parameters.as_slice(), *name),
            Factor::Number(_) | Factor::Text(_) | Factor::Nil(_) => {}
            Factor::Set(_, members) => self.members(members.as_slice()),
            Factor::Group(_, _, inner) => self.expr(inner.get()),
            Factor::Not(at, inner) => {
                self.note(inner.get().first_token(), Spot::Not(*at, inner.get()));
                self.factor(inner.get())
            }
        }
    }

    #[cycle(expression)]
    fn function(&mut self, parameters: &'a [Expr], name: Span) {
        self.note(name.from, Spot::Call(name, parameters));
        let mut number: u32 = 0;
        for value in parameters {
            self.value(value, Role::Parameter(name, number));
            number = number.saturating_add(1);
        }
    }

    #[cycle(expression)]
    fn members(&mut self, members: &'a [Member]) {
        for member in members {
            match member {
                Member::One(only) => self.value(only.get(), Role::Member(members)),
                Member::Range(low, high) => {
                    self.value(low.get(), Role::Member(members));
                    self.value(high.get(), Role::Member(members))
                }
            }
        }
    }
}
