//! The statements of a tree, with brackets around what belongs together.

use ps_syntax::{
    Adding, Constant, Direction, Element, Expr, Factor, Member, Multiplying, Parameter, Relational,
    Selector, Sign, Simple, Statement, Term, Variable,
};
use ps_text::Span;
use test_tables::Line;

/// A text, and the line to which its tree is written.
#[derive(Drop)]
pub(crate) struct Shown<'a> {
    pub(crate) text: &'a [u8],
    pub(crate) line: &'a mut Line,
}

fn sign_of(sign: Option<(Sign, Span)>) -> &'static str {
    match sign {
        None => "",
        Some((Sign::Plus, _)) => "+",
        Some((Sign::Minus, _)) => "-",
    }
}

fn relation_of(relation: Relational) -> &'static str {
    match relation {
        Relational::Equal => " = ",
        Relational::NotEqual => " <> ",
        Relational::Less => " < ",
        Relational::Greater => " > ",
        Relational::LessEqual => " <= ",
        Relational::GreaterEqual => " >= ",
        Relational::In => " in ",
    }
}

fn adding_of(operator: Adding) -> &'static str {
    match operator {
        Adding::Plus => " + ",
        Adding::Minus => " - ",
        Adding::Or => " or ",
    }
}

fn multiplying_of(operator: Multiplying) -> &'static str {
    match operator {
        Multiplying::Times => " * ",
        Multiplying::Div => " div ",
        Multiplying::Mod => " mod ",
        Multiplying::And => " and ",
    }
}

fn direction_of(direction: Direction) -> &'static str {
    match direction {
        Direction::Up => " to ",
        Direction::Down => " downto ",
    }
}

impl<'a> Shown<'a> {
    fn word(&mut self, word: &str) {
        self.line.word(word);
    }

    fn repeated(&mut self, word: &str, count: u32) {
        for _level in 0..count {
            self.word(word);
        }
    }

    fn span(&mut self, span: Span) {
        let bytes = self.text.get(span.from as usize..span.to as usize);
        self.line.bytes(bytes.unwrap_or(&[]));
    }

    #[cycle(expression)]
    fn expr(&mut self, expr: &Expr) {
        match expr {
            Expr::Simple(only) => self.simple(only),
            Expr::Compare(left, relation, _, right) => {
                self.word("[");
                self.simple(left);
                self.word(relation_of(*relation));
                self.simple(right.get());
                self.word("]");
            }
        }
    }

    #[cycle(expression)]
    fn simple(&mut self, simple: &Simple) {
        self.word(sign_of(simple.sign));
        self.term(&simple.first);
        for added in simple.more.as_slice() {
            self.word(adding_of(added.operator));
            self.term(&added.term);
        }
    }

    #[cycle(expression)]
    fn term(&mut self, term: &Term) {
        if term.more.is_empty() {
            return self.factor(&term.first);
        }
        self.word("[");
        self.factor(&term.first);
        for multiplied in term.more.as_slice() {
            self.word(multiplying_of(multiplied.operator));
            self.factor(&multiplied.factor);
        }
        self.word("]");
    }

    #[cycle(expression)]
    fn factor(&mut self, factor: &Factor) {
        match factor {
            Factor::Variable(variable) => self.variable(variable),
            Factor::Number(at) | Factor::Text(at) | Factor::Nil(at) => self.span(*at),
            Factor::Call(name, parameters) => {
                self.span(*name);
                self.exprs(parameters.as_slice());
            }
            Factor::Set(_, members) => self.members(members.as_slice()),
            Factor::Group(_, redundant, inner) => self.group(*redundant, inner.get()),
            Factor::Not(_, inner) => {
                self.word("not ");
                self.factor(inner.get());
            }
        }
    }

    #[cycle(expression)]
    fn members(&mut self, members: &[Member]) {
        self.word("{");
        for member in members {
            self.word("(");
            self.member(member);
            self.word(")");
        }
        self.word("}");
    }

    #[cycle(expression)]
    fn group(&mut self, redundant: u32, inner: &Expr) {
        self.word("(");
        self.repeated("(", redundant);
        self.expr(inner);
        self.repeated(")", redundant);
        self.word(")");
    }

    #[cycle(expression)]
    fn exprs(&mut self, exprs: &[Expr]) {
        for expr in exprs {
            self.word("(");
            self.expr(expr);
            self.word(")");
        }
    }

    #[cycle(expression)]
    fn member(&mut self, member: &Member) {
        match member {
            Member::One(only) => self.expr(only.get()),
            Member::Range(low, high) => {
                self.expr(low.get());
                self.word("..");
                self.expr(high.get());
            }
        }
    }

    /// Several indices are shown as those of nested arrays.
    #[cycle(expression)]
    fn variable(&mut self, variable: &Variable) {
        self.span(variable.name);
        for selector in variable.selectors.as_slice() {
            match selector {
                Selector::Index(indices) => self.exprs(indices.as_slice()),
                Selector::Field(name) => {
                    self.word(".");
                    self.span(*name);
                }
                Selector::Content(_) => self.word("^"),
            }
        }
    }

    fn parameter(&mut self, parameter: &Parameter) {
        match parameter {
            Parameter::Plain(value) => self.expr(value),
            Parameter::Width(value, width) => {
                self.expr(value);
                self.word(" : ");
                self.expr(width.get());
            }
        }
    }

    fn parameters(&mut self, parameters: &[Parameter]) {
        for parameter in parameters {
            self.word("(");
            self.parameter(parameter);
            self.word(")");
        }
    }

    fn constant(&mut self, constant: &Constant) {
        let (sign, at) = match constant {
            Constant::Number(sign, at) => (sign_of(*sign), *at),
            Constant::Name(sign, at) => (sign_of(*sign), *at),
            Constant::Text(at) => ("", *at),
        };
        self.word(sign);
        self.span(at);
    }

    fn constants(&mut self, constants: &[Constant]) {
        for constant in constants {
            self.word(" ");
            self.constant(constant);
            self.word(":");
        }
    }

    #[cycle(statement)]
    pub(crate) fn statement(&mut self, statement: &Statement) {
        match statement {
            Statement::Empty => {}
            Statement::Assign(variable, _, value) => self.assignment(variable, value.get()),
            Statement::Call(name, parameters) => self.call(*name, parameters.as_slice()),
            Statement::Compound(statements) => self.statements(statements.as_slice()),
            Statement::If(condition, chosen) => {
                self.condition("if ", condition.get());
                self.braced(chosen.get());
            }
            Statement::IfElse(condition, chosen, other) => {
                self.condition("if ", condition.get());
                self.braced(chosen.get());
                self.word(" else ");
                self.braced(other.get());
            }
            Statement::While(condition, body) => {
                self.condition("while ", condition.get());
                self.braced(body.get());
            }
            _ => self.longer_statement(statement),
        }
    }

    #[cycle(statement)]
    fn longer_statement(&mut self, statement: &Statement) {
        match statement {
            Statement::Case(_, index, elements) => {
                self.word("case ");
                self.expr(index.get());
                self.elements(elements.as_slice());
            }
            Statement::Repeat(statements, condition) => {
                self.statements(statements.as_slice());
                self.word(" until ");
                self.expr(condition.get());
            }
            Statement::For {
                variable,
                first,
                direction,
                last,
                body,
            } => {
                self.range(*variable, first.get(), *direction, last.get());
                self.braced(body.get());
            }
            Statement::With(records, body) => {
                self.records(records.as_slice());
                self.braced(body.get());
            }
            _ => {}
        }
    }

    fn records(&mut self, records: &[Variable]) {
        for record in records {
            self.word(" with ");
            self.variable(record);
        }
    }

    fn range(&mut self, variable: Span, first: &Expr, direction: Direction, last: &Expr) {
        self.word("for ");
        self.span(variable);
        self.word(" := ");
        self.expr(first);
        self.word(direction_of(direction));
        self.expr(last);
    }

    fn assignment(&mut self, variable: &Variable, value: &Expr) {
        self.variable(variable);
        self.word(" := ");
        self.expr(value);
    }

    fn call(&mut self, name: Span, parameters: &[Parameter]) {
        self.span(name);
        self.parameters(parameters);
    }

    fn condition(&mut self, word: &str, condition: &Expr) {
        self.word(word);
        self.expr(condition);
    }

    #[cycle(statement)]
    fn braced(&mut self, statement: &Statement) {
        self.line.space();
        self.word("{");
        self.statement(statement);
        self.word("}");
    }

    #[cycle(statement)]
    pub(crate) fn statements(&mut self, statements: &[Statement]) {
        for statement in statements {
            self.braced(statement);
        }
    }

    #[cycle(statement)]
    fn elements(&mut self, elements: &[Element]) {
        for element in elements {
            self.constants(element.constants.as_slice());
            self.braced(&element.statement);
        }
    }
}
