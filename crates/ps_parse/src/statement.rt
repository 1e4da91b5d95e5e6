//! Statements.

ghost use Rattle.std.specs.Prelude.{◌≡◌, Some};
ghost use Rattle.ps_scan.specs.declared.token.Kind.TheVariants as k;
ghost use Rattle.ps_parse.specs.Steps.{Reads, separated, terminated};
ghost use Rattle.ps_parse.specs.ReadExpressions as expression;
ghost use Rattle.ps_parse.specs.ReadStatements as read;

use crate::answer::{beside, boxed_answer, push_answer};
use crate::error::ReadFailure;
use crate::parser::Parser;
use ps_scan::{Kind, Token};
use ps_syntax::{Boxed, Constant, Direction, Element, Items, Parameter, Statement, Variable};
use ps_text::Span;

impl<'a> Parser<'a> {
    #[tactic(auto, unfolding(crate::specs::ReadExpressions::eat_operator))]
    fn direction(&mut self) -> Option<(Direction, Span)>
        ensures read { expression.eat_operator read.direction_of self.old.rest.now ≡ Ok (result, self.new.rest.now) }
    {
        let [token, rest @ ..] = self.rest else {
            return None;
        };
        let direction = match token.kind {
            Kind::To => Direction::Up,
            Kind::Downto => Direction::Down,
            _ => return None,
        };
        self.rest = rest;
        Some((direction, token.span))
    }

    /// Reads a constant: a string, or a number or a name with or without a sign (6.3).
    #[tactic(auto, unfolding(crate::specs::ReadStatements::constant, crate::specs::ReadStatements::operand))]
    pub fn constant(&mut self) -> Result<Constant, ReadFailure>
        ensures { Reads (read.constant self.old.rest.now) result self.new.rest.now }
    {
        if let Some(at) = self.accept(Kind::Text) {
            return Ok(Constant::Text(at));
        }
        let sign = self.sign();
        let Some(token) = self.peek() else {
            return Err(self.refusal());
        };
        match token.kind {
            Kind::Number => {
                self.skip();
                Ok(Constant::Number(sign, token.span))
            }
            Kind::Name => {
                self.skip();
                Ok(Constant::Name(sign, token.span))
            }
            _ => Err(self.refusal()),
        }
    }

    /// Reads constants, with commas between them.
    pub fn constants(&mut self) -> Result<Items<Constant>, ReadFailure>
        ensures { Reads (separated k.Comma read.constant self.old.rest.now) result self.new.rest.now }
    {
        let mut found = Items::new(self.alloc);
        loop {
            push_answer(&mut found, self.constant())?;
            if !self.eat(Kind::Comma) {
                return Ok(found);
            }
        }
    }

    #[tactic(auto, unfolding(crate::specs::ReadStatements::parameter, crate::specs::Steps::eat))]
    fn parameter(&mut self, depth: u32) -> Result<Parameter, ReadFailure>
        ensures { Reads (read.parameter (expression.read_expr depth) self.old.rest.now) result self.new.rest.now }
    {
        let value = self.expr(depth)?;
        if !self.eat(Kind::Colon) {
            return Ok(Parameter::Plain(value));
        }
        let (value, width) = beside(value, self.boxed_expr(depth))?;
        Ok(Parameter::Width(value, width))
    }

    fn parameters(&mut self, depth: u32) -> Result<Items<Parameter>, ReadFailure>
        ensures { Reads (separated k.Comma (read.parameter (expression.read_expr depth)) self.old.rest.now) result
            self.new.rest.now }
    {
        let mut found = Items::new(self.alloc);
        loop {
            push_answer(&mut found, self.parameter(depth))?;
            if !self.eat(Kind::Comma) {
                return Ok(found);
            }
        }
    }

    #[tactic(auto, unfolding(crate::specs::ReadStatements::named_variable, crate::specs::ReadExpressions::variable))]
    fn named_variable(&mut self, depth: u32) -> Result<Variable, ReadFailure>
        ensures { Reads (read.named_variable (expression.read_expr depth) self.old.rest.now) result self.new.rest.now }
    {
        let name = self.expect(Kind::Name)?;
        let selectors = self.selectors(depth)?;
        Ok(Variable { name, selectors })
    }

    fn variables(&mut self, depth: u32) -> Result<Items<Variable>, ReadFailure>
        ensures { Reads (separated k.Comma (read.named_variable (expression.read_expr depth)) self.old.rest.now) result
            self.new.rest.now }
    {
        let mut found = Items::new(self.alloc);
        loop {
            push_answer(&mut found, self.named_variable(depth))?;
            if !self.eat(Kind::Comma) {
                return Ok(found);
            }
        }
    }

    #[tactic(auto, using(crate::proofs::Closed::closed), unfolding(crate::specs::ReadStatements::after_name, crate::specs::Steps::eat))]
    fn after_name(&mut self, depth: u32, name: Span) -> Result<Statement, ReadFailure>
        ensures { Reads (read.after_name (expression.read_expr depth) name self.old.rest.now) result self.new.rest.now }
    {
        if self.eat(Kind::LeftParen) {
            let parameters = self.parameters(depth)?;
            let end = self.expect(Kind::RightParen);
            return end.and(Ok(Statement::Call(name, parameters)));
        }
        let selectors = self.selectors(depth)?;
        let becomes = self.accept(Kind::Assign);
        self.assigned(depth, name, selectors, becomes)
    }

    fn assigned(
        &mut self,
        depth: u32,
        name: Span,
        selectors: Items<ps_syntax::Selector>,
        becomes: Option<Span>,
    ) -> Result<Statement, ReadFailure>
        ensures { Reads (read.assigned (expression.read_expr depth) name selectors becomes self.old.rest.now) result
            self.new.rest.now }
    {
        match becomes {
            Some(at) => {
                let value = self.boxed_expr(depth)?;
                Ok(Statement::Assign(Variable { name, selectors }, at, value))
            }
            None if selectors.is_empty() => Ok(Statement::Call(name, Items::new(self.alloc))),
            None => Err(self.refusal()),
        }
    }

    /// Reads a statement, within this depth (6.8).
    #[cycle(statement)]
    #[tactic(auto, unfolding(crate::specs::ReadStatements::read_statement, crate::specs::ReadStatements::any_statement))]
    pub fn statement(&mut self, depth: u32) -> Result<Statement, ReadFailure>
        ensures { Reads (read.read_statement depth self.old.rest.now) result self.new.rest.now }
    {
        if depth == 0 {
            return Err(self.refusal());
        }
        let Some(token) = self.peek() else {
            return Ok(Statement::Empty);
        };
        match token.kind {
            Kind::Name => {
                self.skip();
                self.after_name(depth - 1, token.span)
            }
            _ => self.unnamed_statement(depth - 1, token),
        }
    }

    /// Like `statement`, with the value allocated on the heap.
    #[cycle(statement)]
    fn boxed_statement(&mut self, depth: u32) -> Result<Boxed<Statement>, ReadFailure>
        ensures { Reads (read.read_statement depth self.old.rest.now) result self.new.rest.now }
    {
        boxed_answer(self.alloc, self.statement(depth))
    }

    #[cycle(statement)]
    fn unnamed_statement(&mut self, depth: u32, token: Token) -> Result<Statement, ReadFailure>
        ensures { Reads (read.unnamed_by (expression.read_expr depth)
            (read.read_statement depth) token.kind token.span self.old.rest.now) result self.new.rest.now }
    {
        match token.kind {
            Kind::Begin => {
                self.skip();
                self.compound(depth)
            }
            Kind::If => {
                self.skip();
                self.if_statement(depth)
            }
            Kind::Case => {
                self.skip();
                self.case_statement(depth, token.span)
            }
            Kind::While => {
                self.skip();
                self.while_statement(depth)
            }
            Kind::Repeat => {
                self.skip();
                self.repeat_statement(depth)
            }
            Kind::For => {
                self.skip();
                self.for_statement(depth)
            }
            Kind::With => {
                self.skip();
                self.with_statement(depth)
            }
            _ => Ok(Statement::Empty),
        }
    }

    /// Reads statements, with semicolons between them (6.8.3.1).
    #[cycle(statement)]
    pub fn sequence(&mut self, depth: u32) -> Result<Items<Statement>, ReadFailure>
        ensures { Reads (separated k.Semicolon (read.read_statement depth) self.old.rest.now) result self.new.rest.now }
    {
        // most sequences are of one statement
        let mut found = Items::from_vec(Vec::with_capacity(self.alloc, 1)?);
        loop {
            push_answer(&mut found, self.statement(depth))?;
            if !self.eat(Kind::Semicolon) {
                return Ok(found);
            }
        }
    }

    #[cycle(statement)]
    #[tactic(auto, using(crate::proofs::Closed::closed), unfolding(crate::specs::ReadStatements::compound, crate::specs::ReadStatements::sequence))]
    fn compound(&mut self, depth: u32) -> Result<Statement, ReadFailure>
        ensures { Reads (read.compound (expression.read_expr depth) (read.read_statement depth) self.old.rest.now)
            result self.new.rest.now }
    {
        let statements = self.sequence(depth)?;
        let end = self.expect(Kind::End);
        end.and(Ok(Statement::Compound(statements)))
    }

    #[cycle(statement)]
    #[tactic(auto, unfolding(crate::specs::ReadStatements::if_statement, crate::specs::Steps::eat))]
    fn if_statement(&mut self, depth: u32) -> Result<Statement, ReadFailure>
        ensures { Reads (read.if_statement (expression.read_expr depth) (read.read_statement depth) self.old.rest.now)
            result self.new.rest.now }
    {
        let condition = self.boxed_expr(depth)?;
        self.expect(Kind::Then)?;
        let chosen = self.boxed_statement(depth)?;
        if !self.eat(Kind::Else) {
            return Ok(Statement::If(condition, chosen));
        }
        let other = self.boxed_statement(depth)?;
        Ok(Statement::IfElse(condition, chosen, other))
    }

    #[cycle(statement)]
    #[tactic(auto, unfolding(crate::specs::ReadStatements::element))]
    fn element(&mut self, depth: u32) -> Result<Element, ReadFailure>
        ensures { Reads (read.element (expression.read_expr depth) (read.read_statement depth) self.old.rest.now) result
            self.new.rest.now }
    {
        let read = self.constants();
        let constants = self.followed_by(Kind::Colon, read)?;
        let statement = self.statement(depth)?;
        Ok(Element {
            constants,
            statement,
        })
    }

    #[cycle(statement)]
    fn elements(&mut self, depth: u32) -> Result<Items<Element>, ReadFailure>
        ensures { Reads (terminated k.Semicolon k.End
            (read.element (expression.read_expr depth) (read.read_statement depth)) self.old.rest.now) result
            self.new.rest.now }
    {
        let mut found = Items::new(self.alloc);
        loop {
            push_answer(&mut found, self.element(depth))?;
            if !self.eat(Kind::Semicolon) {
                return Ok(found);
            }
            if self.sees(Kind::End) {
                return Ok(found);
            }
        }
    }

    #[cycle(statement)]
    #[tactic(auto, using(crate::proofs::Closed::closed), unfolding(crate::specs::ReadStatements::case_statement))]
    fn case_statement(&mut self, depth: u32, at: Span) -> Result<Statement, ReadFailure>
        ensures { Reads (read.case_statement (expression.read_expr depth)
            (read.read_statement depth) at self.old.rest.now) result self.new.rest.now }
    {
        let read = self.boxed_expr(depth);
        let index = self.followed_by(Kind::Of, read)?;
        let elements = self.elements(depth)?;
        let end = self.expect(Kind::End);
        end.and(Ok(Statement::Case(at, index, elements)))
    }

    #[cycle(statement)]
    #[tactic(auto, unfolding(crate::specs::ReadStatements::while_statement))]
    fn while_statement(&mut self, depth: u32) -> Result<Statement, ReadFailure>
        ensures { Reads (read.while_statement (expression.read_expr depth)
            (read.read_statement depth) self.old.rest.now) result self.new.rest.now }
    {
        let read = self.boxed_expr(depth);
        let condition = self.followed_by(Kind::Do, read)?;
        let body = self.boxed_statement(depth)?;
        Ok(Statement::While(condition, body))
    }

    #[cycle(statement)]
    #[tactic(auto, unfolding(crate::specs::ReadStatements::repeat_statement, crate::specs::ReadStatements::sequence))]
    fn repeat_statement(&mut self, depth: u32) -> Result<Statement, ReadFailure>
        ensures { Reads (read.repeat_statement (expression.read_expr depth)
            (read.read_statement depth) self.old.rest.now) result self.new.rest.now }
    {
        let read = self.sequence(depth);
        let statements = self.followed_by(Kind::Until, read)?;
        let condition = self.boxed_expr(depth)?;
        Ok(Statement::Repeat(statements, condition))
    }

    #[cycle(statement)]
    #[tactic(auto, unfolding(crate::specs::ReadStatements::for_statement))]
    fn for_statement(&mut self, depth: u32) -> Result<Statement, ReadFailure>
        ensures { Reads (read.for_statement (expression.read_expr depth) (read.read_statement depth) self.old.rest.now)
            result self.new.rest.now }
    {
        let read = self.expect(Kind::Name);
        let variable = self.followed_by(Kind::Assign, read)?;
        let first = self.boxed_expr(depth)?;
        let Some((direction, _)) = self.direction() else {
            return Err(self.refusal());
        };
        let read = self.boxed_expr(depth);
        let last = self.followed_by(Kind::Do, read)?;
        let body = self.boxed_statement(depth)?;
        Ok(Statement::For {
            variable,
            first,
            direction,
            last,
            body,
        })
    }

    #[cycle(statement)]
    #[tactic(auto, unfolding(crate::specs::ReadStatements::with_statement))]
    fn with_statement(&mut self, depth: u32) -> Result<Statement, ReadFailure>
        ensures { Reads (read.with_statement (expression.read_expr depth) (read.read_statement depth) self.old.rest.now)
            result self.new.rest.now }
    {
        let read = self.variables(depth);
        let records = self.followed_by(Kind::Do, read)?;
        let body = self.boxed_statement(depth)?;
        Ok(Statement::With(records, body))
    }
}
