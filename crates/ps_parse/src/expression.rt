//! Expressions.

ghost use Rattle.std.specs.Prelude.{◌≡◌, ◌≤◌, ◌<◌, ◌+◌, ℕ, true, false, Ok, Some, drop, length};
ghost use Rattle.ps_scan.specs.declared.token.Kind.TheVariants as k;
ghost use Rattle.ps_parse.specs.Steps.{Reads, sees, separated, many};
ghost use Rattle.ps_parse.specs.ReadExpressions as read;

use crate::answer::{beside, boxed_answer, push_answer};
use crate::error::ReadFailure;
use crate::parser::Parser;
use ps_scan::{Kind, Token, is};
use ps_syntax::{
    AddedTerm, Adding, Boxed, Expr, Factor, Items, Member, MultipliedFactor, Multiplying,
    Relational, Selector, Sign, Simple, Term, Variable,
};
use ps_text::Span;

/// How many of these tokens, from the first one on, are of a kind, up to a limit.
#[tactic(auto, using(crate::proofs::Runs::run_more, crate::proofs::Runs::run_ends, crate::proofs::Runs::none_left))]
fn run_of(tokens: &[Token], kind: Kind, most: u32) -> u32
    ensures most { result ≤ most }
    ensures within { result ≤ length tokens.now }
    ensures run { (i : ℕ) → i < result → sees kind (drop i tokens.now) ≡ true }
    ensures end { result < most → sees kind (drop result tokens.now) ≡ false }
{
    for (count, token) in tokens.iter().enumerate() {
        if count == most as usize || !is(token.kind, kind) {
            return count as u32;
        }
    }
    tokens.len() as u32
}

impl<'a> Parser<'a> {
    #[tactic(auto, unfolding(crate::specs::ReadExpressions::eat_operator))]
    fn relation(&mut self) -> Option<(Relational, Span)>
        ensures read { read.eat_operator read.relation_of self.old.rest.now ≡ Ok (result, self.new.rest.now) }
    {
        let [token, rest @ ..] = self.rest else {
            return None;
        };
        let relation = match token.kind {
            Kind::Equal => Relational::Equal,
            Kind::NotEqual => Relational::NotEqual,
            Kind::Less => Relational::Less,
            Kind::Greater => Relational::Greater,
            Kind::LessEqual => Relational::LessEqual,
            Kind::GreaterEqual => Relational::GreaterEqual,
            Kind::In => Relational::In,
            _ => return None,
        };
        self.rest = rest;
        Some((relation, token.span))
    }

    /// Takes a sign, if one comes next.
    #[tactic(auto, unfolding(crate::specs::ReadExpressions::eat_operator))]
    pub fn sign(&mut self) -> Option<(Sign, Span)>
        ensures read { read.eat_operator read.sign_of self.old.rest.now ≡ Ok (result, self.new.rest.now) }
    {
        let [token, rest @ ..] = self.rest else {
            return None;
        };
        let sign = match token.kind {
            Kind::Plus => Sign::Plus,
            Kind::Minus => Sign::Minus,
            _ => return None,
        };
        self.rest = rest;
        Some((sign, token.span))
    }

    #[tactic(auto, unfolding(crate::specs::ReadExpressions::eat_operator))]
    fn adding(&mut self) -> Option<(Adding, Span)>
        ensures read { read.eat_operator read.adding_of self.old.rest.now ≡ Ok (result, self.new.rest.now) }
    {
        let [token, rest @ ..] = self.rest else {
            return None;
        };
        let operator = match token.kind {
            Kind::Plus => Adding::Plus,
            Kind::Minus => Adding::Minus,
            Kind::Or => Adding::Or,
            _ => return None,
        };
        self.rest = rest;
        Some((operator, token.span))
    }

    #[tactic(auto, unfolding(crate::specs::ReadExpressions::eat_operator))]
    fn multiplying(&mut self) -> Option<(Multiplying, Span)>
        ensures read { read.eat_operator read.multiplying_of self.old.rest.now ≡ Ok (result, self.new.rest.now) }
    {
        let [token, rest @ ..] = self.rest else {
            return None;
        };
        let operator = match token.kind {
            Kind::Star => Multiplying::Times,
            Kind::Div => Multiplying::Div,
            Kind::Mod => Multiplying::Mod,
            Kind::And => Multiplying::And,
            _ => return None,
        };
        self.rest = rest;
        Some((operator, token.span))
    }

    /// Whether the next token continues an expression after a factor.
    fn sees_operator(&self) -> bool
        ensures { result ≡ read.sees_operator self.now.rest.now }
    {
        matches!(
            self.rest,
            [
                Token {
                    kind: Kind::Star
                        | Kind::Div
                        | Kind::Mod
                        | Kind::And
                        | Kind::Plus
                        | Kind::Minus
                        | Kind::Or
                        | Kind::Equal
                        | Kind::NotEqual
                        | Kind::Less
                        | Kind::Greater
                        | Kind::LessEqual
                        | Kind::GreaterEqual
                        | Kind::In,
                    ..
                },
                ..
            ]
        )
    }

    #[cycle(expression)]
    #[tactic(auto, unfolding(crate::specs::ReadExpressions::member, crate::specs::Steps::eat))]
    fn member(&mut self, depth: u32) -> Result<Member, ReadFailure>
        ensures { Reads (read.member (read.read_expr depth) self.old.rest.now) result self.new.rest.now }
    {
        let first = self.boxed_expr(depth)?;
        if self.eat(Kind::DotDot) {
            Ok(Member::Range(first, self.boxed_expr(depth)?))
        } else {
            Ok(Member::One(first))
        }
    }

    /// A factor alone is returned here, where no part is held while another is read.
    #[cycle(expression)]
    #[tactic(auto, unfolding(crate::specs::ReadExpressions::read_expr, crate::specs::ReadExpressions::compared, crate::specs::ReadExpressions::simple, crate::specs::ReadExpressions::term))]
    pub fn expr(&mut self, depth: u32) -> Result<Expr, ReadFailure>
        ensures { Reads (read.read_expr depth self.old.rest.now) result self.new.rest.now }
    {
        if depth == 0 {
            return Err(self.refusal());
        }
        let sign = self.sign();
        let first = self.factor(depth - 1)?;
        if self.sees_operator() {
            return self.expr_from(depth - 1, sign, first);
        }
        let first = Term {
            first,
            more: Items::new(self.alloc),
        };
        let more = Items::new(self.alloc);
        Ok(Expr::Simple(Simple { sign, first, more }))
    }

    /// An expression whose sign and first factor have been read.
    #[cycle(expression)]
    fn expr_from(
        &mut self,
        depth: u32,
        sign: Option<(Sign, Span)>,
        first: Factor,
    ) -> Result<Expr, ReadFailure>
        ensures { Reads (read.expr_after (read.read_factor depth) sign first self.old.rest.now) result
            self.new.rest.now }
    {
        let left = self.simple_from(depth, sign, first)?;
        match self.relation() {
            None => Ok(Expr::Simple(left)),
            Some((relation, at)) => {
                let (left, right) = beside(left, self.right_side(depth))?;
                Ok(Expr::Compare(left, relation, at, right))
            }
        }
    }

    /// The simple expression after a relation, allocated on the heap.
    #[cycle(expression)]
    #[tactic(auto, unfolding(crate::specs::ReadExpressions::simple, crate::specs::ReadExpressions::term))]
    fn right_side(&mut self, depth: u32) -> Result<Boxed<Simple>, ReadFailure>
        ensures { Reads (read.simple (read.term (read.read_factor depth)) self.old.rest.now) result self.new.rest.now }
    {
        let sign = self.sign();
        let first = self.factor(depth)?;
        boxed_answer(self.alloc, self.simple_from(depth, sign, first))
    }

    /// Like `expr`, with the value allocated on the heap. A factor alone goes there directly, so that a level of
    /// parentheses passes only the factor up.
    #[cycle(expression)]
    #[tactic(auto, unfolding(crate::specs::ReadExpressions::read_expr, crate::specs::ReadExpressions::compared, crate::specs::ReadExpressions::simple, crate::specs::ReadExpressions::term))]
    pub fn boxed_expr(&mut self, depth: u32) -> Result<Boxed<Expr>, ReadFailure>
        ensures { Reads (read.read_expr depth self.old.rest.now) result self.new.rest.now }
    {
        if depth == 0 {
            return Err(self.refusal());
        }
        let sign = self.sign();
        let first = self.factor(depth - 1)?;
        if self.sees_operator() {
            return self.boxed_from(depth - 1, sign, first);
        }
        let first = Term {
            first,
            more: Items::new(self.alloc),
        };
        let more = Items::new(self.alloc);
        boxed_answer(self.alloc, Ok(Expr::Simple(Simple { sign, first, more })))
    }

    /// Like `expr_from`, with the value allocated on the heap. Inlined, it would make the frame of each level of
    /// parentheses several times as large.
    #[cycle(expression)]
    #[inline(never)]
    fn boxed_from(
        &mut self,
        depth: u32,
        sign: Option<(Sign, Span)>,
        first: Factor,
    ) -> Result<Boxed<Expr>, ReadFailure>
        ensures { Reads (read.expr_after (read.read_factor depth) sign first self.old.rest.now) result
            self.new.rest.now }
    {
        boxed_answer(self.alloc, self.expr_from(depth, sign, first))
    }

    /// A simple expression whose sign and first factor have been read.
    #[cycle(expression)]
    fn simple_from(
        &mut self,
        depth: u32,
        sign: Option<(Sign, Span)>,
        first: Factor,
    ) -> Result<Simple, ReadFailure>
        ensures { Reads (read.simple_after (read.read_factor depth) sign first self.old.rest.now) result
            self.new.rest.now }
    {
        let first = self.term_from(depth, first)?;
        let (first, more) = beside(first, self.terms(depth))?;
        Ok(Simple { sign, first, more })
    }

    #[cycle(expression)]
    fn terms(&mut self, depth: u32) -> Result<Items<AddedTerm>, ReadFailure>
        ensures { Reads (many (read.added (read.term (read.read_factor depth))) self.old.rest.now) result
            self.new.rest.now }
    {
        let mut found = Items::new(self.alloc);
        while let Some((operator, at)) = self.adding() {
            let first = self.factor(depth)?;
            let term = self.term_from(depth, first)?;
            found.push(AddedTerm { operator, at, term })?;
        }
        Ok(found)
    }

    /// A term whose first factor has been read.
    #[cycle(expression)]
    fn term_from(&mut self, depth: u32, first: Factor) -> Result<Term, ReadFailure>
        ensures { Reads (read.term_from (read.read_factor depth) first self.old.rest.now) result self.new.rest.now }
    {
        let (first, more) = beside(first, self.factors(depth))?;
        Ok(Term { first, more })
    }

    #[cycle(expression)]
    fn factors(&mut self, depth: u32) -> Result<Items<MultipliedFactor>, ReadFailure>
        ensures { Reads (many (read.multiplied (read.read_factor depth)) self.old.rest.now) result self.new.rest.now }
    {
        let mut found = Items::new(self.alloc);
        while let Some((operator, at)) = self.multiplying() {
            let factor = self.factor(depth)?;
            found.push(MultipliedFactor {
                operator,
                at,
                factor,
            })?;
        }
        Ok(found)
    }

    #[cycle(expression)]
    #[tactic(auto, unfolding(crate::specs::ReadExpressions::factor, crate::specs::ReadExpressions::read_negated))]
    fn factor(&mut self, depth: u32) -> Result<Factor, ReadFailure>
        ensures { Reads (read.read_factor depth self.old.rest.now) result self.new.rest.now }
    {
        let Some(token) = self.peek() else {
            return Err(self.refusal());
        };
        match token.kind {
            Kind::Name => {
                self.skip();
                self.named(depth, token.span)
            }
            Kind::Number => {
                self.skip();
                Ok(Factor::Number(token.span))
            }
            Kind::Text => {
                self.skip();
                Ok(Factor::Text(token.span))
            }
            Kind::Nil => {
                self.skip();
                Ok(Factor::Nil(token.span))
            }
            Kind::LeftBracket => {
                self.skip();
                self.set(depth, token.span)
            }
            Kind::LeftParen => {
                self.skip();
                self.group(depth, token.span)
            }
            Kind::Not => {
                self.skip();
                Ok(Factor::Not(token.span, self.negated(depth)?))
            }
            _ => Err(self.refusal()),
        }
    }

    #[cycle(expression)]
    #[tactic(auto, unfolding(crate::specs::ReadExpressions::read_negated))]
    fn negated(&mut self, depth: u32) -> Result<Boxed<Factor>, ReadFailure>
        ensures { Reads (read.read_negated depth self.old.rest.now) result self.new.rest.now }
    {
        if depth == 0 {
            return Err(self.refusal());
        }
        boxed_answer(self.alloc, self.factor(depth - 1))
    }

    /// Skips the parentheses that come next, at most `most` of them, and returns their number.
    #[tactic(auto, using(crate::proofs::Parentheses::run_taken))]
    fn opened(&mut self, most: u32) -> u32
        ensures count { result ≡ read.parentheses most self.old.rest.now }
        ensures most { result ≤ most }
        ensures after { self.new.rest.now ≡ drop result self.old.rest.now }
    {
        let count = run_of(self.rest, Kind::LeftParen, most);
        self.rest = &self.rest[count as usize..];
        count
    }

    /// Skips closing parentheses that come next and are followed by another one, fewer than `most`, and returns their
    /// number.
    fn closed_ahead(&mut self, most: u32) -> u32
        ensures most { result ≤ most }
        ensures closing { (i : ℕ) → i < result → (sees k.RightParen (drop i self.old.rest.now) ≡ true)
            × (sees k.RightParen (drop (i + 1) self.old.rest.now) ≡ true) }
        ensures after { self.new.rest.now ≡ drop result self.old.rest.now }
    {
        let count = run_of(self.rest, Kind::RightParen, most).saturating_sub(1);
        self.rest = &self.rest[count as usize..];
        count
    }

    /// A group after its parenthesis. The parentheses that come next are taken at once and closed one by one, so that
    /// parentheses directly within others need no call and no memory of their own.
    #[cycle(expression)]
    fn group(&mut self, depth: u32, at: Span) -> Result<Factor, ReadFailure>
        ensures { Reads (read.group (read.read_expr depth) at self.old.rest.now) result self.new.rest.now }
    {
        let tokens = self.rest;
        let opened = self.opened(depth);
        let mut inner = self.boxed_expr(depth - opened)?;
        let mut redundant = self.closed_ahead(opened);
        for closed in redundant..opened {
            self.expect(Kind::RightParen)?;
            if !self.sees_operator() {
                redundant += 1;
                continue;
            }
            let open = opened - closed - 1;
            let first = Factor::Group(tokens[open as usize].span, redundant, inner);
            inner = self.boxed_from(depth - open - 1, None, first)?;
            redundant = 0;
        }
        let end = self.expect(Kind::RightParen);
        end.and(Ok(Factor::Group(at, redundant, inner)))
    }

    #[cycle(expression)]
    #[tactic(auto, using(crate::proofs::Closed::closed), unfolding(crate::specs::ReadExpressions::set, crate::specs::Steps::eat))]
    fn set(&mut self, depth: u32, at: Span) -> Result<Factor, ReadFailure>
        ensures { Reads (read.set (read.read_expr depth) at self.old.rest.now) result self.new.rest.now }
    {
        let mut members = Items::new(self.alloc);
        if self.eat(Kind::RightBracket) {
            return Ok(Factor::Set(at, members));
        }
        loop {
            push_answer(&mut members, self.member(depth))?;
            if !self.eat(Kind::Comma) {
                let end = self.expect(Kind::RightBracket);
                return end.and(Ok(Factor::Set(at, members)));
            }
        }
    }

    #[cycle(expression)]
    #[tactic(auto, using(crate::proofs::Closed::closed), unfolding(crate::specs::ReadExpressions::named, crate::specs::ReadExpressions::call, crate::specs::ReadExpressions::variable, crate::specs::Steps::eat))]
    fn named(&mut self, depth: u32, at: Span) -> Result<Factor, ReadFailure>
        ensures { Reads (read.named (read.read_expr depth) at self.old.rest.now) result self.new.rest.now }
    {
        if self.eat(Kind::LeftParen) {
            let parameters = self.exprs(depth)?;
            let end = self.expect(Kind::RightParen);
            return end.and(Ok(Factor::Call(at, parameters)));
        }
        let selectors = self.selectors(depth)?;
        Ok(Factor::Variable(Variable {
            name: at,
            selectors,
        }))
    }

    /// Reads the indices, fields and arrows after a variable's name, as many as follow (6.5).
    #[cycle(expression)]
    pub fn selectors(&mut self, depth: u32) -> Result<Items<Selector>, ReadFailure>
        ensures { Reads (many (read.selector (read.read_expr depth)) self.old.rest.now) result self.new.rest.now }
    {
        let mut found = Items::new(self.alloc);
        while let Some(selector) = self.selector(depth)? {
            found.push(selector)?;
        }
        Ok(found)
    }

    #[cycle(expression)]
    #[tactic(auto, using(crate::proofs::Closed::closed_some), unfolding(crate::specs::ReadExpressions::selector, crate::specs::ReadExpressions::index))]
    fn selector(&mut self, depth: u32) -> Result<Option<Selector>, ReadFailure>
        ensures { Reads (read.selector (read.read_expr depth) self.old.rest.now) result self.new.rest.now }
    {
        let Some(token) = self.peek() else {
            return Ok(None);
        };
        match token.kind {
            Kind::LeftBracket => {
                self.skip();
                let indices = self.exprs(depth)?;
                let end = self.expect(Kind::RightBracket);
                end.and(Ok(Some(Selector::Index(indices))))
            }
            Kind::Dot => {
                self.skip();
                Ok(Some(Selector::Field(self.expect(Kind::Name)?)))
            }
            Kind::Caret => {
                self.skip();
                Ok(Some(Selector::Content(token.span)))
            }
            _ => Ok(None),
        }
    }

    #[cycle(expression)]
    fn exprs(&mut self, depth: u32) -> Result<Items<Expr>, ReadFailure>
        ensures { Reads (separated k.Comma (read.read_expr depth) self.old.rest.now) result self.new.rest.now }
    {
        let mut found = Items::new(self.alloc);
        loop {
            push_answer(&mut found, self.expr(depth))?;
            if !self.eat(Kind::Comma) {
                return Ok(found);
            }
        }
    }
}
