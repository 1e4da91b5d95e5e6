//! Types.

ghost use Rattle.std.specs.Prelude.{◌≡◌};
ghost use Rattle.ps_scan.specs.declared.token.Kind.TheVariants as k;
ghost use Rattle.ps_parse.specs.Steps.{Reads, separated, terminated};
ghost use Rattle.ps_parse.specs.ReadPrograms as read;

use crate::answer::{boxed_answer, push_answer};
use crate::error::ReadFailure;
use crate::parser::Parser;
use ps_scan::Kind;
use ps_syntax::{Constant, Fields, Items, Ordinal, Structure, TypeDenoter};
use ps_text::Span;

impl<'a> Parser<'a> {
    /// Reads names, with commas between them.
    pub fn names(&mut self) -> Result<Items<Span>, ReadFailure>
        ensures { Reads (read.names self.old.rest.now) result self.new.rest.now }
    {
        let mut found = Items::new(self.alloc);
        loop {
            push_answer(&mut found, self.expect(Kind::Name))?;
            if !self.eat(Kind::Comma) {
                return Ok(found);
            }
        }
    }

    #[tactic(auto, unfolding(crate::specs::Steps::eat))]
    fn after_constant(&mut self, first: Constant) -> Result<Ordinal, ReadFailure>
        ensures { Reads (read.after_constant first self.old.rest.now) result self.new.rest.now }
    {
        match first {
            Constant::Name(None, at) => {
                if self.eat(Kind::DotDot) {
                    Ok(Ordinal::Subrange(first, self.constant()?))
                } else {
                    Ok(Ordinal::Name(at))
                }
            }
            Constant::Name(Some(_), _) | Constant::Number(_, _) | Constant::Text(_) => {
                self.expect(Kind::DotDot)?;
                Ok(Ordinal::Subrange(first, self.constant()?))
            }
        }
    }

    #[tactic(auto, using(crate::proofs::Closed::closed), unfolding(crate::specs::ReadPrograms::ordinal, crate::specs::ReadPrograms::enumeration))]
    fn ordinal(&mut self) -> Result<Ordinal, ReadFailure>
        ensures { Reads (read.ordinal self.old.rest.now) result self.new.rest.now }
    {
        if let Some(at) = self.accept(Kind::LeftParen) {
            let names = self.names()?;
            let end = self.expect(Kind::RightParen);
            return end.and(Ok(Ordinal::Enumeration(at, names)));
        }
        let first = self.constant()?;
        self.after_constant(first)
    }

    #[tactic(auto, unfolding(crate::specs::ReadPrograms::read_index))]
    fn index(&mut self, depth: u32) -> Result<Ordinal, ReadFailure>
        ensures { Reads (read.read_index depth self.old.rest.now) result self.new.rest.now }
    {
        if depth == 0 {
            return Err(self.refusal());
        }
        self.ordinal()
    }

    fn indices(&mut self, depth: u32) -> Result<Items<Ordinal>, ReadFailure>
        ensures { Reads (separated k.Comma (read.read_index depth) self.old.rest.now) result self.new.rest.now }
    {
        let mut found = Items::new(self.alloc);
        loop {
            push_answer(&mut found, self.index(depth))?;
            if !self.eat(Kind::Comma) {
                return Ok(found);
            }
        }
    }

    /// Reads a type denoter, within this depth (6.4).
    #[cycle(ty)]
    #[tactic(auto, unfolding(crate::specs::ReadPrograms::read_type, crate::specs::ReadPrograms::any_type))]
    pub fn type_denoter(&mut self, depth: u32) -> Result<TypeDenoter, ReadFailure>
        ensures { Reads (read.read_type depth self.old.rest.now) result self.new.rest.now }
    {
        if depth == 0 {
            return Err(self.refusal());
        }
        let Some(token) = self.peek() else {
            return Err(self.refusal());
        };
        match token.kind {
            Kind::Caret => {
                self.skip();
                Ok(TypeDenoter::Pointer(token.span, self.expect(Kind::Name)?))
            }
            Kind::Packed => {
                self.skip();
                Ok(TypeDenoter::Packed(token.span, self.structure(depth - 1)?))
            }
            Kind::Array | Kind::Record | Kind::Set => {
                Ok(TypeDenoter::Structure(self.structure(depth - 1)?))
            }
            _ => Ok(TypeDenoter::Ordinal(self.ordinal()?)),
        }
    }

    #[cycle(ty)]
    #[tactic(auto, unfolding(crate::specs::ReadPrograms::structure, crate::specs::ReadPrograms::set_of))]
    fn structure(&mut self, depth: u32) -> Result<Structure, ReadFailure>
        ensures { Reads (read.structure (read.read_index depth) (read.read_type depth) self.old.rest.now) result
            self.new.rest.now }
    {
        let Some(token) = self.peek() else {
            return Err(self.refusal());
        };
        match token.kind {
            Kind::Array => {
                self.skip();
                self.array(depth, token.span)
            }
            Kind::Record => {
                self.skip();
                self.record(depth, token.span)
            }
            Kind::Set => {
                self.skip();
                self.expect(Kind::Of)?;
                Ok(Structure::Set(token.span, self.index(depth)?))
            }
            _ => Err(self.refusal()),
        }
    }

    #[cycle(ty)]
    #[tactic(auto, unfolding(crate::specs::ReadPrograms::array))]
    fn array(&mut self, depth: u32, at: Span) -> Result<Structure, ReadFailure>
        ensures { Reads (read.array (read.read_index depth) (read.read_type depth) at self.old.rest.now) result
            self.new.rest.now }
    {
        self.expect(Kind::LeftBracket)?;
        let read = self.indices(depth);
        let indices = self.followed_by(Kind::RightBracket, read)?;
        self.expect(Kind::Of)?;
        let item = boxed_answer(self.alloc, self.type_denoter(depth))?;
        Ok(Structure::Array(at, indices, item))
    }

    #[cycle(ty)]
    #[tactic(auto, using(crate::proofs::Closed::closed), unfolding(crate::specs::ReadPrograms::record_of, crate::specs::Steps::eat))]
    fn record(&mut self, depth: u32, at: Span) -> Result<Structure, ReadFailure>
        ensures { Reads (read.record_of (read.read_index depth) (read.read_type depth) at self.old.rest.now) result
            self.new.rest.now }
    {
        if self.eat(Kind::End) {
            return Ok(Structure::Record(at, Items::new(self.alloc)));
        }
        let sections = self.sections_of_record(depth)?;
        let end = self.expect(Kind::End);
        end.and(Ok(Structure::Record(at, sections)))
    }

    #[cycle(ty)]
    #[tactic(auto, unfolding(crate::specs::ReadPrograms::fields))]
    fn fields(&mut self, depth: u32) -> Result<Fields, ReadFailure>
        ensures { Reads (read.fields (read.read_index depth) (read.read_type depth) self.old.rest.now) result
            self.new.rest.now }
    {
        let names = self.names()?;
        self.expect(Kind::Colon)?;
        let ty = self.type_denoter(depth)?;
        Ok(Fields { names, ty })
    }

    #[cycle(ty)]
    fn sections_of_record(&mut self, depth: u32) -> Result<Items<Fields>, ReadFailure>
        ensures { Reads (terminated k.Semicolon k.End
            (read.fields (read.read_index depth) (read.read_type depth)) self.old.rest.now) result self.new.rest.now }
    {
        let mut found = Items::new(self.alloc);
        loop {
            push_answer(&mut found, self.fields(depth))?;
            if !self.eat(Kind::Semicolon) {
                return Ok(found);
            }
            if self.sees(Kind::End) {
                return Ok(found);
            }
        }
    }
}
