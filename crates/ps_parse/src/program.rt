//! Headings, blocks and programs.

ghost use Rattle.std.specs.Prelude.{◌≡◌, ◌||◌, if◌then◌else◌};
ghost use Rattle.ps_scan.specs.declared.token.Kind.TheVariants as k;
ghost use Rattle.ps_syntax.specs.declared.program.Section.TheVariants as x;
ghost use Rattle.ps_parse.specs.Steps.{Reads, many, part, if_begins};
ghost use Rattle.ps_parse.specs.ReadStatements.{read_statement};
ghost use Rattle.ps_parse.specs.ReadPrograms as read;
ghost use Rattle.ps_parse_grammar.specs.Forward.{is_forward};

use crate::answer::{beside, push_answer};
use crate::error::ReadFailure;
use crate::parser::Parser;
use ps_scan::Kind;
use ps_syntax::{
    Block, ConstantDefinition, Heading, Items, Program, Routine, Section, TypeDefinition, Variables,
};
use ps_text::Span;

impl<'a> Parser<'a> {
    #[cycle(heading)]
    #[tactic(auto, unfolding(crate::specs::ReadPrograms::optional_formals))]
    fn optional_formals(&mut self, depth: u32) -> Result<Items<Section>, ReadFailure>
        ensures { Reads (read.optional_formals (read.read_formals depth) self.old.rest.now) result self.new.rest.now }
    {
        if self.sees(Kind::LeftParen) {
            self.formals(depth)
        } else {
            Ok(Items::new(self.alloc))
        }
    }

    #[cycle(heading)]
    #[tactic(auto, unfolding(crate::specs::ReadPrograms::procedure))]
    fn procedure(&mut self, depth: u32) -> Result<Heading, ReadFailure>
        ensures { Reads (read.procedure (read.read_formals depth) self.old.rest.now) result self.new.rest.now }
    {
        let name = self.expect(Kind::Name)?;
        Ok(Heading::Procedure(name, self.optional_formals(depth)?))
    }

    #[cycle(heading)]
    #[tactic(auto, unfolding(crate::specs::ReadPrograms::function_named))]
    fn function_named(&mut self, depth: u32, name: Span) -> Result<Heading, ReadFailure>
        ensures { Reads (read.function_named (read.read_formals depth) name self.old.rest.now) result
            self.new.rest.now }
    {
        let read = self.optional_formals(depth);
        let formals = self.followed_by(Kind::Colon, read)?;
        Ok(Heading::Function(name, formals, self.expect(Kind::Name)?))
    }

    /// A section of names and their type, after the word `var` if they are variable parameters.
    fn plain_section(&mut self, depth: u32, are_variable: bool) -> Result<Section, ReadFailure>
        ensures { Reads (read.plain_section (read.read_formals depth)
            (if are_variable then x.Variable else x.Value) self.old.rest.now) result self.new.rest.now }
    {
        let read = self.names();
        let names = self.followed_by(Kind::Colon, read)?;
        let ty = self.expect(Kind::Name)?;
        if are_variable {
            Ok(Section::Variable(names, ty))
        } else {
            Ok(Section::Value(names, ty))
        }
    }

    #[cycle(heading)]
    #[tactic(auto, unfolding(crate::specs::ReadPrograms::section, crate::specs::ReadPrograms::function, crate::specs::ReadPrograms::value_section, crate::specs::ReadPrograms::variable_section))]
    fn section(&mut self, depth: u32) -> Result<Section, ReadFailure>
        ensures { Reads (read.section (read.read_formals depth) self.old.rest.now) result self.new.rest.now }
    {
        let Some(token) = self.peek() else {
            return Err(self.refusal());
        };
        match token.kind {
            Kind::Var => {
                self.skip();
                self.plain_section(depth, true)
            }
            Kind::Procedure => {
                self.skip();
                Ok(Section::Routine(self.procedure(depth)?))
            }
            Kind::Function => {
                self.skip();
                let name = self.expect(Kind::Name)?;
                Ok(Section::Routine(self.function_named(depth, name)?))
            }
            _ => self.plain_section(depth, false),
        }
    }

    #[cycle(heading)]
    #[tactic(auto, unfolding(crate::specs::ReadPrograms::read_formals, crate::specs::ReadPrograms::formal_list))]
    fn formals(&mut self, depth: u32) -> Result<Items<Section>, ReadFailure>
        ensures { Reads (read.read_formals depth self.old.rest.now) result self.new.rest.now }
    {
        if depth == 0 {
            return Err(self.refusal());
        }
        self.expect(Kind::LeftParen)?;
        let mut sections = Items::new(self.alloc);
        loop {
            push_answer(&mut sections, self.section(depth - 1))?;
            if !self.eat(Kind::Semicolon) {
                let end = self.expect(Kind::RightParen);
                return end.and(Ok(sections));
            }
        }
    }

    #[tactic(auto, using(crate::proofs::Closed::closed), unfolding(crate::specs::ReadPrograms::constant_definition))]
    fn constant_definition(&mut self) -> Result<ConstantDefinition, ReadFailure>
        ensures { Reads (read.constant_definition self.old.rest.now) result self.new.rest.now }
    {
        let read = self.expect(Kind::Name);
        let name = self.followed_by(Kind::Equal, read)?;
        let value = self.constant()?;
        let end = self.expect(Kind::Semicolon);
        end.and(Ok(ConstantDefinition { name, value }))
    }

    #[tactic(auto, using(crate::proofs::Closed::closed), unfolding(crate::specs::ReadPrograms::type_definition))]
    fn type_definition(&mut self, depth: u32) -> Result<TypeDefinition, ReadFailure>
        ensures { Reads (read.type_definition (read.read_type depth) self.old.rest.now) result self.new.rest.now }
    {
        let read = self.expect(Kind::Name);
        let name = self.followed_by(Kind::Equal, read)?;
        let ty = self.type_denoter(depth)?;
        let end = self.expect(Kind::Semicolon);
        end.and(Ok(TypeDefinition { name, ty }))
    }

    #[tactic(auto, using(crate::proofs::Closed::closed), unfolding(crate::specs::ReadPrograms::variables))]
    fn declared_variables(&mut self, depth: u32) -> Result<Variables, ReadFailure>
        ensures { Reads (read.variables (read.read_type depth) self.old.rest.now) result self.new.rest.now }
    {
        let read = self.names();
        let names = self.followed_by(Kind::Colon, read)?;
        let ty = self.type_denoter(depth)?;
        let end = self.expect(Kind::Semicolon);
        end.and(Ok(Variables { names, ty }))
    }

    fn constant_part(&mut self) -> Result<Items<ConstantDefinition>, ReadFailure>
        ensures { Reads (part k.Const read.begins_name read.constant_definition self.old.rest.now) result
            self.new.rest.now }
    {
        let mut found = Items::new(self.alloc);
        let mut is_more = self.eat(Kind::Const);
        while is_more {
            push_answer(&mut found, self.constant_definition())?;
            is_more = self.sees(Kind::Name);
        }
        Ok(found)
    }

    fn type_part(&mut self, depth: u32) -> Result<Items<TypeDefinition>, ReadFailure>
        ensures { Reads (part k.Type read.begins_name (read.type_definition (read.read_type depth)) self.old.rest.now)
            result self.new.rest.now }
    {
        let mut found = Items::new(self.alloc);
        let mut is_more = self.eat(Kind::Type);
        while is_more {
            push_answer(&mut found, self.type_definition(depth))?;
            is_more = self.sees(Kind::Name);
        }
        Ok(found)
    }

    fn variable_part(&mut self, depth: u32) -> Result<Items<Variables>, ReadFailure>
        ensures { Reads (part k.Var read.begins_name (read.variables (read.read_type depth)) self.old.rest.now) result
            self.new.rest.now }
    {
        let mut found = Items::new(self.alloc);
        let mut is_more = self.eat(Kind::Var);
        while is_more {
            push_answer(&mut found, self.declared_variables(depth))?;
            is_more = self.sees(Kind::Name);
        }
        Ok(found)
    }

    fn sees_routine(&self) -> bool
        ensures { result ≡ read.begins_routine self.now.rest.now }
    {
        self.sees(Kind::Procedure) || self.sees(Kind::Function)
    }

    #[cycle(block)]
    #[tactic(auto, unfolding(crate::specs::ReadPrograms::after_heading))]
    fn after_heading(
        &mut self,
        text: &[u8],
        depth: u32,
        heading: Heading,
    ) -> Result<Routine, ReadFailure>
        ensures { Reads (read.after_heading (is_forward text.now) (read.read_formals depth)
            (read.read_block (is_forward text.now) depth) heading self.old.rest.now) result self.new.rest.now }
    {
        let left = self.left();
        match self.accept(Kind::Name) {
            Some(at) if names_forward(text, at) => Ok(Routine::Forward(heading)),
            Some(_) => Err(ReadFailure::Unexpected(left)),
            None => {
                let (heading, block) = beside(heading, self.block(text, depth))?;
                Ok(Routine::Whole(heading, block))
            }
        }
    }

    #[cycle(block)]
    #[tactic(auto, unfolding(crate::specs::ReadPrograms::procedure_routine))]
    fn procedure_routine(&mut self, text: &[u8], depth: u32) -> Result<Routine, ReadFailure>
        ensures { Reads (read.procedure_routine (is_forward text.now) (read.read_formals depth)
            (read.read_block (is_forward text.now) depth) self.old.rest.now) result self.new.rest.now }
    {
        let read = self.procedure(depth);
        let heading = self.followed_by(Kind::Semicolon, read)?;
        self.after_heading(text, depth, heading)
    }

    #[cycle(block)]
    #[tactic(auto, unfolding(crate::specs::ReadPrograms::function_routine, crate::specs::Steps::eat))]
    fn function_routine(&mut self, text: &[u8], depth: u32) -> Result<Routine, ReadFailure>
        ensures { Reads (read.function_routine (is_forward text.now) (read.read_formals depth)
            (read.read_block (is_forward text.now) depth) self.old.rest.now) result self.new.rest.now }
    {
        let name = self.expect(Kind::Name)?;
        if self.eat(Kind::Semicolon) {
            return Ok(Routine::Completion(name, self.block(text, depth)?));
        }
        let read = self.function_named(depth, name);
        let heading = self.followed_by(Kind::Semicolon, read)?;
        self.after_heading(text, depth, heading)
    }

    #[cycle(block)]
    #[tactic(auto, unfolding(crate::specs::ReadPrograms::routine_head))]
    fn routine_head(&mut self, text: &[u8], depth: u32) -> Result<Routine, ReadFailure>
        ensures { Reads (read.routine_head (is_forward text.now) (read.read_formals depth)
            (read.read_block (is_forward text.now) depth) self.old.rest.now) result self.new.rest.now }
    {
        let Some(token) = self.peek() else {
            return Err(self.refusal());
        };
        match token.kind {
            Kind::Procedure => {
                self.skip();
                self.procedure_routine(text, depth)
            }
            Kind::Function => {
                self.skip();
                self.function_routine(text, depth)
            }
            _ => Err(self.refusal()),
        }
    }

    #[cycle(block)]
    #[tactic(auto, using(crate::proofs::Closed::closed), unfolding(crate::specs::ReadPrograms::routine))]
    fn routine(&mut self, text: &[u8], depth: u32) -> Result<Routine, ReadFailure>
        ensures { Reads (read.routine (is_forward text.now) (read.read_formals depth)
            (read.read_block (is_forward text.now) depth) self.old.rest.now) result self.new.rest.now }
    {
        let routine = self.routine_head(text, depth)?;
        let end = self.expect(Kind::Semicolon);
        end.and(Ok(routine))
    }

    #[cycle(block)]
    fn routines(&mut self, text: &[u8], depth: u32) -> Result<Items<Routine>, ReadFailure>
        ensures { Reads (many (if_begins read.begins_routine
            (read.routine (is_forward text.now) (read.read_formals depth)
            (read.read_block (is_forward text.now) depth))) self.old.rest.now) result self.new.rest.now }
    {
        let mut found = Items::new(self.alloc);
        while self.sees_routine() {
            push_answer(&mut found, self.routine(text, depth))?;
        }
        Ok(found)
    }

    #[cycle(block)]
    #[tactic(auto, using(crate::proofs::Closed::closed), unfolding(crate::specs::ReadPrograms::any_block))]
    fn any_block(&mut self, text: &[u8], depth: u32) -> Result<Block, ReadFailure>
        ensures { Reads (read.any_block (is_forward text.now) (read.read_type depth) (read.read_formals depth)
            (read_statement depth) (read.read_block (is_forward text.now) depth) self.old.rest.now) result
            self.new.rest.now }
    {
        let constants = self.constant_part()?;
        let types = self.type_part(depth)?;
        let variables = self.variable_part(depth)?;
        let routines = self.routines(text, depth)?;
        let begin = self.expect(Kind::Begin)?;
        let statements = self.sequence(depth)?;
        let end = self.expect(Kind::End);
        end.and(Ok(Block {
            constants,
            types,
            variables,
            routines,
            begin,
            statements,
        }))
    }

    #[cycle(block)]
    #[tactic(auto, unfolding(crate::specs::ReadPrograms::read_block))]
    fn block(&mut self, text: &[u8], depth: u32) -> Result<Block, ReadFailure>
        ensures { Reads (read.read_block (is_forward text.now) depth self.old.rest.now) result self.new.rest.now }
    {
        if depth == 0 {
            return Err(self.refusal());
        }
        self.any_block(text, depth - 1)
    }

    #[tactic(auto, using(crate::proofs::Closed::closed), unfolding(crate::specs::ReadPrograms::program_names, crate::specs::Steps::eat))]
    fn program_names(&mut self, text: &[u8], depth: u32) -> Result<Items<Span>, ReadFailure>
        ensures { Reads (read.program_names (is_forward text.now)
            (read.read_block (is_forward text.now) depth) self.old.rest.now) result self.new.rest.now }
    {
        if !self.eat(Kind::LeftParen) {
            return Ok(Items::new(self.alloc));
        }
        let names = self.names()?;
        let end = self.expect(Kind::RightParen);
        end.and(Ok(names))
    }

    /// Reads a program, within this depth (6.10). The text is needed to recognize the directive `forward`.
    #[tactic(auto, using(crate::proofs::Closed::closed), unfolding(crate::specs::ReadPrograms::program))]
    pub fn program(&mut self, text: &[u8], depth: u32) -> Result<Program, ReadFailure>
        ensures { Reads (read.program (is_forward text.now)
            (read.read_block (is_forward text.now) depth) self.old.rest.now) result self.new.rest.now }
    {
        self.expect(Kind::Program)?;
        let name = self.expect(Kind::Name)?;
        let read = self.program_names(text, depth);
        let parameters = self.followed_by(Kind::Semicolon, read)?;
        let block = self.block(text, depth)?;
        let end = self.expect(Kind::Dot);
        end.and(Ok(Program {
            name,
            parameters,
            block,
        }))
    }
}

/// Whether the name is spelled `forward`, ignoring case.
fn names_forward(text: &[u8], at: Span) -> bool
    ensures { result ≡ is_forward text.now at }
{
    let (from, to) = (at.from as usize, at.to as usize);
    from <= to && to <= text.len() && text[from..to].eq_ignore_ascii_case(b"forward")
}
