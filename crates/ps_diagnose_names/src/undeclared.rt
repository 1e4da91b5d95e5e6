//! Unknown names, and the declarations that they may lack (30).

use crate::context::{Context, Place};
use crate::facts::CHAR;
use crate::operators::adding_of;
use crate::spot::{AssignmentPart, Role, Spot};
use crate::why::{Change, Help, Why};
use ps_diagnose::RequiredName;
use ps_diagnose_outline::{Form, Part, PointKind, Type};
use ps_scan::{Kind, Token};
use ps_syntax::{Adding, Expr, Member, Multiplying};
use ps_text::Span;

impl<'a> Place<'a> {
    /// An unknown name, and what a declaration of it would be.
    pub(crate) fn undeclared(&self, why: &mut Why) {
        why.form = "`@p` is not declared";
        match self.spots.last() {
            Some(Spot::Statement(_, parameters)) => {
                why.help = Help::Is(if parameters.is_empty() {
                    "a procedure is declared before it is used: procedure @p; begin .. end;"
                } else {
                    "a procedure is declared before it is used: procedure @p(..); begin .. end;"
                });
            }
            Some(Spot::Call(..)) => {
                why.help = Help::Is(
                    "a function is declared before it is used: function @p(..): integer; begin .. end;",
                );
            }
            Some(Spot::TypeName(_) | Spot::IndexType(_) | Spot::Result(..)) => {
                why.help = Help::Is(
                    "the types integer, char and Boolean need no declaration; others are declared in the `type` part: type @p = ..;",
                );
            }
            Some(Spot::CaseConstant(_, index, _)) => self.context.no_case_constant(index, why),
            Some(Spot::Definition(..) | Spot::Range(..)) => why.help = A_CONSTANT,
            _ => {
                self.with_value(why);
                self.with_variable(self.context.common_block(), why);
            }
        }
    }

    // What may be meant: a constant of the wanted enumeration, or a string if the name is written once, and used
    // nowhere else.
    fn with_value(&self, why: &mut Why) {
        let is_writing = match self.passed() {
            Some(passed) => self.context.is_writing(passed.routine),
            None => false,
        };
        let mut is_text = is_writing;
        if let Some(ty) = self.wanted_type() {
            is_text = is_writing || self.context.is_string(ty) || self.context.is(ty, CHAR);
            if let Some(Form::Enumeration(denoter)) = self.context.outline.form(ty) {
                why.second = ty;
                why.add_help(self.context.values_of(denoter));
            }
        }
        if self.context.uses.is_empty() && is_text {
            why.add_help(Help::Is("a string is written between apostrophes: '@p'"));
            why.change = Change::For(self.context.fault.place, "'@p'");
        }
        if self.context.uses.is_empty() && is_writing {
            why.add_help(Help::Is(A_VARIABLE));
        }
    }

    /// Tries a declaration of a variable in a block, if its type can be put into words: before its first variable, or
    /// after its declarations.
    pub(crate) fn with_variable(&self, block: u32, why: &mut Why) {
        let wanted = self.wanted_type();
        let (form, part) = match wanted {
            Some(Type::Text(length)) => {
                why.number = i64::from(length);
                (
                    "@p: packed array [1..@n] of char;",
                    "var @p: packed array [1..@n] of char;",
                )
            }
            Some(Type::Integer) => ("@p: integer;", "var @p: integer;"),
            Some(Type::Boolean) => ("@p: Boolean;", "var @p: Boolean;"),
            Some(Type::Char) => ("@p: char;", "var @p: char;"),
            Some(Type::Told(denoter)) => match self.context.denoter_token(Type::Told(denoter)) {
                Some(token) if token.kind == Kind::Name => {
                    why.third = token.span;
                    ("@p: @z;", "var @p: @z;")
                }
                _ => return why.add_help(Help::Is(A_VARIABLE)),
            },
            _ => return why.add_help(Help::Is(A_VARIABLE)),
        };
        if let Some(name) = self.context.first_variable(block) {
            why.add_change(Change::Before(name, " ", form));
        } else if let Some(region) = self.context.outline.region(block) {
            if let Some(place) = first_behind(self.context.outline.tokens_from(region.from)) {
                why.add_change(Change::Before(place, "\n", part));
            }
        }
    }

    // The type that the name is used with at the place.
    fn wanted_type(&self) -> Option<Type> {
        for spot in self.spots.iter().rev() {
            if let Some(ty) = self.context.type_wanted_by(*spot) {
                return self.context.told(Some(ty));
            }
        }
        None
    }
}

impl<'a> Context<'a> {
    // The constant of a `case` that may be meant: a character without its apostrophes, or one of an enumeration.
    fn no_case_constant(&self, index: &Expr, why: &mut Why) {
        why.help = A_CONSTANT;
        let place = self.fault.place;
        match self.outline.form_of(self.outline.type_of(index)) {
            Some(Form::Char) if place.to.saturating_sub(place.from) == 1 => {
                why.help = Help::Is("a character is written between apostrophes: '@p'");
                why.change = Change::For(place, "'@p'");
            }
            Some(Form::Enumeration(denoter)) => {
                why.second = Type::Told(denoter);
                why.help = self.values_of(denoter);
            }
            _ => {}
        }
    }

    /// The values of an enumeration, which is the second type.
    pub(crate) fn values_of(&self, denoter: u32) -> Help {
        match self.outline.denoter_at(Type::Told(denoter)) {
            Some(from) => Help::Of(
                "the values of @u are @a",
                self.outline.extent(from, Part::Denoter),
            ),
            None => Help::None,
        }
    }

    // The type that a construct requires at the place, if that is a name alone.
    fn type_wanted_by(&self, spot: Spot<'_>) -> Option<Type> {
        match spot {
            Spot::Named(variable) if !variable.selectors.is_empty() => Some(Type::Nil),
            Spot::Expression(role, _) => self.type_wanted_in(role),
            Spot::Assignment(AssignmentPart::Target, _, value) => {
                Some(self.outline.type_of(value).unwrap_or(Type::Nil))
            }
            Spot::Assignment(AssignmentPart::Value, variable, _) => {
                self.outline.type_of_variable(variable)
            }
            Spot::Not(..) => Some(Type::Boolean),
            Spot::Control(_) => Some(self.control_type().unwrap_or(Type::Integer)),
            Spot::Added(simple, added) => Some(match adding_of(simple, added) {
                Adding::Or => Type::Boolean,
                Adding::Plus | Adding::Minus => Type::Integer,
            }),
            Spot::Multiplied(_, _, Multiplying::And) => Some(Type::Boolean),
            Spot::Multiplied(..) => Some(Type::Integer),
            Spot::Compare(left, _, right) => self
                .outline
                .type_of_simple(left)
                .or(self.outline.type_of_simple(right)),
            _ => None,
        }
    }

    // The type that is required of an expression by its role.
    fn type_wanted_in(&self, role: Role<'_>) -> Option<Type> {
        match role {
            Role::Condition => Some(Type::Boolean),
            Role::Bound(control) => self.outline.type_of_name(control),
            Role::Parameter(routine, number) => self.type_passed(routine, number),
            Role::Member(members) => self.type_before_in(members),
            Role::CaseIndex | Role::Width(_) | Role::Index(..) => None,
        }
    }

    // The type of the name before `in`, if the set after it has members.
    fn type_before_in(&self, members: &[Member]) -> Option<Type> {
        let bracket = self.outline.token_before(members.first()?.first_token())?;
        let word = self.outline.token_before(bracket.span.from)?;
        let name = self.outline.token_before(word.span.from)?;
        if matches!(word.kind, Kind::In) {
            self.outline.type_of_name(name.span)
        } else {
            None
        }
    }

    // The type of the first bound if the place is a control variable.
    fn control_type(&self) -> Option<Type> {
        let Some(assign) = self.token_at(self.fault.place.to) else {
            return None;
        };
        let Some(first) = self.token_at(assign.span.to) else {
            return None;
        };
        match first.kind {
            Kind::Text => self.outline.type_of_text(first.span),
            Kind::Name => self.outline.type_of_name(first.span),
            _ => Some(Type::Integer),
        }
    }

    // The type that a routine wants of a parameter.
    fn type_passed(&self, name: Span, number: u32) -> Option<Type> {
        match self.outline.declared(name) {
            Some(routine) => match self.formal(routine, number) {
                Some(formal) => formal.ty,
                None => None,
            },
            None => match self.required(name)? {
                RequiredName::Read
                | RequiredName::Readln
                | RequiredName::Write
                | RequiredName::Writeln
                | RequiredName::Abs
                | RequiredName::Sqr
                | RequiredName::Odd
                | RequiredName::Chr => Some(Type::Integer),
                _ => None,
            },
        }
    }

    /// The block of the place.
    pub(crate) fn block_here(&self) -> u32 {
        self.outline.block_at(self.fault.place.from)
    }

    // The block that all uses are in: that of the place, or the program.
    fn common_block(&self) -> u32 {
        let block = self.block_here();
        for span in self.uses.iter() {
            if self.outline.block_at(span.from) != block {
                return 0;
            }
        }
        block
    }

    // The first variable that a block declares.
    fn first_variable(&self, block: u32) -> Option<Span> {
        for number in self.outline.points_of(block) {
            match self.outline.point(*number) {
                Some(point) if matches!(point.kind, PointKind::Variable) => {
                    return Some(point.name);
                }
                _ => {}
            }
        }
        None
    }
}

// The first token of a routine or of the statements of a block.
fn first_behind(tokens: &[Token]) -> Option<Span> {
    let mut open: u32 = 0;
    for token in tokens {
        match token.kind {
            Kind::Begin => return Some(token.span),
            Kind::LeftParen => open = open.saturating_add(1),
            Kind::RightParen => open = open.saturating_sub(1),
            Kind::Procedure | Kind::Function if open == 0 => return Some(token.span),
            _ => {}
        }
    }
    None
}

const A_CONSTANT: Help = Help::Is("a constant is declared in the `const` part: const @p = ..;");

const A_VARIABLE: &str = "a variable is declared before it is used: var @p: ..;";
