//! Facts about a text that sentences need.

use crate::context::Context;
use ps_diagnose::RequiredName;
use ps_diagnose_outline::{Denoted, Form, Part, Point, PointKind, Required, RequiredKind, Type};
use ps_scan::Token;
use ps_syntax::{Expr, Factor, Relational, Simple, Term, Variable};
use ps_text::Span;

impl<'a> Context<'a> {
    /// The kind of what a name denotes.
    pub(crate) fn kind_of(&self, name: Span) -> Option<PointKind> {
        match self.outline.denoted(name) {
            Some(Denoted::Declared(point)) => Some(point.kind),
            Some(Denoted::Required(required)) => required_kind(required),
            None => None,
        }
    }

    /// The required name that a name denotes.
    pub(crate) fn required(&self, name: Span) -> Option<RequiredName> {
        match self.outline.required(name) {
            Some(required) => Some(required.name),
            None => None,
        }
    }

    /// The first token that begins at or after an offset.
    pub(crate) fn token_at(&self, offset: u32) -> Option<Token> {
        self.outline.tokens_from(offset).first().copied()
    }

    /// The span of a whole expression.
    pub(crate) fn expr_span(&self, expr: &Expr) -> Span {
        self.outline.extent(expr.first_token(), Part::Expression)
    }

    pub(crate) fn simple_span(&self, simple: &Simple) -> Span {
        self.outline.extent(simple.first_token(), Part::Simple)
    }

    pub(crate) fn term_span(&self, term: &Term) -> Span {
        self.outline.extent(term.first_token(), Part::Term)
    }

    pub(crate) fn factor_span(&self, factor: &Factor) -> Span {
        self.outline.extent(factor.first_token(), Part::Factor)
    }

    pub(crate) fn variable_span(&self, variable: &Variable) -> Span {
        self.outline.extent(variable.name.from, Part::Factor)
    }

    /// Whether a type can be put into words.
    pub(crate) fn is_told(&self, ty: Type) -> bool {
        match ty {
            Type::Told(_) => self.outline.denoter_at(ty).is_some(),
            _ => true,
        }
    }

    /// A type that can be put into words: for integers, characters and truth values the required one.
    pub(crate) fn told(&self, ty: Option<Type>) -> Option<Type> {
        match (ty, self.outline.form_of(ty)) {
            (_, Some(Form::Integer)) => Some(Type::Integer),
            (_, Some(Form::Boolean)) => Some(Type::Boolean),
            (_, Some(Form::Char)) => Some(Type::Char),
            (Some(ty), Some(_)) if self.is_told(ty) => Some(ty),
            _ => None,
        }
    }

    /// The type of an expression, if it can be put into words.
    pub(crate) fn told_expr(&self, expr: &Expr) -> Option<Type> {
        self.told(self.outline.type_of(expr))
    }

    /// Whether two types are of one form, as far as simple types go.
    pub(crate) fn is_one_simple(&self, a: Type, b: Type) -> bool {
        match (self.outline.form(a), self.outline.form(b)) {
            (Some(Form::Integer), Some(Form::Integer))
            | (Some(Form::Boolean), Some(Form::Boolean))
            | (Some(Form::Char), Some(Form::Char)) => true,
            (Some(Form::Enumeration(first)), Some(Form::Enumeration(second))) => first == second,
            _ => false,
        }
    }

    /// Whether a type is among some.
    pub(crate) fn is(&self, ty: Type, types: u32) -> bool {
        let own = match self.outline.form(ty) {
            Some(Form::Integer) => INTEGER,
            Some(Form::Boolean) => BOOLEAN,
            Some(Form::Char) => CHAR,
            Some(Form::Enumeration(_)) => ENUMERATION,
            Some(Form::Set(_)) => SET,
            Some(Form::Pointer(_)) => POINTER,
            Some(Form::Array { .. }) => ARRAY,
            _ => 0,
        };
        types & own != 0
    }

    /// Whether a type is that of a string.
    pub(crate) fn is_string(&self, ty: Type) -> bool {
        self.outline.string_length(ty).is_some()
    }

    /// The span of the factor that begins with a token.
    pub(crate) fn factor_extent(&self, from: u32) -> Span {
        self.outline.extent(from, Part::Factor)
    }

    /// The formal parameter of a routine by its number, counted from 0.
    pub(crate) fn formal(&self, routine: Point, number: u32) -> Option<Point> {
        match routine.formals {
            Some(region) if number < routine.count => self.outline.point_at(region, number),
            _ => None,
        }
    }

    /// The last variable before the place whose type has the same form as another.
    pub(crate) fn variable_like(&self, ty: Option<Type>) -> Option<Point> {
        let Some(wanted) = ty else {
            return None;
        };
        let region = self.outline.region_at(self.fault.place.from);
        let mut best = None;
        for point in self.outline.points() {
            if let (PointKind::Variable, Some(own)) = (point.kind, point.ty) {
                if self.is_one_simple(own, wanted) && self.is_visible(region, *point) {
                    best = Some(*point);
                }
            }
        }
        best
    }

    /// Whether a point is what its spelling denotes in a region.
    pub(crate) fn is_visible(&self, region: u32, point: Point) -> bool {
        match self.outline.find(region, point.spelling) {
            Some(found) => found.number == point.number,
            None => false,
        }
    }

    /// The name of the routine or program that a region is of.
    pub(crate) fn region_name(&self, region: u32) -> Option<Span> {
        match self.outline.routine_of(region) {
            Some(routine) => match self.outline.point(routine) {
                Some(point) => Some(point.name),
                None => None,
            },
            None => None,
        }
    }
}

/// The kind of what a required name denotes.
pub(crate) fn required_kind(required: Required) -> Option<PointKind> {
    match required.kind {
        RequiredKind::Type(_) => Some(PointKind::Type),
        RequiredKind::Constant(..) => Some(PointKind::Constant),
        RequiredKind::Function => Some(PointKind::Function),
        RequiredKind::Procedure => Some(PointKind::Procedure),
        RequiredKind::File | RequiredKind::LeftOut => None,
    }
}

/// The factor that a simple expression is.
pub(crate) fn factor_in_simple(simple: &Simple) -> Option<&Factor> {
    if simple.sign.is_none() && simple.more.is_empty() && simple.first.more.is_empty() {
        Some(&simple.first.first)
    } else {
        None
    }
}

/// The factor that an expression is.
fn factor_in(expr: &Expr) -> Option<&Factor> {
    match expr {
        Expr::Simple(simple) => factor_in_simple(simple),
        Expr::Compare(..) => None,
    }
}

/// The variable that an expression is.
pub(crate) fn variable_in(expr: &Expr) -> Option<&Variable> {
    match factor_in(expr) {
        Some(Factor::Variable(variable)) => Some(variable),
        _ => None,
    }
}

/// Whether an expression is a string.
pub(crate) fn is_text(expr: &Expr) -> bool {
    matches!(factor_in(expr), Some(Factor::Text(_)))
}

/// The sign of a relation.
pub(crate) fn relation_word(relation: Relational) -> &'static str {
    match relation {
        Relational::Equal => "=",
        Relational::NotEqual => "<>",
        Relational::Less => "<",
        Relational::Greater => ">",
        Relational::LessEqual => "<=",
        Relational::GreaterEqual => ">=",
        Relational::In => "in",
    }
}

// Types, as sets of bits.
pub(crate) const INTEGER: u32 = 1;

pub(crate) const BOOLEAN: u32 = 2;

pub(crate) const CHAR: u32 = 4;

pub(crate) const ENUMERATION: u32 = 8;
/// The simple types.
pub(crate) const SIMPLE: u32 = 15;

pub(crate) const SET: u32 = 16;

pub(crate) const POINTER: u32 = 32;

pub(crate) const ARRAY: u32 = 64;

// Kinds of names, as sets of bits.
pub(crate) const CONSTANTS: u32 = 1;

pub(crate) const TYPES: u32 = 2;
/// Parameters that are variables too.
pub(crate) const VARIABLES: u32 = 4;

pub(crate) const FIELDS: u32 = 8;
/// Parameters that are procedures too.
pub(crate) const PROCEDURES: u32 = 16;

pub(crate) const FUNCTIONS: u32 = 32;

pub(crate) const FUNCTION_PARAMETERS: u32 = 64;
/// Functions, and parameters that are functions.
pub(crate) const ALL_FUNCTIONS: u32 = 96;
/// Constants, variables and fields.
pub(crate) const VALUES: u32 = 13;

pub(crate) const ALL: u32 = 127;

/// Whether a kind of name is among some.
pub(crate) fn is_among(kind: PointKind, kinds: u32) -> bool {
    let own = match kind {
        PointKind::Constant | PointKind::Member => CONSTANTS,
        PointKind::Type => TYPES,
        PointKind::Variable | PointKind::ValueParameter | PointKind::VariableParameter => VARIABLES,
        PointKind::Field => FIELDS,
        PointKind::Procedure | PointKind::ProcedureParameter => PROCEDURES,
        PointKind::Function => FUNCTIONS,
        PointKind::FunctionParameter => FUNCTION_PARAMETERS,
    };
    kinds & own != 0
}

/// Whether a kind of name is a variable.
pub(crate) fn is_variable(kind: PointKind) -> bool {
    is_among(kind, VARIABLES)
}
