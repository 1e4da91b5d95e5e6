// The checked tree: the program with every name resolved, and the line of each token at which an error is reported.

mod chains;
mod operators;
mod statements;

use crate::characters::Characters;
use crate::line::Line;
use crate::types::Ty;
pub use operators::{
    ArithmeticOperator, BooleanOperator, Direction, OrderRelation, PointerRelation, Range,
    RequiredFunction, SetOperator, SetRelation,
};
pub use statements::{
    CaseElement, Formal, ReadVariable, Routine, Statement, Width, WriteParameter,
};

/// A variable (6.5): what its name denotes, and the selectors after the name, from left to right.
#[cycle(tree)]
pub struct Place {
    pub base: PlaceBase,
    pub selectors: Vec<Selector>,
}

/// What a variable's name denotes without its selectors.
pub enum PlaceBase {
    /// An entire variable, a formal parameter or a function's result: entry `index` of the routine `up` levels out.
    /// A routine's entries are its result, if it is a function, then its formal parameters and its variables.
    Entry { up: u32, index: u32 },
    /// A field's name used alone. Few names are, and a place without it is much smaller, so it is on the heap.
    Opened(Box<OpenedField>),
}

/// Field `number` of a record opened by an enclosing `with`, of the type `ty`; the innermost is 0.
pub struct OpenedField {
    pub which: u32,
    pub number: u32,
    pub ty: Ty,
}

/// A step from a variable to one that it contains or points to.
#[cycle(tree)]
pub enum Selector {
    /// `[index]`; `ty` is the array's type, `line` that of the index's first token.
    Element { ty: Ty, index: Expr, line: Line },
    /// `.name`; `ty` is the record's type, `number` the field's place in it.
    Field { ty: Ty, number: u32 },
    /// `^`; `pointer` is the number of the pointer's type, `line` that of the `^`.
    Target { pointer: u32, line: Line },
}

/// An expression of an ordinal or pointer type (6.7).
#[cycle(tree)]
pub enum Expr {
    /// A constant of an ordinal type.
    Number(i32),
    Nil,
    /// The value of a variable.
    Load(Box<Place>),
    Plus(Box<Expr>),
    Minus {
        operand: Box<Expr>,
        line: Line,
    },
    Not(Box<Expr>),
    /// A first operand and at least one step, each an operator with its next operand, from left to right.
    Arithmetic {
        first: Box<Expr>,
        steps: Vec<ArithmeticStep>,
    },
    /// A first operand and at least one more, with the same operator between them.
    Logic {
        operator: BooleanOperator,
        first: Box<Expr>,
        rest: Vec<Expr>,
    },
    Compare {
        relation: OrderRelation,
        left: Box<Expr>,
        right: Box<Expr>,
    },
    ComparePointers {
        relation: PointerRelation,
        left: Box<Expr>,
        right: Box<Expr>,
    },
    CompareSets {
        relation: SetRelation,
        left: Box<SetExpr>,
        right: Box<SetExpr>,
    },
    CompareStrings {
        relation: OrderRelation,
        left: Box<Structure>,
        right: Box<Structure>,
    },
    /// `left in right`
    In {
        left: Box<Expr>,
        right: Box<SetExpr>,
    },
    /// A required function of one ordinal; `line` is that of its name.
    Apply {
        function: RequiredFunction,
        operand: Box<Expr>,
        line: Line,
    },
    Eof,
    Eoln {
        line: Line,
    },
    /// A call of a function declared in the block `up` levels out.
    Call {
        routine: u32,
        up: u32,
        arguments: Vec<Argument>,
        line: Line,
    },
    /// A call of a functional parameter.
    CallFormal {
        up: u32,
        index: u32,
        arguments: Vec<Argument>,
        line: Line,
    },
}

/// An operator on integers and the operand after it; `line` is that of the operator.
#[cycle(tree)]
pub struct ArithmeticStep {
    pub operator: ArithmeticOperator,
    pub operand: Expr,
    pub line: Line,
}

/// An expression of a set type.
#[cycle(tree)]
pub enum SetExpr {
    Load(Box<Place>),
    Constructor(Vec<Member>),
    /// A first operand and at least one step, each an operator with its next operand, from left to right.
    Combine {
        first: Box<SetExpr>,
        steps: Vec<SetStep>,
    },
}

/// An operator on sets and the operand after it.
#[cycle(tree)]
pub struct SetStep {
    pub operator: SetOperator,
    pub operand: SetExpr,
}

/// A member of a set constructor; `line` is that of its first token.
#[cycle(tree)]
pub enum Member {
    One { value: Expr, line: Line },
    Range { from: Expr, to: Expr, line: Line },
}

/// An operand of an array or record type: a string in the text, or the contents of a variable.
#[cycle(tree)]
pub enum Structure {
    Literal(Characters),
    Contents { place: Box<Place>, ty: Ty },
}

/// An actual parameter (6.6.3); `line` is that of its first token.
#[cycle(tree)]
pub enum Argument {
    /// By value, of an ordinal or pointer type; `range` is the formal parameter's.
    Value {
        value: Expr,
        range: Range,
        line: Line,
    },
    /// By value, of a set type; `low` and `high` are those of the formal parameter's base.
    Set {
        value: SetExpr,
        low: i32,
        high: i32,
        line: Line,
    },
    /// By value, of an array or record type; `ty` is the formal parameter's.
    Copy {
        value: Structure,
        ty: Ty,
    },
    /// A variable parameter.
    Variable(Place),
    /// A routine declared in the block `up` levels out.
    Routine {
        routine: u32,
        up: u32,
    },
    /// A procedural or functional parameter, passed on.
    Formal {
        up: u32,
        index: u32,
    },
}

// How values of these types are dropped: part by part. Written here, this is proved once; if it were derived, each
// crate above that drops a value would prove it again.
impl Drop for Place {
    #[cycle(letting_go)]
    fn drop(self) {
        let Place {
            base: _,
            selectors: _,
        } = self;
    }
}

impl Drop for PlaceBase {
    fn drop(self) {
        match self {
            PlaceBase::Entry { up: _, index: _ } => {}
            PlaceBase::Opened(_) => {}
        }
    }
}

impl Drop for OpenedField {
    fn drop(self) {
        let OpenedField {
            which: _,
            number: _,
            ty: _,
        } = self;
    }
}

impl Drop for Selector {
    #[cycle(letting_go)]
    fn drop(self) {
        match self {
            Selector::Element {
                ty: _,
                index: _,
                line: _,
            } => {}
            Selector::Field { ty: _, number: _ } => {}
            Selector::Target {
                pointer: _,
                line: _,
            } => {}
        }
    }
}

impl Drop for Expr {
    #[cycle(letting_go)]
    fn drop(self) {
        match self {
            Expr::Number(_) => {}
            Expr::Nil => {}
            Expr::Load(_) => {}
            Expr::Plus(_) => {}
            Expr::Minus {
                operand: _,
                line: _,
            } => {}
            Expr::Not(_) => {}
            Expr::Arithmetic { first: _, steps: _ } => {}
            Expr::Logic {
                operator: _,
                first: _,
                rest: _,
            } => {}
            Expr::Compare {
                relation: _,
                left: _,
                right: _,
            } => {}
            Expr::ComparePointers {
                relation: _,
                left: _,
                right: _,
            } => {}
            Expr::CompareSets {
                relation: _,
                left: _,
                right: _,
            } => {}
            Expr::CompareStrings {
                relation: _,
                left: _,
                right: _,
            } => {}
            Expr::In { left: _, right: _ } => {}
            Expr::Apply {
                function: _,
                operand: _,
                line: _,
            } => {}
            Expr::Eof => {}
            Expr::Eoln { line: _ } => {}
            Expr::Call {
                routine: _,
                up: _,
                arguments: _,
                line: _,
            } => {}
            Expr::CallFormal {
                up: _,
                index: _,
                arguments: _,
                line: _,
            } => {}
        }
    }
}

impl Drop for ArithmeticStep {
    #[cycle(letting_go)]
    fn drop(self) {
        let ArithmeticStep {
            operator: _,
            operand: _,
            line: _,
        } = self;
    }
}

impl Drop for SetExpr {
    #[cycle(letting_go)]
    fn drop(self) {
        match self {
            SetExpr::Load(_) => {}
            SetExpr::Constructor(_) => {}
            SetExpr::Combine { first: _, steps: _ } => {}
        }
    }
}

impl Drop for SetStep {
    #[cycle(letting_go)]
    fn drop(self) {
        let SetStep {
            operator: _,
            operand: _,
        } = self;
    }
}

impl Drop for Member {
    #[cycle(letting_go)]
    fn drop(self) {
        match self {
            Member::One { value: _, line: _ } => {}
            Member::Range {
                from: _,
                to: _,
                line: _,
            } => {}
        }
    }
}

impl Drop for Structure {
    #[cycle(letting_go)]
    fn drop(self) {
        match self {
            Structure::Literal(_) => {}
            Structure::Contents { place: _, ty: _ } => {}
        }
    }
}

impl Drop for Argument {
    #[cycle(letting_go)]
    fn drop(self) {
        match self {
            Argument::Value {
                value: _,
                range: _,
                line: _,
            } => {}
            Argument::Set {
                value: _,
                low: _,
                high: _,
                line: _,
            } => {}
            Argument::Copy { value: _, ty: _ } => {}
            Argument::Variable(_) => {}
            Argument::Routine { routine: _, up: _ } => {}
            Argument::Formal { up: _, index: _ } => {}
        }
    }
}
