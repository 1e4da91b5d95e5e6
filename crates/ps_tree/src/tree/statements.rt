// Statements, formal parameters and routines of the checked tree, and how they are freed.

use crate::line::Line;
use crate::tree::operators::{Direction, Range};
use crate::tree::{Argument, Expr, Place, SetExpr, Structure};
use crate::types::Ty;

/// A variable in read or readln; `line` is that of its first token.
pub enum ReadVariable {
    Char {
        place: Place,
        low: i32,
        high: i32,
        line: Line,
    },
    Integer {
        place: Place,
        low: i32,
        high: i32,
        line: Line,
    },
}

/// The width of a parameter of write or writeln; `line` is that of its first token.
pub enum Width {
    Default,
    Given { value: Expr, line: Line },
}

/// A parameter of write or writeln.
pub enum WriteParameter {
    Integer { value: Expr, width: Width },
    Char { value: Expr, width: Width },
    Boolean { value: Expr, width: Width },
    Text { value: Structure, width: Width },
}

/// A statement (6.8).
#[cycle(statement)]
pub enum Statement {
    Empty,
    /// An assignment at an ordinal or pointer type; `line` is that of the `:=`, as in the next one.
    Assign {
        range: Range,
        target: Place,
        value: Expr,
        line: Line,
    },
    AssignSet {
        target: Place,
        low: i32,
        high: i32,
        value: SetExpr,
        line: Line,
    },
    AssignStructure {
        target: Place,
        value: Structure,
    },
    /// A call of a procedure declared in the block `up` levels out.
    Call {
        routine: u32,
        up: u32,
        arguments: Vec<Argument>,
        line: Line,
    },
    /// A call of a procedural parameter.
    CallFormal {
        up: u32,
        index: u32,
        arguments: Vec<Argument>,
        line: Line,
    },
    Compound(Vec<Statement>),
    If {
        condition: Expr,
        body: Box<Statement>,
    },
    IfElse {
        condition: Expr,
        body: Box<Statement>,
        otherwise: Box<Statement>,
    },
    /// `line` is that of `case`.
    Case {
        index: Expr,
        elements: Vec<CaseElement>,
        line: Line,
    },
    While {
        condition: Expr,
        body: Box<Statement>,
    },
    Repeat {
        body: Vec<Statement>,
        condition: Expr,
    },
    /// The control variable is entry `variable` of the routine itself, with values from `low` to `high`; the lines
    /// are those of the first tokens of the two bounds. `at` is where its name begins in the text.
    For {
        variable: u32,
        at: u32,
        low: i32,
        high: i32,
        from: Box<Expr>,
        from_line: Line,
        direction: Direction,
        to: Box<Expr>,
        to_line: Line,
        body: Box<Statement>,
    },
    With {
        places: Vec<Place>,
        body: Box<Statement>,
    },
    /// `pointer` is the number of the pointer's type, `line` that of the name new.
    New {
        place: Place,
        pointer: u32,
        line: Line,
    },
    /// `pack(from, index, to)`, with the types of the two arrays; `line` is that of the index's first token.
    Pack {
        from: Box<Place>,
        from_ty: Box<Ty>,
        index: Expr,
        line: Line,
        to: Box<Place>,
        to_ty: Box<Ty>,
    },
    /// `unpack(from, to, index)`
    Unpack {
        from: Box<Place>,
        from_ty: Box<Ty>,
        to: Box<Place>,
        to_ty: Box<Ty>,
        index: Expr,
        line: Line,
    },
    Read {
        variables: Vec<ReadVariable>,
    },
    /// `line` is that of the name readln.
    Readln {
        variables: Vec<ReadVariable>,
        line: Line,
    },
    Write {
        parameters: Vec<WriteParameter>,
    },
    Writeln {
        parameters: Vec<WriteParameter>,
    },
}

/// An element of a `case` statement.
#[cycle(statement)]
pub struct CaseElement {
    pub constants: Vec<i32>,
    pub body: Statement,
}

/// A formal parameter (6.6.3).
#[cycle(formal)]
pub enum Formal {
    Value(Ty),
    Variable(Ty),
    /// A procedural parameter, or a functional one, which has a result.
    Routine {
        formals: Vec<Formal>,
        result: Option<Ty>,
    },
}

/// A routine. `chain` has its number and those of the routines that enclose it, innermost first; routine 0 is the
/// program block. `line` is that of its block's `begin`.
pub struct Routine {
    pub chain: Vec<u32>,
    pub formals: Vec<Formal>,
    pub result: Option<Ty>,
    pub variables: Vec<Ty>,
    pub body: Vec<Statement>,
    pub line: Line,
}

impl Drop for ReadVariable {
    fn drop(self) {
        match self {
            ReadVariable::Char {
                place: _,
                low: _,
                high: _,
                line: _,
            } => {}
            ReadVariable::Integer {
                place: _,
                low: _,
                high: _,
                line: _,
            } => {}
        }
    }
}

impl Drop for Width {
    fn drop(self) {
        match self {
            Width::Default => {}
            Width::Given { value: _, line: _ } => {}
        }
    }
}

impl Drop for WriteParameter {
    fn drop(self) {
        match self {
            WriteParameter::Integer { value: _, width: _ } => {}
            WriteParameter::Char { value: _, width: _ } => {}
            WriteParameter::Boolean { value: _, width: _ } => {}
            WriteParameter::Text { value: _, width: _ } => {}
        }
    }
}

impl Drop for Statement {
    #[cycle(letting_statements)]
    fn drop(self) {
        match self {
            Statement::Empty => {}
            Statement::Assign {
                target: _,
                range: _,
                value: _,
                line: _,
            } => {}
            Statement::AssignSet {
                target: _,
                low: _,
                high: _,
                value: _,
                line: _,
            } => {}
            Statement::AssignStructure {
                target: _,
                value: _,
            } => {}
            Statement::Call {
                routine: _,
                up: _,
                arguments: _,
                line: _,
            } => {}
            Statement::CallFormal {
                up: _,
                index: _,
                arguments: _,
                line: _,
            } => {}
            Statement::Compound(_) => {}
            Statement::If {
                condition: _,
                body: _,
            } => {}
            Statement::IfElse {
                condition: _,
                body: _,
                otherwise: _,
            } => {}
            Statement::Case {
                index: _,
                elements: _,
                line: _,
            } => {}
            Statement::While {
                condition: _,
                body: _,
            } => {}
            Statement::Repeat {
                body: _,
                condition: _,
            } => {}
            Statement::For {
                variable: _,
                at: _,
                low: _,
                high: _,
                from: _,
                from_line: _,
                direction: _,
                to: _,
                to_line: _,
                body: _,
            } => {}
            Statement::With { places: _, body: _ } => {}
            Statement::New {
                place: _,
                pointer: _,
                line: _,
            } => {}
            Statement::Pack {
                from: _,
                from_ty: _,
                index: _,
                line: _,
                to: _,
                to_ty: _,
            } => {}
            Statement::Unpack {
                from: _,
                from_ty: _,
                to: _,
                to_ty: _,
                index: _,
                line: _,
            } => {}
            Statement::Read { variables: _ } => {}
            Statement::Readln {
                variables: _,
                line: _,
            } => {}
            Statement::Write { parameters: _ } => {}
            Statement::Writeln { parameters: _ } => {}
        }
    }
}

impl Drop for CaseElement {
    #[cycle(letting_statements)]
    fn drop(self) {
        let CaseElement {
            constants: _,
            body: _,
        } = self;
    }
}

impl Drop for Formal {
    #[cycle(letting_formals)]
    fn drop(self) {
        match self {
            Formal::Value(_) => {}
            Formal::Variable(_) => {}
            Formal::Routine {
                formals: _,
                result: _,
            } => {}
        }
    }
}

impl Drop for Routine {
    fn drop(self) {
        let Routine {
            chain: _,
            formals: _,
            result: _,
            variables: _,
            body: _,
            line: _,
        } = self;
    }
}
