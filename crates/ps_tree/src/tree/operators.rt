// Operators and relations of expressions, required functions, ranges, and the direction of a `for`.

/// An operator on two integers (6.7.2.2).
#[derive(Clone, Copy)]
pub enum ArithmeticOperator {
    Add,
    Subtract,
    Multiply,
    Div,
    Mod,
}

/// An operator on two Boolean values (6.7.2.3).
#[derive(Clone, Copy, PartialEq, Eq)]
pub enum BooleanOperator {
    And,
    Or,
}

/// An operator on two sets (6.7.2.4).
#[derive(Clone, Copy)]
pub enum SetOperator {
    Union,
    Difference,
    Intersection,
}

/// A relational operator on ordinals or strings (6.7.2.5).
#[derive(Clone, Copy)]
pub enum OrderRelation {
    Equal,
    Different,
    Less,
    Greater,
    AtMost,
    AtLeast,
}

/// A relational operator on pointers.
#[derive(Clone, Copy)]
pub enum PointerRelation {
    Same,
    Other,
}

/// A relational operator on sets.
#[derive(Clone, Copy)]
pub enum SetRelation {
    Same,
    Other,
    Included,
    Includes,
}

/// A required function of an ordinal (6.6.6). `succ` and `pred` carry the greatest and the least value of their type.
#[derive(Clone, Copy)]
pub enum RequiredFunction {
    Abs,
    Sqr,
    Odd,
    Ord,
    Chr,
    Succ { high: i32 },
    Pred { low: i32 },
}

/// The values that a variable of a simple type takes: those of an ordinal type, or any if it is a pointer.
#[derive(Clone, Copy)]
pub enum Range {
    Any,
    Within { low: i32, high: i32 },
}

/// The direction of a `for` statement.
#[derive(Clone, Copy)]
pub enum Direction {
    To,
    Downto,
}
