//! What is told of a name by the place where it stands, in the words of the first row that has its kind.

use crate::facts::{
    ALL, ALL_FUNCTIONS, CONSTANTS, FUNCTION_PARAMETERS, FUNCTIONS, PROCEDURES, TYPES, VALUES,
};
use crate::why::Help;

/// What is told of names of some kinds.
pub(super) struct Row {
    pub(super) kinds: u32,
    pub(super) form: &'static str,
    pub(super) help: Help,
}

const WITHOUT_VALUE: &str = "`@x` is @k, and has no value";

const NO_VALUE: &str = "`@x` is @k, not a value";

const NO_VARIABLE: &str = "`@x` is @k, not a variable";

const NOT_ASSIGNED: &str = "`@x` is @k, and cannot be assigned";

const NO_FUNCTION: &str = "`@x` is @k, not a function";

const HAS_VALUE: &str = "a `function` has a value";

const VARIABLE_OF: &str = "declare a variable of it: var name: @x;";

/// Where nothing more is known.
pub(super) static ANYWHERE: [Row; 1] = [Row {
    kinds: ALL,
    form: "`@x` is @k",
    help: Help::None,
}];

/// Before `:=`.
pub(super) static TARGET: [Row; 5] = [
    Row {
        kinds: TYPES,
        form: NO_VARIABLE,
        help: Help::Is(VARIABLE_OF),
    },
    Row {
        kinds: FUNCTIONS,
        form: "`@x` is @k, and gets its result only in its own block",
        help: Help::None,
    },
    Row {
        kinds: CONSTANTS,
        form: NOT_ASSIGNED,
        help: Help::Is("what changes is a variable, declared in the `var` part"),
    },
    Row {
        kinds: PROCEDURES,
        form: NOT_ASSIGNED,
        help: Help::None,
    },
    Row {
        kinds: FUNCTION_PARAMETERS,
        form: NOT_ASSIGNED,
        help: Help::None,
    },
];

/// Before `:=`, with selectors.
pub(super) static SELECTED_TARGET: [Row; 1] = [Row {
    kinds: FUNCTIONS,
    form: NO_VARIABLE,
    help: Help::None,
}];

/// In an expression.
pub(super) static ALONE: [Row; 2] = [
    Row {
        kinds: PROCEDURES,
        form: WITHOUT_VALUE,
        help: Help::Is(HAS_VALUE),
    },
    Row {
        kinds: TYPES,
        form: NO_VALUE,
        help: Help::Is(VARIABLE_OF),
    },
];

/// In an expression before selectors.
pub(super) static SELECTED: [Row; 4] = [
    Row {
        kinds: PROCEDURES,
        form: WITHOUT_VALUE,
        help: Help::Is(HAS_VALUE),
    },
    Row {
        kinds: TYPES,
        form: NO_VALUE,
        help: Help::Is(VARIABLE_OF),
    },
    Row {
        kinds: CONSTANTS,
        form: NO_VARIABLE,
        help: Help::None,
    },
    Row {
        kinds: ALL_FUNCTIONS,
        form: NO_VARIABLE,
        help: Help::None,
    },
];

/// Where a statement begins.
pub(super) static STATEMENT: [Row; 2] = [
    Row {
        kinds: ALL_FUNCTIONS,
        form: "`@x` is @k, and a statement begins with a procedure or a variable",
        help: Help::None,
    },
    Row {
        kinds: ALL,
        form: "`@x` is @k, not a procedure",
        help: Help::None,
    },
];

/// In an expression before parameters.
pub(super) static CALL: [Row; 3] = [
    Row {
        kinds: PROCEDURES,
        form: WITHOUT_VALUE,
        help: Help::Is(HAS_VALUE),
    },
    Row {
        kinds: TYPES,
        form: NO_FUNCTION,
        help: Help::Is(
            "a type converts nothing: `ord` gives the number of a value, `chr` the character of a number",
        ),
    },
    Row {
        kinds: VALUES,
        form: NO_FUNCTION,
        help: Help::None,
    },
];

pub(super) static CONTROL: [Row; 1] = [Row {
    kinds: ALL,
    form: "`@x` is @k, and a `for` takes a variable",
    help: Help::None,
}];

pub(super) static TYPE: [Row; 1] = [Row {
    kinds: ALL,
    form: "`@x` is @k, not a type",
    help: Help::None,
}];

pub(super) static BOUND: [Row; 1] = [Row {
    kinds: ALL,
    form: "a bound is a constant, but `@x` is @k",
    help: Help::None,
}];

pub(super) static CONSTANT: [Row; 1] = [Row {
    kinds: ALL,
    form: "a constant is needed here, but `@x` is @k",
    help: Help::None,
}];
