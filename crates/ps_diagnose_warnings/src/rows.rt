//! The words of the warnings.
//!
//! A text has its parts between bars: `@` represents the word that is reported, `%` names or a value, `#` a line and a
//! column, `&` the least and the greatest value of a range.

/// A kind of warning, and what is reported in one case of it; an empty part isn't reported.
pub(crate) struct Row {
    /// Its number and its name.
    pub(crate) number: u8,
    pub(crate) name: &'static str,
    pub(crate) sentence: &'static str,
    /// What is said of the second place.
    pub(crate) label: &'static str,
    pub(crate) help: &'static str,
    /// What is said of the change that is tried.
    pub(crate) trial: &'static str,
}

/// The numbers of the rows, in the order of the tables below.
pub(crate) const THEN_EMPTY: usize = 0;

pub(crate) const ELSE_EMPTY: usize = 1;

pub(crate) const BODY_EMPTY: usize = 2;

pub(crate) const COMMENTED: usize = 3;

pub(crate) const INDENTED: usize = 4;

pub(crate) const UNASSIGNED: usize = 5;

pub(crate) const ONE_UNCHANGED: usize = 6;

pub(crate) const ALL_UNCHANGED: usize = 7;

pub(crate) const ONE_UNCHANGED_ALONE: usize = 8;

pub(crate) const ALL_UNCHANGED_ALONE: usize = 9;

pub(crate) const ONE_LOST: usize = 10;

pub(crate) const ALL_LOST: usize = 11;

pub(crate) const HIDES_VARIABLE: usize = 12;

pub(crate) const HIDES_VALUE: usize = 13;

pub(crate) const HIDES_REFERENCE: usize = 14;

pub(crate) const BEHIND_TRUE: usize = 15;

pub(crate) const BEHIND_FALSE: usize = 16;

pub(crate) const DIRECTIVE: usize = 17;

pub(crate) const OPERANDS: usize = 18;

pub(crate) const ELSE_INDENTED: usize = 19;

pub(crate) const NEVER_UP: usize = 20;

pub(crate) const NEVER_DOWN: usize = 21;

pub(crate) const NO_INDEX: usize = 22;

pub(crate) const NO_VALUE: usize = 23;

pub(crate) const NO_WIDTH: usize = 24;

pub(crate) const BY_ZERO: usize = 25;

pub(crate) const NESTED: usize = 26;

pub(crate) const NESTED_LONG: usize = 27;

const TAKE_AWAY: &str = "remove `;` at |#";

const SEVERAL: &str = "several statements count as one between `begin` and `end`";

const ALONE: &str = "its statement is only the one at |#|; put several between `begin` and `end`";

const BRACES: &str =
    "anything between `{` and `}` is a comment; put several statements between `begin` and `end`";

const BY_VAR: &str = "a parameter declared with `var` is the variable that is passed";

const NOT_USED: &str =
    "nothing uses what is assigned to it; without its declaration it is the one of the surrounding block";

const WIDTHS: &str =
    "`:1` writes a number without spaces before it; a string without a width takes as much room as it is long";

const UNCLOSED: &str =
    "this comment is not closed on its line, and another one seems to begin in it";

const INNER: &str = "a comment seems to begin here";

const NOT_NESTED: &str =
    "a comment ends at its first `}` or `*)`, even if another one begins inside it";

// Empty statements, and what is indented as if it were in a statement.
const OF_STATEMENTS: &[Row] = &[
    Row {
        number: 81,
        name: "EmptyStatement",
        sentence: "this `;` ends the `|@|`: nothing is done where its condition holds",
        label: "the `|@|`",
        help: "",
        trial: TAKE_AWAY,
    },
    Row {
        number: 81,
        name: "EmptyStatement",
        sentence: "this `;` ends the `|@|`: nothing is done where its condition doesn't hold",
        label: "the `|@|`",
        help: "",
        trial: TAKE_AWAY,
    },
    Row {
        number: 81,
        name: "EmptyStatement",
        sentence: "this `;` ends the `|@|`: nothing is done in it",
        label: "the `|@|`",
        help: "",
        trial: TAKE_AWAY,
    },
    Row {
        number: 81,
        name: "EmptyStatement",
        sentence: "the `|@|` has nothing to do",
        label: "the `|@|`",
        help: BRACES,
        trial: "",
    },
    Row {
        number: 82,
        name: "Indentation",
        sentence: "this line is indented as if it were in the `|@|` above it, but it is not",
        label: "this `|@|` ends at |#",
        help: SEVERAL,
        trial: "",
    },
];

// Variables that nothing changes, and changes that are lost.
const OF_VARIABLES: &[Row] = &[
    Row {
        number: 83,
        name: "NeverAssigned",
        sentence: "`|@|` is used, but never gets a value: it is always |%",
        label: "`|@|` is declared here",
        help: "",
        trial: "",
    },
    Row {
        number: 84,
        name: "LoopUnchanged",
        sentence: "nothing in this `|@|` changes |%|, which is all that its condition looks at",
        label: "",
        help: "",
        trial: "",
    },
    Row {
        number: 84,
        name: "LoopUnchanged",
        sentence: "nothing in this `|@|` changes |%|, which are all that its condition looks at",
        label: "",
        help: "",
        trial: "",
    },
    Row {
        number: 84,
        name: "LoopUnchanged",
        sentence: "nothing in this `|@|` changes |%|, which is all that its condition looks at",
        label: "",
        help: ALONE,
        trial: "",
    },
    Row {
        number: 84,
        name: "LoopUnchanged",
        sentence: "nothing in this `|@|` changes |%|, which are all that its condition looks at",
        label: "",
        help: ALONE,
        trial: "",
    },
    Row {
        number: 85,
        name: "ValueParameter",
        sentence: "what is assigned to |%| is lost where `|@|` ends: it is a value parameter",
        label: "",
        help: BY_VAR,
        trial: "",
    },
    Row {
        number: 85,
        name: "ValueParameter",
        sentence: "what is assigned to |%| is lost where `|@|` ends: they are value parameters",
        label: "",
        help: BY_VAR,
        trial: "",
    },
];

// Hidden names, statements that are never done, and directives.
const OF_BLOCKS: &[Row] = &[
    Row {
        number: 86,
        name: "Hidden",
        sentence: "`|@|` hides a variable of the surrounding block",
        label: "the `|@|` that is hidden",
        help: NOT_USED,
        trial: "",
    },
    Row {
        number: 86,
        name: "Hidden",
        sentence: "`|@|` hides a value parameter of the surrounding block",
        label: "the `|@|` that is hidden",
        help: NOT_USED,
        trial: "",
    },
    Row {
        number: 86,
        name: "Hidden",
        sentence: "`|@|` hides a variable parameter of the surrounding block",
        label: "the `|@|` that is hidden",
        help: NOT_USED,
        trial: "",
    },
    Row {
        number: 87,
        name: "Unreached",
        sentence: "nothing after this `|@|` is ever done: its condition is always true",
        label: "this is never done",
        help: "",
        trial: "",
    },
    Row {
        number: 87,
        name: "Unreached",
        sentence: "nothing after this `|@|` is ever done: its condition is always false",
        label: "this is never done",
        help: "",
        trial: "",
    },
    Row {
        number: 88,
        name: "Directive",
        sentence: "`|@|` is a comment here",
        label: "",
        help: "It is a comment here: ranges, overflow and `nil` are always tested.",
        trial: "",
    },
    Row {
        number: 88,
        name: "Directive",
        sentence: "`|@|` is a comment here",
        label: "",
        help: "It is a comment here: both operands of `and` and `or` are always evaluated.",
        trial: "",
    },
];

// An `else` that is indented, loops with no value, values out of range, and comments in comments.
const OF_VALUES: &[Row] = &[
    Row {
        number: 82,
        name: "Indentation",
        sentence: "this `|@|` is indented as if it belonged to another `if`, but it belongs to the nearest",
        label: "its `if`",
        help: "to make it that of the `if` at |#|, put the nearer one between `begin` and `end`",
        trial: "",
    },
    Row {
        number: 87,
        name: "Unreached",
        sentence: "the statement of this `|@|` is never done: its first value is above its last one",
        label: "a `for` that goes down has `downto`",
        help: "",
        trial: "",
    },
    Row {
        number: 87,
        name: "Unreached",
        sentence: "the statement of this `|@|` is never done: its first value is below its last one",
        label: "a `for` that goes up has `to`",
        help: "",
        trial: "",
    },
    Row {
        number: 89,
        name: "OutOfRange",
        sentence: "`|@|` has nothing at this index: its indices are |&",
        label: "`|@|` is declared here",
        help: "",
        trial: "",
    },
    Row {
        number: 89,
        name: "OutOfRange",
        sentence: "`|@|` cannot have this value: its values are |&",
        label: "`|@|` is declared here",
        help: "",
        trial: "",
    },
    Row {
        number: 89,
        name: "OutOfRange",
        sentence: "a field width is at least 1",
        label: "",
        help: WIDTHS,
        trial: "",
    },
    Row {
        number: 89,
        name: "OutOfRange",
        sentence: "the divisor of this `|@|` is 0",
        label: "",
        help: "",
        trial: "",
    },
    Row {
        number: 90,
        name: "NestedComment",
        sentence: UNCLOSED,
        label: INNER,
        help: NOT_NESTED,
        trial: "put `}` after `|@|` at |#",
    },
    Row {
        number: 90,
        name: "NestedComment",
        sentence: UNCLOSED,
        label: INNER,
        help: NOT_NESTED,
        trial: "put `*)` after `|@|` at |#",
    },
];

/// The row with a number.
pub(crate) fn row_at(number: usize) -> Option<&'static Row> {
    if number < UNASSIGNED {
        OF_STATEMENTS.get(number)
    } else if number < HIDES_VARIABLE {
        OF_VARIABLES.get(number.saturating_sub(UNASSIGNED))
    } else if number < ELSE_INDENTED {
        OF_BLOCKS.get(number.saturating_sub(HIDES_VARIABLE))
    } else {
        OF_VALUES.get(number.saturating_sub(ELSE_INDENTED))
    }
}
