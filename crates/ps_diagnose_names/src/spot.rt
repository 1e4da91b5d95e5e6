//! What a place may be the place of.

use ps_diagnose_outline::count_of;
use ps_syntax::{
    AddedTerm, Constant, Element, Expr, Factor, Member, Multiplying, Ordinal, Parameter,
    Relational, Simple, Term, Variable,
};
use ps_text::Span;

/// A construct whose fault may be reported at the place.
#[derive(Clone, Copy)]
pub(crate) enum Spot<'a> {
    /// An expression in its role, where the place begins it.
    Expression(Role<'a>, &'a Expr),
    /// An assignment, where the place begins this part of it.
    Assignment(AssignmentPart, &'a Variable, &'a Expr),
    /// A constant of a `case`, the index and all elements.
    CaseConstant(Constant, &'a Expr, &'a [Element]),
    Control(Span),
    /// The record variable of a `with`.
    Opened(&'a Variable),
    /// A procedure statement with its parameters, where the place is its name.
    Statement(Span, &'a [Parameter]),
    /// A function designator, where the place is its name.
    Call(Span, &'a [Expr]),
    /// A variable or another name, with its selectors, where the place is its name.
    Named(&'a Variable),
    /// A field's name, or a `^`: the variable, and how many selectors are before it.
    Selected(&'a Variable, u32),
    Compare(&'a Simple, Relational, &'a Simple),
    /// An operand of adding operators, with the operator before it unless it is the first.
    Added(&'a Simple, Option<&'a AddedTerm>),
    /// An operand of multiplying operators, and the operator next to it.
    Multiplied(&'a Term, &'a Factor, Multiplying),
    Not(Span, &'a Factor),
    /// The constant of a definition.
    Definition(Span, Constant),
    /// A range, where the place begins one of its bounds.
    Range(Constant, Constant),
    /// The name of a type.
    TypeName(Span),
    /// The type of a function's result.
    Result(Span, Span),
    IndexType(&'a Ordinal),
    /// A set type, where the place is its `set`, or the first of its base.
    SetType(&'a Ordinal),
}

/// What an expression is in the construct around it.
#[derive(Clone, Copy)]
pub(crate) enum Role<'a> {
    Condition,
    CaseIndex,
    /// A bound of a `for` with this control variable.
    Bound(Span),
    /// A parameter: its routine, and its number from 0.
    Parameter(Span, u32),
    /// A width in a statement that calls this procedure.
    Width(Span),
    /// An index: the variable, how many selectors and how many indices are before it.
    Index(&'a Variable, u32, u32),
    /// A member of a set constructor with these members, or a bound of one.
    Member(&'a [Member]),
}

/// A part of an assignment.
#[derive(Clone, Copy)]
pub(crate) enum AssignmentPart {
    Target,
    /// The `:=`.
    Sign,
    Value,
}

/// A parameter that is given: its routine, its number from 0 and the value.
#[derive(Clone, Copy)]
pub(crate) struct Passed<'a> {
    pub(crate) routine: Span,
    pub(crate) number: u32,
    pub(crate) value: &'a Expr,
}

/// The constructs of a place that are looked up by their kinds. At most one of each kind has its place there, since
/// whatever is nested in another of its kind begins after it.
#[derive(Clone, Copy)]
pub(crate) struct Seen<'a> {
    pub(crate) target: Option<&'a Variable>,
    pub(crate) assignment: Option<(&'a Variable, &'a Expr)>,
    pub(crate) passed: Option<Passed<'a>>,
    /// What is called, or used as a variable, and how many parameters it has.
    pub(crate) called: Option<(Span, u32)>,
    pub(crate) selected: Option<(&'a Variable, u32)>,
    pub(crate) compared: Option<(&'a Simple, Relational, &'a Simple)>,
    pub(crate) sum: Option<&'a Simple>,
    pub(crate) range: Option<(Constant, Constant)>,
    pub(crate) case_constant: Option<(Constant, &'a [Element])>,
    pub(crate) set_base: Option<&'a Ordinal>,
    pub(crate) is_control: bool,
}

// Nothing.
const UNSEEN: Seen<'static> = Seen {
    target: None,
    assignment: None,
    passed: None,
    called: None,
    selected: None,
    compared: None,
    sum: None,
    range: None,
    case_constant: None,
    set_base: None,
    is_control: false,
};

/// The constructs of a place by their kinds.
pub(crate) fn seen_among<'a>(spots: &[Spot<'a>]) -> Seen<'a> {
    let mut seen = UNSEEN;
    for spot in spots {
        match *spot {
            Spot::Assignment(AssignmentPart::Target, variable, _) => {
                seen.target = Some(variable);
            }
            Spot::Assignment(AssignmentPart::Sign, variable, value) => {
                seen.assignment = Some((variable, value));
            }
            Spot::Expression(Role::Parameter(routine, number), value) => {
                seen.passed = Some(Passed {
                    routine,
                    number,
                    value,
                });
            }
            Spot::Statement(name, given) => seen.called = Some((name, count_of(given.len()))),
            Spot::Call(name, given) => seen.called = Some((name, count_of(given.len()))),
            Spot::Named(variable) => seen.called = Some((variable.name, 0)),
            Spot::Selected(variable, before) => seen.selected = Some((variable, before)),
            Spot::Compare(left, relation, right) => seen.compared = Some((left, relation, right)),
            Spot::Added(sum, _) => seen.sum = Some(sum),
            Spot::Range(low, high) => seen.range = Some((low, high)),
            Spot::CaseConstant(constant, _, elements) => {
                seen.case_constant = Some((constant, elements));
            }
            Spot::SetType(base) => seen.set_base = Some(base),
            Spot::Control(_) => seen.is_control = true,
            _ => {}
        }
    }
    seen
}
