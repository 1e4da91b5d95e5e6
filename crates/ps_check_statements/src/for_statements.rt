// What comes before `do` in a `for` statement (6.8.3.9).

ghost use Rattle.std.specs.Prelude.{◌≡◌, ◌∷◌, IfOk};
ghost use Rattle.ps_tree.specs.View.{type_of, expr_of, statement_of};
ghost use Rattle.ps_check_judgement.specs.Judged.{Answers};
ghost use Rattle.ps_check_names.specs.Views.{point_of};
ghost use Rattle.ps_check_expressions.specs.View.{context_at, regions_at};
ghost use Rattle.ps_check_statements.specs.Structured.{control_at, unthreatened, bound_at, direction_of, repeated};
ghost use Rattle.ps_check_statements.specs.Statements.{control_of, for_head};
ghost use Rattle.ps_check_statements.specs.View.{head_of};

use ps_check_expressions::changed::changed_entry;
use ps_check_expressions::expression::expr_value;
use ps_check_expressions::site::Site;
use ps_check_expressions::value::TypedValue;
use ps_check_judgement::answer::{boxed_answer, broken, paired};
use ps_check_judgement::change::Change;
use ps_check_judgement::refusal::{CheckFault, Rule};
use ps_check_names::constants::misplacement;
use ps_check_names::meaning::Meaning;
use ps_check_names::scope::Found;
use ps_syntax::{Direction as Way, Expr as Syntax};
use ps_text::Span;
use ps_tree::line::Line;
use ps_tree::tree::{Direction, Expr, Statement};
use ps_tree::types::{Ordinal, Ty, compatible};
use std::alloc::{AllocError, Global};

/// The control variable by its entry, with its type, the bounds with the lines of their first tokens, and the control
/// variables of the `for` statements around the repeated statement, innermost first.
#[derive(Drop)]
pub struct Head {
    pub variable: u32,
    pub ordinal: Ordinal,
    pub first: Box<Expr>,
    pub first_line: Line,
    pub direction: Direction,
    pub last: Box<Expr>,
    pub last_line: Line,
    pub controls: Vec<u32>,
}

/// The control variable that a name denotes; the name is at `at`.
#[tactic(auto, unfolding(crate::specs::Structured::control_at, ps_check_names::specs::Views::meaning_of, ps_tree::specs::View::type_of))]
fn control_found(found: Found<'_>, at: u32) -> Result<(u32, Ordinal), CheckFault>
    ensures { Answers result (λ control. control) (control_at at (point_of found.entry)) }
{
    match found {
        Found::Field { .. } => Err(broken(Rule::ControlVariable, at)),
        Found::Name { up, meaning } => match meaning {
            Meaning::Variable { entry, ty } => {
                let Ty::Simple(ordinal) = ty else {
                    return Err(broken(Rule::WrongType, at));
                };
                if up != 0 {
                    return Err(broken(Rule::ControlVariable, at));
                }
                Ok((*entry, *ordinal))
            }
            Meaning::Parameter { .. } => Err(broken(Rule::ControlVariable, at)),
            Meaning::Constant { .. }
            | Meaning::Text(_)
            | Meaning::Type(_)
            | Meaning::RoutineParameter { .. }
            | Meaning::Routine(_)
            | Meaning::Required(_)
            | Meaning::File(_)
            | Meaning::LeftOut => Err(broken(misplacement(&found), at)),
        },
    }
}

/// A bound, which must be of the type of the control variable.
#[tactic(auto, unfolding(crate::specs::Structured::bound, ps_check_expressions::specs::View::value_of, ps_tree::specs::View::type_of))]
fn bound_at(
    expression: &Syntax,
    site: &Site<'_>,
    changes: &mut Vec<Change>,
    ordinal: Ordinal,
) -> Result<Expr, CheckFault>
    ensures { Answers result (λ e. (expr_of e, changes.new.items))
        (bound_at (context_at site.now) (regions_at site.now) ordinal expression.now changes.old.items) }
{
    let at = expression.first_token();
    match expr_value(expression, site, changes)? {
        TypedValue::Simple(value, ty) => {
            let fits = compatible(&ty, &Ty::Simple(ordinal));
            drop(ty);
            if fits {
                Ok(value)
            } else {
                Err(broken(Rule::WrongType, at))
            }
        }
        value @ (TypedValue::Set(..) | TypedValue::Structure(..)) => {
            drop(value);
            Err(broken(Rule::WrongType, at))
        }
    }
}

/// The same, on the heap.
fn boxed_bound(
    expression: &Syntax,
    site: &Site<'_>,
    changes: &mut Vec<Change>,
    ordinal: Ordinal,
) -> Result<Box<Expr>, CheckFault>
    ensures { Answers result (λ e. (expr_of e.value, changes.new.items))
        (bound_at (context_at site.now) (regions_at site.now) ordinal expression.now changes.old.items) }
{
    boxed_answer(site.alloc, bound_at(expression, site, changes, ordinal))
}

fn direction_of(way: Way) -> Direction
    ensures { result ≡ direction_of way }
{
    match way {
        Way::Up => Direction::To,
        Way::Down => Direction::Downto,
    }
}

/// The control variable of a `for` statement, given its name. The statement changes it, and no routine of the block
/// may.
#[tactic(auto, unfolding(ps_check_expressions::specs::Changed::changed))]
fn control_of(
    site: &Site<'_>,
    changes: &mut Vec<Change>,
    name: Span,
) -> Result<(u32, Ordinal), CheckFault>
    ensures { Answers result (λ control. (control, changes.new.items))
        (control_of (context_at site.now) (regions_at site.now) name changes.old.items) }
{
    let found = site.denoted(name)?;
    let (variable, ordinal) = control_found(found, name.from)?;
    let change = Change {
        up: 0,
        entry: variable,
        at: name.from,
    };
    changed_entry(site, changes, change)?;
    unthreatened(site, variable)?;
    Ok((variable, ordinal))
}

/// Checks that no routine of the block changes the control variable; the first change is reported.
#[tactic(auto, unfolding(crate::specs::Structured::unthreatened))]
fn unthreatened(site: &Site<'_>, variable: u32) -> Result<(), CheckFault>
    ensures { Answers result (λ _. tt) (unthreatened (context_at site.now) variable) }
{
    match site.inner.first_of(variable) {
        None => Ok(()),
        Some(at) => Err(broken(Rule::ControlVariable, at)),
    }
}

/// Control variables, with one more at the front.
fn with_one(alloc: Global, controls: &[u32], variable: u32) -> Result<Vec<u32>, AllocError>
    ensures { IfOk result (λ all. all.items ≡ variable ∷ controls.now) }
{
    let mut all = Vec::new(alloc);
    all.push(variable)?;
    all.extend_from_slice(controls)?;
    Ok(all)
}

/// The head of a `for` statement: the name of the control variable, and the bounds.
pub(crate) fn for_head(
    site: &Site<'_>,
    changes: &mut Vec<Change>,
    name: Span,
    from: &Syntax,
    way: Way,
    to: &Syntax,
) -> Result<Head, CheckFault>
    ensures controls { IfOk result (λ h. h.controls.items ≡ h.variable ∷ site.now.controls.now) }
    ensures head { Answers result (λ h. (head_of h, changes.new.items))
        (for_head (context_at site.now) (regions_at site.now) name from.now way to.now changes.old.items) }
{
    let (variable, ordinal) = control_of(site, changes, name)?;
    let controls = with_one(site.alloc, site.controls, variable)?;
    let first = boxed_bound(from, site, changes, ordinal);
    let (first, last) = paired(first, boxed_bound(to, site, changes, ordinal))?;
    Ok(Head {
        variable,
        ordinal,
        first,
        first_line: site.reading.line(from.first_token()),
        direction: direction_of(way),
        last,
        last_line: site.reading.line(to.first_token()),
        controls,
    })
}

/// The `for` statement that repeats a statement; the name of its control variable is at `at`.
#[tactic(auto, unfolding(ps_tree::specs::View::statement_of))]
pub(crate) fn repeated(head: Head, body: Box<Statement>, at: u32) -> Statement
    ensures { statement_of result ≡ repeated (head_of head) (statement_of body.value) }
{
    Statement::For {
        variable: head.variable,
        at,
        low: head.ordinal.low,
        high: head.ordinal.high,
        from: head.first,
        from_line: head.first_line,
        direction: head.direction,
        to: head.last,
        to_line: head.last_line,
        body,
    }
}
