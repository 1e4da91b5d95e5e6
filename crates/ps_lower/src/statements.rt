// The code of statements. The scratch block holds nothing from one statement to the next.

ghost use Rattle.std.specs.Prelude.{◌≡◌, ◌++◌, ◌+◌, ◌≤◌, ◌∷◌, [], length, map, IfOk};
ghost use Rattle.ps_lower_bounds.specs.Weights.{statement_weight, statements_weight, elements_weight};
ghost use Rattle.ps_lower_code.specs.Statements.{statement_code, statements_code};
ghost use Rattle.ps_lower.specs.Cases.{element_code, open_elements, ends_from};
ghost use Rattle.ps_lower.specs.Levels.{scope_of, then_code};
ghost use Rattle.ps_lower.specs.Refused.{Adds};
ghost use Rattle.ps_tree.specs.Tree as tree;
ghost use Rattle.ps_tree.specs.View.{expr_of, place_of, statement_of, statements_of, elements_of};
ghost use Rattle.ps_tree.specs.declared.tree.statements.CaseElement.{out-CaseElement};
ghost use Rattle.tac_code.specs.declared.code.Instruction.TheVariants as i;

use crate::assign::{Members, assign, assign_set, assign_structure};
use crate::calling::{statement_calls, with_calls};
use crate::cases::{close_elements, close_tests, tests};
use crate::depth::MAX_NUMBER;
use crate::known::{left_in, opposite, relation_in, right_in};
use crate::level::{Level, Records};
use crate::objects::create;
use crate::openings::open_within;
use crate::out::Code;
use crate::packing::{Array, pack, unpack};
use crate::procedures::{call_formal_procedure, call_procedure};
use crate::reads::{readln, reads};
use crate::refusal::{LowerRefusal, lifted, limited};
use crate::turns::{Control, control_of, end_turn, open_turns, past_relation, turns_of};
use crate::values::{front, value};
use crate::writes::{writeln, writes};
use ps_tree::line::Line;
use ps_tree::tree::{CaseElement, Expr, Place, Statement};

/// The code of a statement, marked as that of the next one in the text, and refused if there is too much code after it.
#[cycle(statements)]
pub fn statement(
    out: &mut Code,
    level: &Level,
    action: &Statement,
    d: u32,
) -> Result<(), LowerRefusal>
    requires { d + statement_weight (scope_of level.now) (statement_of action.now) d ≤ MAX_NUMBER }
    ensures { Adds result out.old out.new (statement_code (scope_of level.now) (statement_of action.now) d) }
{
    let outer = out.begin_statement();
    act(out, level, action, d)?;
    out.end_statement(outer);
    limited(out)
}

/// The code of a statement, by its form.
#[cycle(statements)]
#[tactic(auto, unfolding(ps_tree::specs::View::statement_of))]
fn act(out: &mut Code, level: &Level, action: &Statement, d: u32) -> Result<(), LowerRefusal>
    requires { d + statement_weight (scope_of level.now) (statement_of action.now) d ≤ MAX_NUMBER }
    ensures { Adds result out.old out.new (statement_code (scope_of level.now) (statement_of action.now) d) }
{
    match action {
        Statement::Empty => Ok(()),
        Statement::Assign {
            target,
            range,
            value,
            line,
        } => lifted(assign(out, level, target, *range, value, *line, d)),
        Statement::Compound(body) => statements(out, level, body, d),
        Statement::If { condition, body } => act_if(out, level, body, condition, d),
        Statement::IfElse {
            condition,
            body,
            otherwise,
        } => {
            let end = then_part(out, level, body, condition, d)?;
            statement(out, level, otherwise, d)?;
            out.set_jump(end);
            Ok(())
        }
        Statement::Case {
            index,
            elements,
            line,
        } => act_case(out, level, elements, index, *line, d),
        Statement::While { condition, body } => act_while(out, level, body, condition, d),
        Statement::Repeat { body, condition } => act_repeat(out, level, body, condition, d),
        Statement::For {
            variable,
            low,
            high,
            from,
            from_line,
            direction,
            to,
            to_line,
            body,
            ..
        } => {
            let control = control_of(*variable, low, high, *direction, *from_line, *to_line);
            act_for(out, level, body, control, from, to, d)
        }
        Statement::Write { parameters } => lifted(writes(out, level, parameters, d)),
        Statement::Writeln { parameters } => lifted(writeln(out, level, parameters, d)),
        Statement::AssignSet {
            target,
            low,
            high,
            value,
            line,
        } => {
            let members = Members { low, high };
            lifted(assign_set(out, level, target, members, value, *line, d))
        }
        Statement::AssignStructure { target, value } => lifted(assign_structure(
            out, level, target, value, d,
        )),
        Statement::Call {
            routine,
            up,
            arguments,
            line,
        } => lifted(call_procedure(out, level, arguments, *routine, *up, *line, d)),
        Statement::CallFormal {
            up,
            index,
            arguments,
            line,
        } => lifted(call_formal_procedure(out, level, arguments, *up, *index, *line, d)),
        Statement::With { places, body } => act_with(out, level, body, places, d),
        Statement::New {
            place,
            pointer,
            line,
        } => lifted(create(out, level, place, *pointer, *line, d)),
        Statement::Pack {
            from,
            from_ty,
            index,
            line,
            to,
            to_ty,
        } => lifted(pack(
            out,
            level,
            Array {
                place: from,
                ty: from_ty,
            },
            index,
            Array {
                place: to,
                ty: to_ty,
            },
            *line,
            d,
        )),
        Statement::Unpack {
            from,
            from_ty,
            to,
            to_ty,
            index,
            line,
        } => lifted(unpack(
            out,
            level,
            Array {
                place: from,
                ty: from_ty,
            },
            Array {
                place: to,
                ty: to_ty,
            },
            index,
            *line,
            d,
        )),
        Statement::Read { variables } => lifted(reads(out, level, variables, d)),
        Statement::Readln { variables, line } => lifted(readln(out, level, variables, *line, d)),
    }
}

/// The code of statements, one after another.
#[cycle(statements)]
pub fn statements(
    out: &mut Code,
    level: &Level,
    statements: &[Statement],
    d: u32,
) -> Result<(), LowerRefusal>
    requires { d + statements_weight (scope_of level.now) (statements_of statements.now) d ≤ MAX_NUMBER }
    ensures { Adds result out.old out.new (statements_code (scope_of level.now) (statements_of statements.now) d) }
{
    for one in statements {
        statement(out, level, one, d)?;
    }
    Ok(())
}

#[cycle(statements)]
fn act_if(
    out: &mut Code,
    level: &Level,
    body: &Statement,
    condition: &Expr,
    d: u32,
) -> Result<(), LowerRefusal>
    requires { d + statement_weight (scope_of level.now)
        (tree.If (expr_of condition.now) (statement_of body.now)) d ≤ MAX_NUMBER }
    ensures { Adds result out.old out.new (statement_code (scope_of level.now)
        (tree.If (expr_of condition.now) (statement_of body.now)) d) }
{
    front(out, level, condition, d, 0)?;
    let past = out.room()?;
    statement(out, level, body, d)?;
    let relation = opposite(relation_in(condition));
    out.set_branch(
        past,
        relation,
        left_in(condition, d),
        right_in(condition, d),
    );
    Ok(())
}

/// A statement that is executed if a condition holds, and the room for a jump after it.
#[cycle(statements)]
fn then_part(
    out: &mut Code,
    level: &Level,
    body: &Statement,
    condition: &Expr,
    d: u32,
) -> Result<usize, LowerRefusal>
    requires { d + statement_weight (scope_of level.now)
        (tree.If (expr_of condition.now) (statement_of body.now)) d ≤ MAX_NUMBER }
    ensures code { Adds result
        (out.old ++ then_code (scope_of level.now) (expr_of condition.now) (statement_of body.now) d)
        out.new (i.End ∷ []) }
    ensures place { IfOk result (λ place. place ≡ length
        (out.old ++ then_code (scope_of level.now) (expr_of condition.now) (statement_of body.now) d)) }
{
    front(out, level, condition, d, 0)?;
    let past = out.room()?;
    statement(out, level, body, d)?;
    let end = out.room()?;
    let relation = opposite(relation_in(condition));
    out.set_branch(
        past,
        relation,
        left_in(condition, d),
        right_in(condition, d),
    );
    Ok(end)
}

#[cycle(statements)]
fn act_while(
    out: &mut Code,
    level: &Level,
    body: &Statement,
    condition: &Expr,
    d: u32,
) -> Result<(), LowerRefusal>
    requires { d + statement_weight (scope_of level.now)
        (tree.While (expr_of condition.now) (statement_of body.now)) d ≤ MAX_NUMBER }
    ensures { Adds result out.old out.new (statement_code (scope_of level.now)
        (tree.While (expr_of condition.now) (statement_of body.now)) d) }
{
    let to_test = out.room()?;
    let begin = out.place();
    statement(out, level, body, d)?;
    out.set_jump(to_test);
    front(out, level, condition, d, 0)?;
    let relation = relation_in(condition);
    lifted(out.branch_back(
        relation,
        left_in(condition, d),
        right_in(condition, d),
        begin,
    ))
}

#[cycle(statements)]
fn act_repeat(
    out: &mut Code,
    level: &Level,
    body: &[Statement],
    condition: &Expr,
    d: u32,
) -> Result<(), LowerRefusal>
    requires { d + statement_weight (scope_of level.now)
        (tree.Repeat (statements_of body.now) (expr_of condition.now)) d ≤ MAX_NUMBER }
    ensures { Adds result out.old out.new (statement_code (scope_of level.now)
        (tree.Repeat (statements_of body.now) (expr_of condition.now)) d) }
{
    let begin = out.place();
    statements(out, level, body, d)?;
    front(out, level, condition, d, 0)?;
    let relation = opposite(relation_in(condition));
    lifted(out.branch_back(
        relation,
        left_in(condition, d),
        right_in(condition, d),
        begin,
    ))
}

#[cycle(statements)]
fn act_for(
    out: &mut Code,
    level: &Level,
    body: &Statement,
    control: Control,
    from: &Expr,
    to: &Expr,
    d: u32,
) -> Result<(), LowerRefusal>
    requires { d + statement_weight (scope_of level.now)
        (tree.For control.variable control.low control.high
        (expr_of from.now) control.from_line.number control.direction
        (expr_of to.now) control.to_line.number (statement_of body.now)) d ≤ MAX_NUMBER }
    ensures { Adds result out.old out.new (statement_code (scope_of level.now)
        (tree.For control.variable control.low control.high
        (expr_of from.now) control.from_line.number control.direction
        (expr_of to.now) control.to_line.number (statement_of body.now)) d) }
{
    let turns = turns_of(level, control.variable, to, statement_calls(body), d);
    let places = open_turns(out, level, control, from, to, turns)?;
    statement(out, level, body, turns.depth)?;
    end_turn(out, turns, places.begin)?;
    let relation = past_relation(control.direction);
    out.set_branch(places.past, relation, turns.first, turns.limit);
    Ok(())
}

/// An element of a `case` statement, and the room for the jump out of it.
#[cycle(statements)]
fn act_element(
    out: &mut Code,
    level: &Level,
    element: &CaseElement,
    d: u32,
) -> Result<usize, LowerRefusal>
    requires { d + statement_weight (scope_of level.now) (statement_of (out-CaseElement element.now).body) d
        ≤ MAX_NUMBER }
    ensures code { Adds result
        (out.old ++ element_code (scope_of level.now) (out-CaseElement element.now).constants.items
        (statement_of (out-CaseElement element.now).body) d) out.new (i.End ∷ []) }
    ensures place { IfOk result (λ place. place ≡ length
        (out.old ++ element_code (scope_of level.now) (out-CaseElement element.now).constants.items
        (statement_of (out-CaseElement element.now).body) d)) }
{
    let last = tests(out, &element.constants, d)?;
    statement(out, level, &element.body, d)?;
    let end = out.room()?;
    close_tests(out, last, &element.constants, d);
    Ok(end)
}

/// The elements of a `case` statement, and the rooms for the jumps out of them.
#[cycle(statements)]
fn act_elements(
    out: &mut Code,
    level: &Level,
    elements: &[CaseElement],
    d: u32,
) -> Result<Vec<usize>, LowerRefusal>
    requires { d + elements_weight (scope_of level.now) (elements_of elements.now) d ≤ MAX_NUMBER }
    ensures code { Adds result out.old out.new (open_elements (scope_of level.now) (elements_of elements.now) d) }
    ensures ends { IfOk result (λ ends. ends.items ≡ ends_from (scope_of level.now) (elements_of elements.now) d
        (length out.old)) }
{
    let mut ends = Vec::new(out.alloc());
    for element in elements {
        let end = act_element(out, level, element, d)?;
        ends.push(end)?;
    }
    Ok(ends)
}

#[cycle(statements)]
fn act_case(
    out: &mut Code,
    level: &Level,
    elements: &[CaseElement],
    index: &Expr,
    line: Line,
    d: u32,
) -> Result<(), LowerRefusal>
    requires { d + statement_weight (scope_of level.now)
        (tree.Case (expr_of index.now) (elements_of elements.now) line.number) d ≤ MAX_NUMBER }
    ensures { Adds result out.old out.new (statement_code (scope_of level.now)
        (tree.Case (expr_of index.now) (elements_of elements.now) line.number) d) }
{
    value(out, level, index, d, 0)?;
    let ends = act_elements(out, level, elements, d)?;
    out.trap(7, line)?;
    close_elements(out, &ends);
    Ok(())
}

/// A statement within records that are opened for it.
#[cycle(statements)]
fn act_with(
    out: &mut Code,
    level: &Level,
    body: &Statement,
    places: &[Place],
    d: u32,
) -> Result<(), LowerRefusal>
    requires { d + statement_weight (scope_of level.now)
        (tree.With (map place_of places.now) (statement_of body.now)) d ≤ MAX_NUMBER }
    ensures { Adds result out.old out.new (statement_code (scope_of level.now)
        (tree.With (map place_of places.now) (statement_of body.now)) d) }
{
    let calls = with_calls(body, places);
    let opened = open_within(out, &*level, places, calls, d)?;
    let inner = Level {
        checked: level.checked,
        chain: level.chain,
        opened: Records::Inside {
            sites: opened.sites.as_slice(),
            outer: opened.outer,
        },
    };
    statement(out, &inner, body, opened.depth)
}
