// Procedure statements (6.8.2.3).

ghost use Rattle.ps_tree.specs.View.{statement_of};
ghost use Rattle.ps_check_judgement.specs.Judged.{Answers};
ghost use Rattle.ps_check_expressions.specs.View.{context_at, regions_at};
ghost use Rattle.ps_check_statements.specs.Procedures as spec;

use crate::argument::actual_parameters;
use crate::heap::{new_statement, pack_statement, unpack_statement};
use crate::text::{read, read_parameters, write, write_parameters};
use ps_check_expressions::site::Site;
use ps_check_judgement::answer::broken;
use ps_check_judgement::change::Change;
use ps_check_judgement::refusal::{CheckFault, Rule};
use ps_check_names::constants::misplacement;
use ps_check_names::meaning::{Meaning, Required};
use ps_check_names::scope::Found;
use ps_syntax::Parameter;
use ps_text::Span;
use ps_tree::tree::Statement;

/// A required procedure.
#[tactic(auto, unfolding(crate::specs::Procedures::required_procedure, ps_tree::specs::View::statement_of))]
fn required_procedure(
    parameters: &[Parameter],
    site: &Site<'_>,
    changes: &mut Vec<Change>,
    required: Required,
    name: Span,
) -> Result<Statement, CheckFault>
    ensures { Answers result (λ s. (statement_of s, changes.new.items))
        (spec.required_procedure (context_at site.now)
        (regions_at site.now) name.from required parameters.now changes.old.items) }
{
    match required {
        Required::Read => {
            let variables = read_parameters(parameters, site, changes, name.from)?;
            read(variables, name.from)
        }
        Required::Readln => {
            let variables = read_parameters(parameters, site, changes, name.from)?;
            let line = site.reading.line(name.from);
            Ok(Statement::Readln { variables, line })
        }
        Required::Write => {
            let parameters = write_parameters(parameters, site, changes, name.from)?;
            write(parameters, name.from)
        }
        Required::Writeln => {
            let parameters = write_parameters(parameters, site, changes, name.from)?;
            Ok(Statement::Writeln { parameters })
        }
        Required::New => new_statement(parameters, site, changes, name),
        Required::Pack => pack_statement(parameters, site, changes, name.from),
        Required::Unpack => unpack_statement(parameters, site, changes, name.from),
        Required::Abs
        | Required::Sqr
        | Required::Odd
        | Required::Chr
        | Required::Ord
        | Required::Succ
        | Required::Pred
        | Required::Eof
        | Required::Eoln => Err(broken(Rule::WrongKind, name.from)),
    }
}

/// A procedure statement: the procedure's name and its parameters.
#[tactic(auto, using(ps_check_expressions::proofs::Judgement::arguments_listed), unfolding(crate::specs::Procedures::procedure_called, ps_check_names::specs::Views::meaning_of, ps_tree::specs::View::statement_of))]
pub(crate) fn procedure_statement(
    list: &[Parameter],
    site: &Site<'_>,
    changes: &mut Vec<Change>,
    name: Span,
) -> Result<Statement, CheckFault>
    ensures { Answers result (λ s. (statement_of s, changes.new.items))
        (spec.procedure_statement (context_at site.now) (regions_at site.now) name list.now changes.old.items) }
{
    let at = name.from;
    let found = site.denoted(name)?;
    match found {
        Found::Field { .. } => Err(broken(misplacement(&found), at)),
        Found::Name { up, meaning } => match meaning {
            Meaning::Routine(heading) => {
                let outcome = &heading.result;
                let arguments = actual_parameters(
                    list,
                    site,
                    changes,
                    &heading.sections,
                    outcome,
                    at,
                )?;
                Ok(Statement::Call {
                    routine: heading.number,
                    up,
                    arguments,
                    line: site.reading.line(at),
                })
            }
            Meaning::RoutineParameter {
                entry,
                sections,
                result: outcome,
            } => {
                let arguments = actual_parameters(list, site, changes, sections, outcome, at)?;
                Ok(Statement::CallFormal {
                    up,
                    index: *entry,
                    arguments,
                    line: site.reading.line(at),
                })
            }
            Meaning::Required(required) => required_procedure(list, site, changes, *required, name),
            _ => Err(broken(misplacement(&found), at)),
        },
    }
}
