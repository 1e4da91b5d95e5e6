// The file of read, readln, write and writeln (6.9): the input or the output, which may be left out.

ghost use Rattle.std.specs.Prelude.{◌≡◌, List, IfOk};
ghost use Rattle.ps_check_judgement.specs.Judged.{Answers};
ghost use Rattle.ps_check_names.specs.Regions.{Context, Region};
ghost use Rattle.ps_check_names.specs.Views.{point_of};
ghost use Rattle.ps_check_expressions.specs.View.{context_at, regions_at};
ghost use Rattle.ps_check_statements.specs.Procedures.{is_file, name_of_parameter, names_file, told_unlisted_by};
ghost use Rattle.ps_check_statements.specs.Procedures.{unlisted_name, behind_file};

use ps_check_expressions::alone::name_alone;
use ps_check_expressions::site::Site;
use ps_check_judgement::answer::broken;
use ps_check_judgement::refusal::{CheckFault, Rule};
use ps_check_names::meaning::{File, Meaning};
use ps_check_names::scope::Found;
use ps_syntax::Parameter;
use ps_text::Span;
use std::alloc::AllocError;

/// Whether a name denotes the file.
#[tactic(auto, unfolding(crate::specs::Procedures::is_file, ps_check_names::specs::Views::meaning_of))]
fn is_file(file: File, found: Found<'_>) -> bool
    ensures { result ≡ is_file file (point_of found.entry) }
{
    match found {
        Found::Name {
            meaning: Meaning::File(other),
            ..
        } => matches!(
            (file, other),
            (File::Input, File::Input) | (File::Output, File::Output)
        ),
        _ => false,
    }
}

/// The name that a parameter consists of, if it is a name alone.
fn name_of(parameter: &Parameter) -> Option<Span>
    ensures { (c : Context) (Γ : List Region) → name_of_parameter c Γ parameter.now ≡ result }
{
    match parameter {
        Parameter::Plain(expression) => name_alone(expression),
        Parameter::Width(..) => None,
    }
}

/// Whether a parameter is the name of the file.
#[tactic(auto, unfolding(crate::specs::Procedures::names_file))]
fn names_file(site: &Site<'_>, file: File, parameter: &Parameter) -> Result<bool, AllocError>
    ensures { IfOk result (λ b. b ≡ names_file (context_at site.now) (regions_at site.now) file parameter.now) }
{
    match name_of(parameter) {
        None => Ok(false),
        Some(name) => match site.denoted(name) {
            Ok(found) => Ok(is_file(file, found)),
            Err(fault) => match fault {
                CheckFault::OutOfMemory => Err(AllocError),
                CheckFault::Broken { .. } => Ok(false),
            },
        },
    }
}

/// Where to report that the program heading doesn't list a file: at its name, or at `at` if the name is left out.
fn unlisted_name(site: &Site<'_>, name: Option<Span>, at: u32) -> Result<u32, AllocError>
    ensures { IfOk result (λ place. place ≡ unlisted_name (context_at site.now) (regions_at site.now) at name) }
{
    match name {
        None => Ok(at),
        Some(name) => match site.denoted(name) {
            Ok(_) => Ok(at),
            Err(fault) => match fault {
                CheckFault::OutOfMemory => Err(AllocError),
                CheckFault::Broken { rule, at: place } => Ok(told_unlisted(rule, place, at)),
            },
        },
    }
}

/// The offset of a name without a defining point, if the name is that of a file; otherwise the other offset.
fn told_unlisted(rule: Rule, place: u32, at: u32) -> u32
    ensures { result ≡ told_unlisted_by at rule place }
{
    match rule {
        Rule::NoInputOutput => place,
        _ => at,
    }
}

/// The parameters after the file. If the file is implied, the program heading must list it. The routine's name is at
/// `at`.
#[tactic(auto, unfolding(crate::specs::Procedures::behind_file, crate::specs::Procedures::unlisted_at))]
pub(crate) fn behind_file<'p>(
    site: &Site<'_>,
    file: File,
    is_listed: bool,
    parameters: &'p [Parameter],
    at: u32,
) -> Result<&'p [Parameter], CheckFault>
    ensures { Answers result (λ rest. rest.now)
        (behind_file (context_at site.now) (regions_at site.now) at file is_listed parameters.entry.now) }
{
    let [first, rest @ ..] = parameters else {
        if is_listed {
            return Ok(parameters);
        }
        return Err(broken(Rule::NoInputOutput, at));
    };
    if names_file(site, file, first)? {
        return Ok(rest);
    }
    if is_listed {
        return Ok(parameters);
    }
    let place = unlisted_name(site, name_of(first), at)?;
    Err(broken(Rule::NoInputOutput, place))
}
