// The code of routines.

ghost use Rattle.std.specs.Prelude.{◌≡◌, ◌++◌, ◌+◌, ◌*◌, ◌≤◌, length, OnOk, IfOk, IfSome, MatchResult, option_map};
ghost use Rattle.ps_lower_bounds.specs.Weights.{statements_weight, result_weight, begin_weight, routine_weight};
ghost use Rattle.ps_lower_code.specs.Programs.{tac_of};
ghost use Rattle.ps_lower_code.specs.Routines.{input_code, parameter_total, begin_code, result_end, end_code};
ghost use Rattle.ps_lower_code.specs.Routines.{routine_code, scope_of as scope_in};
ghost use Rattle.ps_lower_code.specs.Statements.{statements_code};
ghost use Rattle.ps_lower_layout.specs.Frames.{is_program_block, result_kinds, words_of_all, layout_of};
ghost use Rattle.ps_lower.specs.Firsts.{result_at, head_code, words_in};
ghost use Rattle.ps_lower.specs.Levels.{scope_of};
ghost use Rattle.ps_lower.specs.Refused.{IsRefused, Adds};
ghost use Rattle.ps_tree.specs.Checked.{program_in};
ghost use Rattle.ps_tree.specs.View.{type_of, routine_of};

use crate::count::needs_of;
use crate::depth::MAX_NUMBER;
use crate::firsts::{first_at, firsts};
use crate::frames::{Frames, table};
use crate::level::{Level, Records};
use crate::marks::MarkLists;
use crate::numbers::{larger, narrow};
use crate::out::{Code, MOST_MADE};
use crate::parameters::{count_parameters, parameters};
use crate::refusal::{LowerRefusal, MOST_INSTRUCTIONS, lifted};
use crate::statements::statements;
use ps_lower_least::fewest;
use ps_tree::tree::Routine;
use ps_tree::types::Ty;
use std::alloc::{AllocError, Global};
use tac_code::code::{Base, Body, Instruction, TacRoutine};

/// No frame has more words than this.
const MOST_WORDS: u32 = 250_000_000;

/// The level at which the body of a routine is made.
fn level<'a>(checked: &'a Frames<'a>, routine: &'a Routine) -> Level<'a>
    ensures { scope_of result ≡ scope_in (program_in checked.now) (routine_of routine.now) }
{
    Level {
        checked,
        chain: routine.chain.as_slice(),
        opened: Records::Outside,
    }
}

/// Whether a routine is the program block, the only one with no enclosing routine.
#[tactic(auto, using(crate::proofs::Begins::block_told))]
fn is_program_block(routine: &Routine) -> bool
    ensures { result ≡ is_program_block (routine_of routine.now).chain }
{
    routine.chain.len() <= 1
}

/// The words of a routine's static link and entries.
fn words_in(alloc: Global, routine: &Routine) -> Result<u32, AllocError>
    requires { words_in (routine_of routine.now) ≤ MOST_WORDS }
    ensures exact { IfOk result (λ n. n ≡ words_in (routine_of routine.now)) }
    ensures small { IfOk result (λ n. n ≤ MOST_WORDS) }
{
    let words = table(alloc, routine)?.words;
    Ok(words)
}

/// The bytes of a routine's frame; that of the program block ends with two words for the input.
fn frame_bytes(routine: &Routine, words: u32) -> u32
    requires small { words ≤ MOST_WORDS }
    requires exact { words ≡ words_in (routine_of routine.now) }
    ensures { result ≡ 4 * (layout_of (routine_of routine.now)).size }
{
    if is_program_block(routine) {
        4 * words + 8
    } else {
        4 * words
    }
}

/// The number of temporaries in which the parameters of a routine arrive.
fn parameter_total(routine: &Routine) -> u32
    requires { begin_weight (routine_of routine.now) ≤ MAX_NUMBER }
    ensures exact { result ≡ parameter_total (routine_of routine.now) }
    ensures small { result ≤ MAX_NUMBER }
{
    if is_program_block(routine) {
        return 0;
    }
    count_parameters(routine.formals.as_slice())
}

/// Records that nothing of the input was read ahead, and that no line was begun.
fn input(out: &mut Code, routine: &Routine, words: u32, t: u32) -> Result<(), AllocError>
    requires small { words ≤ MOST_WORDS }
    requires exact { words ≡ words_in (routine_of routine.now) }
    ensures { OnOk result (out.new ≡ out.old ++ input_code (routine_of routine.now) t) }
{
    let _place = routine;
    out.literal(t, -2)?;
    out.store(Base::Frame, 4 * words, t)?;
    out.literal(t, 0)?;
    out.store(Base::Frame, 4 * words + 4, t)
}

/// Sets the input's words of the program block, or stores the static link.
fn head(out: &mut Code, routine: &Routine, words: u32, t: u32) -> Result<(), AllocError>
    requires small { words ≤ MOST_WORDS }
    requires exact { words ≡ words_in (routine_of routine.now) }
    ensures { OnOk result (out.new ≡ out.old ++ head_code (routine_of routine.now) t) }
{
    if is_program_block(routine) {
        return input(out, routine, words, t);
    }
    out.store(Base::Frame, 0, 0)
}

/// The first value of a result, and the word after it.
fn first_result(
    out: &mut Code,
    level: &Level,
    result_type: &Option<Ty>,
    t: u32,
) -> Result<u32, AllocError>
    requires depth { t ≤ MAX_NUMBER }
    requires reach { result_weight (option_map type_of result_type.now) ≤ MAX_NUMBER }
    requires words { 4 * (1 + words_of_all (result_kinds (option_map type_of result_type.now))) ≤ MAX_NUMBER }
    ensures code { OnOk result (out.new ≡ out.old ++ result_at (scope_of level.now)
        (option_map type_of result_type.now) t 1) }
    ensures next { IfOk result (λ next. next ≡ 1 + words_of_all (result_kinds (option_map type_of result_type.now))) }
{
    match result_type {
        None => Ok(1),
        Some(ty) => first_at(out, level, ty, t, 1),
    }
}

/// What a routine does before its statements.
fn begin(
    out: &mut Code,
    level: &Level,
    routine: &Routine,
    words: u32,
    t: u32,
) -> Result<(), AllocError>
    requires small { words ≤ MOST_WORDS }
    requires exact { words ≡ words_in (routine_of routine.now) }
    requires free { t ≤ MAX_NUMBER }
    requires total { t ≡ parameter_total (routine_of routine.now) }
    requires light { begin_weight (routine_of routine.now) ≤ MAX_NUMBER }
    ensures { OnOk result (out.new ≡ out.old ++ begin_code (scope_of level.now) (routine_of routine.now)) }
{
    head(out, routine, words, t)?;
    let place = first_result(out, level, &routine.result, t)?;
    let place = parameters(out, level, routine.formals.as_slice(), place, t)?;
    firsts(out, level, routine.variables.as_slice(), t, place)
}

/// The return of a function's result, which is the first entry, or of 0.
fn give_back(out: &mut Code, routine: &Routine) -> Result<(), AllocError>
    ensures { OnOk result (out.new ≡ out.old ++ result_end (routine_of routine.now) (routine_of routine.now).result) }
{
    match &routine.result {
        None => {
            out.literal(0, 0)?;
            out.return_from(0)
        }
        Some(_) => {
            out.load(0, Base::Frame, 4)?;
            out.return_from(0)
        }
    }
}

/// The return of a routine, or the end of the program.
fn finish(out: &mut Code, routine: &Routine) -> Result<(), AllocError>
    ensures { OnOk result (out.new ≡ out.old ++ end_code (routine_of routine.now)) }
{
    if is_program_block(routine) {
        return out.push(Instruction::End);
    }
    give_back(out, routine)
}

/// The code of a routine.
fn block(
    out: &mut Code,
    level: &Level,
    routine: &Routine,
    words: u32,
    t: u32,
) -> Result<(), LowerRefusal>
    requires small { words ≤ MOST_WORDS }
    requires exact { words ≡ words_in (routine_of routine.now) }
    requires free { t ≤ MAX_NUMBER }
    requires total { t ≡ parameter_total (routine_of routine.now) }
    requires light { begin_weight (routine_of routine.now) ≤ MAX_NUMBER }
    requires body { statements_weight (scope_of level.now) (routine_of routine.now).body 0 ≤ MAX_NUMBER }
    ensures { Adds result out.old out.new (begin_code (scope_of level.now) (routine_of routine.now) ++ statements_code
        (scope_of level.now) (routine_of routine.now).body 0 ++ end_code (routine_of routine.now)) }
{
    begin(out, level, routine, words, t)?;
    statements(out, level, routine.body.as_slice(), 0)?;
    lifted(finish(out, routine))
}

/// The instructions of a routine, if there are at most `most`; their marks are added to those of the routines before
/// it.
fn body_within(
    alloc: Global,
    checked: &Frames,
    routine: &Routine,
    words: u32,
    t: u32,
    marks: &mut MarkLists,
    most: usize,
) -> Result<Option<Body>, LowerRefusal>
    requires small { words ≤ MOST_WORDS }
    requires exact { words ≡ words_in (routine_of routine.now) }
    requires free { t ≤ MAX_NUMBER }
    requires total { t ≡ parameter_total (routine_of routine.now) }
    requires light { begin_weight (routine_of routine.now) ≤ MAX_NUMBER }
    requires body { statements_weight (scope_in (program_in checked.now) (routine_of routine.now))
        (routine_of routine.now).body 0 ≤ MAX_NUMBER }
    ensures { MatchResult result (λ made. IfSome made (λ body. body ≡ routine_code (program_in checked.now)
        (routine_of routine.now))) (λ refusal. IsRefused refusal (length (routine_code (program_in checked.now)
        (routine_of routine.now)))) }
{
    let k = level(checked, routine);
    let mut out = Code::new(alloc, marks.marking, most);
    if let Err(refusal) = block(&mut out, &k, routine, words, t) {
        if out.is_full() {
            return Ok(None);
        }
        return Err(refusal);
    }
    marks.lists.push(out.take_marks())?;
    Ok(Some(out.into_body()?))
}

/// The instructions of a routine; their marks are added to those of the routines before it.
///
/// If they would take too much memory, it is first tested whether they are too many for an image anyway.
fn body(
    alloc: Global,
    checked: &Frames,
    routine: &Routine,
    words: u32,
    t: u32,
    marks: &mut MarkLists,
) -> Result<Body, LowerRefusal>
    requires small { words ≤ MOST_WORDS }
    requires exact { words ≡ words_in (routine_of routine.now) }
    requires free { t ≤ MAX_NUMBER }
    requires total { t ≡ parameter_total (routine_of routine.now) }
    requires light { begin_weight (routine_of routine.now) ≤ MAX_NUMBER }
    requires body { statements_weight (scope_in (program_in checked.now) (routine_of routine.now))
        (routine_of routine.now).body 0 ≤ MAX_NUMBER }
    ensures { MatchResult result (λ body. body ≡ routine_code (program_in checked.now) (routine_of routine.now))
        (λ refusal. IsRefused refusal (length (routine_code (program_in checked.now) (routine_of routine.now)))) }
{
    if let Some(body) = body_within(alloc, checked, routine, words, t, marks, MOST_MADE)? {
        return Ok(body);
    }
    if fewest(&routine.body) > MOST_INSTRUCTIONS as u64 {
        return Err(LowerRefusal::CodeTooLarge);
    }
    match body_within(alloc, checked, routine, words, t, marks, usize::MAX)? {
        Some(body) => Ok(body),
        None => Err(LowerRefusal::OutOfMemory),
    }
}

/// A routine of the program; the marks of its instructions are added to those of the routines before it.
pub fn tac_routine(
    alloc: Global,
    checked: &Frames,
    routine: &Routine,
    marks: &mut MarkLists,
) -> Result<TacRoutine, LowerRefusal>
    requires { routine_weight (program_in checked.now) (routine_of routine.now) ≤ 1000000000 }
    ensures { MatchResult result (λ made. made ≡ tac_of (program_in checked.now) (routine_of routine.now))
        (λ refusal. IsRefused refusal (length (routine_code (program_in checked.now) (routine_of routine.now)))) }
{
    let words = words_in(alloc, routine)?;
    let parameters = parameter_total(routine);
    let body = body(alloc, checked, routine, words, parameters, marks)?;
    let needs = needs_of(body.as_slice());
    let temporaries = larger(parameters, needs.temporaries);
    let scratch = narrow(needs.scratch);
    Ok(TacRoutine {
        parameters,
        temporaries,
        frame: frame_bytes(routine, words),
        scratch,
        line: routine.line.number,
        body,
    })
}
