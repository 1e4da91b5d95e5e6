//! The public function.

ghost use Rattle.std.specs.Prelude.{◌≡◌, ◌≢◌, ◌-◌, length, IfOk, IfErr};
ghost use Rattle.ps_syntax.specs.declared.program.Program.{Program};
ghost use Rattle.ps_parse.specs.declared.error.ReadFailure.TheVariants.{OutOfMemory};
ghost use Rattle.ps_parse_grammar.specs.Trees.{IsTreeOf};
ghost use Rattle.ps_parse.specs.Steps.{left_of, stop};
ghost use Rattle.ps_parse.specs.Reading.{reading};
ghost use Rattle.ps_parse.specs.Untaken.{NoneTakesAt, IsTold};

use crate::error::{ParseRefusal, ReadFailure};
use crate::fault::refusal_of;
use crate::parser::Parser;
use ps_parse_grammar::MAX_HEIGHT;
use ps_scan::Token;
use ps_syntax::Program;
use ps_text::Source;
use std::alloc::Global;

/// The tree that derives from the tokens of the text, of a height of at most `MAX_HEIGHT`
/// (ISO 7185 6.2 to 6.10).
///
/// Tokens without such a tree are refused at the first token that no derivation from the start can accept: with
/// `TooDeep` if a higher program continues with it, otherwise with `NotInProfile` if it belongs to a construction that
/// the profile leaves out, otherwise with `NotAProgram`.
pub fn parse(alloc: Global, source: &Source, tokens: &[Token]) -> Result<Program, ParseRefusal>
    ensures derives { IfOk result (IsTreeOf source.now tokens.now) }
    // The tokens have no other tree.
    ensures only { IfOk result (λ p. (other : Program) → IsTreeOf source.now tokens.now other → other ≡ p) }
    // Except out of memory, the fault of the first token that no derivation accepts is reported.
    ensures told { IfErr result (IsTold source.now tokens.now) }
{
    match whole_program(alloc, source.bytes(), tokens) {
        Ok(program) => Ok(program),
        Err(fault) => Err(refusal_of(alloc, source, tokens, fault)),
    }
}

/// Frees a tree. That each of its parts is freed is proved here, once, and not in the crates that pass a tree on.
pub fn release(tree: Program) {
    drop(tree);
}

/// The program that all the tokens together are.
fn whole_program(alloc: Global, text: &[u8], tokens: &[Token]) -> Result<Program, ReadFailure>
    ensures derives { IfOk result (IsTreeOf text.now tokens.now) }
    ensures only { IfOk result (λ p. (other : Program) → IsTreeOf text.now tokens.now other → other ≡ p) }
    ensures stopped { IfErr result (λ e. e ≢ OutOfMemory → stop (reading text.now 500 tokens.now) ≡ left_of e) }
    ensures untaken { IfErr result (λ e. e ≢ OutOfMemory → NoneTakesAt text.now tokens.now
        (length tokens.now - left_of e)) }
{
    let mut parser = Parser {
        alloc,
        rest: tokens,
    };
    match parser.program(text, MAX_HEIGHT) {
        Ok(program) => {
            if parser.left() == 0 {
                return Ok(program);
            }
            drop(program);
            Err(parser.refusal())
        }
        Err(fault) => Err(fault),
    }
}
