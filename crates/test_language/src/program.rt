// From a text to its checked program.

use ps_build::Refusal;
use ps_check::check;
use ps_parse::{parse, release};
use ps_scan::{Token, scan};
use ps_syntax::Program;
use ps_text::Source;
use ps_tree::program::Checked;
use std::alloc::Global;

/// The tree of a text, or why it has none.
pub fn parsed(alloc: Global, source: &Source) -> Result<Program, Refusal> {
    let tokens = scan(alloc, source)?;
    let program = parse(alloc, source, &tokens)?;
    Ok(program)
}

/// The checked program of a text, or why the text is refused.
pub(crate) fn checked(alloc: Global, text: &[u8]) -> Result<Checked, Refusal> {
    let source = Source::new(text)?;
    let tokens = scan(alloc, &source)?;
    checked_tokens(alloc, &source, &tokens)
}

/// The checked program of a text that has these tokens.
fn checked_tokens(alloc: Global, source: &Source, tokens: &[Token]) -> Result<Checked, Refusal> {
    let program = parse(alloc, source, tokens)?;
    let checked = check(alloc, source, &program);
    release(program);
    match checked {
        Ok(checked) => Ok(checked),
        Err(refusal) => Err(Refusal::of_check(refusal, tokens)),
    }
}
