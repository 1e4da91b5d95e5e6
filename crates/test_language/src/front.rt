//! What the parser makes of program texts.

use crate::blocks;
use crate::program::parsed;
use crate::shown::Shown;
use ps_build::{ParseFault, Refusal};
use ps_parse::release;
use ps_syntax::{Program, height};
use ps_text::Source;
use std::alloc::Global;
use test_tables::Line;

/// Puts why a text is refused.
pub(crate) fn put_refusal(line: &mut Line, refusal: Refusal) {
    line.numbered("", u64::from(refusal.number()));
    line.valued(" ", &refusal);
    line.numbered(" at line ", u64::from(refusal.line().unwrap_or(0)));
    if let Refusal::Parse {
        fault: ParseFault::NotAProgram,
        token,
        ..
    } = refusal
    {
        line.numbered(", token ", u64::from(token));
    }
}

/// The question about a text's tree.
#[derive(Clone, Copy)]
pub enum TreeQuery {
    /// Its height.
    Height,
    /// Its statements.
    Statements,
    /// What the layers of the checker make of its block.
    Block(blocks::BlockQuery),
}

fn put_asked(alloc: Global, line: &mut Line, source: &Source, program: &Program, asked: TreeQuery) {
    let block = &program.block;
    match asked {
        TreeQuery::Height => line.numbered("accepted, height ", u64::from(height(program))),
        TreeQuery::Statements => {
            let text = source.bytes();
            Shown { text, line }.statements(block.statements.as_slice());
        }
        TreeQuery::Block(asked) => blocks::answer(alloc, line, source, block, asked),
    }
}

/// Puts the answer about a text's tree, or the refusal.
pub(crate) fn answer(alloc: Global, line: &mut Line, text: &[u8], asked: TreeQuery) {
    let Ok(source) = Source::new(text) else {
        return line.word("no source");
    };
    match parsed(alloc, &source) {
        Ok(program) => {
            put_asked(alloc, line, &source, &program, asked);
            release(program);
        }
        Err(refusal) => put_refusal(line, refusal),
    }
}
