//! The words of the command line.

use pascal_command::{CommandFault, Job, Task, Watch, command};
use std::alloc::{AllocError, Global};
use test_tables::Line;

/// Puts what a task is: a word or two, followed by the names of its files.
fn put_task(line: &mut Line, task: &Task<'_>) {
    match task {
        Task::Go { source } => put_named(line, "go ", *source),
        Task::GoStandardInput => line.word("go standard input"),
        Task::Compile { source, image } => {
            put_named(line, "compile ", *source);
            put_named(line, " to ", *image);
        }
        Task::List { source } => put_named(line, "list ", *source),
        Task::Run { image } => put_named(line, "run ", *image),
        Task::Explain { topic } => put_named(line, "explain ", topic.as_str()),
        Task::Check { files } => {
            line.word("check");
            put_files(line, files.as_slice());
        }
        Task::Needs { source } => put_named(line, "needs ", *source),
        Task::Watch { how, source } => put_named(line, watch_word(*how), *source),
        Task::Certify { source, image } => {
            line.word("certify");
            put_files(line, &[*source, *image]);
        }
        Task::Verify {
            certificate,
            source,
            image,
        } => {
            line.word("verify");
            put_files(line, &[*certificate, *source, *image]);
        }
    }
}

// The word of a command that reports a run, and a space.
fn watch_word(how: Watch) -> &'static str {
    match how {
        Watch::Why => "why ",
        Watch::Trace => "trace ",
        Watch::Cover => "cover ",
        Watch::Profile => "profile ",
    }
}

/// Puts the names of files, with a space before each.
fn put_files(line: &mut Line, files: &[&str]) {
    for file in files.iter() {
        put_named(line, " ", *file);
    }
}

/// Puts a word, followed by a name.
fn put_named(line: &mut Line, word: &str, name: &str) {
    line.word(word);
    line.word(name);
}

fn put_job(line: &mut Line, job: &Job<'_>) {
    put_task(line, &job.task);
    line.valued(", stack ", &job.stack);
    line.valued(", heap ", &job.heap);
    line.valued(", steps ", &job.steps);
}

/// Puts what words request. A row without words is a call without words.
pub(crate) fn put_asked(alloc: Global, line: &mut Line, row: &str) -> Result<(), AllocError> {
    let mut words = Vec::new(alloc);
    for word in row.split(' ') {
        if !word.is_empty() {
            words.push(word)?;
        }
    }
    let asked = command(alloc, &words);
    match &asked {
        Ok(job) => put_job(line, job),
        Err(CommandFault::OutOfMemory) => line.fall_short(),
        Err(CommandFault::Line(_) | CommandFault::Number(_)) => line.word("refused"),
    }
    drop(asked);
    Ok(())
}
