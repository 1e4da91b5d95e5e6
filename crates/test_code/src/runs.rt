//! Runs of the processor.

use crate::machines::{NOTHING, State, machine_of, memory_of, put_held, state_of};
use crate::settings::RowSettings;
use crate::texts::hexadecimals;
use risc_machine::{Fused, Machine, Stop, Streams, run};
use std::alloc::{AllocError, Global};
use test_tables::Line;

/// A run by single steps.
fn step_by_step(machine: &mut Machine, console: &mut Fused, limit: u64) -> Stop {
    for _ in 0..limit {
        if let Some(stop) = machine.step(console) {
            return stop;
        }
    }
    Stop::Steps
}

/// Puts where a run stopped, the contents of the machine then, and what was written.
fn put_stop(line: &mut Line, stop: Stop, before: State<'_>, machine: &Machine, output: &[u8]) {
    line.seen("", &stop);
    line.valued(" at ", &machine.pc());
    line.word(", ");
    put_held(line, before, machine);
    line.word(" ");
    line.bracketed(output);
    line.word(";");
}

// The machine with the words of a row.
fn machine_told(alloc: Global, row: &str, settings: &RowSettings) -> Result<Machine, AllocError> {
    let words = hexadecimals(alloc, row)?;
    let machine = machine_of(alloc, &words, settings.globals)?;
    Ok(machine)
}

/// Puts how the runs of one machine end, one after the other, and what it has written then. The row has the words of
/// its code.
pub(crate) fn put_runs(
    alloc: Global,
    line: &mut Line,
    row: &str,
    settings: &RowSettings,
) -> Result<(), AllocError> {
    let mut machine = machine_told(alloc, row, settings)?;
    let end = put_runs_of(alloc, line, &mut machine, settings);
    drop(machine);
    end
}

fn put_runs_of(
    alloc: Global,
    line: &mut Line,
    machine: &mut Machine,
    settings: &RowSettings,
) -> Result<(), AllocError> {
    let memory = memory_of(alloc, machine)?;
    let before = state_of(machine, &memory);
    let mut console = Fused::new(
        alloc,
        &settings.input,
        usize::from(settings.room),
        settings.take,
        settings.put,
    )?;
    for limit in &settings.limits {
        let stop = if settings.is_stepped {
            step_by_step(machine, &mut console, *limit)
        } else {
            run(machine, &mut console, *limit)
        };
        put_stop(line, stop, before, machine, console.output());
    }
    Ok(())
}

/// Puts how the run of code ends over a reader and a writer, how much of the input is left, and what is written.
pub(crate) fn put_streamed(
    alloc: Global,
    line: &mut Line,
    row: &str,
    settings: &RowSettings,
) -> Result<(), AllocError> {
    let mut machine = machine_told(alloc, row, settings)?;
    let input: &[u8] = &settings.input;
    let mut console = Streams::new(input, Vec::new(alloc));
    let stop = run(&mut machine, &mut console, settings.limit());
    line.seen("", &stop);
    line.valued(" at ", &machine.pc());
    drop(machine);
    let (rest, written) = console.into_parts();
    line.numbered(", ", rest.len() as u64);
    line.word(" left ");
    line.bracketed(&written);
    Ok(())
}

/// Puts what a machine holds when it starts. The row is its code.
pub(crate) fn put_started(
    alloc: Global,
    line: &mut Line,
    code: &[u8],
    settings: &RowSettings,
) -> Result<(), AllocError> {
    let front = code.len().min(1024);
    let (globals, heap, stack) = (
        settings.globals.min(1024),
        settings.heap.min(1024),
        settings.stack.min(1024),
    );
    let machine = Machine::start(alloc, &code[..front], globals, heap, stack)?;
    put_machine(line, &machine);
    drop(machine);
    Ok(())
}

/// Puts the contents of a machine, and where it is.
pub(crate) fn put_machine(line: &mut Line, machine: &Machine) {
    line.valued("", &machine.size());
    line.valued(" bytes, at ", &machine.pc());
    line.word(", ");
    put_held(line, NOTHING, machine);
}
