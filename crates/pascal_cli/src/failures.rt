//! What fails while a command is executed. Every failure is reported through this file.

ghost use Rattle.std.specs.Prelude.{◌≡◌, ◌<◌, ◌^◌, IfErr, false, map, not, true};
ghost use Rattle.pascal_cli.specs.Failures.{Keeps, Notes, NotesFault, TellsRefusal, has_failed, is_named};
ghost use Rattle.pascal_cli.specs.Failures.{is_named_twice, made, status_after, status_told};

use crate::jobs::print_all;
use pascal_session::{
    FAILED, STANDARD_ERROR, STANDARD_INPUT, cannot, is_standard, out_of_memory, read_at,
    report_end, tell,
};
use ps_build::Refusal;
use std::alloc::AllocError;
use std::rt::Files;

// Whether standard input is one of these paths.
fn is_named(paths: &[&str]) -> bool
    ensures { result ≡ is_named (map (λ path. path.now) paths.now) }
{
    let [path, behind @ ..] = paths else {
        return false;
    };
    is_standard(path) || is_named(behind)
}

// Whether standard input is two of these paths.
fn is_named_twice(paths: &[&str]) -> bool
    ensures { result ≡ is_named_twice (map (λ path. path.now) paths.now) }
{
    let [path, behind @ ..] = paths else {
        return false;
    };
    (is_standard(path) && is_named(behind)) || is_named_twice(behind)
}

// Writes a report to standard error, and returns whether it was written whole. If not, that is reported.
fn is_passed_on<R: Eprint>(rt: &R, report: &str) -> bool {
    if rt.eprint(report).is_ok() {
        return true;
    }
    tell_unwritten(rt);
    false
}

/// Reports that a report could not be written.
pub(crate) fn tell_unwritten<R: Eprint>(rt: &R) {
    let _ = cannot(rt, "write", STANDARD_ERROR);
}

/// Writes a report to standard error, and returns whether it was made, and written whole. If not, that is reported.
pub(crate) fn is_reported<R: Eprint + AllocGlobal>(
    rt: &R,
    report: Result<String, AllocError>,
) -> bool
    ensures { IfErr report (λ _. result ≡ false) }
{
    let Ok(report) = report else {
        let _ = out_of_memory(rt);
        return false;
    };
    is_passed_on(rt, report.as_str())
}

/// Whether something has failed so far: a read, a write, a growth of memory, a run that was to be traced, or a report
/// on a run.
#[derive(Drop)]
pub(crate) struct Failures {
    is_any: bool,
}

impl Failures {
    /// Nothing has failed yet.
    pub(crate) fn new() -> Failures
        ensures { has_failed result ≡ false }
    {
        Failures { is_any: false }
    }

    /// The bytes of the file at a path, or of standard input, up to a limit. If they can't be read, that is reported.
    pub(crate) fn read<R: Files + Eprint + Input + AllocGlobal>(
        &mut self,
        rt: &R,
        path: &str,
        limit: usize,
    ) -> Option<Vec<u8>>
        requires { limit < 2 ^ 32 }
        ensures { Notes result (has_failed self.old) (has_failed self.new) }
    {
        self.got(read_at(rt, path, limit))
    }

    /// What was read. If it could not be, that was reported.
    pub(crate) fn got<T>(&mut self, read: Result<T, u8>) -> Option<T>
        ensures value { result ≡ made read }
        ensures noted { Notes result (has_failed self.old) (has_failed self.new) }
    {
        match read {
            Ok(read) => Some(read),
            Err(_) => {
                self.is_any = true;
                None
            }
        }
    }

    /// Whether at most one of these paths is standard input. If two are, that is reported.
    pub(crate) fn are_apart<R: Eprint>(&mut self, rt: &R, paths: &[&str]) -> bool
        ensures value { result ≡ not (is_named_twice (map (λ path. path.now) paths.now)) }
        ensures noted { NotesFault result (has_failed self.old) (has_failed self.new) }
    {
        if !is_named_twice(paths) {
            return true;
        }
        let _ = eprintln!(rt; "cannot read {STANDARD_INPUT} twice");
        self.is_any = true;
        false
    }

    /// What was made. If out of memory, that is reported.
    pub(crate) fn made<T, R: Eprint + AllocGlobal>(
        &mut self,
        rt: &R,
        value: Result<T, AllocError>,
    ) -> Option<T>
        ensures value { result ≡ made value }
        ensures noted { Notes result (has_failed self.old) (has_failed self.new) }
    {
        match value {
            Ok(value) => Some(value),
            Err(_) => {
                let _ = out_of_memory(rt);
                self.is_any = true;
                None
            }
        }
    }

    /// Reports what failed, in one line.
    pub(crate) fn tell<R: Eprint + AllocGlobal>(&mut self, rt: &R, line: Result<String, AllocError>)
        ensures { has_failed self.new ≡ true }
    {
        let _ = tell(rt, line);
        self.is_any = true;
    }

    /// The status after the report on what ended with this status: the same if the report was written whole.
    pub(crate) fn after_report(&mut self, is_told: bool, status: u8) -> u8
        ensures status { result ≡ status_told is_told status }
        ensures noted { NotesFault is_told (has_failed self.old) (has_failed self.new) }
    {
        if is_told {
            return status;
        }
        self.is_any = true;
        FAILED
    }

    /// Reports why a text is refused, and returns whether that is because of the text, not because out of memory.
    pub(crate) fn report_refusal<R: Eprint + AllocGlobal>(
        &mut self,
        rt: &R,
        refusal: Refusal,
    ) -> bool
        ensures { TellsRefusal result refusal (has_failed self.old) (has_failed self.new) }
    {
        match refusal {
            Refusal::OutOfMemory => {
                let _ = out_of_memory(rt);
                self.is_any = true;
                false
            }
            refusal => {
                let _ = report_end(rt, &Err(refusal));
                true
            }
        }
    }

    /// Reports why there was no run, and returns the status.
    pub(crate) fn no_run<R: Eprint + AllocGlobal>(&mut self, rt: &R, refusal: Refusal) -> u8
        ensures status { result ≡ FAILED }
        ensures noted { has_failed self.new ≡ true }
    {
        self.is_any = true;
        report_end(rt, &Err(refusal))
    }

    /// Writes to standard output. If that fails, it is reported.
    pub(crate) fn print<R: Print + Eprint>(&mut self, rt: &R, bytes: &[u8])
        ensures { Keeps (has_failed self.old) (has_failed self.new) }
    {
        if print_all(rt, bytes) != 0 {
            self.is_any = true;
        }
    }

    /// The status: 0 if the answer is yes and nothing failed.
    pub(crate) fn status(&self, answer: bool) -> u8
        ensures { result ≡ status_after answer (has_failed self.now) }
    {
        if answer && !self.is_any { 0 } else { FAILED }
    }
}
