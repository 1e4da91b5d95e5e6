//! Definitions and laws: what a program means: the bytes that it writes, its looks at the input, and how it ends.
//!
//! The definitions are in specs/, in the order of the standard's sections; the functions here are laws about them.
#![tactic(auto)]

ghost use Rattle.ps_meaning.specs.Laws.{LimitsOnlyStop, FreeNeverStops, FuelOnlyExtends, ErrorsStay};

/// A run under costs of frames and objects and under a budget equals the run without them, or is stopped for stack or
/// heap after a prefix of what the other shows.
pub fn limits_only_stop()
    ensures { LimitsOnlyStop }
{}

/// A run without costs is never stopped for stack or heap.
pub fn free_never_stops()
    ensures { FreeNeverStops }
{}

/// More fuel does not change a run that has ended, and continues a run that has not.
pub fn fuel_only_extends()
    ensures { FuelOnlyExtends }
{}

/// An error within a budget is the error of the run without one, with the same open calls, and remains with more fuel.
pub fn errors_stay()
    ensures { ErrorsStay }
{}
