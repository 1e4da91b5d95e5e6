// Laws of the definitions. Each is the contract of a function that does nothing when called.

ghost use Rattle.tac_code_laws.specs.Laws.{RunGrows};

/// A run of three-address code only grows, and its ending stays, including its open calls.
pub fn run_grows()
    ensures { RunGrows }
{}
