// Laws of the definitions. Each is the contract of a function that does nothing when called.

ghost use Rattle.tac_pass.specs.Laws.{KeepingComposes, CheckedKeeps, CertifiedKeeps, PassedKeeps};

/// What is stated of a run in turns is also stated in turns of a run that keeps it.
pub fn keeping_composes()
    ensures { KeepingComposes }
{}

/// New code that a certificate leads to from old code keeps what the old one shows.
pub fn checked_keeps()
    ensures { CheckedKeeps }
{}

/// New code that was made from old code by tables keeps what the old one shows.
pub fn certified_keeps()
    ensures { CertifiedKeeps }
{}

/// New code that was made from old code by plans keeps what the old one shows.
pub fn passed_keeps()
    ensures { PassedKeeps }
{}
