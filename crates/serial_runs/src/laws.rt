//! The laws on the order of the decided transactions. Each is the contract of a function that does nothing.

ghost use Rattle.run_laws.specs.Laws.{DecidedReadsAgree, LawfulIsSerial};
ghost use Rattle.serial_runs.specs.Laws.{DecidedAreOrdered};

/// The decided transactions of a lawful history stand in one order, and each is decided once.
pub fn decided_are_ordered()
    ensures { DecidedAreOrdered }
{}

/// Every lawful history is serial: the decided transactions, one after the other on one site, give the same answers
/// and faults, and what the ranges hold.
pub fn lawful_is_serial()
    ensures { LawfulIsSerial }
{}

/// What was served to a deciding attempt at the timestamp of the decision is in the tables of the replay below it.
pub fn decided_reads_agree()
    ensures { DecidedReadsAgree }
{}
