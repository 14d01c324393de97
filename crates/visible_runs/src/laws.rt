//! The laws on clocks and on what is visible. Each is the contract of a function that does nothing.

ghost use Rattle.run_laws.specs.Laws.{LawfulIsVisible};
ghost use Rattle.visible_runs.specs.Laws.{AcknowledgedStaysBelowPeak, AnsweredAskNothing, ClocksStayBelowPeak};

/// No clock has seen more than the greatest physical clock.
pub fn clocks_stay_below_peak()
    ensures { ClocksStayBelowPeak }
{}

/// No acknowledgement has a wall above the greatest physical clock.
pub fn acknowledged_stays_below_peak()
    ensures { AcknowledgedStaysBelowPeak }
{}

/// In a lawful history the list of an attempt that answered its transaction reads nothing more.
pub fn answered_ask_nothing()
    ensures { AnsweredAskNothing }
{}

/// Every lawful history is visible: while clocks are within the offset, no transaction of the present misses, in what
/// it reads, what was acknowledged before it began.
pub fn lawful_is_visible()
    ensures { LawfulIsVisible }
{}
