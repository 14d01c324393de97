//! The law of placements under statements. It is the contract of a function that does nothing.

ghost use Rattle.zone_report.specs.Laws.{RangesArePlaced};

/// Each range of the catalog stands where the report shows it, which fits, at first and after each statement,
/// and a statement is refused for want of nodes only where no placement fits some range of the catalog that it would make.
pub fn ranges_are_placed()
    ensures { RangesArePlaced }
{}
