//! The law of placements. It is the contract of a function that does nothing.

ghost use Rattle.placement.specs.Laws.{PlacedWhereOneFits};

/// Among nodes that serve for a configuration something is lacking exactly where no placement fits; where
/// nothing is lacking, the placement that `place` answers fits.
pub fn placed_where_one_fits()
    ensures { PlacedWhereOneFits }
{}
