//! The law of configurations. It is the contract of a function that does nothing.

ghost use Rattle.zone_compile.specs.Laws.{FormsAreOfTables};

/// A configuration has a form exactly where some database and table have it.
pub fn forms_are_of_tables()
    ensures { FormsAreOfTables }
{}
