//! How the words that look at one attempt and those that look at all go together. Each law is the contract of a
//! function that does nothing.

ghost use Rattle.run_words.specs.Laws.{PutsArePut, PutsStandInLogs, ServesAreServed};

/// What was served to an attempt is what was served in its name.
pub fn serves_are_served()
    ensures { ServesAreServed }
{}

/// The puts of an attempt are those that were made in its name.
pub fn puts_are_put()
    ensures { PutsArePut }
{}

/// A put that was made stands in the log of its range.
pub fn puts_stand_in_logs()
    ensures { PutsStandInLogs }
{}
