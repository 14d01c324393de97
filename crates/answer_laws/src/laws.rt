//! The laws of lists of statements. Each is the contract of a function that does nothing.

ghost use Rattle.sql_eval.specs.Laws.{
  StaysGiven,
  StaysFaulty,
  FedIsKnown,
  AnswersBringNearer,
  NeedsAreCounted,
  KnownIsNotNeeded,
  NeedsAreOfTheTables,
  NearComesFirst,
  WritesAreOfTheTables,
  ExecKeepsValid,
  EvaluationIsExecuted,
};

/// What a list gives stays, whatever more is known.
pub fn stays_given()
    ensures { StaysGiven }
{}

/// A fault stays, whatever more is known.
pub fn stays_faulty()
    ensures { StaysFaulty }
{}

/// What is fed besides is known besides.
pub fn fed_is_known()
    ensures { FedIsKnown }
{}

/// Each answer leaves fewer phases, or as many and fewer spans in the present one.
pub fn answers_bring_nearer()
    ensures { AnswersBringNearer }
{}

/// Where a span is needed, phases or spans are still to come.
pub fn needs_are_counted()
    ensures { NeedsAreCounted }
{}

/// What is known isn't needed again.
pub fn known_is_not_needed()
    ensures { KnownIsNotNeeded }
{}

/// Each span that a list needs is in a range of one of its tables.
pub fn needs_are_of_the_tables()
    ensures { NeedsAreOfTheTables }
{}

/// A search by an index needs a span of another partition only after the near one held no pair of its key.
pub fn near_comes_first()
    ensures { NearComesFirst }
{}

/// Each key that a list writes is in a range of one of its tables.
pub fn writes_are_of_the_tables()
    ensures { WritesAreOfTheTables }
{}

/// Under a sound catalog, executing a list whose texts are UTF-8 keeps a database valid.
pub fn exec_keeps_valid()
    ensures { ExecKeepsValid }
{}

/// What a list comes to over the spans that were fed is what executing it gives on every valid database that
/// agrees with them: the same answers and exactly the changes, or the same fault.
pub fn evaluation_is_executed()
    ensures { EvaluationIsExecuted }
{}
