//! The laws of searches. Each is the contract of a function that does nothing.

ghost use Rattle.local_search.specs.SearchLaws.{SearchIsAsDefined, NearFirstIsFull};

/// A search asks what the defined one needs, as far as it was answered, and is done where that one gives its
/// answers.
pub fn search_is_as_defined()
    ensures { SearchIsAsDefined }
{}

/// A search that doesn't stop finds the pairs of all spans in the order searched. Where at most one span
/// holds a pair, each search finds the pairs of all spans.
pub fn near_first_is_full()
    ensures { NearFirstIsFull }
{}
