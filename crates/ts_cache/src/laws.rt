//! What adding spans does to the answers of a cache.

ghost use Rattle.ts_cache.specs.Laws.{AddingCovers, AddingKeepsApart, AddingKeepsWithin, AddingLowersNothing, AddingRaisesTheTop, EachAnswerIsNamed, TheTopIsAboveAll};

/// No answer falls where a span is added, and each span that meets it is answered with its timestamp at least.
pub fn adding_raises()
    ensures lowers_nothing { AddingLowersNothing }
    ensures covers { AddingCovers }
{}

/// The top is the greatest timestamp that was added, and no answer is above it.
pub fn top_is_greatest()
    ensures raised { AddingRaisesTheTop }
    ensures above_all { TheTopIsAboveAll }
{}

/// Each answer comes from `low` or from a span that is held.
pub fn answers_are_named()
    ensures { EachAnswerIsNamed }
{}

/// No span is held twice, and no more than the capacity.
pub fn adding_keeps_bounds()
    ensures apart { AddingKeepsApart }
    ensures within { AddingKeepsWithin }
{}
