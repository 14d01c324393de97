//! A read, and what it makes of the intent at a key.

ghost use Rattle.std.specs.Prelude.{◌≡◌, ◌↔◌, List, ℕ, IsTrue};
ghost use Rattle.mvcc_range.specs.Answer.{IsLookedAt, Settles};
ghost use Rattle.mvcc_range.specs.Follows.{intent_at};
ghost use Rattle.mvcc_range.specs.KeyView.{IsOthers, IsTheTold, IsTheUnknown, as_read, last_fate};
ghost use Rattle.range_log.specs.declared.entries.Entry.{Entry};

use crate::key_state::{Intent, KeptIntent};
use mr_base::{AttemptId, Bytes, Fate, Known, Span, Ts};

/// A read: by an attempt, of a span, at a timestamp, with an uncertainty limit or none (a wall in
/// milliseconds), and with the fates that it carries of other attempts.
#[derive(Drop)]
pub struct ReadView<'a> {
    pub attempt: AttemptId,
    pub span: &'a Span,
    pub at: Ts,
    pub limit: Option<u64>,
    pub known: &'a [Known],
}

impl<'a> ReadView<'a> {
    /// The other attempt's intent at the key that the read knows as committed: when, and its value.
    pub fn told<'s>(&self, kept: &'s Option<KeptIntent>) -> Option<(Ts, &'s Option<Bytes>)>
        ensures { (entries : List Entry) (key : List ℕ) → kept.now ≡ intent_at key entries
            → IsTheTold entries (as_read self.now) key result }
    {
        let Some(kept) = self.others(kept) else {
            return None;
        };
        let Some(fate) = last_fate(self.known, kept.intent.attempt) else {
            return None;
        };
        let Fate::Committed(ts) = fate else {
            return None;
        };
        Some((ts, &kept.value))
    }

    /// The other attempt's intent at the key that no known fate settles.
    pub fn unknown(&self, kept: &Option<KeptIntent>) -> Option<Intent>
        ensures { (entries : List Entry) (key : List ℕ) → kept.now ≡ intent_at key entries
            → IsTheUnknown entries (as_read self.now) key result }
    {
        let Some(kept) = self.others(kept) else {
            return None;
        };
        let Some(fate) = last_fate(self.known, kept.intent.attempt) else {
            return Some(kept.intent);
        };
        if settles(self.at, fate) {
            None
        } else {
            Some(kept.intent)
        }
    }

    /// The other attempt's intent that the read looks at.
    fn others<'s>(&self, kept: &'s Option<KeptIntent>) -> Option<&'s KeptIntent>
        ensures { (entries : List Entry) (key : List ℕ) → kept.now ≡ intent_at key entries
            → IsOthers entries (as_read self.now) key result }
    {
        let Some(kept) = kept else {
            return None;
        };
        if kept.intent.attempt == self.attempt {
            return None;
        }
        if self.looks_at(kept.intent.ts) {
            Some(kept)
        } else {
            None
        }
    }

    /// Whether the timestamp is at or below that of the read, or within its limit.
    fn looks_at(&self, ts: Ts) -> bool
        ensures { IsTrue result ↔ IsLookedAt (as_read self.now) ts }
    {
        if self.at < ts {
            match self.limit {
                Some(limit) => ts.wall <= limit,
                None => false,
            }
        } else {
            true
        }
    }
}

/// The fate of an attempt, of several the last.
fn last_fate(known: &[Known], a: AttemptId) -> Option<Fate>
    ensures { result ≡ last_fate a known.now }
{
    known.iter().fold(
        None,
        |last, k| if k.attempt == a { Some(k.fate) } else { last },
    )
}

/// Whether the fate settles an intent for a read at a timestamp.
fn settles(at: Ts, fate: Fate) -> bool
    ensures { IsTrue result ↔ Settles at fate }
{
    match fate {
        Fate::Pushed(ts) => !(ts < at),
        _ => true,
    }
}
