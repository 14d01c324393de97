//! Which spans have keys in common.

ghost use Rattle.std.specs.Prelude.{◌≡◌, ◌↔◌, IsTrue};
ghost use Rattle.ts_cache.specs.Meeting.{MeetingIsSharingAKey, is_point, meets};

use mr_base::Span;

/// Whether the spans have a key in common.
pub fn meets(a: &Span, b: &Span) -> bool
    ensures { result ≡ meets a.now b.now }
{
    a.lo < a.hi && a.lo < b.hi && (b.lo < a.hi && b.lo < b.hi)
}

/// Whether the span holds one key alone, its lower end: the upper end is the same followed by a zero byte.
pub fn is_point(s: &Span) -> bool
    ensures { result ≡ is_point s.now }
{
    match s.hi.as_slice().split_last() {
        Some((last, front)) => *last == 0 && front == s.lo.as_slice(),
        None => false,
    }
}

/// Two spans meet exactly where a key stands in both.
pub fn spans_that_meet()
    ensures { MeetingIsSharingAKey }
{}
