//! The spans held, the oldest first.

ghost use Rattle.std.specs.Prelude.{◌≡◌, position};
ghost use Rattle.ts_cache.specs.Held.{AreApart, IsRenewed, same_span};

use mr_base::{Span, Ts};

/// A span with the greatest timestamp at which it was added.
#[derive(Drop)]
pub struct HeldSpan {
    pub span: Span,
    pub ts: Ts,
}

/// Raises the timestamp of the span where the new one is higher, and makes it the youngest. Whether the span is
/// held.
pub fn renew(list: &mut Vec<HeldSpan>, s: &Span, ts: Ts) -> bool
    requires { AreApart list.old.items }
    ensures { IsRenewed s.now ts list.old.items list.new.items result }
{
    let Some(at) = place_of(list.as_slice(), s) else {
        return false;
    };
    let mut h = list.remove(at);
    h.ts = h.ts.later(ts);
    list.push_reserved(h);
    true
}

/// The first place at which the span is held.
fn place_of(list: &[HeldSpan], s: &Span) -> Option<usize>
    ensures { result ≡ position (λ h. same_span h.span s.now) list.now }
{
    list.iter()
        .position(|h| h.span.lo == s.lo && h.span.hi == s.hi)
}
