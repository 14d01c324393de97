//! The two tests by which a replica may serve a read: by its lease, or by what it has closed.

ghost use Rattle.std.specs.Prelude.{◌≡◌, ◌↔◌, IsTrue};
ghost use Rattle.closed_ts.specs.Serving.{IsLimitBelow, ServesByClosure, ServesByLease};

use mr_base::{NodeId, Ts};
use range_log::Lease;

/// Whether `node` at this boot may serve a read at `r` by the lease: it holds the lease, and `r` and the
/// uncertainty limit (a wall in milliseconds; none for a read of the past or a refresh) lie below its end.
pub fn by_lease(l: &Lease, node: NodeId, boot: u32, r: Ts, limit: Option<u64>) -> bool
    ensures { IsTrue result ↔ ServesByLease l.now node boot r limit }
{
    l.holder == node
        && l.boot == boot
        && r.wall < l.expiration
        && is_limit_below(limit, l.expiration)
}

/// Whether a replica that has closed `closed` may serve a read at `r`, whoever holds the lease: `r` and the
/// uncertainty limit lie below it.
pub fn by_closure(closed: Ts, r: Ts, limit: Option<u64>) -> bool
    ensures { IsTrue result ↔ ServesByClosure closed r limit }
{
    r.is_below(closed) && is_limit_below(limit, closed.wall)
}

/// Whether the limit, where there is one, is below the wall.
fn is_limit_below(limit: Option<u64>, wall: u64) -> bool
    ensures { IsTrue result ↔ IsLimitBelow limit wall }
{
    match limit {
        None => true,
        Some(limit) => limit < wall,
    }
}
