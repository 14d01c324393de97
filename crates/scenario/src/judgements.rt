//! What is tested of a line whose words fit its form, one fault after the other.

ghost use Rattle.std.specs.Prelude.{◌≡◌, true, false};
ghost use Rattle.std.specs.List.{list_any};
ghost use Rattle.scenario.specs.Judgements.{awaits_nothing, begins_wrongly, event_meets_state, has_long, has_region, is_begin, is_cluster, is_long, is_long_kind, is_message, is_out_of_order, is_out_of_range, is_range, is_replica, is_running, is_stopped, is_wrong_node, is_wrong_tick, meets_wrong_state, misses_message, misses_node, misses_range, names_nothing, node_in, range_in, repeats_a_name, tick_in, waits};

use crate::forms::Form;
use crate::seen::Seen;
use crate::seen_nodes::{CLOCK_LIMIT, SeenNodes};
use crate::world::World;
use journal::Event;
use mr_base::{Bytes, Kind, MsgId, NodeId, NodeInfo, RangeId, Settings, TxnId};

/// The longest duration in milliseconds.
const LONGEST: u64 = 3_600_000;

/// The most nodes.
const MOST_NODES: usize = 64;

/// The most regions.
const MOST_REGIONS: usize = 16;

/// Whether a duration is out of its range.
fn is_long(ms: u64) -> bool
    ensures { result ≡ is_long ms }
{
    ms > LONGEST
}

/// Whether one of the settings is out of its range.
fn has_long(s: &Settings) -> bool
    ensures { result ≡ has_long s.now }
{
    is_long(s.max_offset)
        || is_long(s.lease)
        || is_long(s.lag)
        || is_long(s.lead)
        || is_long(s.expire)
}

/// Whether the duration that says when a transaction reads is out of its range.
fn is_long_kind(kind: Kind) -> bool
    ensures { result ≡ is_long_kind kind }
{
    match kind {
        Kind::Now => false,
        Kind::Ago(ms) | Kind::Within { ms, .. } => is_long(ms),
    }
}

/// Whether a region is among these.
pub(crate) fn has_region(regions: &[Bytes], region: &[u8]) -> bool
    ensures { result ≡ has_region regions.now region.now }
{
    regions.iter().any(|known| region == known.as_slice())
}

/// Whether a `node` line isn't that of the next node, or is that of one too many.
fn is_wrong_node(seen: &Seen, info: &NodeInfo, clock: u64) -> bool
    ensures { result ≡ is_wrong_node seen.now info.now clock }
{
    if seen.nodes.len() >= MOST_NODES || info.id.0 as usize != seen.nodes.len() + 1 {
        return true;
    }
    if seen.regions.len() >= MOST_REGIONS
        && !has_region(seen.regions.as_slice(), info.region.as_slice())
    {
        return true;
    }
    clock == 0 || clock >= CLOCK_LIMIT
}

/// The clocks that an event moves, of one node or of all, and by how much.
pub(crate) fn tick_in(e: &Event) -> Option<(Option<NodeId>, u64)>
    ensures { result ≡ tick_in e.now }
{
    match e {
        Event::Tick { node, ms } => Some((*node, *ms)),
        Event::Settle { ms } => Some((None, *ms)),
        _ => None,
    }
}

/// Whether a tick is too long, or a clock would pass its limit.
fn is_wrong_tick(nodes: &SeenNodes, tick: Option<(Option<NodeId>, u64)>) -> bool
    ensures { result ≡ is_wrong_tick nodes.now tick }
{
    match tick {
        None => false,
        Some((node, ms)) => is_long(ms) || nodes.clocks_pass(node, ms),
    }
}

/// Whether a number is out of its range.
#[tactic(auto, unfolding(crate::specs::Judgements::is_out_of_range))]
pub(crate) fn is_out_of_range(seen: &Seen, form: &Form) -> bool
    ensures { result ≡ is_out_of_range seen.now form.now }
{
    match form {
        Form::Cluster(settings) => has_long(settings),
        Form::Node(info, clock) => is_wrong_node(seen, info, *clock),
        Form::Txn { kind, .. } => is_long_kind(*kind),
        Form::Event(e) => is_wrong_tick(&seen.nodes, tick_in(e)),
        Form::Sql(_) | Form::Timeout { .. } => false,
    }
}

/// Whether a line is a `cluster` line.
fn is_cluster(form: &Form) -> bool
    ensures { result ≡ is_cluster form.now }
{
    matches!(form, Form::Cluster(_))
}

/// Whether the first line is no `cluster` line, or a later one is.
#[tactic(auto, unfolding(crate::specs::Judgements::begins_wrongly))]
pub(crate) fn begins_wrongly(seen: &Seen, form: &Form) -> bool
    ensures { result ≡ begins_wrongly seen.now form.now }
{
    if is_cluster(form) {
        seen.counted > 0
    } else {
        seen.counted == 0
    }
}

/// Whether an event is `begin`.
fn is_begin(e: &Event) -> bool
    ensures { result ≡ is_begin e.now }
{
    matches!(e, Event::Begin)
}

/// Whether a line stands where the order of parts doesn't allow it.
#[tactic(auto, unfolding(crate::specs::Judgements::is_out_of_order))]
pub(crate) fn is_out_of_order(seen: &Seen, form: &Form) -> bool
    ensures { result ≡ is_out_of_order seen.now form.now }
{
    match form {
        Form::Cluster(_) => false,
        Form::Node(_, _) => seen.stated || seen.begun,
        Form::Sql(_) => seen.nodes.len() == 0,
        Form::Txn { .. } | Form::Timeout { .. } => seen.zones_only || !seen.begun,
        Form::Event(e) if is_begin(e) => seen.zones_only || seen.begun || seen.nodes.len() == 0,
        Form::Event(_) => seen.zones_only || !seen.begun,
    }
}

/// The node that an event names.
fn node_in(e: &Event) -> Option<NodeId>
    ensures { result ≡ node_in e.now }
{
    match e {
        Event::Tick { node, .. } => *node,
        Event::Apply { node, .. }
        | Event::LeaseAcquire { node, .. }
        | Event::LeaseTransfer { node, .. }
        | Event::Stop { node }
        | Event::Start { node }
        | Event::ShowNode { node }
        | Event::ShowFresh { node } => Some(*node),
        _ => None,
    }
}

/// The range that an event names.
fn range_in(e: &Event) -> Option<RangeId>
    ensures { result ≡ range_in e.now }
{
    match e {
        Event::Close { range } => *range,
        Event::Apply { range, .. }
        | Event::LeaseAcquire { range, .. }
        | Event::LeaseTransfer { range, .. }
        | Event::LeaseExtend { range }
        | Event::ShowRange { range } => Some(*range),
        _ => None,
    }
}

/// Whether a node that is named isn't there.
fn misses_node(nodes: &SeenNodes, n: Option<NodeId>) -> bool
    ensures { result ≡ misses_node nodes.now n }
{
    match n {
        None => false,
        Some(n) => nodes.find(n).is_none(),
    }
}

/// Whether a range that is named isn't there.
fn misses_range<W: World>(w: &W, r: Option<RangeId>) -> bool
    ensures { result ≡ misses_range (W.live_ranges w.now) r }
{
    match r {
        None => false,
        Some(r) => r.0 == u32::MAX || !is_live(w, r),
    }
}

/// Whether a range is live.
fn is_live<W: World>(w: &W, r: RangeId) -> bool
    ensures { result ≡ list_any (is_range r) (W.live_ranges w.now) }
{
    w.live(r)
}

/// Whether a node or range that is named isn't there.
#[tactic(auto, unfolding(crate::specs::Judgements::names_nothing))]
pub(crate) fn names_nothing<W: World>(seen: &Seen, w: &W, form: &Form) -> bool
    ensures { result ≡ names_nothing seen.now (W.live_ranges w.now) form.now }
{
    match form {
        Form::Txn { gateway, .. } => misses_node(&seen.nodes, Some(*gateway)),
        Form::Event(e) => misses_node(&seen.nodes, node_in(e)) || misses_range(w, range_in(e)),
        _ => false,
    }
}

/// Whether the name of a transaction was used.
#[tactic(auto, unfolding(crate::specs::Judgements::repeats_a_name))]
pub(crate) fn repeats_a_name(seen: &Seen, form: &Form) -> bool
    ensures { result ≡ repeats_a_name seen.now form.now }
{
    match form {
        Form::Txn { name, .. } => seen.names.place(name.as_slice()).is_some(),
        _ => false,
    }
}

/// Whether a message is in flight.
fn is_in_flight<W: World>(w: &W, m: MsgId) -> bool
    ensures { result ≡ list_any (is_message m) (W.flight w.now) }
{
    w.in_flight(m)
}

/// Whether the message isn't in flight.
#[tactic(auto, unfolding(crate::specs::Judgements::misses_message))]
pub(crate) fn misses_message<W: World>(w: &W, form: &Form) -> bool
    ensures { result ≡ misses_message (W.flight w.now) form.now }
{
    match form {
        Form::Event(Event::Deliver { id } | Event::Drop { id }) => !is_in_flight(w, *id),
        _ => false,
    }
}

/// Whether a node is there and stopped.
fn is_stopped(nodes: &SeenNodes, n: NodeId) -> bool
    ensures { result ≡ is_stopped nodes.now n }
{
    match nodes.find(n) {
        None => false,
        Some(node) => !node.running,
    }
}

/// Whether a node is there and runs.
fn is_running(nodes: &SeenNodes, n: NodeId) -> bool
    ensures { result ≡ is_running nodes.now n }
{
    match nodes.find(n) {
        None => false,
        Some(node) => node.running,
    }
}

/// Whether a node holds a replica of a range.
fn holds_replica<W: World>(w: &W, n: NodeId, r: RangeId) -> bool
    ensures { result ≡ list_any (is_replica (n, r)) (W.replicas w.now) }
{
    w.has_replica(n, r)
}

/// Whether an event meets a node that is stopped, or runs, where it has to be the other way round.
fn event_meets_state<W: World>(nodes: &SeenNodes, w: &W, e: &Event) -> bool
    ensures { result ≡ event_meets_state nodes.now (W.replicas w.now) e.now }
{
    match e {
        Event::Apply { node, range, .. } => {
            is_stopped(nodes, *node) || !holds_replica(w, *node, *range)
        }
        Event::Stop { node }
        | Event::LeaseAcquire { node, .. }
        | Event::LeaseTransfer { node, .. }
        | Event::ShowFresh { node } => is_stopped(nodes, *node),
        Event::Start { node } => is_running(nodes, *node),
        _ => false,
    }
}

/// Whether a line meets a node in a state in which it can't be taken.
#[tactic(auto, unfolding(crate::specs::Judgements::meets_wrong_state))]
pub(crate) fn meets_wrong_state<W: World>(seen: &Seen, w: &W, form: &Form) -> bool
    ensures { result ≡ meets_wrong_state seen.now (W.replicas w.now) form.now }
{
    match form {
        Form::Txn { gateway, .. } => is_stopped(&seen.nodes, *gateway),
        Form::Event(e) => event_meets_state(&seen.nodes, w, e),
        _ => false,
    }
}

/// Whether a transaction waits for a request.
fn waits<W: World>(w: &W, t: u32) -> bool
    ensures { result ≡ list_any (waits t) (W.awaited w.now) }
{
    w.awaits(TxnId(t)).is_some()
}

/// Whether the transaction waits for no request.
#[tactic(auto, unfolding(crate::specs::Judgements::awaits_nothing))]
pub(crate) fn awaits_nothing<W: World>(seen: &Seen, w: &W, form: &Form) -> bool
    ensures { result ≡ awaits_nothing seen.now (W.awaited w.now) form.now }
{
    let Form::Timeout { name } = form else {
        return false;
    };
    match seen.names.place(name.as_slice()) {
        None => true,
        Some(txn) => !waits(w, txn),
    }
}
