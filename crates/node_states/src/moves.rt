//! What the lines of a scenario do to nodes.

ghost use Rattle.std.specs.Prelude.{◌≡◌, false, map};
ghost use Rattle.std.specs.List.{list_any};
ghost use Rattle.node_states.specs.Moves.{can_not_move, heard, move_of, moved};

use crate::states::NodeState;
use journal::Event;
use mr_base::{NodeId, Reading};

/// Physical clocks stay below 2^53 milliseconds.
const CLOCK_LIMIT: u64 = 1 << 53;

/// What a line does to nodes. Durations are in milliseconds.
#[derive(Clone, Copy)]
pub enum Move {
    /// It leaves them as they are.
    Nothing,
    /// All physical clocks go on.
    TickAll(u64),
    /// The physical clock of one goes on.
    Tick(NodeId, u64),
    Stop(NodeId),
    Start(NodeId),
}

/// What a line does to nodes.
pub fn move_of(event: &Event) -> Move
    ensures { result ≡ move_of event.now }
{
    match event {
        Event::Tick { node: None, ms } => Move::TickAll(*ms),
        Event::Tick {
            node: Some(node),
            ms,
        } => Move::Tick(*node, *ms),
        Event::Stop { node } => Move::Stop(*node),
        Event::Start { node } => Move::Start(*node),
        _ => Move::Nothing,
    }
}

/// Whether some node can't be moved so: a sum would pass its type or limit.
pub fn can_not_move(nodes: &[NodeState], moving: Move) -> bool
    ensures { result ≡ list_any (can_not_move moving) nodes.now }
{
    nodes.iter().any(|node| is_at_limit(moving, node))
}

/// Whether a node can't be moved so.
fn is_at_limit(moving: Move, node: &NodeState) -> bool
    ensures { result ≡ can_not_move moving node.now }
{
    match moving {
        Move::Nothing => false,
        Move::TickAll(ms) => node.clock.physical().saturating_add(ms) >= CLOCK_LIMIT,
        Move::Tick(_, ms) => node.clock.physical().saturating_add(ms) >= CLOCK_LIMIT,
        Move::Stop(_) => false,
        Move::Start(_) => node.boot == u32::MAX,
    }
}

/// Moves all nodes.
pub fn move_nodes(nodes: &mut [NodeState], moving: Move)
    requires { list_any (can_not_move moving) nodes.old ≡ false }
    ensures { nodes.new ≡ map (moved moving) nodes.old }
{
    for node in nodes.iter_mut() {
        move_node(node, moving);
    }
}

/// Moves a node, where that is meant.
fn move_node(node: &mut NodeState, moving: Move)
    requires { can_not_move moving node.old ≡ false }
    ensures { node.new ≡ moved moving node.old }
{
    match moving {
        Move::Nothing => {}
        Move::TickAll(ms) => node.clock.tick(ms),
        Move::Tick(n, ms) => tick_one(node, n, ms),
        Move::Stop(n) => stop_one(node, n),
        Move::Start(n) => start_one(node, n),
    }
}

fn tick_one(node: &mut NodeState, n: NodeId, ms: u64)
    requires { can_not_move (Move.Tick n ms) node.old ≡ false }
    ensures { node.new ≡ moved (Move.Tick n ms) node.old }
{
    if node.id == n {
        node.clock.tick(ms);
    }
}

fn stop_one(node: &mut NodeState, n: NodeId)
    ensures { node.new ≡ moved (Move.Stop n) node.old }
{
    if node.id == n {
        node.runs = false;
    }
}

fn start_one(node: &mut NodeState, n: NodeId)
    requires { can_not_move (Move.Start n) node.old ≡ false }
    ensures { node.new ≡ moved (Move.Start n) node.old }
{
    if node.id == n {
        node.boot += 1;
        node.runs = true;
        node.clock.restart();
    }
}

/// A node takes a message in: its clock hears the one that came with it.
pub fn hear(node: &mut NodeState, clock: Option<Reading>)
    ensures { node.new ≡ heard clock node.old }
{
    if let Some(reading) = clock {
        node.clock.observe(reading);
    }
}
