//! The nodes of a scenario as its lines leave them. Node k is at place k - 1.

ghost use Rattle.std.specs.Prelude.{◌≡◌, false, map, [], ◌∷◌, ◌++◌, length, List, OnOk, OnErr};
ghost use Rattle.std.specs.List.{list_any};
ghost use Rattle.scenario.specs.declared.seen_nodes.SeenNode.{SeenNode};
ghost use Rattle.scenario.specs.SeenNodes.{clocks_pass, find_node, passes, restarted, ticked, ticked_by, with_node};

use mr_base::{Memory, NodeId};
use std::alloc::Global;
use std::marker::Model;

/// Physical clocks stay below 2^53 milliseconds.
pub(crate) const CLOCK_LIMIT: u64 = 1 << 53;

/// A node as the lines read so far leave it.
#[derive(Clone, Copy)]
pub(crate) struct SeenNode {
    /// The physical clock in milliseconds: that of the node's line and all ticks.
    pub clock: u64,
    /// Whether the node runs.
    pub running: bool,
}

/// The nodes in the order of their numbers.
#[derive(Drop)]
pub(crate) struct SeenNodes {
    nodes: Vec<SeenNode>,
}

impl Model for SeenNodes {
    ghost use Rattle.std.specs.Prelude.{List};
    ghost use Rattle.scenario.specs.declared.seen_nodes.SeenNode.{SeenNode};

    ghost Value = { List SeenNode };

    ghost view = { λ n. n.nodes.items };
}

/// Whether these milliseconds would move the clock past the limit.
fn passes(ms: u64, node: SeenNode) -> bool
    ensures { result ≡ passes ms node }
{
    node.clock.saturating_add(ms) >= CLOCK_LIMIT
}

/// Whether these milliseconds would move some clock past the limit.
fn some_clock_passes(nodes: &[SeenNode], ms: u64) -> bool
    ensures { result ≡ list_any (passes ms) nodes.now }
{
    nodes.iter().any(|node| passes(ms, *node))
}

/// Moves a clock.
fn tick(node: &mut SeenNode, ms: u64)
    requires { passes ms node.old ≡ false }
    ensures { node.new ≡ ticked ms node.old }
{
    node.clock += ms;
}

/// Moves all clocks.
fn tick_all(nodes: &mut [SeenNode], ms: u64)
    requires { list_any (passes ms) nodes.old ≡ false }
    ensures { nodes.new ≡ map (ticked ms) nodes.old }
{
    for node in nodes.iter_mut() {
        tick(node, ms);
    }
}

impl SeenNodes {
    /// No nodes.
    pub(crate) fn new(alloc: Global) -> SeenNodes
        ensures { result ≡ [] }
    {
        SeenNodes {
            nodes: Vec::new(alloc),
        }
    }

    /// How many nodes there are.
    pub(crate) fn len(&self) -> usize
        ensures { result ≡ length self.now }
    {
        self.nodes.len()
    }

    /// The node of a number.
    pub(crate) fn find(&self, n: NodeId) -> Option<SeenNode>
        ensures { result ≡ find_node self.now n }
    {
        if n.0 == 0 {
            return None;
        }
        self.nodes.get(n.0 as usize - 1).copied()
    }

    /// Whether these milliseconds would move the clock of the node, or of some node, past the limit.
    pub(crate) fn clocks_pass(&self, n: Option<NodeId>, ms: u64) -> bool
        ensures { result ≡ clocks_pass self.now n ms }
    {
        match n {
            None => some_clock_passes(self.nodes.as_slice(), ms),
            Some(n) => match self.find(n) {
                None => false,
                Some(node) => passes(ms, node),
            },
        }
    }

    /// Adds the next node.
    pub(crate) fn push(&mut self, node: SeenNode) -> Result<(), Memory>
        ensures ok { OnOk result (self.new ≡ self.old ++ node ∷ []) }
        ensures err { OnErr result (self.new ≡ self.old) }
    {
        self.nodes.push(node)?;
        Ok(())
    }

    /// Takes the last node away.
    pub(crate) fn pop(&mut self)
        ensures { (front : List SeenNode) (last : SeenNode) → self.old ≡ front ++ last ∷ [] → self.new ≡ front }
    {
        let _ = self.nodes.pop();
    }

    /// Moves the clock of a node.
    fn tick_one(&mut self, n: NodeId, ms: u64)
        requires { clocks_pass self.old (Some n) ms ≡ false }
        ensures { self.new ≡ with_node (ticked ms) self.old n }
    {
        let Some(mut node) = self.find(n) else {
            return;
        };
        tick(&mut node, ms);
        self.nodes[n.0 as usize - 1] = node;
    }

    /// Moves the clock of the node, or all clocks.
    pub(crate) fn tick(&mut self, n: Option<NodeId>, ms: u64)
        requires { clocks_pass self.old n ms ≡ false }
        ensures { self.new ≡ ticked_by self.old n ms }
    {
        match n {
            None => tick_all(self.nodes.as_mut_slice(), ms),
            Some(n) => self.tick_one(n, ms),
        }
    }

    /// Stops a node, or starts it.
    pub(crate) fn set_running(&mut self, n: NodeId, running: bool)
        ensures { self.new ≡ with_node (restarted running) self.old n }
    {
        let Some(mut node) = self.find(n) else {
            return;
        };
        node.running = running;
        self.nodes[n.0 as usize - 1] = node;
    }
}
