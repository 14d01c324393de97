//! What a line changes of what is seen, once nothing is wrong with it.

ghost use Rattle.std.specs.Prelude.{◌≡◌, ◌<◌, ◌++◌, ◌∷◌, [], false, true, length, IfOk, OnOk, OnErr, None};
ghost use Rattle.scenario.specs.Judgements.{is_out_of_range, is_wrong_tick, repeats_a_name, tick_in};
ghost use Rattle.scenario.specs.NamePlaces.{place_of};
ghost use Rattle.scenario.specs.Lines.{after_event, after_form, line_of, with_new_node, with_region};

use crate::forms::Form;
use crate::judgements::{has_region, tick_in};
use crate::lines::Line;
use crate::seen::Seen;
use crate::seen_nodes::SeenNode;
use journal::Event;
use mr_base::{Bytes, CloneIn, Kind, ListOf, Memory, NodeId, NodeInfo, TxnId};
use std::alloc::Global;

/// Adds a region that isn't there.
fn add_region(alloc: Global, regions: &mut ListOf<Bytes>, region: &Bytes) -> Result<(), Memory>
    ensures ok { OnOk result (regions.new ≡ with_region regions.old region.now) }
    ensures err { OnErr result (regions.new ≡ regions.old) }
{
    if has_region(regions.as_slice(), region.as_slice()) {
        return Ok(());
    }
    let region = region.clone_in(alloc)?;
    regions.push(region)
}

/// Adds the next node.
fn add_node(alloc: Global, seen: &mut Seen, info: &NodeInfo, clock: u64) -> Result<(), Memory>
    ensures ok { OnOk result (seen.new ≡ with_new_node seen.old info.now clock) }
    ensures err { OnErr result (seen.new ≡ seen.old) }
{
    let node = SeenNode {
        clock,
        running: true,
    };
    seen.nodes.push(node)?;
    match add_region(alloc, &mut seen.regions, &info.region) {
        Ok(()) => Ok(()),
        Err(e) => {
            seen.nodes.pop();
            Err(e)
        }
    }
}

/// Starts or stops nodes, moves clocks, or begins.
fn happen(seen: &mut Seen, e: &Event)
    requires { is_wrong_tick seen.old.nodes (tick_in e.now) ≡ false }
    ensures { seen.new ≡ after_event seen.old e.now }
{
    match e {
        Event::Begin => seen.begun = true,
        Event::Stop { node } => seen.nodes.set_running(*node, false),
        Event::Start { node } => seen.nodes.set_running(*node, true),
        _ => {
            if let Some((node, ms)) = tick_in(e) {
                seen.nodes.tick(node, ms);
            }
        }
    }
}

/// The line of a transaction, whose name is new.
fn begin_txn(
    seen: &mut Seen,
    name: Bytes,
    gateway: NodeId,
    kind: Kind,
    list: Bytes,
) -> Result<Line, Memory>
    requires few { length seen.old.names < 200000 }
    requires fresh { place_of seen.old.names name ≡ None }
    ensures line { IfOk result (λ l. l ≡ Line.Event (Event.Txn (record { 0 = length seen.old.names }) gateway kind list)) }
    ensures ok { OnOk result (seen.new ≡ record seen.old { names = seen.old.names ++ name ∷ [] }) }
    ensures err { OnErr result (seen.new ≡ seen.old) }
{
    let place = seen.names.len() as u32;
    seen.names.push(name, place)?;
    Ok(Line::Event(Event::Txn {
        txn: TxnId(place),
        gateway,
        kind,
        list,
    }))
}

/// Takes a line with which nothing is wrong. It isn't counted yet.
#[tactic(auto, unfolding(crate::specs::Lines::after_form, crate::specs::Lines::line_of, crate::specs::Judgements::is_out_of_range, crate::specs::Judgements::repeats_a_name))]
pub(crate) fn take(alloc: Global, seen: &mut Seen, form: Form) -> Result<Line, Memory>
    requires few { length seen.old.names < 200000 }
    requires in_range { is_out_of_range seen.old form ≡ false }
    requires fresh { repeats_a_name seen.old form ≡ false }
    ensures line { IfOk result (λ l. l ≡ line_of seen.old form) }
    ensures ok { OnOk result (seen.new ≡ after_form seen.old form) }
    ensures err { OnErr result (seen.new ≡ seen.old) }
{
    match form {
        Form::Cluster(settings) => Ok(Line::Cluster(settings)),
        Form::Node(info, clock) => {
            add_node(alloc, seen, &info, clock)?;
            Ok(Line::Node(info, clock))
        }
        Form::Sql(text) if seen.begun => Ok(Line::Event(Event::Sql(text))),
        Form::Sql(text) => {
            seen.stated = true;
            Ok(Line::Sql(text))
        }
        Form::Txn {
            name,
            gateway,
            kind,
            list,
        } => begin_txn(seen, name, gateway, kind, list),
        Form::Timeout { name } => {
            // A name that no line brought was refused before.
            let place = seen.names.place(name.as_slice()).unwrap_or(0);
            Ok(Line::Event(Event::Timeout { txn: TxnId(place) }))
        }
        Form::Event(e) => {
            happen(seen, &e);
            Ok(Line::Event(e))
        }
    }
}
