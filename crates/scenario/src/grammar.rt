//! The forms of lines. Each reader takes what follows the words before, and answers what the words say.

ghost use Rattle.std.specs.Prelude.{◌≡◌};
ghost use Rattle.scenario.specs.LineNames.{line_name};
ghost use Rattle.scenario.specs.Words.{Gives, first_word};
ghost use Rattle.scenario.specs.Forms.{acquire_at, apply_at, close_at, cluster_at, deliver_at, drop_at, extend_at, form_at, form_of, kind_at, lease_at, node_line_at, setting_at, settle_at, show_at, show_fresh_at, show_node_at, show_range_at, sql_at, start_at, stop_at, tick_at, timeout_at, transfer_at, txn_at, within_at};

use crate::forms::{Form, LINE_NAMES, LineName};
use crate::lines::LineFault;
use crate::words::{
    NO_FORM, message, node, node_or_all, number, place, range, range_or_all, split_word, text,
    txn_name, whole, word,
};
use journal::Event;
use mr_base::{Bytes, Kind, NodeInfo, Settings, is_utf8};
use std::alloc::Global;

/// The name of the lines that begin with a word.
#[tactic(auto, unfolding(crate::specs::LineNames::line_name))]
fn line_name(word: &[u8]) -> Option<LineName>
    ensures { result ≡ line_name word.now }
{
    LINE_NAMES.iter().copied().find(|name| word == name.word())
}

/// The name of a line.
pub(crate) fn named(line: &[u8]) -> Option<LineName>
    ensures { result ≡ line_name (first_word line.now) }
{
    let (word, _) = split_word(line);
    line_name(word)
}

/// A setting by its name, or its standard value where the name doesn't follow.
#[tactic(auto, unfolding(crate::specs::Forms::setting_at))]
fn setting<'a>(name: &[u8], standard: u64, rest: &'a [u8]) -> Result<(u64, &'a [u8]), LineFault>
    ensures { Gives (λ x. (x.0, x.1.now)) result (setting_at name.now standard rest.now) }
{
    if rest.is_empty() {
        return Ok((standard, rest));
    }
    let (found, after) = word(rest)?;
    if found == name {
        number(after)
    } else {
        Ok((standard, rest))
    }
}

/// `cluster` and any of the settings, in this order.
#[tactic(auto, unfolding(crate::specs::Forms::cluster_at))]
fn cluster(rest: &[u8]) -> Result<Form, LineFault>
    ensures { Gives (λ x. x) result (cluster_at rest.now) }
{
    let (max_offset, rest) = setting(b"max_offset", 500, rest)?;
    let (lease, rest) = setting(b"lease", 6000, rest)?;
    let (lag, rest) = setting(b"lag", 3000, rest)?;
    let (lead, rest) = setting(b"lead", 800, rest)?;
    let (expire, rest) = setting(b"expire", 5000, rest)?;
    let settings = Settings {
        max_offset,
        lease,
        lag,
        lead,
        expire,
    };
    whole(rest, Form::Cluster(settings))
}

/// `node n1 REGION ZONE CLOCK`
#[tactic(auto, unfolding(crate::specs::Forms::node_line_at))]
fn node_line(alloc: Global, rest: &[u8]) -> Result<Form, LineFault>
    ensures { Gives (λ x. x) result (node_line_at rest.now) }
{
    let (id, rest) = node(rest)?;
    let (region, rest) = place(alloc, rest)?;
    let (zone, rest) = place(alloc, rest)?;
    let (clock, rest) = number(rest)?;
    whole(rest, Form::Node(NodeInfo { id, region, zone }, clock))
}

/// `sql STATEMENT`
#[tactic(auto, unfolding(crate::specs::Forms::sql_at))]
fn sql(alloc: Global, rest: &[u8]) -> Result<Form, LineFault>
    ensures { Gives (λ x. x) result (sql_at rest.now) }
{
    let statement = text(rest)?;
    Ok(Form::Sql(Bytes::from_slice(alloc, statement)?))
}

/// `within MS` and maybe `any`.
#[tactic(auto, unfolding(crate::specs::Forms::within_at))]
fn within(rest: &[u8]) -> Result<(Kind, &[u8]), LineFault>
    ensures { Gives (λ x. (x.0, x.1.now)) result (within_at rest.now) }
{
    let (ms, rest) = number(rest)?;
    if rest.starts_with(b" any ") {
        let (_, rest) = rest.split_at(4);
        Ok((Kind::Within { ms, any: true }, rest))
    } else {
        Ok((Kind::Within { ms, any: false }, rest))
    }
}

/// `now`, `ago MS` or `within MS`
#[tactic(auto, unfolding(crate::specs::Forms::kind_at))]
fn kind(rest: &[u8]) -> Result<(Kind, &[u8]), LineFault>
    ensures { Gives (λ x. (x.0, x.1.now)) result (kind_at rest.now) }
{
    let (found, rest) = word(rest)?;
    if found == b"now".as_slice() {
        return Ok((Kind::Now, rest));
    }
    if found == b"ago".as_slice() {
        let (ms, rest) = number(rest)?;
        return Ok((Kind::Ago(ms), rest));
    }
    if found == b"within".as_slice() {
        return within(rest);
    }
    Err(NO_FORM)
}

/// `txn NAME n1 KIND LIST`
#[tactic(auto, unfolding(crate::specs::Forms::txn_at))]
fn txn(alloc: Global, rest: &[u8]) -> Result<Form, LineFault>
    ensures { Gives (λ x. x) result (txn_at rest.now) }
{
    let (name, rest) = txn_name(alloc, rest)?;
    let (gateway, rest) = node(rest)?;
    let (kind, rest) = kind(rest)?;
    let list = text(rest)?;
    let list = Bytes::from_slice(alloc, list)?;
    Ok(Form::Txn {
        name,
        gateway,
        kind,
        list,
    })
}

/// `timeout NAME`
#[tactic(auto, unfolding(crate::specs::Forms::timeout_at))]
fn timeout(alloc: Global, rest: &[u8]) -> Result<Form, LineFault>
    ensures { Gives (λ x. x) result (timeout_at rest.now) }
{
    let (name, rest) = txn_name(alloc, rest)?;
    whole(rest, Form::Timeout { name })
}

/// `tick n1 MS` or `tick all MS`
#[tactic(auto, unfolding(crate::specs::Forms::tick_at))]
fn tick(rest: &[u8]) -> Result<Form, LineFault>
    ensures { Gives (λ x. x) result (tick_at rest.now) }
{
    let (node, rest) = node_or_all(rest)?;
    let (ms, rest) = number(rest)?;
    whole(rest, Form::Event(Event::Tick { node, ms }))
}

/// `deliver m1`
#[tactic(auto, unfolding(crate::specs::Forms::deliver_at))]
fn deliver(rest: &[u8]) -> Result<Form, LineFault>
    ensures { Gives (λ x. x) result (deliver_at rest.now) }
{
    let (id, rest) = message(rest)?;
    whole(rest, Form::Event(Event::Deliver { id }))
}

/// `drop m1`
#[tactic(auto, unfolding(crate::specs::Forms::drop_at))]
fn drop_message(rest: &[u8]) -> Result<Form, LineFault>
    ensures { Gives (λ x. x) result (drop_at rest.now) }
{
    let (id, rest) = message(rest)?;
    whole(rest, Form::Event(Event::Drop { id }))
}

/// `apply n1 r1 COUNT`
#[tactic(auto, unfolding(crate::specs::Forms::apply_at))]
fn apply(rest: &[u8]) -> Result<Form, LineFault>
    ensures { Gives (λ x. x) result (apply_at rest.now) }
{
    let (node, rest) = node(rest)?;
    let (range, rest) = range(rest)?;
    let (count, rest) = number(rest)?;
    whole(rest, Form::Event(Event::Apply { node, range, count }))
}

/// `settle MS`
#[tactic(auto, unfolding(crate::specs::Forms::settle_at))]
fn settle(rest: &[u8]) -> Result<Form, LineFault>
    ensures { Gives (λ x. x) result (settle_at rest.now) }
{
    let (ms, rest) = number(rest)?;
    whole(rest, Form::Event(Event::Settle { ms }))
}

/// `lease acquire r1 n1`
#[tactic(auto, unfolding(crate::specs::Forms::acquire_at))]
fn acquire(rest: &[u8]) -> Result<Form, LineFault>
    ensures { Gives (λ x. x) result (acquire_at rest.now) }
{
    let (range, rest) = range(rest)?;
    let (node, rest) = node(rest)?;
    whole(rest, Form::Event(Event::LeaseAcquire { range, node }))
}

/// `lease transfer r1 n1`
#[tactic(auto, unfolding(crate::specs::Forms::transfer_at))]
fn transfer(rest: &[u8]) -> Result<Form, LineFault>
    ensures { Gives (λ x. x) result (transfer_at rest.now) }
{
    let (range, rest) = range(rest)?;
    let (node, rest) = node(rest)?;
    whole(rest, Form::Event(Event::LeaseTransfer { range, node }))
}

/// `lease extend r1`
#[tactic(auto, unfolding(crate::specs::Forms::extend_at))]
fn extend(rest: &[u8]) -> Result<Form, LineFault>
    ensures { Gives (λ x. x) result (extend_at rest.now) }
{
    let (range, rest) = range(rest)?;
    whole(rest, Form::Event(Event::LeaseExtend { range }))
}

/// A line on a lease.
#[tactic(auto, unfolding(crate::specs::Forms::lease_at))]
fn lease(rest: &[u8]) -> Result<Form, LineFault>
    ensures { Gives (λ x. x) result (lease_at rest.now) }
{
    let (verb, rest) = word(rest)?;
    if verb == b"acquire".as_slice() {
        return acquire(rest);
    }
    if verb == b"transfer".as_slice() {
        return transfer(rest);
    }
    if verb == b"extend".as_slice() {
        return extend(rest);
    }
    Err(NO_FORM)
}

/// `close r1` or `close all`
#[tactic(auto, unfolding(crate::specs::Forms::close_at))]
fn close(rest: &[u8]) -> Result<Form, LineFault>
    ensures { Gives (λ x. x) result (close_at rest.now) }
{
    let (range, rest) = range_or_all(rest)?;
    whole(rest, Form::Event(Event::Close { range }))
}

/// `stop n1`
#[tactic(auto, unfolding(crate::specs::Forms::stop_at))]
fn stop(rest: &[u8]) -> Result<Form, LineFault>
    ensures { Gives (λ x. x) result (stop_at rest.now) }
{
    let (node, rest) = node(rest)?;
    whole(rest, Form::Event(Event::Stop { node }))
}

/// `start n1`
#[tactic(auto, unfolding(crate::specs::Forms::start_at))]
fn start(rest: &[u8]) -> Result<Form, LineFault>
    ensures { Gives (λ x. x) result (start_at rest.now) }
{
    let (node, rest) = node(rest)?;
    whole(rest, Form::Event(Event::Start { node }))
}

/// `show range r1`
#[tactic(auto, unfolding(crate::specs::Forms::show_range_at))]
fn show_range(rest: &[u8]) -> Result<Form, LineFault>
    ensures { Gives (λ x. x) result (show_range_at rest.now) }
{
    let (range, rest) = range(rest)?;
    whole(rest, Form::Event(Event::ShowRange { range }))
}

/// `show node n1`
#[tactic(auto, unfolding(crate::specs::Forms::show_node_at))]
fn show_node(rest: &[u8]) -> Result<Form, LineFault>
    ensures { Gives (λ x. x) result (show_node_at rest.now) }
{
    let (node, rest) = node(rest)?;
    whole(rest, Form::Event(Event::ShowNode { node }))
}

/// `show fresh n1`
#[tactic(auto, unfolding(crate::specs::Forms::show_fresh_at))]
fn show_fresh(rest: &[u8]) -> Result<Form, LineFault>
    ensures { Gives (λ x. x) result (show_fresh_at rest.now) }
{
    let (node, rest) = node(rest)?;
    whole(rest, Form::Event(Event::ShowFresh { node }))
}

/// A line that shows state.
#[tactic(auto, unfolding(crate::specs::Forms::show_at))]
fn show(rest: &[u8]) -> Result<Form, LineFault>
    ensures { Gives (λ x. x) result (show_at rest.now) }
{
    let (what, rest) = word(rest)?;
    if what == b"range".as_slice() {
        return show_range(rest);
    }
    if what == b"node".as_slice() {
        return show_node(rest);
    }
    if what == b"fresh".as_slice() {
        return show_fresh(rest);
    }
    if what == b"flight".as_slice() {
        return whole(rest, Form::Event(Event::ShowFlight));
    }
    Err(NO_FORM)
}

/// What the words behind the name of a line say.
#[tactic(auto, unfolding(crate::specs::Forms::form_at))]
fn form(alloc: Global, name: LineName, rest: &[u8]) -> Result<Form, LineFault>
    ensures { Gives (λ x. x) result (form_at name rest.now) }
{
    match name {
        LineName::Cluster => cluster(rest),
        LineName::Node => node_line(alloc, rest),
        LineName::Sql => sql(alloc, rest),
        LineName::Begin => whole(rest, Form::Event(Event::Begin)),
        LineName::Txn => txn(alloc, rest),
        LineName::Tick => tick(rest),
        LineName::Deliver => deliver(rest),
        LineName::Drop => drop_message(rest),
        LineName::Apply => apply(rest),
        LineName::Drain => whole(rest, Form::Event(Event::Drain)),
        LineName::Settle => settle(rest),
        LineName::Lease => lease(rest),
        LineName::Close => close(rest),
        LineName::Stop => stop(rest),
        LineName::Start => start(rest),
        LineName::Show => show(rest),
        LineName::Timeout => timeout(alloc, rest),
    }
}

/// What a line of this name says.
#[tactic(auto, unfolding(crate::specs::Forms::form_of))]
pub(crate) fn form_of(alloc: Global, name: LineName, line: &[u8]) -> Result<Form, LineFault>
    ensures { Gives (λ x. x) result (form_of name line.now) }
{
    if !is_utf8(line) {
        return Err(NO_FORM);
    }
    let (_, rest) = split_word(line);
    form(alloc, name, rest)
}
