//! A configuration as JSON, as `zones --json` writes it.

ghost use Rattle.std.specs.Prelude.{◌≡◌, All, IfOk, IfSome, IsUtf8, OnOk, option_map};
ghost use Rattle.serde_json.specs.Data.{array, number, object, put, unsigned};
ghost use Rattle.serde_json.specs.View.{members_view, view};
ghost use Rattle.zone_compile.specs.Configuration.{NamesTexts};
ghost use Rattle.zone_compile.specs.Json.{config_json, counts_object, text_or_null, texts};
ghost use Rattle.zone_compile.specs.JsonMembers.{all_members, with_names, with_sizes};

use crate::config::ZoneConfig;
use mr_base::{Bytes, Memory, RangeId};
use serde_json::{Map, Value};
use std::alloc::Global;

/// The configuration as one compact JSON object without a line's end.
pub fn json(
    alloc: Global,
    c: &ZoneConfig,
    range: RangeId,
    table: &[u8],
    partition: Option<&[u8]>,
) -> Result<Bytes, Memory>
    requires table { IsUtf8 table.now }
    requires partition { IfSome partition (λ region. IsUtf8 region.now) }
    requires regions { NamesTexts c.now }
    ensures { IfOk result (λ text. text ≡ config_json c.now range.0 table.now (option_map (λ region. region.now) partition.entry)) }
{
    let value = data(alloc, c, range, table, partition)?;
    let text = value.to_string(alloc)?;
    Ok(Bytes::from_vec(text.into_bytes()))
}

fn data(
    alloc: Global,
    c: &ZoneConfig,
    range: RangeId,
    table: &[u8],
    partition: Option<&[u8]>,
) -> Result<Value, Memory>
    requires table { IsUtf8 table.now }
    requires partition { IfSome partition (λ region. IsUtf8 region.now) }
    requires regions { NamesTexts c.now }
    ensures { IfOk result (λ v. view v ≡ object (all_members c.now range.0 table.now (option_map (λ region. region.now) partition.entry))) }
{
    let mut members = Map::new(alloc);
    let voter_constraints = counts_object(alloc, c.voter_constraints.as_slice())?;
    serde_json::put(&mut members, alloc, "voter_constraints", voter_constraints)?;
    put_names(alloc, &mut members, range, table, partition)?;
    put_sizes(alloc, &mut members, c)?;
    let constraints = counts_object(alloc, c.constraints.as_slice())?;
    serde_json::put(&mut members, alloc, "constraints", constraints)?;
    Ok(Value::from(members))
}

fn put_names(
    alloc: Global,
    members: &mut Map<String, Value>,
    range: RangeId,
    table: &[u8],
    partition: Option<&[u8]>,
) -> Result<(), Memory>
    requires table { IsUtf8 table.now }
    requires partition { IfSome partition (λ region. IsUtf8 region.now) }
    ensures { OnOk result (members_view members.new.entries
        ≡ with_names range.0 table.now (option_map (λ region. region.now) partition.entry) (members_view members.old.entries)) }
{
    let table = Value::try_from_str(alloc, as_text(table))?;
    serde_json::put(members, alloc, "table", table)?;
    serde_json::put(members, alloc, "range", Value::from(range.0))?;
    let partition = text_or_null(alloc, partition)?;
    serde_json::put(members, alloc, "partition", partition)?;
    Ok(())
}

fn put_sizes(alloc: Global, members: &mut Map<String, Value>, c: &ZoneConfig) -> Result<(), Memory>
    requires { NamesTexts c.now }
    ensures { OnOk result (members_view members.new.entries ≡ with_sizes c.now (members_view members.old.entries)) }
{
    serde_json::put(members, alloc, "num_voters", Value::from(c.num_voters))?;
    serde_json::put(members, alloc, "num_replicas", Value::from(c.num_replicas))?;
    let leases = texts(alloc, &c.lease)?;
    serde_json::put(members, alloc, "lease_preferences", leases)?;
    serde_json::put(members, alloc, "global_reads", Value::from(c.global_reads))?;
    Ok(())
}

/// The text that bytes of UTF-8 are.
fn as_text(bytes: &[u8]) -> &str
    requires { IsUtf8 bytes.now }
    ensures { result.now ≡ bytes.now }
{
    match str::from_utf8(bytes) {
        Ok(text) => text,
        Err(_) => unreachable!(),
    }
}

fn text_or_null(alloc: Global, text: Option<&[u8]>) -> Result<Value, Memory>
    requires { IfSome text (λ region. IsUtf8 region.now) }
    ensures { IfOk result (λ v. view v ≡ text_or_null (option_map (λ region. region.now) text.entry)) }
{
    let Some(text) = text else {
        return Ok(Value::Null);
    };
    Ok(Value::try_from_str(alloc, as_text(text))?)
}

fn texts(alloc: Global, text: &Option<Bytes>) -> Result<Value, Memory>
    requires { IfSome text.now IsUtf8 }
    ensures { IfOk result (λ v. view v ≡ array (texts text.now)) }
{
    let mut values = Vec::new(alloc);
    if let Some(text) = text {
        let value = Value::try_from_str(alloc, as_text(text.as_slice()))?;
        values.push(value)?;
    }
    Ok(Value::from(values))
}

fn counts_object(alloc: Global, counts: &[(Bytes, u32)]) -> Result<Value, Memory>
    requires { All (λ count. IsUtf8 count.0) counts.now }
    ensures { IfOk result (λ v. view v ≡ counts_object counts.now) }
{
    let mut members = Map::new(alloc);
    for count in counts {
        put_count(alloc, &mut members, count)?;
    }
    Ok(Value::from(members))
}

fn put_count(
    alloc: Global,
    members: &mut Map<String, Value>,
    count: &(Bytes, u32),
) -> Result<(), Memory>
    requires { IsUtf8 count.now.0 }
    ensures { OnOk result (members_view members.new.entries ≡ put count.now.0 (number (unsigned count.now.1)) (members_view members.old.entries)) }
{
    let region = as_text(count.0.as_slice());
    serde_json::put(members, alloc, region, Value::from(count.1))?;
    Ok(())
}
