//! The text of a configuration, as `zones` writes it.

ghost use Rattle.std.specs.Prelude.{◌≡◌, ◌++◌, Some, decimal, IfOk, OnOk};
ghost use Rattle.zone_compile.specs.Text.{config_text, counted, counts_text, global_text, lease_text, more_text, voters_text};

use crate::config::ZoneConfig;
use mr_base::{Bytes, Memory};
use region_sql::Goal;
use std::alloc::Global;

/// The configuration as one line without its end, its fields in the order of CockroachDB's
/// `SHOW ZONE CONFIGURATIONS`.
pub fn text(alloc: Global, c: &ZoneConfig) -> Result<Bytes, Memory>
    ensures { IfOk result (λ text. text ≡ config_text c.now) }
{
    let mut out = Vec::new(alloc);
    put_global(&mut out, c.global_reads)?;
    put(&mut out, b"num_replicas = ")?;
    put_number(alloc, &mut out, c.num_replicas)?;
    put(&mut out, b", num_voters = ")?;
    put_number(alloc, &mut out, c.num_voters)?;
    put(&mut out, b", constraints = ")?;
    put_counts(alloc, &mut out, c.constraints.as_slice())?;
    put(&mut out, b", voter_constraints = ")?;
    put_voters(alloc, &mut out, c)?;
    put(&mut out, b", lease_preferences = ")?;
    put_lease(&mut out, &c.lease)?;
    Ok(Bytes::from_vec(out))
}

fn put(out: &mut Vec<u8>, text: &[u8]) -> Result<(), Memory>
    ensures { OnOk result (out.new.items ≡ out.old.items ++ text.now) }
{
    out.extend_from_slice(text)?;
    Ok(())
}

fn put_number(alloc: Global, out: &mut Vec<u8>, number: u32) -> Result<(), Memory>
    ensures { OnOk result (out.new.items ≡ out.old.items ++ decimal number) }
{
    let digits = number.to_string(alloc)?;
    put(out, digits.as_bytes())
}

fn put_global(out: &mut Vec<u8>, global: bool) -> Result<(), Memory>
    ensures { OnOk result (out.new.items ≡ out.old.items ++ global_text global) }
{
    if global {
        put(out, b"global_reads = true, ")?;
    }
    Ok(())
}

fn put_counted(alloc: Global, out: &mut Vec<u8>, count: &(Bytes, u32)) -> Result<(), Memory>
    ensures { OnOk result (out.new.items ≡ out.old.items ++ counted count.now) }
{
    put(out, b"+region=")?;
    put(out, count.0.as_slice())?;
    put(out, b": ")?;
    put_number(alloc, out, count.1)
}

fn put_counts(alloc: Global, out: &mut Vec<u8>, counts: &[(Bytes, u32)]) -> Result<(), Memory>
    ensures { OnOk result (out.new.items ≡ out.old.items ++ counts_text counts.now) }
{
    let Some((first, more)) = counts.split_first() else {
        return put(out, b"'[]'");
    };
    put(out, b"'{")?;
    put_counted(alloc, out, first)?;
    put_more(alloc, out, more)?;
    put(out, b"}'")
}

fn put_more(alloc: Global, out: &mut Vec<u8>, counts: &[(Bytes, u32)]) -> Result<(), Memory>
    ensures { OnOk result (out.new.items ≡ out.old.items ++ more_text counts.now) }
{
    for count in counts {
        put(out, b", ")?;
        put_counted(alloc, out, count)?;
    }
    Ok(())
}

fn put_voters(alloc: Global, out: &mut Vec<u8>, c: &ZoneConfig) -> Result<(), Memory>
    ensures { OnOk result (out.new.items ≡ out.old.items ++ voters_text c.now.goal c.now.lease c.now.voter_constraints) }
{
    if let (Some(Goal::Zone), Some(home)) = (&c.goal, &c.lease) {
        put(out, b"'[+region=")?;
        put(out, home.as_slice())?;
        return put(out, b"]'");
    }
    put_counts(alloc, out, c.voter_constraints.as_slice())
}

fn put_lease(out: &mut Vec<u8>, lease: &Option<Bytes>) -> Result<(), Memory>
    ensures { OnOk result (out.new.items ≡ out.old.items ++ lease_text lease.now) }
{
    match lease {
        None => put(out, b"'[]'"),
        Some(home) => put_preferred(out, home),
    }
}

fn put_preferred(out: &mut Vec<u8>, home: &Bytes) -> Result<(), Memory>
    ensures { OnOk result (out.new.items ≡ out.old.items ++ lease_text (Some home.now)) }
{
    put(out, b"'[[+region=")?;
    put(out, home.as_slice())?;
    put(out, b"]]'")
}
