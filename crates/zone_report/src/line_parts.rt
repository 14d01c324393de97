//! Parts of lines.

ghost use Rattle.std.specs.Prelude.{◌≡◌, ◌++◌, codes, decimal, OnOk};
ghost use Rattle.std.specs.List.{flat_map};
ghost use Rattle.std.specs.Option.{option_copied};
ghost use Rattle.zone_report.specs.Report.{node_text, nodes_text, partition_text, placement_text};

use mr_base::{Bytes, Memory, NodeId};
use placement::Placement;
use std::alloc::Global;

pub(crate) fn put(out: &mut Vec<u8>, text: &[u8]) -> Result<(), Memory>
    ensures { OnOk result (out.new.items ≡ out.old.items ++ text.now) }
{
    out.extend_from_slice(text)?;
    Ok(())
}

pub(crate) fn put_number(alloc: Global, out: &mut Vec<u8>, number: u32) -> Result<(), Memory>
    ensures { OnOk result (out.new.items ≡ out.old.items ++ decimal number) }
{
    let digits = number.to_string(alloc)?;
    put(out, digits.as_bytes())
}

fn put_node(alloc: Global, out: &mut Vec<u8>, node: NodeId) -> Result<(), Memory>
    ensures { OnOk result (out.new.items ≡ out.old.items ++ node_text node) }
{
    put(out, b"n")?;
    put_number(alloc, out, node.0)
}

fn put_more(alloc: Global, out: &mut Vec<u8>, nodes: &[NodeId]) -> Result<(), Memory>
    ensures { OnOk result (out.new.items ≡ out.old.items ++ flat_map (λ n. codes " " ++ node_text n) nodes.now) }
{
    for node in nodes {
        put(out, b" ")?;
        put_node(alloc, out, *node)?;
    }
    Ok(())
}

fn put_nodes(alloc: Global, out: &mut Vec<u8>, nodes: &[NodeId]) -> Result<(), Memory>
    ensures { OnOk result (out.new.items ≡ out.old.items ++ nodes_text nodes.now) }
{
    let Some((first, more)) = nodes.split_first() else {
        return put(out, b"-");
    };
    put_node(alloc, out, *first)?;
    put_more(alloc, out, more)
}

/// Where a range is placed.
pub(crate) fn put_placement(
    alloc: Global,
    out: &mut Vec<u8>,
    placement: &Placement,
) -> Result<(), Memory>
    ensures { OnOk result (out.new.items ≡ out.old.items ++ placement_text placement.now) }
{
    let voters = placement.voters.as_slice();
    put(out, b"  voters ")?;
    put_nodes(alloc, out, voters)?;
    put(out, b", others ")?;
    put_nodes(alloc, out, placement.others.as_slice())?;
    put(out, b", lease ")?;
    put_nodes(alloc, out, &voters[..voters.len().min(1)])
}

pub(crate) fn put_partition(out: &mut Vec<u8>, partition: Option<&Bytes>) -> Result<(), Memory>
    ensures { OnOk result (out.new.items ≡ out.old.items ++ partition_text (option_copied partition.entry)) }
{
    match partition {
        None => Ok(()),
        Some(region) => {
            put(out, b"@")?;
            put(out, region.as_slice())
        }
    }
}
