//! Searches through one to sixteen partitions, with the hit in each place and in none.

use super::{BY_ROW, asked, search_of};
use crate::tests::made_tables::catalog_with;
use descriptors::Catalog;
use local_search::RowSearch;
use std::alloc::Global;
use std::test::Fail;

/// The ranges of so many partitions in the order of a search: the near one, then the others as they stand.
fn order(alloc: Global, regions: u32, near: u32) -> Result<Vec<u32>, Fail> {
    let mut ranges = vec![in alloc; near]?;
    for range in 1..regions.saturating_add(1) {
        if range != near {
            ranges.push(range)?;
        }
    }
    Ok(ranges)
}

/// Whether a search asks the ranges in this order up to the hit, which it finds.
fn ends_at_the_hit(
    alloc: Global,
    search: &RowSearch,
    order: &[u32],
    hit: u32,
) -> Result<bool, Fail> {
    let (ranges, pairs) = asked(alloc, search, hit)?;
    Ok(match order.iter().position(|range| *range == hit) {
        None => ranges.as_slice() == order && pairs == 0,
        Some(place) => order.strip_prefix(ranges.as_slice()).is_some_and(|rest| {
            ranges.last() == Some(&hit) && rest.len().saturating_add(place) < order.len()
        }) && pairs == 1,
    })
}

/// Whether each search of a row by its key from the gateway in this region ends at the hit.
fn each_hit_is_found(alloc: Global, regions: u8, near: u8) -> Result<bool, Fail> {
    let catalog = catalog_with(alloc, regions, BY_ROW)?;
    let gateway = [b'a'.saturating_add(near)];
    let search = search_of(alloc, &catalog, &gateway, "SELECT * FROM t WHERE id = 7")?;
    let order = order(alloc, u32::from(regions), u32::from(near).saturating_add(1))?;
    for hit in 0..u32::from(regions) + 1 {
        if !ends_at_the_hit(alloc, &search, &order, hit)? {
            return Ok(false);
        }
    }
    Ok(true)
}

#[test]
fn the_near_partition_comes_first(rt: HostRuntime) -> Result<(), Fail> {
    for regions in 1..17 {
        for near in 0..regions {
            assert!(rt;
                each_hit_is_found(rt.alloc(), regions, near)?,
                "{near} of {regions}"
            );
        }
    }
    Ok(())
}

/// Whether a search from a gateway asks these ranges for a row that lives in the second region.
fn asks_for_a_row_in_two(
    alloc: Global,
    catalog: &Catalog,
    gateway: &[u8],
    ranges: &[u32],
) -> Result<bool, Fail> {
    let search = search_of(alloc, catalog, gateway, "SELECT * FROM t WHERE id = 7")?;
    let (found, _) = asked(alloc, &search, 2)?;
    Ok(found.as_slice() == ranges)
}

/// A row lives in the second of two regions. A gateway there asks its own partition alone, and one in the
/// first region asks both.
#[test]
fn a_near_row_is_found_at_once(rt: HostRuntime) -> Result<(), Fail> {
    let catalog = catalog_with(rt.alloc(), 2, BY_ROW)?;
    assert!(rt; asks_for_a_row_in_two(rt.alloc(), &catalog, b"b", &[2])?);
    assert!(rt; asks_for_a_row_in_two(rt.alloc(), &catalog, b"a", &[1, 2])?);
    Ok(())
}
