//! A cache of two spans.

use mr_base::{Bytes, Memory, Span, Ts};
use std::alloc::Global;
use std::test::Fail;
use ts_cache::TsCache;

fn at(wall: u64, owner: u32) -> Ts {
    Ts {
        wall,
        logical: 0,
        owner,
    }
}

/// The keys from one byte up to and without another.
fn span(alloc: Global, lo: u8, hi: u8) -> Result<Span, Memory> {
    let lo = Bytes::from_slice(alloc, &[lo])?;
    let hi = Bytes::from_slice(alloc, &[hi])?;
    Ok(Span { lo, hi })
}

fn high(alloc: Global, cache: &TsCache, key: u8) -> Result<Ts, Memory> {
    let point = Span {
        lo: Bytes::from_slice(alloc, &[key])?,
        hi: Bytes::from_slice(alloc, &[key, 0])?,
    };
    Ok(cache.high(&point))
}

#[test]
fn the_oldest_span_goes_into_low(rt: HostRuntime) -> Result<(), Fail> {
    let alloc = rt.alloc();
    let mut cache = TsCache::new(alloc, Ts::ZERO, 2)?;
    let reads = [
        (0x10, 0x20, at(5, 1)),
        (0x30, 0x40, at(7, 2)),
        (0x50, 0x60, at(6, 3)),
    ];
    for (lo, hi, ts) in reads {
        cache.add(&span(alloc, lo, hi)?, ts)?;
    }
    assert!(rt; cache.low() == at(5, 1));
    for (key, ts) in [(0x10, at(5, 1)), (0x30, at(7, 2)), (0x70, at(5, 1))] {
        assert!(rt; high(alloc, &cache, key)? == ts);
    }
    assert!(rt; cache.top() == at(7, 2));
    Ok(())
}

#[test]
fn a_span_that_is_added_again_is_the_youngest(rt: HostRuntime) -> Result<(), Fail> {
    let alloc = rt.alloc();
    let mut cache = TsCache::new(alloc, Ts::ZERO, 2)?;
    let point = Span {
        lo: Bytes::from_slice(alloc, &[0x30])?,
        hi: Bytes::from_slice(alloc, &[0x30, 0])?,
    };
    cache.add(&point, at(7, 2))?;
    cache.add(&span(alloc, 0x50, 0x60)?, at(6, 3))?;
    cache.add(&point, at(4, 4))?;
    cache.add(&span(alloc, 0x70, 0x80)?, at(3, 5))?;
    assert!(rt; cache.low() == at(6, 3));
    for (key, ts) in [(0x30, at(7, 2)), (0x50, at(6, 3)), (0x70, at(6, 3))] {
        assert!(rt; high(alloc, &cache, key)? == ts);
    }
    Ok(())
}
