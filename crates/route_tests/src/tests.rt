mod cases;
mod hints;
mod journeys;
mod regions;
mod words;

use cases::CASES;
use hints::are_learned;
use journeys::goes_as_said;
use regions::has_nodes;
use std::test::Fail;

#[test]
fn replicas_are_asked_in_turn(rt: HostRuntime) -> Result<(), Fail> {
    let alloc = rt.alloc();
    for line in CASES.lines() {
        assert!(rt; goes_as_said(alloc, line)?, "{line}");
    }
    Ok(())
}

#[test]
fn hints_follow_leases(rt: HostRuntime) -> Result<(), Fail> {
    assert!(rt; are_learned(rt.alloc())?);
    Ok(())
}

#[test]
fn regions_have_their_nodes(rt: HostRuntime) -> Result<(), Fail> {
    let alloc = rt.alloc();
    let cases = [
        ("us-east", 0b10001),
        ("us-west", 1 << 63 | 0b10),
        ("eu-west", 0),
    ];
    for (region, nodes) in cases {
        assert!(rt; has_nodes(alloc, region, nodes)?, "{region}");
    }
    Ok(())
}
