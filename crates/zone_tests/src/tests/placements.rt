//! Placements of the worked examples, and `place` beside a search over all choices on many layouts.

ghost use Rattle.zone_compile.specs.Configuration.{HasForm};
ghost use Rattle.placement.specs.Fitting.{ServeFor};

use super::layouts::{Draws, Kind, NINE, config, layout, nodes, regions_of};
use mr_base::{ListOf, Memory, NodeId, NodeInfo};
use placement::{PlaceRefusal, Placement, fits, place, serve_for};
use region_sql::Goal;
use std::alloc::Global;
use std::test::Fail;
use zone_compile::{ZoneConfig, is_form};

/// What a node is in a choice: nothing, a voter or another replica.
fn role(choice: u32, place: usize) -> u32 {
    let mut rest = choice;
    for _ in 0..place {
        rest /= 3;
    }
    rest % 3
}

/// The nodes with a role in a choice, those of the home region first.
fn chosen(
    alloc: Global,
    c: &ZoneConfig,
    nodes: &[NodeInfo],
    choice: u32,
    wanted: u32,
) -> Result<ListOf<NodeId>, Memory> {
    let mut ids = ListOf::new(alloc);
    for at_home in [true, false] {
        for (place, node) in nodes.iter().enumerate() {
            let is_home = match &c.lease {
                Some(home) => node.region == *home,
                None => false,
            };
            if is_home == at_home && role(choice, place) == wanted {
                ids.push(node.id)?;
            }
        }
    }
    Ok(ids)
}

/// How many choices there are.
fn count_choices(nodes: &[NodeInfo]) -> u32 {
    let mut choices = 1u32;
    for _ in nodes {
        choices = choices.saturating_mul(3);
    }
    choices
}

/// Whether some choice of voters and other replicas fits.
fn some_choice_fits(alloc: Global, c: &ZoneConfig, nodes: &[NodeInfo]) -> Result<bool, Memory>
    requires form { HasForm c.now }
    requires nodes { ServeFor c.now nodes.now }
{
    for choice in 0..count_choices(nodes) {
        let voters = chosen(alloc, c, nodes, choice, 1)?;
        if voters.len() == c.num_voters as usize {
            let others = chosen(alloc, c, nodes, choice, 2)?;
            let p = Placement { voters, others };
            if fits(alloc, c, nodes, &p)? {
                return Ok(true);
            }
        }
    }
    Ok(false)
}

/// Which answer `place` gave, where it agrees with the search: how many it placed by each goal, and how
/// many it refused for each reason.
fn agrees(alloc: Global, c: &ZoneConfig, nodes: &[NodeInfo]) -> Result<Option<usize>, Memory>
    requires form { HasForm c.now }
    requires nodes { ServeFor c.now nodes.now }
{
    match place(alloc, c, nodes) {
        Ok(p) => {
            if !fits(alloc, c, nodes, &p)? {
                return Ok(None);
            }
            Ok(Some(branch(c, &p)))
        }
        Err(PlaceRefusal::Unplaceable { wanted, .. }) => {
            if some_choice_fits(alloc, c, nodes)? {
                return Ok(None);
            }
            Ok(Some(if wanted == 2 {
                5
            } else if wanted == 3 {
                6
            } else {
                7
            }))
        }
        Err(PlaceRefusal::Memory) => Err(Memory),
    }
}

/// By which branch a placement was made.
fn branch(c: &ZoneConfig, p: &Placement) -> usize {
    match c.goal {
        None => 0,
        Some(Goal::Zone) => { if c.constraints.is_empty() { 1 } else { 2 } }
        Some(Goal::Region) => {
            // of three regions one gives a second voter
            if c.constraints.len() == 3 { 3 } else { 4 }
        }
    }
}

#[test]
fn place_agrees_with_the_search(rt: HostRuntime) -> Result<(), Fail> {
    let alloc = rt.alloc();
    let mut draws = Draws(7);
    let mut met = [0u32; 8];
    for _ in 0..400 {
        let mut sites = layout(alloc, &mut draws)?;
        let regions = regions_of(alloc, sites.as_slice(), &mut draws)?;
        let place = draws.next() as usize % 6;
        let Some(home) = regions.as_slice().get(place) else {
            continue;
        };
        let kind = Kind::drawn(&mut draws, regions.len());
        let c = config(alloc, kind, regions.as_slice(), *home)?;
        for _ in 0..2 {
            let nodes = nodes(alloc, sites.as_slice())?;
            assert!(rt; is_form(&c));
            assert!(rt; serve_for(&c, nodes.as_slice()));
            let answer = agrees(alloc, &c, nodes.as_slice())?;
            assert!(rt; answer.is_some());
            if let Some(count) = met.get_mut(answer.unwrap_or(0)) {
                *count = count.saturating_add(1);
            }
            sites.reverse();
        }
    }
    // each way of placing and each refusal was met
    assert!(rt; met.iter().all(|count| *count > 0));
    Ok(())
}

/// Whether these nodes are placed so.
fn is_placed(
    alloc: Global,
    c: &ZoneConfig,
    nodes: &[NodeInfo],
    voters: &[u32],
    others: &[u32],
) -> Result<bool, Memory> {
    if !is_form(c) {
        return Ok(false);
    }
    if !serve_for(c, nodes) {
        return Ok(false);
    }
    let Ok(p) = place(alloc, c, nodes) else {
        return Ok(false);
    };
    let at = p.voters.as_slice().iter().map(|n| n.0);
    let beside = p.others.as_slice().iter().map(|n| n.0);
    Ok(at.eq(voters.iter().copied()) && beside.eq(others.iter().copied()))
}

#[test]
fn worked_examples(rt: HostRuntime) -> Result<(), Fail> {
    let alloc = rt.alloc();
    let nodes = nodes(alloc, &NINE)?;
    let cases: [(Kind, &[u32], &[u32]); 4] = [
        (Kind::Zone, &[1, 2, 3], &[4, 7]),
        (Kind::Region, &[1, 2, 4, 7, 5], &[]),
        (Kind::Restricted, &[1, 2, 3], &[]),
        (Kind::Alone, &[1], &[]),
    ];
    for (kind, voters, others) in cases {
        let c = config(alloc, kind, &[0, 1, 2], 0)?;
        assert!(rt; is_placed(alloc, &c, nodes.as_slice(), voters, others)?);
    }
    Ok(())
}
