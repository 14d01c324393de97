//! What the lines before `begin` say.

use super::{SETUP, read_behind};
use mr_base::{NodeId, Settings};
use scenario::{Line, standard_settings};
use std::alloc::Global;

/// The settings of the line behind those of `head`, where it is one of a cluster.
fn settings_of(alloc: Global, line: &[u8]) -> Option<Settings> {
    match read_behind(alloc, false, b"", line) {
        Ok(Line::Cluster(settings)) => Some(settings),
        _ => None,
    }
}

/// The settings as numbers: the offset, the lease, the lag, the lead and the expiration.
fn numbers(settings: Settings) -> [u64; 5] {
    [
        settings.max_offset,
        settings.lease,
        settings.lag,
        settings.lead,
        settings.expire,
    ]
}

const CLUSTERS: [(&[u8], [u64; 5]); 2] = [
    (b"cluster", [500, 6000, 3000, 800, 5000]),
    (b"cluster max_offset 1 lag 3 expire 0", [1, 6000, 3, 800, 0]),
];

#[test]
fn clusters_say(rt: HostRuntime) {
    for (line, wanted) in CLUSTERS {
        let said = settings_of(rt.alloc(), line).map(numbers);
        assert!(rt; said == Some(wanted), "{line:?}");
    }
}

#[test]
fn a_plain_cluster_says_the_standard(rt: HostRuntime) {
    let said = settings_of(rt.alloc(), b"cluster").map(numbers);
    assert!(rt; said == Some(numbers(standard_settings())));
}

/// Whether the line is read as that of node 3 in region eu-1 and zone z.
fn is_third_node(alloc: Global, line: &[u8]) -> bool {
    match read_behind(alloc, false, SETUP, line) {
        Ok(Line::Node(info, clock)) => {
            info.id == NodeId(3)
                && info.region.as_slice() == b"eu-1".as_slice()
                && info.zone.as_slice() == b"z".as_slice()
                && clock == 1234
        }
        _ => false,
    }
}

#[test]
fn nodes_say(rt: HostRuntime) {
    assert!(rt; is_third_node(rt.alloc(), b"node n3 eu-1 z 1234"));
}

/// Whether a `sql` line before `begin` has this statement.
fn is_statement(alloc: Global, line: &[u8], statement: &[u8]) -> bool {
    match read_behind(alloc, false, SETUP, line) {
        Ok(Line::Sql(text)) => text.as_slice() == statement,
        _ => false,
    }
}

#[test]
fn statements_say(rt: HostRuntime) {
    assert!(rt; is_statement(rt.alloc(), b"sql  USE d ", b" USE d "));
}
