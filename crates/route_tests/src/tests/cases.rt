//! To which replicas requests go, by hand from the rules.
//!
//! Nodes 1, 2 and 3 stand in one region, 4, 5 and 6 in the next and 7, 8 and 9 in a third. Nodes 1, 2 and 3 vote, and
//! nodes 4 and 7 have the other replicas. A line has the table, the time that is read, the request, the gateway, its
//! hint (sequence and holder), and the nodes that are asked until none is left. A node is stopped, or answers with the
//! sequence and the holder of a lease, as `1=3.7`.

pub static CASES: &str = "\
ordinary now read 1 1.1 -> 1 2 3 4 7
ordinary now read 2 1.1 -> 2 1 3 4 7
ordinary now read 4 2.2 -> 4 2 1 3 7
ordinary now read 5 2.2 -> 2 1 3 4 7
ordinary now read 3 2.7 -> 3 7 1 2 4
ordinary now refresh 2 1.1 -> 2 1 3 4 7
ordinary now put 2 2.3 -> 3 1 2 4 7
ordinary now push-reader 2 2.3 -> 3 1 2 4 7
ordinary now push-writer 2 2.3 -> 3 1 2 4 7
ordinary now commit 2 2.3 -> 3 1 2 4 7
ordinary now abort 4 1.1 -> 1 2 3 4 7
ordinary now resolve 4 1.1 -> 1 2 3 4 7
ordinary now put 2 2.9 -> 1 2 3 4 7
global now read 2 1.1 -> 2 1 3 4 7
global now read 2 2.7 -> 2 1 3 7 4
global now read 5 1.1 -> 4 1 2 3 7
global now refresh 8 2.3 -> 7 3 1 2 4
global now put 5 2.3 -> 3 1 2 4 7
ordinary past read 5 1.1 -> 4 1 2 3 7
ordinary past read 1 2.3 -> 1 2 3 4 7
global past read 9 2.2 -> 7 2 1 3 4
ordinary now read 5 1.1 -> 1=3.3 3=3.3 2 4 7
ordinary now read 5 1.1 -> 1=2.3 3 2 4 7
ordinary now put 5 1.1 -> 1=3.7 7=2.2 2=3.7 3 4
ordinary now put 2 1.1 -> 1=2.2 2=2.2 3 4 7
ordinary now put 2 1.1 -> 1=2.3 3=1.1 2=4.7 4=5.7 7
ordinary now put 1 1.1 -> 1=2.3 2=2.3 3 4 7
ordinary now read 1 3.2 -> 1=2.3 2=3.2 3 4 7
global now read 5 1.1 -> 4=1.1 1 2 3 7
global now read 5 1.1 -> 4=2.3 3=2.3 1 2 7
ordinary now put 5 1.1 -> 1=2.9 2 3 4 7";
