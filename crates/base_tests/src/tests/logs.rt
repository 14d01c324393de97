//! What may want memory, with ample memory.

use mr_base::{AttemptId, Bytes, CloneIn, RangeId, Ts};
use range_log::{Entry, RetryCause};
use std::test::Fail;

#[test]
fn entries_and_causes_are_copied(rt: HostRuntime) -> Result<(), Fail> {
    let alloc = rt.alloc();
    let put = Entry::Put {
        attempt: AttemptId(1),
        start: Ts::ZERO,
        anchor: RangeId(1),
        ts: Ts::ZERO,
        key: Bytes::from_slice(alloc, b"k")?,
        value: Some(Bytes::from_slice(alloc, b"v")?),
    };
    assert!(rt; put.clone_in(alloc).is_ok());
    let cause = RetryCause::Uncertain {
        key: Bytes::from_slice(alloc, b"k")?,
        ts: Ts::ZERO,
    };
    assert!(rt; cause.clone_in(alloc).is_ok());
    Ok(())
}
