//! Rows of one INT as their bytes stand, with ample memory.

use row_locality::{one_column_point, one_column_row, one_column_span};
use std::test::Fail;

/// An INT, its key and its value.
const ROWS: [(i64, &[u8], &[u8]); 3] = [
    (
        -1,
        b"\x00\x7f\xff\xff\xff\xff\xff\xff\xff",
        b"\x01\xff\xff\xff\xff\xff\xff\xff\xff",
    ),
    (
        0,
        b"\x00\x80\x00\x00\x00\x00\x00\x00\x00",
        b"\x01\x00\x00\x00\x00\x00\x00\x00\x00",
    ),
    (
        258,
        b"\x00\x80\x00\x00\x00\x00\x00\x01\x02",
        b"\x01\x00\x00\x00\x00\x00\x00\x01\x02",
    ),
];

#[test]
fn rows_are_laid_out(rt: HostRuntime) -> Result<(), Fail> {
    let alloc = rt.alloc();
    for (n, key, value) in ROWS {
        let row = one_column_row(alloc, n)?;
        assert!(rt; row.key.as_slice() == key);
        assert!(rt; row.value.as_slice() == value);
        let point = one_column_point(alloc, n)?;
        assert!(rt; point.lo.as_slice() == key);
        assert!(rt; point.hi.as_slice().strip_prefix(key) == Some(b"\x00".as_slice()));
    }
    let all = one_column_span(alloc)?;
    assert!(rt; all.lo.as_slice() == b"\x00".as_slice());
    assert!(rt; all.hi.as_slice() == b"\x01".as_slice());
    Ok(())
}
