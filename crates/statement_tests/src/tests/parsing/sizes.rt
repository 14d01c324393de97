//! The fronts of a statement, lists of the largest size and integers of the most digits.

use super::{MANY, OK, place_in_list};
use std::alloc::Global;
use std::test::Fail;

/// One statement, and where each of its fronts is refused.
const LONG: &[u8] = b"UPDATE t SET a = b -5, c = 'x''y' WHERE d <> \"e f\" AND g = TRUE;";

const PLACES: [usize; 65] = [
    0, 0, 0, 0, 0, 0, 6, 6, 8, 8, 8, 8, 12, 12, 14, 14, 16, 16, OK, OK, 20, OK, 22, 22, 24, 24, 26,
    26, 26, 26, OK, 26, 26, OK, OK, 33, 33, 33, 33, 39, 39, 41, 41, 43, 44, 44, 44, 44, 44, 44, 44,
    44, 44, 44, 44, 44, 44, 44, 44, 44, 44, 44, 44, 44, 44,
];

#[test]
fn fronts(rt: HostRuntime) {
    for (len, place) in PLACES.iter().enumerate() {
        let front = LONG.get(..len).unwrap_or(LONG);
        assert_eq!(rt; place_in_list(rt.alloc(), front), *place);
    }
}

/// 64 statements are a list, and 65 are too many.
#[test]
fn sizes(rt: HostRuntime) -> Result<(), Fail> {
    let mut text = Vec::new(rt.alloc());
    for _ in 0..64 {
        text.extend_from_slice(b"DELETE FROM t;")?;
    }
    assert_eq!(rt; place_in_list(rt.alloc(), &text), OK);
    text.extend_from_slice(b"SELECT*FROM t")?;
    assert_eq!(rt; place_in_list(rt.alloc(), &text), MANY);
    text.extend_from_slice(b"x y")?;
    assert_eq!(rt; place_in_list(rt.alloc(), &text), 64 * 14 + 14);
    Ok(())
}

fn with_sevens(alloc: Global, head: &[u8], count: usize) -> Result<Vec<u8>, Fail> {
    let mut text = head.to_vec(alloc)?;
    for _ in 0..count {
        text.push(b'7')?;
    }
    Ok(text)
}

/// An integer ends after 30 digits, however many follow.
#[test]
fn digits(rt: HostRuntime) -> Result<(), Fail> {
    let heads: [(&[u8], usize); 3] = [
        (b"SELECT * FROM t WHERE a = ", 56),
        (b"SELECT * FROM t WHERE a = -", 57),
        (b"UPDATE t SET a = b -", 50),
    ];
    for (head, place) in heads {
        for count in [1, 30, 31, 60, 61, 5_000] {
            let text = with_sevens(rt.alloc(), head, count)?;
            let expected = if count > 30 { place } else { OK };
            assert_eq!(rt; place_in_list(rt.alloc(), &text), expected);
        }
    }
    Ok(())
}
