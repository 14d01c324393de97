//! Digits as integers.

ghost use Rattle.std.specs.Prelude.{◌≡◌, ℕ, ◌<◌, ◌≤◌, ◌^◌, true, length, slice_index, pos, ◌≤ℤ◌};
ghost use Rattle.std.specs.Char.{is_ascii_digit};
ghost use Rattle.region_sql.specs.Lexing.{number_of, digit_count, digits_at};

use crate::byte_classes::{ByteClass, run_len};

/// The most digits that an integer has.
const MOST_DIGITS: usize = 30;

/// What digits stand for.
fn number_of(digits: &[u8]) -> u128
    requires few { length digits.now ≤ 30 }
    requires digits { (k : ℕ) → k < length digits.now → is_ascii_digit (slice_index digits.now k) ≡ true }
    ensures value { result ≡ number_of digits.now }
    ensures bound { result < 10 ^ 30 }
{
    let mut number: u128 = 0;
    for digit in digits {
        number = 10 * number + u128::from(*digit - b'0');
    }
    number
}

/// How many digits the integer at the front has. It looks no further than the most that it may have,
/// so that a long run of digits takes time in proportion to its length.
fn digit_count(bytes: &[u8]) -> usize
    ensures value { result ≡ digit_count bytes.now }
    ensures within { result ≤ length bytes.now }
{
    let (front, _) = bytes.split_at(bytes.len().min(MOST_DIGITS));
    run_len(ByteClass::Digit, front)
}

/// The integer at the front, of all the digits that there are but at most 30, and what follows it.
#[tactic(auto, unfolding(crate::specs::Lexing::digits_at))]
pub(crate) fn digits_at(bytes: &[u8]) -> (i128, &[u8])
    ensures value { (result.0, result.1.now) ≡ digits_at bytes.now }
    ensures low { pos 0 ≤ℤ result.0 }
{
    let (digits, rest) = bytes.split_at(digit_count(bytes));
    (number_of(digits) as i128, rest)
}
