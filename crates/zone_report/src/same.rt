//! Whether a statement left a database or a locality as it was.

ghost use Rattle.std.specs.Prelude.{◌≡◌, IsTrue};

use descriptors::Database;
use mr_base::Bytes;
use region_sql::{Goal, Locality};

/// Whether two databases are the same.
pub(crate) fn is_same_database(a: &Database, b: &Database) -> bool
    ensures { IsTrue result → a.now ≡ b.now }
{
    if !is_same_text(&a.name, &b.name) {
        return false;
    }
    if !are_same_texts(a.regions.as_slice(), b.regions.as_slice()) {
        return false;
    }
    if a.primary != b.primary {
        return false;
    }
    if !is_same_goal(a.goal, b.goal) {
        return false;
    }
    a.restricted == b.restricted
}

/// Whether two localities are the same.
pub(crate) fn is_same_locality(a: &Option<Locality>, b: &Option<Locality>) -> bool
    ensures { IsTrue result → a.now ≡ b.now }
{
    match (a, b) {
        (None, None) => true,
        (Some(Locality::InPrimary), Some(Locality::InPrimary)) => true,
        (Some(Locality::ByRow), Some(Locality::ByRow)) => true,
        (Some(Locality::Global), Some(Locality::Global)) => true,
        (Some(Locality::InRegion { region: a }), Some(Locality::InRegion { region: b })) => {
            is_same_text(a, b)
        }
        _ => false,
    }
}

fn is_same_goal(a: Goal, b: Goal) -> bool
    ensures { IsTrue result → a ≡ b }
{
    a == b
}

fn is_same_text(a: &Bytes, b: &Bytes) -> bool
    ensures { IsTrue result → a.now ≡ b.now }
{
    *a == *b
}

fn are_same_texts(a: &[Bytes], b: &[Bytes]) -> bool
    ensures { IsTrue result → a.now ≡ b.now }
{
    *a == *b
}
