//! Why a statement on the catalog is refused.

ghost use Rattle.std.specs.Prelude.{◌≡◌};

use mr_base::{Memory, SqlState};

/// Why the catalog refuses a statement. Source of the states: PostgreSQL's list; of the numbers: this
/// project's profile.
#[derive(Clone, Copy)]
pub enum CatalogRefusal {
    /// A database or a table is missing, or is there already.
    State(SqlState),
    /// A rule of databases with regions: 1 to 9, and 11.
    D(u8),
    /// Memory ran out.
    Memory,
}

impl From<Memory> for CatalogRefusal {
    ghost use Rattle.descriptors.specs.declared.refusals.CatalogRefusal.TheVariants as refusal;

    ghost from_gives = { λ _ r. r ≡ refusal.Memory };

    fn from(_memory: Memory) -> CatalogRefusal {
        CatalogRefusal::Memory
    }
}
