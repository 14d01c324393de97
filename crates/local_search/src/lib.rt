//! Searches through the partitions of a table, the near one first.
#![tactic(auto)]

mod fixed_values;
mod index_columns;
mod key_lookups;
mod lookups;
mod row_searches;
mod row_values;
mod search;
mod search_laws;
mod table_partitions;
mod typed_terms;

pub use key_lookups::{changed_row_lookups, new_row_lookups};
pub use lookups::{Lookup, asks};
pub use row_searches::{RowSearch, led_to, row_search};
pub use search::Search;
pub use search_laws::{near_first_is_full, search_is_as_defined};
pub use table_partitions::{Partition, partitions};
pub use typed_terms::are_typed;
