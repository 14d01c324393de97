//! What a statement does on a plain table, and which spans it reads.
#![tactic(auto)]

mod checks;
mod columns;
mod execution;
mod listing;
mod literals;
mod naming;
mod one_column_execution;
mod one_column_tables;
mod rows;
mod statements;
mod stop;
mod terms;
mod twins;
mod values;

pub use checks::check;
pub use execution::{Executed, execute};
pub use listing::read_list;
pub use naming::{NamedTable, named_table, table_name};
pub use one_column_execution::{OneColumnExecution, execute_one_column};
pub use rows::default_region;
pub use statements::{RowChanges, delete, insert, select, update};
pub use terms::matches;
pub use twins::has_twins;
