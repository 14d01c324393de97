//! Databases and tables, as the catalog keeps them.
#![tactic(auto)]

mod catalog;
mod changes;
mod checks;
mod columns;
mod database;
mod laws;
mod lists;
mod made;
mod refusals;
mod rules;
mod store;
mod table;

pub use catalog::Catalog;
pub use database::Database;
pub use laws::new_names_are_utf8;
pub use refusals::CatalogRefusal;
pub use table::Table;
