//! Rows as pairs of key and value, and the spans that hold them.
#![tactic(auto)]

mod decode_fault;
mod decoding;
mod key_laws;
mod key_parts;
mod key_reading;
mod one_column_rows;
mod reading;
mod reading_laws;
mod reshaping;
mod row_pairs;
mod row_spans;
mod row_values;

pub use decode_fault::DecodeFault;
pub use decoding::{decode, primary_of};
pub use key_laws::{
    all_rows_are_the_primary_keys, equal_keys_have_equal_values, keys_order_as_values,
    no_key_begins_another, point_holds_one_key,
};
pub use one_column_rows::{one_column_point, one_column_row, one_column_span, one_column_value};
pub use reading_laws::{what_is_read_is_spelled, what_is_spelled_is_read};
pub use reshaping::reshape;
pub use row_pairs::{encode, index_pairs};
pub use row_spans::{all_rows, point, unique_span};
