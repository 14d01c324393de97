mod catalog;
mod one_column_rows;
mod one_column_statements;
mod parsing;
mod statements;
