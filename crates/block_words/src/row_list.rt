//! The rows of a block's G codes, as a list that is a value, which is kept with the words of a
//! block. What a row says is in code_tables.
use code_tables::Row;
use nc_number::ListOf;

/// The rows of the G codes of a block, in their order.
pub type RowList = ListOf<Row>;
