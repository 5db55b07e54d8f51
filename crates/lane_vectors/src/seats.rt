//! Tests of seat_table: two paths in a thread each, over a table in memory.
mod memory;
mod paths;
