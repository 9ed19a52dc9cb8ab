//! Tests of the hub in memory, and of rows of a session over it.
#![tactic(auto)]

mod row_tables;
mod rows;

pub use row_tables::{PUBLISHING, SUBSCRIBING, TURNING};
pub use rows::{RowStep, new_tables, wrong_row};

#[cfg(test)]
mod over_memory;
