//! Sets of numbers below a limit, kept in bit words, and tables of moments by number.
#![tactic(auto)]

mod moment_table;
mod number_set;

pub use moment_table::MomentTable;
pub use number_set::NumberSet;
