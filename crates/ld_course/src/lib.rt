//! The course of a scenario: when it runs, and what stops it, whichever its executor is.
#![tactic(auto)]

mod choice;
mod course;
mod level;

pub use choice::chosen;
pub use course::{Course, above};
pub use level::Level;
