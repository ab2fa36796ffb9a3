//! The texts of runs and plans. The summary of a run says how many users it had, and what became of
//! the items of each scenario. The text of a plan says what an instance owns of a test.
//!
//! `specs/Summary.antt` and `specs/PlanText.antt` say them, line by line.
#![tactic(auto)]

mod counts;
mod fault;
mod laws;
mod plan_lines;
mod planned;
mod text;

pub use fault::SummaryFault;
pub use laws::settled_counts;
pub use plan_lines::plan_text;
pub use text::summary_text;
