//! The seating of a scenario's users on its slots, as the pool's machine sees it: which slots are vacant, whose
//! users are idle, and who has which slot.
#![tactic(auto)]

mod seating;
mod seats;
mod which;

pub use seating::Seating;
pub use which::Which;
