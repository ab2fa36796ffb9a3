//! Rehearsals: what one thread plays of a plan in virtual time, with iterations of one length.
#![tactic(auto)]

mod due;
mod fault;
mod full;
mod play;
mod stage;

pub use fault::RehearsalFault;
pub use full::FullJournal;
pub use play::{Rehearsed, rehearse};
