//! Scenarios whose users begin one iteration after another, as the pool's machine sees them: what such a scenario would do
//! next at a reading, and what an act does to it.
#![tactic(auto)]

mod fault;
mod iters_part;
mod iters_state;
mod laws;
mod next_items;
mod owned;
mod shared_iters;
mod slot_iters;
mod work;

pub use fault::ExecFault;
pub use iters_part::{IterKind, ItersPart};
pub use iters_state::ItersState;
pub use laws::shown;
pub use shared_iters::SharedIters;
pub use slot_iters::SlotIters;
