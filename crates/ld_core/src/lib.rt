//! The core of the user pool: one ask is one step of the machine.
#![tactic(auto)]

mod act;
mod changes;
mod fault;
mod first;
mod laws;
mod machine;
mod opening;
mod room;

pub use crate::machine::Core;
pub use fault::CoreFault;
pub use laws::every_run;
