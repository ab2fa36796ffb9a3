//! One face of a scenario's state, whichever its executor is.
#![tactic(auto)]

mod executor_state;
mod fault;
mod laws;
mod opening;

pub use executor_state::ExecutorState;
pub use fault::ExecutorFault;
pub use laws::shown;
