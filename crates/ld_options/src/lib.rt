//! Options: what a test asks for.
#![tactic(auto)]

mod constant_arrivals;
mod constant_users;
mod document;
mod executor;
mod fault;
mod fields;
mod iterations;
mod kind;
mod laws;
mod member;
mod options;
mod ramping_arrivals;
mod scenario;
mod scenarios;
mod stages;
mod times;
mod users;

pub use executor::Executor;
pub use fault::OptionsFault;
pub use laws::one_meaning;
pub use options::Options;
pub use scenario::Scenario;
pub use scenarios::Scenarios;
