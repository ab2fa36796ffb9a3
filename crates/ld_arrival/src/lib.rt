//! Arrivals: how many a test plans, when each is due, and which of them one position owns.
#![tactic(auto)]

mod arrivals;
mod constant_rate;
mod fault;
mod laws;
mod limits;
mod ramp;
mod ramp_stage;
mod ramping_rate;
mod rates;
mod ticker;

pub use arrivals::Arrivals;
pub use fault::ArrivalFault;
pub use laws::{
    ends_within, in_owned, in_schedule, moments_rise, owned_count, owned_once, planned_first,
};
pub use ticker::Ticker;
