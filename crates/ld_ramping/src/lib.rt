//! Ramping users: in which intervals each of them is on; and a scenario of them, as the pool's machine sees it: what it
//! would do next at a reading, and what an act does to it.
#![tactic(auto)]

mod examples;
mod fault;
mod interval;
mod laws;
mod owned;
mod ramp;
mod ramping_part;
mod ramping_state;
mod slot;
mod standing;
mod turn_places;

pub use examples::{worked_counts, worked_ramps};
pub use fault::ExecFault;
pub use interval::{Interval, Intervals};
pub use laws::{end_in_time, first_ones, intervals_rise, none_beyond, shown};
pub use ramp::intervals;
pub use ramping_part::RampingPart;
pub use ramping_state::RampingState;
pub use slot::{Slot, Slots};
