//! One scenario at an arrival rate, as the pool's machine sees it: what it would do next at a reading,
//! and what an act does to it.
#![tactic(auto)]

mod fault;
mod laws;
mod open_arrivals;
mod rates_part;
mod rates_state;

pub use fault::ExecFault;
pub use laws::{distinct_items, may_be_told, shown, shown_numbers};
pub use rates_part::RatesPart;
pub use rates_state::RatesState;
