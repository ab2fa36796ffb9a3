//! Whole numbers, fractions and durations: common divisors and multiples, the order of fractions,
//! and how fractions and durations are read and printed.
#![tactic(auto)]

mod divisor;
mod duration;
mod fault;
mod fraction;
mod multiple;
mod reading;
mod tally;
mod term;

pub use divisor::gcd;
pub use duration::{print_duration, read_duration};
pub use fault::NumFault;
pub use fraction::Frac;
pub use multiple::lcm;
