//! Striping: which position of a sequence owns each index of a test.
#![tactic(auto)]

mod fault;
mod laws;
mod pattern;
mod segmented_index;
mod stripe;
mod weights;

pub use fault::StripeFault;
pub use laws::{
    every_period, one_form, one_owner, one_place, one_striping, rescaled_shares, shares,
    whole_shares,
};
pub use segmented_index::SegmentedIndex;
pub use stripe::Stripe;
