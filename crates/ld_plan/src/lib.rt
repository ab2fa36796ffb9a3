//! Plans: what an instance owns of a test, and how many users that needs.
#![tactic(auto)]

mod executor;
mod fault;
mod laws;
mod most;
mod need;
mod owned;
mod owned_arrivals;
mod owned_items;
mod owned_iterations;
mod owned_part;
mod owned_slots;
mod part;
mod plan;
mod row;
mod stages_length;
mod stay;
mod stays;
mod striping;
mod users;

pub use fault::PlanFault;
pub use laws::{
    accepted_or_refused, items_owned_once, no_external, one_plan, one_position, one_refusal,
    requirement_owned_once, slots_owned_once, users_owned_once,
};
pub use owned_part::OwnedPart;
pub use plan::Plan;
pub use row::Row;
pub use users::Users;
