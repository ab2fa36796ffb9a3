//! The virtual users of an instance: which are free, held by a scenario, or busy.
#![tactic(auto)]

mod busy;
mod fault;
mod laws;
mod pool;
mod user;

pub use busy::Busy;
pub use fault::PoolFault;
pub use laws::{
    changes_are_counted, none_is_free, numbered_from_one, one_changes, one_grows, taken_back,
    users_are_counted,
};
pub use pool::Pool;
pub use user::User;
