//! The commands: words in, files, text and a status out.
#![tactic(auto)]

mod delivery;
mod desk;
mod laws;

pub use desk::{command, desk_command};
pub use laws::ends_well;
