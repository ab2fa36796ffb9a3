//! Scripts: what a virtual user does in one iteration.
#![tactic(auto)]

mod address;
mod counter;
mod draft;
mod fault;
mod fields;
mod kind;
mod laws;
mod members;
mod name;
mod names;
mod range;
mod reading;
mod script;
mod scripts;
mod step;
mod times;

pub use address::{Address, AddressFault, read_address};
pub use fault::ScriptFault;
pub use fields::{number, ranged, text_given, whole_given};
pub use laws::{one_number, one_reading, one_refusal};
pub use name::is_name;
pub use names::Names;
pub use range::Range;
pub use script::Script;
pub use scripts::Scripts;
pub use step::Step;
pub use times::{SPANS, time};
