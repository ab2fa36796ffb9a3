//! JSON documents (RFC 8259): what a text holds, each value with its path (RFC 6901).
#![tactic(auto)]

mod doc;
mod fault;
mod known;
mod node;
mod parts;
mod path;
mod whole;

pub use doc::Doc;
pub use fault::JsonFault;
pub use known::is_one_of;
pub use node::Node;
pub use path::Path;
