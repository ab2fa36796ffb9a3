//! A pool's history as text: the journal, version 1.
//!
//! `specs/Journal.antt` says the text of a journal, line by line.
#![tactic(auto)]

mod act;
mod entry;
mod fault;
mod header;
mod journal;
mod laws;

pub use fault::JournalFault;
pub use header::Header;
pub use journal::write;
pub use laws::{arrival_dropped_text, lines_counted};
