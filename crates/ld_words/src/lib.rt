//! The words of a command line: what they ask for, or the place at which they are refused.
#![tactic(auto)]

mod fault;
mod form;
mod given;
mod laws;
mod meaning;
mod number;
mod option;
mod options;
mod rate_test;
mod reader;
mod syntax;
mod taken;
mod value;
mod weights;
mod words;

pub use fault::WordsFault;
pub use laws::{form_of_words, one_meaning};
pub use rate_test::rate_test_text;
pub use weights::Weights;
pub use words::{Words, read_words};
