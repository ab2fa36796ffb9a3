//! Lines of text: words joined by one space, with a line feed behind the last.
#![tactic(auto)]

mod laws;
mod word;

pub use laws::words_again;
pub use word::{Word, put_line, put_words};
