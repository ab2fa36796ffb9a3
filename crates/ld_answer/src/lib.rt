//! What the words of a command line are answered: a text and maybe a file, or a refusal. Nothing is written here.
#![tactic(auto)]

mod answer;
mod help;
mod indices;
mod laws;
mod name;
mod outcome;
mod plan;
mod refusal;
mod rehearsal;
mod stripe;
mod test_file;
mod text;

pub use answer::{Answer, NamedFile};
pub use laws::{one_answer, rate_tests_read_back};
pub use name::name_of;
pub use outcome::answer_of;
pub use refusal::Refusal;
pub use text::full_line;
