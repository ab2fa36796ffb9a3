use ld_base::{Bytes, Text};
use ld_rehearsal::FullJournal;

/// A file that a command writes.
#[derive(Drop)]
pub struct NamedFile {
    /// Its name, in UTF-8.
    pub name: Text,
    /// All of its bytes.
    pub bytes: Bytes,
}

/// What the words of a command line ask for, before any of it is written.
#[derive(Drop)]
pub struct Answer {
    /// The file that the command writes, if it writes one.
    pub file: Option<NamedFile>,
    /// The text for standard output.
    pub text: Text,
    /// The first place at which the journal had no room, if there was one.
    pub full: Option<FullJournal>,
}

impl Answer {
    ghost use Rattle.std.specs.Prelude.{◌≡◌};
    ghost use Rattle.ld_answer.specs.Answer.{text_alone};

    /// The answer that is a text alone.
    pub fn of_text(text: Vec<u8>) -> Answer
        ensures { result ≡ text_alone text.items }
    {
        Answer {
            file: None,
            text: Text::of(text),
            full: None,
        }
    }
}
