// Single options among the words of a command line.
ghost use Rattle.std.specs.Prelude.{◌≡◌, ◌≢◌, true, MatchOption};
ghost use Rattle.ld_words.specs.Options.{is_among, kind_of, name_text};
ghost use Rattle.ld_words.specs.OptionWords.{IsOptionWord};
ghost use Rattle.ld_words.specs.Taken.{is_flag};
ghost use Rattle.ld_words.specs.declared.option.OptionName.{OptionName};

use crate::value::ValueKind;

/// The name of an option.
#[derive(Clone, Copy, PartialEq, Eq)]
pub enum OptionName {
    /// `--segment`: a part of a test.
    Segment,
    /// `--sequence`: the points at which a test is cut.
    Sequence,
    /// `--rate`: how many iterations begin in each unit of time.
    Rate,
    /// `--unit`: the unit of time.
    Unit,
    /// `--duration`: how long a test takes.
    Duration,
    /// `--pre`: the users that are made before a test begins.
    Pre,
    /// `--max`: the greatest number of users.
    Max,
    /// `--iteration`: how long an iteration takes.
    Iteration,
    /// `--journal`: the name of a journal.
    Journal,
    /// `--entries`: how many entries a journal may have.
    Entries,
    /// `--list`: the moments of all arrivals too. It takes no value.
    List,
}

impl OptionName {
    // The name as it is written.
    pub fn text(self) -> &'static str
        ensures { result.now ≡ name_text self }
    {
        match self {
            OptionName::Segment => "--segment",
            OptionName::Sequence => "--sequence",
            OptionName::Rate => "--rate",
            OptionName::Unit => "--unit",
            OptionName::Duration => "--duration",
            OptionName::Pre => "--pre",
            OptionName::Max => "--max",
            OptionName::Iteration => "--iteration",
            OptionName::Journal => "--journal",
            OptionName::Entries => "--entries",
            OptionName::List => "--list",
        }
    }

    // The kind of its value.
    pub fn kind(self) -> ValueKind
        ensures { result ≡ kind_of self }
    {
        match self {
            OptionName::Segment | OptionName::Sequence | OptionName::Journal => ValueKind::Plain,
            OptionName::Rate | OptionName::Pre | OptionName::Max => ValueKind::Number,
            OptionName::Unit | OptionName::Duration | OptionName::Iteration => ValueKind::Span,
            OptionName::Entries => ValueKind::Entries,
            OptionName::List => ValueKind::Flag,
        }
    }

    // Whether it takes no value.
    pub fn is_flag(self) -> bool
        ensures { result ≡ is_flag self }
    {
        matches!(self.kind(), ValueKind::Flag)
    }
}

/// What a word says of an option.
#[derive(Clone, Copy)]
pub enum OptionWord<'a> {
    /// The name alone.
    Name(OptionName),
    /// The name and a value, with `=` between them.
    Joined(OptionName, &'a str),
    /// Neither.
    Other,
}

// What a word says of an option of these names.
pub fn option_word<'a>(names: &[OptionName], word: &'a str) -> OptionWord<'a>
    ensures { IsOptionWord names.now word.now result }
{
    match word.split_once('=') {
        Some((front, value)) => match name_written(names, front) {
            Some(name) => OptionWord::Joined(name, value),
            None => OptionWord::Other,
        },
        None => match name_written(names, word) {
            Some(name) => OptionWord::Name(name),
            None => OptionWord::Other,
        },
    }
}

// The one of these names that is written so.
fn name_written(names: &[OptionName], text: &str) -> Option<OptionName>
    ensures { MatchOption result
        ((n : OptionName) → is_among n names.now ≡ true → text.now ≢ name_text n)
        (λ n. (is_among n names.now ≡ true) × (text.now ≡ name_text n)) }
{
    for name in names {
        if text == name.text() {
            return Some(*name);
        }
    }
    None
}
