// The forms of commands: what each has, and which of them words are read by.
ghost use Rattle.std.specs.Prelude.{◌≡◌, List, map, string_bytes};
ghost use Rattle.std.specs.Borrow.{Bor};
ghost use Rattle.std.specs.List.{list_all, list_any};
ghost use Rattle.ld_words.specs.Forms.{command_of, form_read, has_one_of, is_option_word, is_option_word_at, is_word, needs_of, options_of, places_of};
ghost use Rattle.ld_words.specs.OptionWords.{given_by};
ghost use Rattle.ld_words.specs.declared.option.OptionName.{OptionName};

use crate::given::{GivenOption, value_under};
use crate::option::OptionName;
use crate::value::ValueKind;

/// A form of commands.
#[derive(Clone, Copy)]
pub enum FormName {
    /// `stripe WEIGHTS POSITION N`.
    StripeWeights,
    /// `stripe N` and options.
    StripeSegment,
    /// `plan TEST` and options.
    Plan,
    /// `rehearse TEST` and options.
    RehearseTest,
    /// `rehearse` and options.
    RehearseWords,
    /// `help`.
    Help,
}

impl FormName {
    // The first word.
    pub fn command(self) -> &'static str
        ensures { result.now ≡ command_of self }
    {
        match self {
            FormName::StripeWeights | FormName::StripeSegment => "stripe",
            FormName::Plan => "plan",
            FormName::RehearseTest | FormName::RehearseWords => "rehearse",
            FormName::Help => "help",
        }
    }

    // What the words behind it are, place by place.
    pub fn places(self) -> &'static [ValueKind]
        ensures { result.now ≡ places_of self }
    {
        match self {
            FormName::StripeWeights => &[ValueKind::Weights, ValueKind::Number, ValueKind::Count],
            FormName::StripeSegment => &[ValueKind::Count],
            FormName::Plan | FormName::RehearseTest => &[ValueKind::Plain],
            FormName::RehearseWords | FormName::Help => &[],
        }
    }

    // The options that may stand behind them.
    pub fn options(self) -> &'static [OptionName]
        ensures { result.now ≡ options_of self }
    {
        match self {
            FormName::StripeWeights | FormName::Help => &[],
            FormName::StripeSegment => &[OptionName::Segment, OptionName::Sequence],
            FormName::Plan => &[
                OptionName::Segment,
                OptionName::Sequence,
                OptionName::Entries,
                OptionName::List,
            ],
            FormName::RehearseTest => &[
                OptionName::Iteration,
                OptionName::Journal,
                OptionName::Segment,
                OptionName::Sequence,
                OptionName::Entries,
            ],
            FormName::RehearseWords => &[
                OptionName::Rate,
                OptionName::Unit,
                OptionName::Duration,
                OptionName::Pre,
                OptionName::Max,
                OptionName::Iteration,
                OptionName::Journal,
                OptionName::Entries,
            ],
        }
    }

    // The lists of options of each of which one has to be given.
    fn needs(self) -> &'static [&'static [OptionName]]
        ensures { map (λ (names : Bor (List OptionName)). names.now) result.now ≡ needs_of self }
    {
        match self {
            FormName::StripeWeights | FormName::Plan | FormName::Help => &[],
            FormName::StripeSegment => &[&[OptionName::Segment, OptionName::Sequence]],
            FormName::RehearseTest => &[&[OptionName::Iteration], &[OptionName::Journal]],
            FormName::RehearseWords => &[
                &[OptionName::Rate],
                &[OptionName::Unit],
                &[OptionName::Duration],
                &[OptionName::Pre],
                &[OptionName::Max],
                &[OptionName::Iteration],
                &[OptionName::Journal],
            ],
        }
    }

    // Whether all that is needed is given.
    pub fn has_needed(self, given: &[GivenOption<'_>]) -> bool
        ensures { result ≡ list_all (has_one_of (given_by given.now)) (needs_of self) }
    {
        self.needs().iter().all(|names| has_one_of(given, names))
    }
}

// Whether one of these options is given.
fn has_one_of(given: &[GivenOption<'_>], names: &[OptionName]) -> bool
    ensures { result ≡ has_one_of (given_by given.now) names.now }
{
    names.iter().any(|name| value_under(given, *name).is_some())
}

// The form that words are read by.
pub fn form_read(words: &[String]) -> FormName
    ensures { result ≡ form_read (map string_bytes words.now) }
{
    if is_word("stripe", words, 0) {
        if has_option_word(words) {
            FormName::StripeSegment
        } else {
            FormName::StripeWeights
        }
    } else if is_word("plan", words, 0) {
        FormName::Plan
    } else if is_word("rehearse", words, 0) {
        if is_option_word_at(words, 1) {
            FormName::RehearseWords
        } else {
            FormName::RehearseTest
        }
    } else {
        FormName::Help
    }
}

// Whether the word at a place is this one.
pub fn is_word(text: &str, words: &[String], place: usize) -> bool
    ensures { result ≡ is_word (map string_bytes words.now) place text.now }
{
    match words.get(place) {
        Some(word) => word.as_str() == text,
        None => false,
    }
}

// Whether some word begins with two dashes.
fn has_option_word(words: &[String]) -> bool
    ensures { result ≡ list_any is_option_word (map string_bytes words.now) }
{
    words.iter().any(|word| is_option_word(word.as_bytes()))
}

// Whether the word at a place begins with two dashes.
fn is_option_word_at(words: &[String], place: usize) -> bool
    ensures { result ≡ is_option_word_at (map string_bytes words.now) place }
{
    match words.get(place) {
        Some(word) => is_option_word(word.as_bytes()),
        None => false,
    }
}

// Whether a word begins with two dashes.
fn is_option_word(word: &[u8]) -> bool
    ensures { result ≡ is_option_word word.now }
{
    word.starts_with(b"--")
}
