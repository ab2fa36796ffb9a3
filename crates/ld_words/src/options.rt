// The options behind the positional words of a command line.
ghost use Rattle.std.specs.Prelude.{◌≡◌, ◌≢◌, ◌<◌, ◌≤◌, ◌+◌, true, Some, MatchOption, MatchResult, drop, length, map, slice_get, string_bytes, take};
ghost use Rattle.ld_words.specs.Form.{IsRefusal, IsRefusalBehind};
ghost use Rattle.ld_words.specs.Options.{is_among, name_text, AreOptions};
ghost use Rattle.ld_words.specs.Forms.{options_of};
ghost use Rattle.ld_words.specs.OptionWords.{given_by, HasNoValue, HasValue, IsStep, OfOptions};
ghost use Rattle.ld_words.specs.declared.fault.WordsFault.{WordsFault};

use crate::fault::WordsFault;
use crate::form::FormName;
use crate::given::{GivenOption, value_under};
use crate::option::{OptionName, OptionWord, option_word};
use crate::value::{ValueKind, is_value_of, value_at};
use std::alloc::Global;

// Reads the options of a form behind the first words.
pub fn options_behind<'a>(
    alloc: Global,
    form: FormName,
    words: &'a [String],
    first: usize,
) -> Result<Vec<GivenOption<'a>>, WordsFault>
    requires { first ≤ length words.now }
    ensures { MatchResult result
        (λ o. AreOptions (options_of form) (drop first (map string_bytes words.now)) (given_by o.items))
        (λ f. f ≢ WordsFault.Memory → IsRefusalBehind first (OfOptions (options_of form)) (map string_bytes words.now) f) }
{
    let (_, behind) = words.split_at(first);
    match read_options(alloc, form.options(), behind) {
        Ok(given) => Ok(given),
        Err(WordsFault::Refused(place)) => Err(WordsFault::Refused(first + place)),
        Err(WordsFault::Memory) => Err(WordsFault::Memory),
    }
}

// Reads words that are options of these names, each at most once, in any order.
fn read_options<'a>(
    alloc: Global,
    names: &[OptionName],
    words: &'a [String],
) -> Result<Vec<GivenOption<'a>>, WordsFault>
    ensures { MatchResult result
        (λ o. AreOptions names.now (map string_bytes words.now) (given_by o.items))
        (λ f. f ≢ WordsFault.Memory → IsRefusal (OfOptions names.now) (map string_bytes words.now) f) }
{
    let mut given = Vec::new(alloc);
    let mut place = 0;
    while place < words.len() {
        place = read_option(names, words, place, &mut given)?;
    }
    Ok(given)
}

// Reads the option at a place, behind others, and answers the place behind it.
fn read_option<'a>(
    names: &[OptionName],
    words: &'a [String],
    place: usize,
    given: &mut Vec<GivenOption<'a>>,
) -> Result<usize, WordsFault>
    requires within { place < length words.now }
    requires read { AreOptions names.now (take place (map string_bytes words.now)) (given_by given.old.items) }
    ensures { MatchResult result
        (λ behind. IsStep names.now (map string_bytes words.now) place behind given.new.items)
        (λ f. f ≢ WordsFault.Memory → IsRefusal (OfOptions names.now) (map string_bytes words.now) f) }
{
    match option_word(names, words[place].as_str()) {
        OptionWord::Name(name) => read_named(names, words, place, name, given),
        OptionWord::Joined(name, value) => {
            if value_under(given, name).is_some() || !is_value_of(name.kind(), value) {
                return Err(WordsFault::Refused(place));
            }
            let Ok(()) = given.push(GivenOption { name, value }) else {
                return Err(WordsFault::Memory);
            };
            Ok(place + 1)
        }
        OptionWord::Other => Err(WordsFault::Refused(place)),
    }
}

// Reads an option whose name is the word at a place, with its value behind it if it takes one.
fn read_named<'a>(
    names: &[OptionName],
    words: &'a [String],
    place: usize,
    name: OptionName,
    given: &mut Vec<GivenOption<'a>>,
) -> Result<usize, WordsFault>
    requires within { place < length words.now }
    requires known { is_among name names.now ≡ true }
    requires name { slice_get (map string_bytes words.now) place ≡ Some (name_text name) }
    requires read { AreOptions names.now (take place (map string_bytes words.now)) (given_by given.old.items) }
    ensures { MatchResult result
        (λ behind. IsStep names.now (map string_bytes words.now) place behind given.new.items)
        (λ f. f ≢ WordsFault.Memory → IsRefusal (OfOptions names.now) (map string_bytes words.now) f) }
{
    if value_under(given, name).is_some() {
        return Err(WordsFault::Refused(place));
    }
    let Some(found) = value_behind(name, words, place) else {
        return Err(WordsFault::Refused(place + 1));
    };
    let value = found.value;
    let Ok(()) = given.push(GivenOption { name, value }) else {
        return Err(WordsFault::Memory);
    };
    Ok(found.behind)
}

// The value of an option behind its name, and the place behind that.
#[derive(Clone, Copy)]
struct ValueBehind<'a> {
    value: &'a str,
    behind: usize,
}

// The value of an option whose name is the word at a place; a flag's is empty.
fn value_behind<'a>(name: OptionName, words: &'a [String], place: usize) -> Option<ValueBehind<'a>>
    requires within { place < length words.now }
    requires name { slice_get (map string_bytes words.now) place ≡ Some (name_text name) }
    ensures { MatchOption result
        (HasNoValue name (map string_bytes words.now) (place + 1))
        (λ found. HasValue name (map string_bytes words.now) (place + 1) found.behind found.value.now) }
{
    let kind = name.kind();
    match kind {
        ValueKind::Flag => Some(ValueBehind {
            value: "",
            behind: place + 1,
        }),
        _ => Some(ValueBehind {
            value: value_at(kind, words, place + 1)?,
            behind: place + 2,
        }),
    }
}
