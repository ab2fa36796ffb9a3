// The reader of all forms.
ghost use Rattle.std.specs.Prelude.{◌≢◌, MatchResult, map, string_bytes};
ghost use Rattle.ld_words.specs.Form.{IsRefusal};
ghost use Rattle.ld_words.specs.Forms.{form_of};
ghost use Rattle.ld_words.specs.OptionWords.{AreBegun, AreCounted};
ghost use Rattle.ld_words.specs.declared.fault.WordsFault.{WordsFault};

use crate::fault::WordsFault;
use crate::form::{FormName, is_word};
use crate::options::options_behind;
use crate::value::{ValueKind, value_at};
use std::alloc::Global;

// Reads words by a form: its command, the values at its places, and its options behind them. It tells
// whether they are of the form; their values are taken elsewhere.
pub fn read_form(alloc: Global, form: FormName, words: &[String]) -> Result<(), WordsFault>
    ensures { MatchResult result
        (λ _. form_of form (map string_bytes words.now))
        (λ f. f ≢ WordsFault.Memory → IsRefusal (form_of form) (map string_bytes words.now) f) }
{
    let places = read_places(form, words)?;
    let given = options_behind(alloc, form, words, 1 + places.len())?;
    if !form.has_needed(&given) {
        return Err(WordsFault::Refused(words.len()));
    }
    Ok(())
}

// Reads a form's command, and answers the words at its places behind it.
fn read_places(form: FormName, words: &[String]) -> Result<&[String], WordsFault>
    ensures { MatchResult result
        (λ places. AreBegun form (map string_bytes words.now) (map string_bytes places.now))
        (λ f. IsRefusal (form_of form) (map string_bytes words.now) f) }
{
    if !is_word(form.command(), words, 0) {
        return Err(WordsFault::Refused(0));
    }
    let kinds = form.places();
    let (_, behind) = words.split_at(1);
    let count = count_values(kinds, behind);
    if count < kinds.len() {
        return Err(WordsFault::Refused(1 + count));
    }
    let (places, _) = behind.split_at(count);
    Ok(places)
}

// How many words, from the first on, are values of the kinds at their places.
fn count_values(kinds: &[ValueKind], words: &[String]) -> usize
    ensures { AreCounted kinds.now (map string_bytes words.now) result }
{
    let mut count = 0;
    while count < kinds.len() {
        let Some(_) = value_at(kinds[count], words, count) else {
            return count;
        };
        count += 1;
    }
    count
}
