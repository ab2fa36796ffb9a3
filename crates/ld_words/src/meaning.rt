// What the values that were taken of words ask for.
ghost use Rattle.std.specs.Prelude.{◌≡◌, ℕ, List, Some, IfOk, MatchOption};
ghost use Rattle.ld_words.specs.Meaning.{number_at, AreWeightsAt, IsMeantBy, IsTakenBy};
ghost use Rattle.ld_words.specs.Options.{value_of};
ghost use Rattle.ld_words.specs.Taken.{text_at};
ghost use Rattle.ld_words.specs.Words.{number_under, SpanUnder};
ghost use Rattle.ld_words.specs.declared.form.FormName.TheVariants as forms;

use crate::form::FormName;
use crate::number::read_number;
use crate::option::OptionName;
use crate::taken::TakenValues;
use crate::value::read_span;
use crate::weights::Weights;
use crate::words::Words;
use ld_base::Text;
use std::alloc::{AllocError, Global};

// What words of a form ask for, by the values that were taken of them.
pub fn meaning(alloc: Global, form: FormName, taken: &TakenValues<'_>) -> Result<Words, AllocError>
    requires { IsTakenBy form taken.now }
    ensures { IfOk result (IsMeantBy form taken.now) }
{
    match form {
        FormName::StripeWeights => weights_asked(alloc, taken),
        FormName::StripeSegment => cut_asked(alloc, taken),
        FormName::Plan => plan_asked(alloc, taken),
        FormName::RehearseTest => test_asked(alloc, taken),
        FormName::RehearseWords => rate_asked(alloc, taken),
        FormName::Help => Ok(Words::Help),
    }
}

// What `stripe WEIGHTS POSITION N` asks for.
fn weights_asked(alloc: Global, taken: &TakenValues<'_>) -> Result<Words, AllocError>
    requires { IsTakenBy forms.StripeWeights taken.now }
    ensures { IfOk result (IsMeantBy forms.StripeWeights taken.now) }
{
    Ok(Words::StripeWeights {
        weights: weights_at(alloc, taken, 0)?,
        position: number_at(taken, 1),
        count: number_at(taken, 2),
    })
}

// What `stripe N` and its options ask for.
fn cut_asked(alloc: Global, taken: &TakenValues<'_>) -> Result<Words, AllocError>
    requires { IsTakenBy forms.StripeSegment taken.now }
    ensures { IfOk result (IsMeantBy forms.StripeSegment taken.now) }
{
    Ok(Words::StripeSegment {
        count: number_at(taken, 0),
        segment: text_under(alloc, taken, OptionName::Segment)?,
        sequence: text_under(alloc, taken, OptionName::Sequence)?,
    })
}

// What `plan TEST` and its options ask for.
fn plan_asked(alloc: Global, taken: &TakenValues<'_>) -> Result<Words, AllocError>
    requires { IsTakenBy forms.Plan taken.now }
    ensures { IfOk result (IsMeantBy forms.Plan taken.now) }
{
    Ok(Words::Plan {
        test: text_at(alloc, taken, 0)?,
        segment: text_under(alloc, taken, OptionName::Segment)?,
        sequence: text_under(alloc, taken, OptionName::Sequence)?,
        entries: number_under(taken, OptionName::Entries),
        listed: taken.is_given(OptionName::List),
    })
}

// What `rehearse TEST` and its options ask for.
fn test_asked(alloc: Global, taken: &TakenValues<'_>) -> Result<Words, AllocError>
    requires { IsTakenBy forms.RehearseTest taken.now }
    ensures { IfOk result (IsMeantBy forms.RehearseTest taken.now) }
{
    Ok(Words::RehearseTest {
        test: text_at(alloc, taken, 0)?,
        iteration: needed_span(taken, OptionName::Iteration),
        journal: needed_text(alloc, taken, OptionName::Journal)?,
        segment: text_under(alloc, taken, OptionName::Segment)?,
        sequence: text_under(alloc, taken, OptionName::Sequence)?,
        entries: number_under(taken, OptionName::Entries),
    })
}

// What the options of `rehearse` without a test ask for.
fn rate_asked(alloc: Global, taken: &TakenValues<'_>) -> Result<Words, AllocError>
    requires { IsTakenBy forms.RehearseWords taken.now }
    ensures { IfOk result (IsMeantBy forms.RehearseWords taken.now) }
{
    Ok(Words::RehearseWords {
        rate: needed_number(taken, OptionName::Rate),
        unit: needed_span(taken, OptionName::Unit),
        duration: needed_span(taken, OptionName::Duration),
        pre: needed_number(taken, OptionName::Pre),
        max: needed_number(taken, OptionName::Max),
        iteration: needed_span(taken, OptionName::Iteration),
        journal: needed_text(alloc, taken, OptionName::Journal)?,
        entries: number_under(taken, OptionName::Entries),
    })
}

// The weights at a place.
fn weights_at(alloc: Global, taken: &TakenValues<'_>, place: usize) -> Result<Weights, AllocError>
    requires { (weights : List ℕ) × AreWeightsAt place taken.now weights }
    ensures { IfOk result (AreWeightsAt place taken.now) }
{
    let Some(text) = taken.place(place) else {
        unreachable!();
    };
    let Some(weights) = Weights::read(alloc, text)? else {
        unreachable!();
    };
    Ok(weights)
}

// The number at a place.
fn number_at(taken: &TakenValues<'_>, place: usize) -> u32
    requires { (n : ℕ) × (number_at place taken.now ≡ Some n) }
    ensures { number_at place taken.now ≡ Some result }
{
    let Some(text) = taken.place(place) else {
        unreachable!();
    };
    let Some(number) = read_number(text) else {
        unreachable!();
    };
    number
}

// The text at a place.
fn text_at(alloc: Global, taken: &TakenValues<'_>, place: usize) -> Result<Text, AllocError>
    requires { (text : List ℕ) × (text_at place taken.now ≡ Some text) }
    ensures { IfOk result (λ text. text_at place taken.now ≡ Some text) }
{
    let Some(text) = taken.place(place) else {
        unreachable!();
    };
    copy(alloc, text)
}

// The number that is given under a name, if one is.
fn number_under(taken: &TakenValues<'_>, name: OptionName) -> Option<u32>
    ensures { result ≡ number_under name taken.now.given }
{
    read_number(taken.option(name)?)
}

// The number that is given under a name.
fn needed_number(taken: &TakenValues<'_>, name: OptionName) -> u32
    requires { (n : ℕ) × (number_under name taken.now.given ≡ Some n) }
    ensures { number_under name taken.now.given ≡ Some result }
{
    let Some(number) = number_under(taken, name) else {
        unreachable!();
    };
    number
}

// The duration that is given under a name, in nanoseconds, if one is.
fn span_under(taken: &TakenValues<'_>, name: OptionName) -> Option<u64>
    ensures { MatchOption result
        ((n : ℕ) → SpanUnder name taken.now.given n → ⊥)
        (SpanUnder name taken.now.given) }
{
    read_span(taken.option(name)?)
}

// The duration that is given under a name, in nanoseconds.
fn needed_span(taken: &TakenValues<'_>, name: OptionName) -> u64
    requires { (n : ℕ) × SpanUnder name taken.now.given n }
    ensures { SpanUnder name taken.now.given result }
{
    let Some(nanoseconds) = span_under(taken, name) else {
        unreachable!();
    };
    nanoseconds
}

// The text that is given under a name, if one is.
fn text_under(
    alloc: Global,
    taken: &TakenValues<'_>,
    name: OptionName,
) -> Result<Option<Text>, AllocError>
    ensures { IfOk result (λ text. text ≡ value_of name taken.now.given) }
{
    match taken.option(name) {
        Some(value) => Ok(Some(copy(alloc, value)?)),
        None => Ok(None),
    }
}

// The text that is given under a name.
fn needed_text(alloc: Global, taken: &TakenValues<'_>, name: OptionName) -> Result<Text, AllocError>
    requires { (value : List ℕ) × (value_of name taken.now.given ≡ Some value) }
    ensures { IfOk result (λ text. value_of name taken.now.given ≡ Some text) }
{
    let Some(value) = taken.option(name) else {
        unreachable!();
    };
    copy(alloc, value)
}

// A text of its own with the same bytes.
fn copy(alloc: Global, text: &str) -> Result<Text, AllocError>
    ensures { IfOk result (λ copy. copy ≡ text.now) }
{
    Ok(Text::of(Vec::from_slice(alloc, text.as_bytes())?))
}
