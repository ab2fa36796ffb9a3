// The answer to the words of a command line.
ghost use Rattle.std.specs.Prelude.{map, string_bytes};
ghost use Rattle.ld_answer.specs.Outcome.{IsOutcome};
ghost use Rattle.ld_answer.specs.Request.{IsAsked};
ghost use Rattle.ld_answer.specs.WordsOutcome.{IsWordsOutcome};

use crate::answer::Answer;
use crate::help::help_text;
use crate::plan::plan_answer;
use crate::refusal::Refusal;
use crate::rehearsal::rehearsal_answer;
use crate::stripe::{cut_text, weights_text};
use crate::test_file::{planned_file, planned_whole, rate_test};
use ld_outside::Shelf;
use ld_words::{Words, read_words};
use std::alloc::Global;

/// The answer to the words behind the program's name, or why they have none. Nothing is written: of the shelf there is
/// at most one call, the read of the file that the words name.
pub fn answer_of<S: Shelf>(
    alloc: Global,
    words: &[String],
    shelf: &mut S,
) -> Result<Answer, Refusal>
    ensures { IsWordsOutcome (map string_bytes words.now) result (S.seen shelf.old) (S.seen shelf.new) }
{
    let request = read_words(alloc, words)?;
    answer_for(alloc, &request, shelf)
}

// The answer to a request of some words.
fn answer_for<S: Shelf>(alloc: Global, request: &Words, shelf: &mut S) -> Result<Answer, Refusal>
    requires { IsAsked request.now }
    ensures { IsOutcome request.now result (S.seen shelf.old) (S.seen shelf.new) }
{
    match request {
        Words::StripeWeights {
            weights,
            position,
            count,
        } => Ok(Answer::of_text(weights_text(alloc, weights.as_slice(), *position, *count)?)),
        Words::StripeSegment {
            count,
            segment,
            sequence,
        } => Ok(Answer::of_text(cut_text(alloc, *count, segment, sequence)?)),
        Words::Plan {
            test,
            segment,
            sequence,
            entries,
            listed,
        } => {
            let planned = planned_file(alloc, test, segment, sequence, *entries, shelf)?;
            plan_answer(alloc, &planned.plan, *listed)
        }
        Words::RehearseTest {
            test,
            iteration,
            journal,
            segment,
            sequence,
            entries,
        } => {
            let planned = planned_file(alloc, test, segment, sequence, *entries, shelf)?;
            rehearsal_answer(alloc, planned, *iteration, journal)
        }
        Words::RehearseWords {
            rate,
            unit,
            duration,
            pre,
            max,
            iteration,
            journal,
            entries,
        } => {
            let text = rate_test(alloc, *rate, *unit, *duration, *pre, *max)?;
            let planned = planned_whole(alloc, text, *entries)?;
            rehearsal_answer(alloc, planned, *iteration, journal)
        }
        Words::Help => Ok(Answer::of_text(help_text(alloc)?)),
    }
}
