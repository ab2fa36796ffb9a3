// The text of `stripe`.
ghost use Rattle.std.specs.Prelude.{◌≢◌, ◌≤◌, [], ◌∷◌, ℕ, List, IfErr, IfOk, MatchResult, sum};
ghost use Rattle.ld_segment.specs.Refusal.{IsSegmentRefusal};
ghost use Rattle.ld_segment.specs.Points.{IsFilled};
ghost use Rattle.ld_segment.specs.Values.{segment_values, ArePoints};
ghost use Rattle.ld_segment.specs.Weights.{greatest_period, HasWeights, IsPeriodRefusal};
ghost use Rattle.ld_stripe.specs.Striping.{IsStripingOf};
ghost use Rattle.ld_answer.specs.Cut.{segment_word, AreGiven, IsCut, IsCutRefusal, IsCutText, IsGivenRefusal, IsPartRefusal, IsPartText, RefusesCut, SegmentAccepted, SequenceAccepted};
ghost use Rattle.ld_answer.specs.Stripe.{IsWeightsRefusal, IsWeightsText};
ghost use Rattle.ld_answer.specs.declared.refusal.Refusal.{Refusal};
ghost use Rattle.ld_segment.specs.declared.fault.SegmentFault.{SegmentFault};

use crate::indices::put_indices;
use crate::refusal::Refusal;
use ld_base::Text;
use ld_segment::{Segment, SegmentFault, Sequence};
use ld_stripe::{Stripe, StripeFault};
use std::alloc::Global;

// The text of `stripe` over weights: the line of the indices below `count` that the position owns.
pub fn weights_text(
    alloc: Global,
    weights: &[u64],
    position: u32,
    count: u32,
) -> Result<Vec<u8>, Refusal>
    ensures { MatchResult result
        (λ text. IsWeightsText weights.now position count text.items)
        (λ refusal. refusal ≢ Refusal.Memory → IsWeightsRefusal weights.now position refusal) }
{
    let stripe = Stripe::of_weights(alloc, weights)?;
    if position as usize >= weights.len() {
        return Err(Refusal::NoSuchPosition(position));
    }
    let mut text = Vec::new(alloc);
    put_indices(&mut text, &stripe, position as usize, count)?;
    Ok(text)
}

// The text of `stripe` over a segment and a sequence: the filled sequence, and the line of the indices
// below `count` that the segment owns.
pub fn cut_text(
    alloc: Global,
    count: u32,
    segment: &Option<Text>,
    sequence: &Option<Text>,
) -> Result<Vec<u8>, Refusal>
    ensures { MatchResult result
        (λ text. IsCutText count segment.now sequence.now text.items)
        (λ refusal. refusal ≢ Refusal.Memory → IsCutRefusal segment.now sequence.now refusal) }
{
    let (part, whole) = read_cut(alloc, segment, sequence)?;
    part_text(alloc, count, &part, &whole)
}

// The segment and the filled sequence that words cut a test into.
pub fn read_cut(
    alloc: Global,
    segment: &Option<Text>,
    sequence: &Option<Text>,
) -> Result<(Segment, Sequence), SegmentFault>
    ensures value { IfOk result (λ cut. IsCut segment.now sequence.now cut.0.from cut.0.to cut.1) }
    ensures refused { IfErr result (λ f. f ≢ SegmentFault.Memory → RefusesCut segment.now sequence.now f) }
{
    let part = read_segment(segment)?;
    let given = read_sequence(alloc, sequence)?;
    let whole = Sequence::fill(alloc, &part, given)?;
    Ok((part, whole))
}

// The text of a segment of a filled sequence.
fn part_text(
    alloc: Global,
    count: u32,
    part: &Segment,
    whole: &Sequence,
) -> Result<Vec<u8>, Refusal>
    requires filled { IsFilled whole.now }
    ensures { MatchResult result
        (λ text. IsPartText count part.now.from part.now.to whole.now text.items)
        (λ refusal. refusal ≢ Refusal.Memory → IsPartRefusal part.now.from part.now.to whole.now refusal) }
{
    let Some(position) = whole.position(part) else {
        return Err(Refusal::NotInSequence);
    };
    let stripe = stripe_of(alloc, whole)?;
    let mut text = Vec::from_slice(alloc, b"sequence ")?;
    whole.print(&mut text)?;
    text.extend_from_slice(b"\n")?;
    put_indices(&mut text, &stripe, position, count)?;
    Ok(text)
}

// The striping of a filled sequence. Its weights are never refused by the striping.
fn stripe_of(alloc: Global, whole: &Sequence) -> Result<Stripe, SegmentFault>
    requires filled { IsFilled whole.now }
    ensures striping { IfOk result (λ s. (weights : List ℕ) × HasWeights whole.now (sum weights) weights
        × (sum weights ≤ greatest_period) × IsStripingOf weights s) }
    ensures refused { IfErr result (λ f. f ≢ SegmentFault.Memory → IsPeriodRefusal whole.now f) }
{
    let weights = whole.weights(alloc)?;
    match Stripe::of_weights(alloc, &weights) {
        Ok(stripe) => Ok(stripe),
        Err(fault) => match fault {
            StripeFault::Memory => Err(SegmentFault::Memory),
            _ => unreachable!(),
        },
    }
}

// The segment that is given, or the whole test where none is.
fn read_segment(segment: &Option<Text>) -> Result<Segment, SegmentFault>
    ensures value { IfOk result (λ s. ArePoints (segment_values (segment_word segment.now)) (s.from ∷ s.to ∷ [])) }
    ensures accepted { IfOk result (λ _. SegmentAccepted segment.now) }
    ensures refused { IfErr result (λ f. IsSegmentRefusal (segment_word segment.now) f) }
{
    match segment {
        Some(text) => Segment::read(text.as_slice()),
        None => Segment::read(b"0:1"),
    }
}

// The sequence that is given, if one is.
fn read_sequence(alloc: Global, sequence: &Option<Text>) -> Result<Option<Sequence>, SegmentFault>
    ensures value { IfOk result (λ given. AreGiven sequence.now given) }
    ensures accepted { IfOk result (λ _. SequenceAccepted sequence.now) }
    ensures refused { IfErr result (λ f. f ≢ SegmentFault.Memory → IsGivenRefusal sequence.now f) }
{
    match sequence {
        Some(text) => Ok(Some(Sequence::read(alloc, text.as_slice())?)),
        None => Ok(None),
    }
}
