// The answer of `plan`.
ghost use Rattle.std.specs.Prelude.{◌≡◌, MatchResult};
ghost use Rattle.ld_summary.specs.PlanText.{plan_text};
ghost use Rattle.ld_answer.specs.Answer.{text_alone};

use crate::answer::Answer;
use crate::refusal::Refusal;
use ld_plan::Plan;
use ld_summary::plan_text;
use std::alloc::Global;

// The answer that is the text of a plan, with the moments of the owned arrivals where they are listed.
pub fn plan_answer(alloc: Global, plan: &Plan, listed: bool) -> Result<Answer, Refusal>
    ensures { MatchResult result
        (λ answer. answer ≡ text_alone (plan_text plan.now listed))
        (λ refusal. refusal ≡ Refusal.Memory) }
{
    let mut text = Vec::new(alloc);
    plan_text(plan, listed, &mut text)?;
    Ok(Answer::of_text(text))
}
