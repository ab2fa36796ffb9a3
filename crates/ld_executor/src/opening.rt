// The states of scenarios before anything was done.
use crate::executor_state::ExecutorState;
use crate::fault::ExecutorFault;
use ld_iters::{IterKind, ItersPart, ItersState};
use ld_plan::{OwnedPart, Plan};
use ld_rates::{RatesPart, RatesState};
use ld_stripe::Stripe;
use std::alloc::Global;

// When a scenario begins and ends, and how long its iterations may last behind that. In nanoseconds.
#[derive(Clone, Copy)]
struct Times {
    begin: u64,
    end: u64,
    grace: u64,
}

impl Times {
    ghost use Rattle.std.specs.Prelude.{◌≡◌};

    // What an instance owns of a scenario of iterations.
    fn iters(
        self,
        kind: IterKind,
        users: u32,
        iterations: u64,
        stripe: Stripe,
        position: usize,
        total: u64,
    ) -> ItersPart
        ensures { result ≡ record { kind = kind; begin = self.begin; end = self.end; grace = self.grace; users = users; iterations = iterations; stripe = stripe; position = position; total = total } }
    {
        ItersPart {
            kind,
            begin: self.begin,
            end: self.end,
            grace: self.grace,
            users,
            iterations,
            stripe,
            position,
            total,
        }
    }
}

impl ExecutorState {
    ghost use Rattle.std.specs.Prelude.{◌≡◌, ◌<◌, IfErr, IfOk, length};
    ghost use Rattle.ld_executor.specs.Shows.{ShowsOpening};
    ghost use Rattle.ld_executor.specs.declared.fault.ExecutorFault.TheVariants.{Memory};

    /// The state of a scenario of a plan before anything was done. It takes all memory of the scenario.
    ///
    /// Fails where there is no memory for it.
    pub fn opening(alloc: Global, plan: &Plan, number: u16) -> Result<ExecutorState, ExecutorFault>
        requires { number < length plan.now.plan.parts }
        ensures shows { IfOk result (ShowsOpening plan.now.plan number) }
        ensures memory { IfErr result (λ f. f ≡ Memory) }
    {
        let row = plan.row(number);
        let times = Times {
            begin: row.begin,
            end: row.end,
            grace: plan.grace(number),
        };
        let part = match plan.owned_part(alloc, number)? {
            OwnedPart::SharedIterations {
                users,
                stripe,
                position,
                total,
            } => times.iters(IterKind::Shared, users, 0, stripe, position, total),
            OwnedPart::PerUserIterations {
                iterations,
                stripe,
                position,
                total,
            } => times.iters(IterKind::PerUser, 0, iterations, stripe, position, total),
            OwnedPart::ConstantUsers {
                stripe,
                position,
                total,
            } => times.iters(IterKind::Constant, 0, 0, stripe, position, total),
            OwnedPart::Rates { pre, max, ticker } => {
                let Times { begin, end, grace } = times;
                let part = RatesPart {
                    begin,
                    end,
                    grace,
                    pre,
                    max,
                    ticker,
                };
                return Ok(ExecutorState::Rates(RatesState::new(alloc, part)?));
            }
        };
        Ok(ExecutorState::Iters(ItersState::new(alloc, part)?))
    }
}
