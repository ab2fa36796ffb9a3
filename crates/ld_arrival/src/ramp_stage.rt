// A stage of a ramp, with what stands before it.
use ld_base::Stage;

// A stage, with the rate before it and the sum of the stages before it.
#[derive(Clone, Copy)]
pub struct RampStage {
    pub rate: u64,
    pub done: u128,
    pub stage: Stage,
}

impl RampStage {
    ghost use Rattle.std.specs.Prelude.{◌≡◌, ◌≤◌, ◌+◌, IfSome};
    ghost use Rattle.ld_arrival.specs.Ramp.{first_reached, is_reached, stage_sum};
    ghost use Rattle.ld_arrival.specs.RampStage.{IsSmallStage, most_wanted};

    // The sum of this stage and those before it.
    pub fn sum(self) -> u128
        requires { IsSmallStage self }
        ensures { result ≡ self.done + stage_sum self.rate self.stage }
    {
        let rates = self.rate as u128 + self.stage.target as u128;
        self.done + rates * self.stage.length as u128
    }

    // The least moment of the stage at which it has reached `wanted`.
    pub fn first_reached(self, wanted: u128) -> Option<u64>
        requires small { IsSmallStage self }
        requires wanted { wanted ≤ most_wanted }
        ensures first { result ≡ first_reached self.rate self.done wanted self.stage }
        ensures within { IfSome result (λ t. t ≤ self.stage.length) }
    {
        if !self.is_reached_at_all(wanted) {
            return None;
        }
        let mut low = 0;
        let mut high = self.stage.length;
        while low < high {
            let middle = low + (high - low) / 2;
            if self.is_reached(wanted, middle) {
                high = middle;
            } else {
                low = middle + 1;
            }
        }
        Some(low)
    }

    // Whether the stage has reached `wanted` at its end: the sum alone tells it.
    fn is_reached_at_all(self, wanted: u128) -> bool
        requires { IsSmallStage self }
        ensures { result ≡ is_reached self.rate self.done wanted self.stage self.stage.length }
    {
        self.stage.length > 0 && wanted <= self.sum()
    }

    // Whether the stage has reached `wanted` at `t`, in nanoseconds from its begin.
    fn is_reached(self, wanted: u128, t: u64) -> bool
        requires small { IsSmallStage self }
        requires wanted { wanted ≤ most_wanted }
        requires within { t ≤ self.stage.length }
        ensures { result ≡ is_reached self.rate self.done wanted self.stage t }
    {
        let length = self.stage.length as u128;
        let rate = self.rate as u128;
        let target = self.stage.target as u128;
        let t = t as u128;
        let needed = length * wanted + rate * t * t;
        let reached = 2 * length * rate * t + target * t * t + length * self.done;
        length > 0 && needed <= reached
    }
}
