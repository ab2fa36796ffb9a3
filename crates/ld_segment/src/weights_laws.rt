// The laws of lengths, periods and weights, over all points.
ghost use Rattle.std.specs.Prelude.{◌≡◌, ℕ, List};
ghost use Rattle.ld_num.specs.Fraction.{HasNumbers};
ghost use Rattle.ld_num.specs.declared.fraction.Frac.{Frac};
ghost use Rattle.ld_segment.specs.Points.{IsBelow, IsFilled};
ghost use Rattle.ld_segment.specs.Weights.{HasPeriod, HasWeights, IsLength};

/// Two points that rise have exactly one length.
pub fn one_length()
    ensures exists { (p q : Frac) → IsBelow p q → (span : Frac) × IsLength p q span }
    ensures unique { (p q a b : Frac) → IsLength p q a → IsLength p q b → HasNumbers a b.num b.den }
{}

/// Points that cut the whole test have exactly one period.
pub fn one_period()
    ensures exists { (points : List Frac) → IsFilled points → (period : ℕ) × HasPeriod points period }
    ensures unique { (points : List Frac) (m k : ℕ) → IsFilled points → HasPeriod points m → HasPeriod points k → m ≡ k }
{}

/// Points that cut the whole test have exactly one list of weights.
pub fn one_list_of_weights()
    ensures exists { (points : List Frac) (period : ℕ) → IsFilled points → HasPeriod points period →
        (weights : List ℕ) × HasWeights points period weights }
    ensures unique { (points : List Frac) (m k : ℕ) (a b : List ℕ) → IsFilled points → HasWeights points m a →
        HasWeights points k b → a ≡ b }
{}
