// The laws of plans.
ghost use Rattle.std.specs.Prelude.{◌≡◌, ◌≤◌, ◌⊎◌, ◌∷◌, [], ℕ, List, Some, false, IsPermutation, map, slice_get, sum_by};
ghost use Rattle.std.specs.List.{flat_map, range_with_len};
ghost use Rattle.ld_num.specs.declared.fraction.Frac.{Frac};
ghost use Rattle.ld_segment.specs.Segments.{one_point, zero_point};
ghost use Rattle.ld_segment.specs.declared.segment.Segment.{Segment};
ghost use Rattle.ld_stripe.specs.Striping.{IsStripingOf, shares_at};
ghost use Rattle.ld_machine.specs.Plan.{Part, is_external};
ghost use Rattle.ld_machine.specs.Requirement.{extra, need};
ghost use Rattle.ld_machine.specs.State.{opening_controls};
ghost use Rattle.ld_options.specs.declared.options.Options.{Options};
ghost use Rattle.ld_options.specs.declared.scenario.Scenario.{Scenario};
ghost use Rattle.ld_plan.specs.Executor.{max_of, pre_of, slot_count, timetable_of, whole_count};
ghost use Rattle.ld_plan.specs.IsPlanOf.{IsPlanOf, IsSequenceStriping, IsSound, whole_striping};
ghost use Rattle.ld_plan.specs.Plan.{IsMade};
ghost use Rattle.ld_plan.specs.PlanFault.{IsAccepted, IsRefusal};
ghost use Rattle.ld_plan.specs.PlanView.{PlanView, arrival_of, schedule_of};
ghost use Rattle.ld_plan.specs.Whole.{AreAllPlans, arrivals_at, items_at, most_users_at, slots_at, users_at};
ghost use Rattle.ld_plan.specs.declared.fault.PlanFault.{PlanFault};

/// A segment of a test either has a plan or is refused.
pub fn accepted_or_refused()
    ensures either { (options : Options) (segment : Segment) (sequence : List Frac) (entries : ℕ) → IsSound options sequence →
        IsAccepted options segment sequence entries ⊎ ((fault : PlanFault) × IsRefusal options segment sequence entries fault) }
    ensures not_both { (options : Options) (segment : Segment) (sequence : List Frac) (entries : ℕ) → IsSound options sequence →
        (fault : PlanFault) → IsAccepted options segment sequence entries → IsRefusal options segment sequence entries fault → ⊥ }
{}

/// A segment of a test has at most one refusal.
pub fn one_refusal()
    ensures { (options : Options) (segment : Segment) (sequence : List Frac) (entries : ℕ) → IsSound options sequence → (a b : PlanFault) →
        IsRefusal options segment sequence entries a → IsRefusal options segment sequence entries b → a ≡ b }
{}

/// A segment of a test and a number of entries mean one plan.
pub fn one_plan()
    ensures { (options : Options) (segment : Segment) (sequence : List Frac) (entries : ℕ) → IsSound options sequence → (a b : PlanView) →
        IsPlanOf options segment sequence entries a → IsPlanOf options segment sequence entries b → a ≡ b }
{}

/// The one position of a test that isn't cut has the weight 1 and owns every index, and its striping
/// stays the same where it is rescaled.
pub fn one_position()
    ensures striping { IsSequenceStriping (zero_point ∷ one_point ∷ []) whole_striping }
    ensures rescaled { (v : ℕ) → 1 ≤ v → IsStripingOf (shares_at whole_striping v) whole_striping }
{}

/// Each item of a scenario is owned by exactly one position: all positions of a sequence own each of the
/// whole's items once, and where it has arrivals the whole's schedule, each arrival once.
pub fn items_owned_once()
    ensures arrivals { (options : Options) (sequence : List Frac) (plans : List PlanView) → IsSound options sequence →
        AreAllPlans options sequence plans → (n : ℕ) (scenario : Scenario) → slice_get options.scenarios n ≡ Some scenario →
        IsPermutation (map arrival_of (schedule_of (timetable_of scenario.executor))) (flat_map (arrivals_at n) plans) }
    ensures items { (options : Options) (sequence : List Frac) (plans : List PlanView) → IsSound options sequence →
        AreAllPlans options sequence plans → (n : ℕ) (scenario : Scenario) → slice_get options.scenarios n ≡ Some scenario →
        IsPermutation (range_with_len 0 (whole_count scenario.executor)) (flat_map (items_at n) plans) }
{}

/// Each slot of a scenario is owned by exactly one position: all positions of a sequence own each of the
/// whole's slots once.
pub fn slots_owned_once()
    ensures { (options : Options) (sequence : List Frac) (plans : List PlanView) → IsSound options sequence →
        AreAllPlans options sequence plans → (n : ℕ) (scenario : Scenario) → slice_get options.scenarios n ≡ Some scenario →
        IsPermutation (range_with_len 0 (slot_count scenario.executor)) (flat_map (slots_at n) plans) }
{}

/// Each user of a scenario is owned by exactly one position: the users that all positions of a sequence
/// have of it, and the most that they may have, sum to those of the whole.
pub fn users_owned_once()
    ensures pre { (options : Options) (sequence : List Frac) (plans : List PlanView) → IsSound options sequence →
        AreAllPlans options sequence plans → (n : ℕ) (scenario : Scenario) → slice_get options.scenarios n ≡ Some scenario →
        sum_by (users_at n) plans ≡ pre_of scenario.executor }
    ensures max { (options : Options) (sequence : List Frac) (plans : List PlanView) → IsSound options sequence →
        AreAllPlans options sequence plans → (n : ℕ) (scenario : Scenario) → slice_get options.scenarios n ≡ Some scenario →
        sum_by (most_users_at n) plans ≡ max_of scenario.executor }
{}

/// What all positions of a sequence need of users at a moment sums to what the whole test needs at it: those that
/// they plan, and those that they may add.
pub fn requirement_owned_once()
    ensures need { (options : Options) (sequence : List Frac) (plans : List PlanView) (segment : Segment) (entries : ℕ) (whole : PlanView) →
        IsSound options sequence → AreAllPlans options sequence plans → IsPlanOf options segment (zero_point ∷ one_point ∷ []) entries whole →
        (t : ℕ) → sum_by (λ (seen : PlanView). need seen.plan.parts t) plans ≡ need whole.plan.parts t }
    ensures extra { (options : Options) (sequence : List Frac) (plans : List PlanView) (segment : Segment) (entries : ℕ) (whole : PlanView) →
        IsSound options sequence → AreAllPlans options sequence plans → IsPlanOf options segment (zero_point ∷ one_point ∷ []) entries whole →
        (t : ℕ) → sum_by (λ (seen : PlanView). extra seen.plan.parts t) plans ≡ extra whole.plan.parts t }
{}

/// No scenario of a plan is controlled from outside, and so no controls are set at the opening.
pub fn no_external()
    ensures external { (seen : PlanView) → IsMade seen → (n : ℕ) (part : Part) → slice_get seen.plan.parts n ≡ Some part →
        is_external part.executor ≡ false }
    ensures controls { (seen : PlanView) → IsMade seen →
        opening_controls seen.plan.parts ≡ record { paused = false; vus = 0; vus_max = 0 } }
{}
