// The laws of the texts, over all plans.
ghost use Rattle.std.specs.Prelude.{◌≡◌, ◌+◌, ℕ, List, sum_by};
ghost use Rattle.std.specs.List.{AllZip};
ghost use Rattle.ld_base.specs.History.{HistoryView};
ghost use Rattle.ld_plan.specs.PlanView.{PlanView};
ghost use Rattle.ld_summary.specs.Counts.{acts_of, counts_of};
ghost use Rattle.ld_summary.specs.Planned.{owned_in};
ghost use Rattle.ld_summary.specs.Summed.{IsSettledOf};

/// In the summary of settled histories the items of a scenario that were started, dropped and late are together the
/// planned ones, and the iterations that were done and interrupted are together the started ones.
pub fn settled_counts()
    ensures items { (n : ℕ) (plans : List PlanView) (histories : List HistoryView) → AllZip (IsSettledOf n) plans histories →
        (counts_of n (acts_of histories)).started + (counts_of n (acts_of histories)).dropped + (counts_of n (acts_of histories)).late
        ≡ sum_by (owned_in n) plans }
    ensures iterations { (n : ℕ) (plans : List PlanView) (histories : List HistoryView) → AllZip (IsSettledOf n) plans histories →
        (counts_of n (acts_of histories)).started
        ≡ (counts_of n (acts_of histories)).done + (counts_of n (acts_of histories)).interrupted }
{}
