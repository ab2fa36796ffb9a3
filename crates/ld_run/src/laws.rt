// The laws of runs of the desk.
ghost use Rattle.std.specs.Prelude.{◌≡◌, ◌⊎◌, ℕ, List, Some};
ghost use Rattle.ld_answer.specs.Answered.{HasAnswer};
ghost use Rattle.ld_answer.specs.Refusal.{IsRefused};
ghost use Rattle.ld_answer.specs.declared.answer.Answer.{Answer};
ghost use Rattle.ld_answer.specs.declared.refusal.Refusal.{Refusal};
ghost use Rattle.ld_outside.specs.ShelfView.{ShelfView};
ghost use Rattle.ld_outside.specs.SinkView.{Rose, SinkView};
ghost use Rattle.ld_rehearsal.specs.declared.full.FullJournal.{FullJournal};
ghost use Rattle.ld_run.specs.DeskRun.{IsDeskRun};

/// Where the words and what they name are not refused, no fault of the shelf or of `out` was counted and no journal
/// lacked room, the status of a run is 0, or 9 for want of memory. A fault of reading is among the refusals, which
/// have it only where its count rose.
pub fn ends_well()
    ensures { (ws : List (List ℕ)) (status : ℕ) (shelf shelf' : ShelfView) (out out' err err' : SinkView) →
        IsDeskRun ws status shelf shelf' out out' err err' →
        ((r : Refusal) → IsRefused ws shelf r shelf' → ⊥) →
        ((answer : Answer) (read : ShelfView) (full : FullJournal) → HasAnswer ws shelf answer read → answer.full ≡ Some full → ⊥) →
        (Rose shelf.write_faults shelf'.write_faults → ⊥) → (Rose out.faults out'.faults → ⊥) →
        (status ≡ 0) ⊎ (status ≡ 9) }
{}
