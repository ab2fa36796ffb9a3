// The laws of the answers, over all words.
ghost use Rattle.std.specs.Prelude.{◌≡◌, ◌<◌, ◌≤◌, ◌^◌, ◌↔◌, ℕ, List, None};
ghost use Rattle.ld_options.specs.Document.{AreOptions, IsRefusal};
ghost use Rattle.ld_options.specs.Ranges.{longest};
ghost use Rattle.ld_options.specs.declared.fault.OptionsFault.{OptionsFault};
ghost use Rattle.ld_options.specs.declared.options.Options.{Options};
ghost use Rattle.ld_outside.specs.ShelfView.{Became, FileList, ShelfView};
ghost use Rattle.ld_words.specs.RateTest.{rate_test};
ghost use Rattle.ld_words.specs.Words.{Asks};
ghost use Rattle.ld_words.specs.declared.words.Words.{Words};
ghost use Rattle.ld_answer.specs.Answered.{HasAnswer, IsAnswerOf};
ghost use Rattle.ld_answer.specs.RateOptions.{AreRateOptions, RefusesRates};
ghost use Rattle.ld_answer.specs.Refusal.{IsRefusedAmong, IsRefusedUnread};
ghost use Rattle.ld_answer.specs.RefusalLine.{status_of};
ghost use Rattle.ld_answer.specs.declared.answer.Answer.{Answer};
ghost use Rattle.ld_answer.specs.declared.refusal.Refusal.{Refusal};

/// Words that write no file have one answer, where the file that they name has these bytes. The refusals of words
/// without a file have one status, and so have those for the file that they name, among the same files; there are
/// none of the second where there is one of the first. Words that have an answer aren't refused.
pub fn one_answer()
    ensures text { (words : List (List ℕ)) (p q : Words) (test : List ℕ) (a b : Answer) → Asks words p → Asks words q →
        IsAnswerOf p test a → IsAnswerOf q test b → a.file ≡ None → a ≡ b }
    ensures unread { (words : List (List ℕ)) (r s : Refusal) → IsRefusedUnread words r → IsRefusedUnread words s → status_of r ≡ status_of s }
    ensures among { (files : FileList) (words : List (List ℕ)) (r s : Refusal) → IsRefusedAmong files words r → IsRefusedAmong files words s →
        status_of r ≡ status_of s }
    ensures first { (files : FileList) (words : List (List ℕ)) (r s : Refusal) → IsRefusedUnread words r → IsRefusedAmong files words s → ⊥ }
    ensures answered { (words : List (List ℕ)) (shelf read : ShelfView) (answer : Answer) (r : Refusal) →
        HasAnswer words shelf answer read → IsRefusedUnread words r → ⊥ }
    ensures answered_among { (words : List (List ℕ)) (shelf read : ShelfView) (answer : Answer) →
        HasAnswer words shelf answer read → Became shelf (λ before now. (r : Refusal) → IsRefusedAmong before.files words r → ⊥) read }
{}

/// The test that `rehearse` by options plays means just their numbers: the options of its text are one scenario `main` of
/// these, and one script. It is refused just where one of them is out of its range, for the first that is.
pub fn rate_tests_read_back()
    ensures options { (rate unit duration pre max : ℕ) (options : Options) →
        rate < 2 ^ 64 → unit < 2 ^ 64 → duration < 2 ^ 64 → pre < 2 ^ 64 → max < 2 ^ 64 →
        AreOptions (rate_test rate unit duration pre max) options → AreRateOptions rate unit duration pre max options }
    ensures refused { (rate unit duration pre max : ℕ) (fault : OptionsFault) →
        rate < 2 ^ 64 → unit ≤ longest → duration ≤ longest → pre < 2 ^ 64 → max < 2 ^ 64 →
        IsRefusal (rate_test rate unit duration pre max) fault ↔ RefusesRates rate unit duration pre max fault }
{}
