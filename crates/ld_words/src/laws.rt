// The laws of reading, over all words.
ghost use Rattle.std.specs.Prelude.{◌≡◌, ℕ, List};
ghost use Rattle.ld_words.specs.Forms.{form_read, IsOfForm};
ghost use Rattle.ld_words.specs.Words.{Asks, IsRefused};
ghost use Rattle.ld_words.specs.declared.fault.WordsFault.{WordsFault};
ghost use Rattle.ld_words.specs.declared.form.FormName.{FormName};
ghost use Rattle.ld_words.specs.declared.words.Words.{Words};

/// Words have one meaning: they ask for at most one thing, they are refused at no more than one place,
/// and they aren't refused where they ask for something.
pub fn one_meaning()
    ensures asked { (words : List (List ℕ)) (a b : Words) → Asks words a → Asks words b → a ≡ b }
    ensures refused { (words : List (List ℕ)) (a b : WordsFault) → IsRefused words a → IsRefused words b → a ≡ b }
    ensures apart { (words : List (List ℕ)) (a : Words) (f : WordsFault) → Asks words a → IsRefused words f → ⊥ }
{}

/// The form that words are read by is the form that they are of, so words are of one form at most, and words of a
/// form aren't refused.
pub fn form_of_words()
    ensures read { (form : FormName) (words : List (List ℕ)) → IsOfForm form words → form_read words ≡ form }
    ensures one { (a b : FormName) (words : List (List ℕ)) → IsOfForm a words → IsOfForm b words → a ≡ b }
    ensures apart { (form : FormName) (words : List (List ℕ)) (fault : WordsFault) → IsOfForm form words → IsRefused words fault → ⊥ }
{}
