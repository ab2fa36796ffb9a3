// The law of lines.
ghost use Rattle.std.specs.Prelude.{◌≡◌, ◌≢◌, ◌<◌, ◌==◌, ℕ, List, All, length};
ghost use Rattle.std.specs.List.{slice_split};
ghost use Rattle.ld_line.specs.Line.{joined, space};

/// Words without spaces are read back where their text is cut at its spaces.
pub fn words_again()
    ensures { (words : List (List ℕ)) → 0 < length words → All (All (λ byte. byte ≢ space)) words →
        slice_split (λ byte. byte == space) (joined words) ≡ words }
{}
