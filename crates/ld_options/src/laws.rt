// The laws of documents.
ghost use Rattle.std.specs.Prelude.{◌≡◌, ℕ, List};
ghost use Rattle.ld_options.specs.Document.{AreOptions, IsRefusal};
ghost use Rattle.ld_options.specs.declared.fault.OptionsFault.{OptionsFault};
ghost use Rattle.ld_options.specs.declared.options.Options.{Options};

/// A test's text means the same options always, or is refused with the same fault always, and never
/// both.
pub fn one_meaning()
    ensures options { (bytes : List ℕ) (a b : Options) → AreOptions bytes a → AreOptions bytes b → a ≡ b }
    ensures refusal { (bytes : List ℕ) (f g : OptionsFault) → IsRefusal bytes f → IsRefusal bytes g → f ≡ g }
    ensures apart { (bytes : List ℕ) (options : Options) (f : OptionsFault) → AreOptions bytes options → IsRefusal bytes f → ⊥ }
{}
