// The law of readers: how the bytes are cut doesn't matter.
ghost use Rattle.std.specs.Prelude.{◌≡◌, ◌≢◌, Bool, List, ℕ};
ghost use Rattle.ld_wire.specs.ReaderView.{IsFed, ReaderView};
ghost use Rattle.ld_wire.specs.declared.fault.WireFault.{WireFault};
ghost use Rattle.ld_wire.specs.declared.fault.WireFault.TheVariants.{Memory};
ghost use Rattle.ld_wire.specs.declared.stage.Stage.TheVariants.{Refused, Whole};

/// Two readers that were fed the same bytes, in whatever pieces, are both behind a whole response, and show the same of
/// it; or both refuse them for the same fault, and show the same status and headers; or neither, want of memory aside.
pub fn any_cuts()
    ensures whole { (a b : ReaderView) (ended : Bool) (bytes : List ℕ) → a.heads.for_head ≡ b.heads.for_head →
        IsFed a ended bytes → IsFed b ended bytes → a.stage ≡ Whole → b.stage ≢ Refused Memory →
        (b.stage ≡ Whole) × (a.heads.status ≡ b.heads.status) × (a.heads.headers ≡ b.heads.headers) × (a.body ≡ b.body) }
    ensures refused { (a b : ReaderView) (ended : Bool) (bytes : List ℕ) (fault : WireFault) →
        a.heads.for_head ≡ b.heads.for_head → IsFed a ended bytes → IsFed b ended bytes →
        a.stage ≡ Refused fault → fault ≢ Memory → b.stage ≢ Refused Memory →
        (b.stage ≡ Refused fault) × (a.heads.status ≡ b.heads.status) × (a.heads.headers ≡ b.heads.headers) }
{}
