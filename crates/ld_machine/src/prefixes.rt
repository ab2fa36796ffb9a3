// The laws of prefixes of legal histories.
ghost use Rattle.std.specs.Prelude.{◌≡◌, ◌↔◌, ℕ, List, IsTrue, None, Some};
ghost use Rattle.ld_base.specs.declared.entry.Entry.{Entry};
ghost use Rattle.ld_machine.specs.Plan.{Plan};
ghost use Rattle.ld_machine.specs.History.{IsLegal, first_beyond, first_illegal, is_front};
ghost use Rattle.ld_machine.specs.Prefixes.{IsPrefix, IsFirstBeyond, IsFirstIllegal};

/// The tests of fronts say which entries are prefixes of legal histories: all up to the first entry beyond
/// them, and the whole where there is none.
pub fn fronts_are_prefixes()
    ensures front { (plan : Plan) (history : List Entry) → IsTrue (is_front plan history) ↔ IsPrefix plan history }
    ensures beyond { (plan : Plan) (history : List Entry) (turn : ℕ) → (first_beyond plan history ≡ Some turn) ↔ IsFirstBeyond plan history turn }
    ensures none { (plan : Plan) (history : List Entry) → (first_beyond plan history ≡ None) ↔ IsPrefix plan history }
{}

/// The first illegal entry is the first up to which the entries are no prefix of a legal history; or the
/// last entry, where the history ends between the two entries of one step. There is none exactly where the
/// history is legal.
pub fn first_illegal_entry()
    ensures turn { (plan : Plan) (history : List Entry) (turn : ℕ) → (first_illegal plan history ≡ Some turn) ↔ IsFirstIllegal plan history turn }
    ensures none { (plan : Plan) (history : List Entry) → (first_illegal plan history ≡ None) ↔ IsLegal plan history }
{}
