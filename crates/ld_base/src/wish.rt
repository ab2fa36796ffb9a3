/// What a scenario would do next, as its executor tells the pool.
///
/// `user` is a user's number, from 1, and `slot` and `item` count from 0. `until` is the moment at
/// which the iteration is to have ended, and `due` the one at which the item is due; both are in
/// nanoseconds from the run's start.
#[derive(Clone, Copy, PartialEq, Eq)]
pub enum Wish {
    /// Nothing is to be done at this reading.
    Nothing,
    /// To let an idle user go.
    Release {
        user: u32,
    },
    /// To take a free user for a slot.
    Take {
        slot: u32,
    },
    /// To start an item on an idle user.
    Start {
        user: u32,
        item: u64,
        until: u64,
        due: u64,
    },
    /// To start a due arrival on one more user, where no user that the scenario holds is idle.
    More {
        item: u64,
        until: u64,
        due: u64,
        slot: u32,
    },
    /// To give an item up.
    Drop {
        item: u64,
        due: u64,
    },
    /// To record that an arrival was still waiting at the scenario's end.
    Late {
        item: u64,
        due: u64,
    },
    /// To close the scenario.
    Close,
}
