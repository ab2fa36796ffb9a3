use ld_set::NumberSet;

/// Which slots are meant.
#[derive(Clone, Copy)]
pub enum Which<'a> {
    /// All of them.
    Any,
    /// Those in the set.
    Among(&'a NumberSet),
    /// Those that aren't in the set.
    Others(&'a NumberSet),
}
