/// How many users a plan needs.
#[derive(Clone, Copy, PartialEq, Eq)]
pub struct Users {
    /// How many are made before the run: the most that all scenarios together plan at one moment.
    pub planned: u32,
    /// How many there may be: the most that all scenarios together plan or may add at one moment.
    pub limit: u32,
}
