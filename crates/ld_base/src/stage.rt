/// One stage of a ramp, as in k6's option `stages`
/// (<https://grafana.com/docs/k6/latest/using-k6/k6-options/reference/#stages>).
#[derive(Clone, Copy, PartialEq, Eq)]
pub struct Stage {
    /// The rate or the number of users that is reached at the stage's end.
    pub target: u64,
    /// The stage's length, in nanoseconds.
    pub length: u64,
}
