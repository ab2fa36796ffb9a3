use crate::slot::Slots;

/// What one instance owns of a scenario of ramping users. Moments and times are in nanoseconds.
#[derive(Drop)]
pub struct RampingPart {
    /// The scenario's begin, from the run's start.
    pub begin: u64,
    /// Its regular end, from the run's start.
    pub end: u64,
    /// How long its iterations may last behind its end.
    pub grace: u64,
    /// How long an iteration may last behind the moment at which its slot goes off, at most up to the scenario's own
    /// last moment.
    pub ramp_grace: u64,
    /// The owned slots, in order of their numbers, with their intervals, which count from the scenario's begin.
    pub slots: Slots,
}
