use ld_arrival::Ticker;

/// What one instance owns of a scenario at an arrival rate. Moments and times are in nanoseconds.
#[derive(Drop)]
pub struct RatesPart {
    /// The scenario's begin, from the run's start.
    pub begin: u64,
    /// Its regular end, from the run's start.
    pub end: u64,
    /// How long its iterations may last behind its end.
    pub grace: u64,
    /// How many users it takes at its begin.
    pub pre: u32,
    /// How many users it may hold.
    pub max: u32,
    /// Its arrivals, of which none was given.
    pub ticker: Ticker,
}
