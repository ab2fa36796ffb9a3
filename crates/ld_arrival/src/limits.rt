// The limits of rates and durations.

/// The greatest rate, in arrivals for each unit of time.
pub const GREATEST_RATE: u64 = 1_000_000;

/// The greatest unit of time: a day, in nanoseconds.
pub const GREATEST_UNIT: u64 = 86_400_000_000_000;

/// The greatest duration: 30 days, in nanoseconds.
pub const GREATEST_DURATION: u64 = 2_592_000_000_000_000;
