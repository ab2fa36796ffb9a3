/// The kind of a metric, as k6 has them
/// (<https://grafana.com/docs/k6/latest/using-k6/metrics/>).
#[derive(Clone, Copy, PartialEq, Eq)]
pub enum MetricKind {
    /// A sum.
    Counter,
    /// A last value, with the least and the greatest.
    Gauge,
    /// How often something held, among all times that it was looked at.
    Rate,
    /// A distribution of values.
    Trend,
}

/// What the samples of one name are: additions to a counter, or requests.
#[derive(Clone, Copy, PartialEq, Eq)]
pub struct NameSpec {
    /// Whether the name is a counter's.
    pub counter: bool,
    /// How many checks each request of this name has.
    pub checks: u8,
}
