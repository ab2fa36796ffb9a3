/// What a person asks of a running test, as by k6's REST API
/// (<https://grafana.com/docs/k6/latest/reference/k6-rest-api/>).
#[derive(Clone, Copy, PartialEq, Eq)]
pub enum Command {
    /// Pauses the externally controlled scenario, or lets it go on.
    Pause(bool),
    /// Stops the whole run: every open scenario starts nothing more.
    Stop,
    /// How many users the externally controlled scenario is to keep active.
    Vus(u32),
    /// How many users the externally controlled scenario may have at most.
    VusMax(u32),
}
