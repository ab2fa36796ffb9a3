ghost use Rattle.std.specs.Prelude.{◌≡◌, ◌≢◌, ◌↔◌, All, IsTrue};
ghost use Rattle.ld_json.specs.Known.{is_one_of as is_among};
ghost use Rattle.ld_script.specs.Name.{IsCounterName, IsName, IsNameByte, hyphen, metric_names};

use ld_json::is_one_of;

/// The greatest length of a name.
const MOST_LETTERS: usize = 64;

/// The metrics that every run has.
const METRICS: [&str; 12] = [
    "http_reqs",
    "http_req_duration",
    "http_req_failed",
    "checks",
    "iterations",
    "iteration_duration",
    "dropped_iterations",
    "late_iterations",
    "data_sent",
    "data_received",
    "vus",
    "vus_max",
];

/// Whether a text is a name of a script or a scenario: 1 to 64 bytes, each an ASCII letter or digit,
/// `_` or `-`.
pub fn is_name(text: &[u8]) -> bool
    ensures { IsTrue result ↔ IsName text.now }
{
    !text.is_empty() && text.len() <= MOST_LETTERS && text.iter().all(|byte| is_name_byte(*byte))
}

// Whether a byte may stand in a name.
fn is_name_byte(byte: u8) -> bool
    ensures { IsTrue result ↔ IsNameByte byte }
{
    byte.is_ascii_alphanumeric() || byte == b'_' || byte == b'-'
}

// Whether a text is a name that a counter may have: a name without hyphens, and none of a metric.
pub fn is_counter_name(text: &str) -> bool
    ensures { IsTrue result ↔ IsCounterName text.now }
{
    is_name(text.as_bytes()) && has_no_hyphen(text.as_bytes()) && !is_metric_name(text)
}

// Whether no byte of a text is a hyphen.
fn has_no_hyphen(text: &[u8]) -> bool
    ensures { IsTrue result ↔ All (λ b. b ≢ hyphen) text.now }
{
    text.iter().all(|byte| *byte != b'-')
}

// Whether a text is the name of a metric that every run has.
fn is_metric_name(text: &str) -> bool
    ensures { result ≡ is_among metric_names text.now }
{
    is_one_of(&METRICS, text)
}
