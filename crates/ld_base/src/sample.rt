/// What one request, or one addition to a counter, measured.
///
/// A sample of a counter's name has the added amount in `sent` and zeros elsewhere.
#[derive(Clone, Copy, PartialEq, Eq)]
pub struct Sample {
    /// The position of the sample's name in the test's list of names, from 0.
    pub name: u16,
    /// The response's status code (RFC 9110, section 15), or 0 where no response's head was read.
    pub status: u16,
    /// Nanoseconds from the request's first reading of the clock to its last.
    pub span: u64,
    /// Bytes sent, or the amount added to a counter.
    pub sent: u64,
    /// Bytes received.
    pub received: u64,
    /// Whether the request failed.
    pub failed: bool,
    /// Bit i is set where check i of the name passed, with i counted from 0.
    pub check_bits: u64,
}
