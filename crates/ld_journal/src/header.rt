use ld_base::{Bytes, Text};

/// What a journal says of the run that it is of.
#[derive(Drop)]
pub struct Header {
    /// The test file, byte by byte: at most 1,048,576 bytes.
    pub test: Bytes,
    /// The segment that the run played, in lowest terms.
    pub segment: Text,
    /// The points at which the test is cut, in lowest terms.
    pub sequence: Text,
    /// How many entries, and how many samples, the run could record at most, from 10 to 1,000,000.
    pub entries: u32,
}
