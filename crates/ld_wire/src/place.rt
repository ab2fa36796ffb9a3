use crate::trailer::LineSoFar;

/// Where a body in chunks stands.
#[derive(Clone, Copy, Debug, PartialEq, Eq)]
pub enum ChunkPlace {
    /// In a size line.
    Size,
    /// In the bytes of a chunk, of which so many are still to come.
    Data(u64),
    /// Behind the bytes of a chunk.
    Return,
    /// Behind the carriage return at the end of a chunk.
    Feed,
    /// In the trailer, whose last line is so, and which has so many bytes.
    Trailer(LineSoFar, u64),
    /// Behind the body.
    Whole,
}

/// What bytes more made of a body in chunks: so many of them belong to it, and then it stands there.
#[derive(Clone, Copy, Debug, PartialEq, Eq)]
pub struct ChunkStep {
    pub used: usize,
    pub place: ChunkPlace,
}
