use crate::place::ChunkPlace;

/// Where a body stands.
#[derive(Clone, Copy, Debug, PartialEq, Eq)]
pub enum BodyPlace {
    /// In a body of a length, of which so many bytes are still to come.
    Bytes(u64),
    /// In a body in chunks.
    Chunks(ChunkPlace),
    /// In a body that ends with the close.
    Close,
    /// Behind the body.
    Whole,
}

/// What bytes more made of a body: so many of them belong to it, and then it stands there.
#[derive(Clone, Copy, Debug, PartialEq, Eq)]
pub struct BodyStep {
    pub used: usize,
    pub place: BodyPlace,
}
