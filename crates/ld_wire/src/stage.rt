use crate::body_place::BodyPlace;
use crate::fault::WireFault;

/// Where the reading of a response stands.
#[derive(Clone, Copy, Debug, PartialEq, Eq)]
pub enum Stage {
    /// In a head.
    Head,
    /// In the body.
    Body(BodyPlace),
    /// Behind the response.
    Whole,
    /// The bytes are refused.
    Refused(WireFault),
}

/// What bytes more made of a response: so many of them belong to it, and then it stands there.
#[derive(Clone, Copy, Debug, PartialEq, Eq)]
pub struct Advance {
    pub used: usize,
    pub stage: Stage,
}
