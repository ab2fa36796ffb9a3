//! Segments and sequences: how a test is cut into parts, and the weights of the parts.
#![tactic(auto)]

mod fault;
mod filling;
mod laws;
mod parts;
mod points;
mod print;
mod segment;
mod sequence;
mod value;
mod weights;
mod weights_laws;

pub use fault::SegmentFault;
pub use laws::{
    filled_points, one_position, one_reading, one_refusal, segments_meet, segments_read_back,
    segments_rise, sequences_read_back,
};
pub use segment::Segment;
pub use sequence::Sequence;
pub use weights_laws::{one_length, one_list_of_weights, one_period};
