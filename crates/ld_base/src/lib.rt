//! The types that the crates of the load engine share: what a run records, what a crew thread
//! asks of the pool and is told, and the two traits by which the layers above see a pool and a
//! schedule.
#![tactic(auto)]

mod act;
mod ask;
mod bytes;
mod command;
mod desk;
mod entry;
mod fault;
mod headers;
mod history;
mod metric;
mod number;
mod reply;
mod request;
mod sample;
mod source;
mod stage;
mod stages;
mod stint;
mod tally;
mod text;
mod wish;

pub use act::{Act, Outcome};
pub use ask::Ask;
pub use bytes::Bytes;
pub use command::Command;
pub use desk::Desk;
pub use entry::Entry;
pub use fault::BaseFault;
pub use headers::Headers;
pub use history::History;
pub use metric::{MetricKind, NameSpec};
pub use number::put_number;
pub use reply::{Reply, Room};
pub use request::{Loop, RequestSpec};
pub use sample::Sample;
pub use source::IndexSource;
pub use stage::Stage;
pub use stages::Stages;
pub use stint::Stint;
pub use tally::Tally;
pub use text::Text;
pub use wish::Wish;
