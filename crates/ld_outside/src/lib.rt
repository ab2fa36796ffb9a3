//! The outside world as the program sees it: sinks that take text, and shelves that hold files. Each
//! has a thin real form and forms in memory, which tell what they took or hold.
#![tactic(auto)]

mod file_shelf;
mod files;
mod kept_files;
mod mem_shelf;
mod mem_sink;
mod numbers;
mod shelf;
mod shelf_call;
mod sink;
mod stream_sink;
mod sure_shelf;
mod sure_sink;

pub use file_shelf::FileShelf;
pub use files::Files;
pub use mem_shelf::MemShelf;
pub use mem_sink::MemSink;
pub use numbers::Numbers;
pub use shelf::{Shelf, ShelfFault, put_file};
pub use shelf_call::{ShelfCall, ShelfCallKind};
pub use sink::{Sink, SinkFault, put_all};
pub use stream_sink::{ErrSink, OutSink};
pub use sure_shelf::SureShelf;
pub use sure_sink::SureSink;
