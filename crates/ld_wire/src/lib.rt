//! What is sent over a link, and what comes back: the text of a request (RFC 9112), and what a response is.
//!
//! `specs/Request.antt` says the text of a request, line by line, and `specs/Response.antt` the grammar of
//! responses and what is refused of bytes that are none. A reader of one, `ResponseReader`, is fed bytes in any
//! pieces, and answers what these definitions say of all of them: `specs/ReaderView.antt`.
#![tactic(auto)]

mod advance;
mod body;
mod body_place;
mod chunks;
mod data;
mod fault;
mod feed;
mod feed_laws;
mod follows;
mod framing;
mod head;
mod head_step;
mod headers;
mod heads;
mod laws;
mod length;
mod order;
mod outcome;
mod place;
mod reader;
mod reader_laws;
mod request;
mod size;
mod size_step;
mod stage;
mod trailer;
mod trailer_step;

pub use fault::WireFault;
pub use feed::Feed;
pub use feed_laws::{heads_as_examples, more_bytes, one_refusal, one_response};
pub use laws::{content_framed, one_order, request_read_back};
pub use reader::ResponseReader;
pub use reader_laws::any_cuts;
pub use request::request_text;
