use crate::bytes::Bytes;
use crate::headers::Headers;
use crate::text::Text;

/// A loopback address.
#[derive(Clone, Copy, PartialEq, Eq)]
pub enum Loop {
    /// `127.0.0.1` (RFC 1122, section 3.2.1.3).
    V4,
    /// `::1` (RFC 4291, section 2.5.3).
    V6,
}

/// A request of a script, as it is sent (RFC 9112, section 3).
#[derive(Drop)]
pub struct RequestSpec {
    /// The method.
    pub method: Text,
    /// The request target, in origin form.
    pub target: Text,
    /// What the header `Host` is sent with.
    pub authority: Text,
    /// The script's own headers, in order, each as its name and its value.
    pub headers: Headers,
    /// The content, or None where the request has none.
    pub body: Option<Bytes>,
}
