/// What follows a head of a response on its connection.
#[derive(Clone, Copy, Debug, PartialEq, Eq)]
pub enum Follows {
    /// The next head, behind one of an interim response.
    Head,
    /// Nothing: the response has no body.
    Nothing,
    /// A body of so many bytes.
    Bytes(u64),
    /// The chunks of a body.
    Chunks,
    /// A body that ends where the peer closes the connection.
    Close,
}
