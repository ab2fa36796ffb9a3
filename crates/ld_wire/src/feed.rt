/// What more bytes made of a response.
#[derive(Clone, Copy, Debug, PartialEq, Eq)]
pub enum Feed {
    /// It isn't whole yet.
    Again,
    /// It is whole, with so many of the bytes.
    Whole { used: usize },
}
