use ld_base::Text;

/// What a call of a shelf does with a file.
#[derive(Clone, Copy, PartialEq, Eq)]
pub enum ShelfCallKind {
    /// The file is made empty.
    Start,
    /// A piece is put behind the file's bytes.
    Append,
    /// The file's bytes are read, and it stays as it is.
    Read,
}

/// One call of a shelf, as the shelf tells it.
#[derive(Drop)]
pub struct ShelfCall {
    /// What the call did.
    pub kind: ShelfCallKind,
    /// The name of its file, as bytes.
    pub name: Text,
    /// Whether it answered Ok.
    pub answered_ok: bool,
}
