// Where text goes.
ghost use Rattle.ld_outside.specs.Sink.{IsPut, IsPutAll};
ghost use Rattle.ld_outside.specs.SinkView.{SinkView};

use thiserror::Error;

/// Why a sink took nothing.
#[derive(Debug, Drop, PartialEq, Eq, Error)]
pub enum SinkFault {
    /// The sink failed. Its count of faults rose in this call.
    #[error("the sink failed")]
    Failed,
    /// There is no memory left.
    #[error("out of memory")]
    Memory,
}

/// What takes text, as standard output does. It counts its faults, and may tell what it took.
pub trait Sink {
    /// What is seen of the sink: the bytes that it has taken, where it tells them, and its faults.
    ghost seen: { Self → SinkView };

    /// Takes a front of the piece and answers its length in bytes, at least 1 where the piece has a
    /// byte. After a fault nothing of the piece was taken.
    fn put(&mut self, piece: &[u8]) -> Result<usize, SinkFault>
        ensures { IsPut (seen self.old) piece.now result (seen self.new) };
}

/// Puts a whole text, piece by piece. After a fault a front of the text was taken.
pub fn put_all<S: Sink>(sink: &mut S, text: &[u8]) -> Result<(), SinkFault>
    ensures { IsPutAll (S.seen sink.old) text.now result (S.seen sink.new) }
{
    let mut done = 0;
    while done < text.len() {
        let (_, rest) = text.split_at(done);
        done += sink.put(rest)?;
    }
    Ok(())
}
