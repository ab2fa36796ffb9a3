use crate::advance::{follow, start};
use crate::body_place::BodyPlace;
use crate::fault::WireFault;
use crate::feed::Feed;
use crate::heads::Heads;
use crate::outcome::{feed_of, stage_behind};
use crate::stage::Stage;
use std::alloc::Global;
use std::marker::Model;

/// A reader of one response (RFC 9112), from bytes that come in any pieces. It is seen as where it stands and as what it
/// keeps, which stand for all bytes that it was fed (`FedAt`).
#[derive(Drop)]
pub struct ResponseReader {
    heads: Heads,
    stage: Stage,
    held: Vec<u8>,
    body: Vec<u8>,
}

impl Model for ResponseReader {
    ghost use Rattle.ld_wire.specs.ReaderView.{ReaderView};

    ghost Value = { ReaderView };

    ghost use Rattle.ld_wire.specs.Kept.{IsKept, reader_view};

    ghost view = { λ r. reader_view r.heads r.stage r.held.items r.body.items };

    ghost invariant = { λ r. IsKept r.heads r.stage r.held.items r.body.items };
}

impl ResponseReader {
    ghost use Rattle.std.specs.Prelude.{◌≡◌, [], Bool, IfErr, IfOk, List, ℕ, Ok, Err, length};
    ghost use Rattle.std.specs.Option.{option_copied};
    ghost use Rattle.ld_wire.specs.Head.{first_value};
    ghost use Rattle.ld_wire.specs.Reader.{with_piece};
    ghost use Rattle.ld_wire.specs.ReaderView.{FeedAnswers, EndAnswers, IsFed};
    ghost use Rattle.ld_wire.specs.declared.fault.WireFault.{WireFault};

    /// A reader that was fed nothing, of the response to a `HEAD` request or to another one.
    ///
    /// Fails where the allocator gives no memory for it.
    pub fn new(alloc: Global, for_head: bool) -> Result<ResponseReader, WireFault>
        ensures fed { IfOk result (λ reader. IsFed reader Bool.false []) }
        ensures for_head { IfOk result (λ reader. reader.heads.for_head ≡ for_head) }
        ensures memory { IfErr result (λ fault. fault ≡ WireFault.Memory) }
    {
        let heads = Heads::new(alloc, for_head)?;
        Ok(ResponseReader {
            heads,
            stage: Stage::Head,
            held: Vec::new(alloc),
            body: Vec::new(alloc),
        })
    }

    /// Takes the next bytes, behind all that came before. The answer is that of all bytes so far, however they were cut:
    /// they begin with a whole response, of which so many bytes are in this piece; or they are refused; or neither.
    ///
    /// After a refusal, and where the allocator gave no memory, it answers the same for good. Behind the end of what the
    /// peer sends no bytes come.
    pub fn feed(&mut self, piece: &[u8]) -> Result<Feed, WireFault>
        ensures fed { (ended : Bool) (bytes : List ℕ) → IsFed self.old ended bytes →
            IsFed self.new ended (with_piece ended bytes piece.now) }
        ensures answer { (ended : Bool) (bytes : List ℕ) → IsFed self.old ended bytes →
            FeedAnswers result self.new ended (length bytes) (with_piece ended bytes piece.now) }
        ensures same { self.new.heads.for_head ≡ self.old.heads.for_head }
        ensures refused { IfErr result (λ fault. self.new.stage ≡ Stage.Refused fault) }
        ensures for_good { (fault : WireFault) → self.old.stage ≡ Stage.Refused fault →
            (result ≡ Err fault) × (self.new ≡ self.old) }
    {
        match self.stage {
            Stage::Refused(fault) => Err(fault),
            Stage::Whole => Ok(Feed::Whole { used: 0 }),
            Stage::Head => {
                let step = start(&mut self.heads, &mut self.held, &mut self.body, piece);
                self.stage = stage_behind(step);
                feed_of(step)
            }
            Stage::Body(place) => {
                let step = follow(place, &mut self.held, &mut self.body, piece);
                self.stage = stage_behind(step);
                feed_of(step)
            }
        }
    }

    /// The peer sends no more bytes. A response that ends with the close is whole with this.
    ///
    /// Fails where the response isn't whole: with the refusal, or cut short.
    pub fn end(&mut self) -> Result<(), WireFault>
        ensures fed { (ended : Bool) (bytes : List ℕ) → IsFed self.old ended bytes → IsFed self.new Bool.true bytes }
        ensures answer { (ended : Bool) (bytes : List ℕ) → IsFed self.old ended bytes → EndAnswers result self.new bytes }
        ensures same { self.new.heads.for_head ≡ self.old.heads.for_head }
        ensures refused { IfErr result (λ fault. self.new.stage ≡ Stage.Refused fault) }
        ensures for_good { (fault : WireFault) → self.old.stage ≡ Stage.Refused fault →
            (result ≡ Err fault) × (self.new ≡ self.old) }
    {
        match self.stage {
            Stage::Refused(fault) => Err(fault),
            Stage::Whole => Ok(()),
            Stage::Head => {
                self.stage = Stage::Refused(WireFault::CutShort);
                Err(WireFault::CutShort)
            }
            Stage::Body(place) => {
                if place == BodyPlace::Close {
                    self.stage = Stage::Whole;
                    return Ok(());
                }
                self.stage = Stage::Refused(WireFault::CutShort);
                Err(WireFault::CutShort)
            }
        }
    }

    /// The status of the final head, refused or not, or of one with the status 101; 0 before that head is whole.
    pub fn status(&self) -> u16
        ensures { result ≡ self.now.heads.status }
    {
        self.heads.status
    }

    /// The value of the first header of this name in the head whose status is shown, letters' case aside, if there is one.
    pub fn header(&self, name: &[u8]) -> Option<&[u8]>
        ensures { option_copied result ≡ first_value name.now self.now.heads.headers }
    {
        self.heads.header(name)
    }

    /// The bytes of the body so far.
    pub fn body(&self) -> &[u8]
        ensures { result.now ≡ self.now.body }
    {
        &self.body
    }
}
