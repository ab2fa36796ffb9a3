// The heads of a response.
ghost use Rattle.std.specs.Prelude.{◌≡◌, ◌≢◌, ◌≤◌, ◌++◌, [], IfErr, IfOk, List, ℕ, Ok, Err, length};
ghost use Rattle.httparse.specs.Grammar.{ResponseHead, print_response};
ghost use Rattle.httparse.specs.declared.spans.ResponseSpans.{ResponseSpans};
ghost use Rattle.std.specs.Option.{option_copied};
ghost use Rattle.ld_wire.specs.Head.{first_value, follows_head, is_told};
ghost use Rattle.ld_wire.specs.Heads.{KeepsHeaders, HeadsStand, HeadsStep, HeadsTake, InHead, IsFound, ShowsRefused, heads_view};
ghost use Rattle.ld_wire.specs.Response.{AreInterims, Refuses, print_heads};

use crate::fault::WireFault;
use crate::follows::follows;
use crate::framing::Follows;
use crate::head_step::take_head;
use crate::headers::first_value;
use httparse::spans::{HeaderSpan, ResponseSpans};
use std::alloc::Global;

// The heads of a response as far as they came: for a HEAD request or not, how many interim ones came, the bytes of the
// last, room for its headers, and of the final one how many there are, and its status.
#[derive(Drop)]
pub struct Heads {
    pub for_head: bool,
    pub interims: u64,
    pub bytes: Vec<u8>,
    pub room: Vec<HeaderSpan>,
    pub headers: usize,
    pub status: u16,
}

// What bytes more made of the heads: so many of them belong to them, and this follows, which is a head until the final
// one is whole.
#[derive(Clone, Copy)]
pub struct HeadsMove {
    pub used: usize,
    pub follows: Follows,
}

impl Heads {
    // No head yet.
    pub fn new(alloc: Global, for_head: bool) -> Result<Heads, WireFault>
        ensures room { IfOk result KeepsHeaders }
        ensures empty { IfOk result (λ heads. (heads.for_head ≡ for_head) × InHead (heads_view heads) []) }
        ensures memory { IfErr result (λ fault. fault ≡ WireFault.Memory) }
    {
        Ok(Heads {
            for_head,
            interims: 0,
            bytes: Vec::new(alloc),
            room: Vec::new(alloc),
            headers: 0,
            status: 0,
        })
    }

    // Takes the next bytes of the heads, up to the end of the final one where it comes.
    pub fn take_heads(&mut self, piece: &[u8]) -> Result<HeadsMove, WireFault>
        requires room { KeepsHeaders self.old }
        requires stands { (bytes : List ℕ) × InHead (heads_view self.old) bytes }
        ensures room { KeepsHeaders self.new }
        ensures same { self.new.for_head ≡ self.old.for_head }
        ensures ok { IfOk result (λ move. (bytes : List ℕ) → InHead (heads_view self.old) bytes →
            HeadsTake move.used move.follows (heads_view self.new) bytes piece.now) }
        ensures err { IfErr result (λ fault. fault ≢ WireFault.Memory → (bytes : List ℕ) →
            InHead (heads_view self.old) bytes → Refuses self.old.for_head (bytes ++ piece.now) fault) }
        ensures shown { IfErr result (λ fault. fault ≢ WireFault.Memory → (bytes : List ℕ) →
            InHead (heads_view self.old) bytes → ShowsRefused (heads_view self.new) (bytes ++ piece.now)) }
    {
        let mut used = 0;
        let mut follows = Follows::Head;
        while used < piece.len() && follows == Follows::Head {
            let (_, rest) = piece.split_at(used);
            let step = self.take_one(rest)?;
            used += step.used;
            follows = step.follows;
        }
        Ok(HeadsMove { used, follows })
    }

    // Takes the next bytes of one head, up to its end where it comes.
    fn take_one(&mut self, piece: &[u8]) -> Result<HeadsMove, WireFault>
        requires room { KeepsHeaders self.old }
        requires stands { (bytes : List ℕ) × InHead (heads_view self.old) bytes }
        ensures room { KeepsHeaders self.new }
        ensures same { self.new.for_head ≡ self.old.for_head }
        ensures ok { IfOk result (λ move. (bytes : List ℕ) → InHead (heads_view self.old) bytes →
            HeadsStep move.used move.follows (heads_view self.new) bytes piece.now) }
        ensures err { IfErr result (λ fault. fault ≢ WireFault.Memory → (bytes : List ℕ) →
            InHead (heads_view self.old) bytes → Refuses self.old.for_head (bytes ++ piece.now) fault) }
        ensures shown { IfErr result (λ fault. fault ≢ WireFault.Memory → (bytes : List ℕ) →
            InHead (heads_view self.old) bytes → ShowsRefused (heads_view self.new) (bytes ++ piece.now)) }
    {
        let step = take_head(&mut self.bytes, &mut self.room, piece)?;
        match step.found {
            Some(found) => match self.settle(&found) {
                Ok(follows) => Ok(HeadsMove {
                    used: step.used,
                    follows,
                }),
                Err(fault) => Err(fault),
            },
            None => Ok(HeadsMove {
                used: step.used,
                follows: Follows::Head,
            }),
        }
    }

    // What follows the head that was found: the next one behind an interim one, else the status and the headers are kept,
    // also those of a head at fault that is told of.
    fn settle(&mut self, found: &ResponseSpans) -> Result<Follows, WireFault>
        requires none { (self.old.headers ≡ 0) × (self.old.status ≡ 0) }
        requires found { (head : ResponseHead) × IsFound self.old.bytes.items self.old.room.items found.now head }
        ensures room { KeepsHeaders self.new }
        ensures same { self.new.for_head ≡ self.old.for_head }
        ensures ok { IfOk result (λ follows. (before : List ResponseHead) (head : ResponseHead) →
            AreInterims self.old.for_head 0 before → length before ≡ self.old.interims →
            IsFound self.old.bytes.items self.old.room.items found.now head →
            HeadsStand follows (heads_view self.new) (print_heads before ++ print_response head)) }
        ensures err { IfErr result (λ fault. (head : ResponseHead) →
            IsFound self.old.bytes.items self.old.room.items found.now head →
            follows_head self.old.for_head self.old.interims head ≡ Err fault) }
        ensures shown { IfErr result (λ fault. (before : List ResponseHead) (head : ResponseHead) →
            AreInterims self.old.for_head 0 before → length before ≡ self.old.interims →
            IsFound self.old.bytes.items self.old.room.items found.now head →
            ShowsRefused (heads_view self.new) (print_heads before ++ print_response head)) }
    {
        let (spans, _) = self.room.split_at(found.headers);
        match follows(self.for_head, self.interims, found.code, &self.bytes, spans) {
            Ok(Follows::Head) => {
                self.interims += 1;
                self.bytes.clear();
                Ok(Follows::Head)
            }
            Ok(framing) => {
                self.status = found.code;
                self.headers = found.headers;
                Ok(framing)
            }
            Err(fault) => {
                if is_told(found.code) {
                    self.status = found.code;
                    self.headers = found.headers;
                }
                Err(fault)
            }
        }
    }

    // The value of the first header of this name.
    pub fn header(&self, name: &[u8]) -> Option<&[u8]>
        requires { KeepsHeaders self.now }
        ensures { option_copied result ≡ first_value name.now (heads_view self.now).headers }
    {
        let (spans, _) = self.room.split_at(self.headers);
        first_value(&self.bytes, spans, name)
    }
}

// Whether a head of this status is told of: it is no interim one, or has the status 101.
fn is_told(status: u16) -> bool
    ensures { result ≡ is_told status }
{
    status / 100 != 1 || status == 101
}
