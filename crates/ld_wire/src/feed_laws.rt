// The laws of responses: whatever bytes come, what is whole and what is refused is settled by their front alone.
ghost use Rattle.std.specs.Prelude.{◌≡◌, ◌++◌, ◌∷◌, Bool, List, [], ℕ, codes, replicate};
ghost use Rattle.httparse.specs.Grammar.{ResponseHead};
ghost use Rattle.ld_wire.specs.Head.{follows};
ghost use Rattle.ld_wire.specs.Heads.{TellsOf};
ghost use Rattle.ld_wire.specs.Response.{Begins, IsResponse, Refuses, Response};
ghost use Rattle.ld_wire.specs.declared.fault.WireFault.{WireFault};
ghost use Rattle.ld_wire.specs.declared.fault.WireFault.TheVariants.{BadCoding, BadHead, BadLength, BodyTooLong, TooManyHeaders, TooManyInterims};
ghost use Rattle.ld_wire.specs.declared.framing.Follows.TheVariants.{Bytes, Chunks, Close, Head, Nothing};

/// Bytes begin with one whole response at most, and all bytes behind which the peer ended are one at most.
pub fn one_response()
    ensures begins { (for_head : Bool) (bytes : List ℕ) (used other : ℕ) (a b : Response) →
        Begins for_head bytes used a → Begins for_head bytes other b → (used ≡ other) × (a ≡ b) }
    ensures ended { (for_head : Bool) (bytes : List ℕ) (a b : Response) →
        IsResponse for_head Bool.true bytes a → IsResponse for_head Bool.true bytes b → a ≡ b }
    ensures no_front { (for_head : Bool) (bytes more : List ℕ) (a b : Response) →
        IsResponse for_head Bool.false bytes a → IsResponse for_head Bool.false (bytes ++ more) b → more ≡ [] }
{}

/// Bytes are refused for one fault at most, and not where they begin with a whole response, or are one behind which
/// the peer ended. They tell of one head at most.
pub fn one_refusal()
    ensures one { (for_head : Bool) (bytes : List ℕ) (a b : WireFault) →
        Refuses for_head bytes a → Refuses for_head bytes b → a ≡ b }
    ensures begins { (for_head : Bool) (bytes : List ℕ) (used : ℕ) (response : Response) (fault : WireFault) →
        Begins for_head bytes used response → Refuses for_head bytes fault → ⊥ }
    ensures ended { (for_head : Bool) (bytes : List ℕ) (response : Response) (fault : WireFault) →
        IsResponse for_head Bool.true bytes response → Refuses for_head bytes fault → ⊥ }
    ensures head { (for_head : Bool) (bytes : List ℕ) (a b : ResponseHead) →
        TellsOf for_head bytes a → TellsOf for_head bytes b → a ≡ b }
{}

/// More bytes change neither a whole response nor a refusal, nor which head refused bytes tell of.
pub fn more_bytes()
    ensures whole { (for_head : Bool) (bytes more : List ℕ) (used : ℕ) (response : Response) →
        Begins for_head bytes used response → Begins for_head (bytes ++ more) used response }
    ensures refused { (for_head : Bool) (bytes more : List ℕ) (fault : WireFault) →
        Refuses for_head bytes fault → Refuses for_head (bytes ++ more) fault }
    ensures head { (for_head : Bool) (bytes more : List ℕ) (head : ResponseHead) →
        TellsOf for_head bytes head → TellsOf for_head (bytes ++ more) head }
    ensures no_other { (for_head : Bool) (bytes more : List ℕ) (fault : WireFault) (head : ResponseHead) →
        Refuses for_head bytes fault → TellsOf for_head (bytes ++ more) head → TellsOf for_head bytes head }
{}

/// Heads as examples: what follows each, or its fault.
pub fn heads_as_examples()
    ensures chunks_come_first { follows Bool.false 0 200
        ((codes "Content-Length", codes "5") ∷ (codes "Transfer-Encoding", codes "Chunked") ∷ []) ≡ Ok Chunks }
    ensures two_chunked { follows Bool.false 0 200
        ((codes "transfer-encoding", codes "chunked") ∷ (codes "transfer-encoding", codes "chunked") ∷ []) ≡ Ok Chunks }
    ensures length { follows Bool.false 0 200 ((codes "Content-Length", codes "005") ∷ []) ≡ Ok (Bytes 5) }
    ensures one_length { follows Bool.false 0 200
        ((codes "Content-Length", codes "5") ∷ (codes "content-length", codes "05") ∷ []) ≡ Ok (Bytes 5) }
    ensures two_lengths { follows Bool.false 0 200
        ((codes "Content-Length", codes "2") ∷ (codes "Content-Length", codes "3") ∷ []) ≡ Err BadLength }
    ensures no_length { follows Bool.false 0 200 ((codes "Content-Length", codes "+2") ∷ []) ≡ Err BadLength }
    ensures greatest { follows Bool.false 0 200 ((codes "Content-Length", codes "16777216") ∷ []) ≡ Ok (Bytes 16777216) }
    ensures too_long { follows Bool.false 0 200 ((codes "Content-Length", codes "16777217") ∷ []) ≡ Err BodyTooLong }
    ensures zipped { follows Bool.false 0 200 ((codes "Content-Encoding", codes "gzip") ∷ []) ≡ Err BadCoding }
    ensures coded_without_body { follows Bool.true 0 304 ((codes "Transfer-Encoding", codes "gzip, chunked") ∷ []) ≡ Err BadCoding }
    ensures close { follows Bool.false 0 200 ((codes "Content-Encoding", codes "IDENTITY") ∷ []) ≡ Ok Close }
    ensures empty_204 { follows Bool.false 0 204 ((codes "Content-Length", codes "x") ∷ []) ≡ Ok Nothing }
    ensures empty_304 { follows Bool.false 0 304 ((codes "Transfer-Encoding", codes "chunked") ∷ []) ≡ Ok Nothing }
    ensures empty_head { follows Bool.true 0 200 ((codes "Content-Length", codes "5") ∷ []) ≡ Ok Nothing }
    ensures interim { follows Bool.false 9 100 [] ≡ Ok Head }
    ensures eleventh { follows Bool.false 10 199 [] ≡ Err TooManyInterims }
    ensures switching { follows Bool.false 10 101 [] ≡ Err BadHead }
    ensures headers { follows Bool.false 0 101 (replicate 101 (codes "a", codes "b")) ≡ Err TooManyHeaders }
    ensures fewer_headers { follows Bool.false 0 200 (replicate 100 (codes "a", codes "b")) ≡ Ok Close }
{}
