// Laws of the text of a request.
ghost use Rattle.std.specs.Prelude.{◌≡◌, ◌∷◌, [], ℕ, List, All, codes, map};
ghost use Rattle.std.specs.List.{filter};
ghost use Rattle.httparse.specs.Grammar.{ReadsRequest, RequestHead};
ghost use Rattle.httparse.specs.Spans.{name_and_value};
ghost use Rattle.ld_base.specs.declared.request.RequestSpec.{RequestSpec};
ghost use Rattle.ld_wire.specs.Order.{AreInOrder, Header, in_order};
ghost use Rattle.ld_wire.specs.Reading.{IsOwnHeader, IsPlainSpec, as_read, head_of, is_called};
ghost use Rattle.ld_wire.specs.Request.{content_of, length_headers, request_text, sent_headers};

/// The headers of a list have one order, and it is the one in which they are sent.
pub fn one_order()
    ensures is { (listed : List Header) → AreInOrder listed (in_order listed) }
    ensures one { (listed sent : List Header) → AreInOrder listed sent → sent ≡ in_order listed }
{}

/// What is sent for a plain request is read as one by `httparse`'s grammar: its method, its target, version 1.1, its
/// headers, and behind the head its content; and it is read as no other.
pub fn request_read_back()
    ensures reads { (spec : RequestSpec) → IsPlainSpec spec → ReadsRequest (request_text spec) (head_of spec) (content_of spec) }
    ensures alone { (spec : RequestSpec) (head : RequestHead) (rest : List ℕ) → IsPlainSpec spec →
        ReadsRequest (request_text spec) head rest → (head ≡ head_of spec) × (rest ≡ content_of spec) }
    ensures headers { (spec : RequestSpec) → map name_and_value (head_of spec).fields ≡ map as_read (sent_headers spec) }
{}

/// Where no header of its own has a name that the text gives itself, what is sent has one `Host`, one `Connection` and
/// no `Transfer-Encoding`, and a `Content-Length` just where there is one that tells the length; where there is none,
/// there is no content (RFC 9112, sections 3.2 and 6).
pub fn content_framed()
    ensures host { (spec : RequestSpec) → All IsOwnHeader spec.headers →
        filter (is_called (codes "host")) (sent_headers spec) ≡ (codes "Host", spec.authority) ∷ [] }
    ensures connection { (spec : RequestSpec) → All IsOwnHeader spec.headers →
        filter (is_called (codes "connection")) (sent_headers spec) ≡ (codes "Connection", codes "close") ∷ [] }
    ensures coding { (spec : RequestSpec) → All IsOwnHeader spec.headers →
        filter (is_called (codes "transfer-encoding")) (sent_headers spec) ≡ [] }
    ensures told { (spec : RequestSpec) → All IsOwnHeader spec.headers →
        filter (is_called (codes "content-length")) (sent_headers spec) ≡ length_headers spec }
    ensures untold { (spec : RequestSpec) → length_headers spec ≡ [] → content_of spec ≡ [] }
{}
