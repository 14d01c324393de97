//! What stands in a text after a head, before a tail, and round the first blank; and whether bytes are a text.

ghost use Rattle.std.specs.Prelude.{◌≡◌, ◌≢◌, ◌↔◌, ℕ, List, ◌++◌, ◌∷◌, [], IfSome, IfNone, IsSome, IsTrue, IsUtf8, Contains, codes};
ghost use Rattle.std.specs.Str.{is_utf8};

/// What stands after the head, where the text begins with it.
pub fn after_head<'a>(text: &'a [u8], head: &[u8]) -> Option<&'a [u8]>
    ensures found { IfSome result (λ rest. text.now ≡ head.now ++ rest.now) }
    ensures only { IfNone result ((rest : List ℕ) → text.now ≢ head.now ++ rest) }
{
    text.strip_prefix(head)
}

/// What stands before the tail, where the text ends with it.
pub fn before_tail<'a>(text: &'a [u8], tail: &[u8]) -> Option<&'a [u8]>
    ensures found { IfSome result (λ front. text.now ≡ front.now ++ tail.now) }
    ensures only { IfNone result ((front : List ℕ) → text.now ≢ front ++ tail.now) }
{
    text.strip_suffix(tail)
}

/// What stands before the first blank, and after it.
pub fn round_blank(text: &[u8]) -> Option<(&[u8], &[u8])>
    ensures found { IfSome result (λ parts. text.now ≡ parts.0.now ++ 32 ∷ parts.1.now) }
    ensures first { IfSome result (λ parts. ¬ Contains parts.0.now 32) }
    ensures only { IfNone result (¬ Contains text.now 32) }
{
    let at = text.iter().position(|b| *b == b' ')?;
    let (front, rest) = text.split_at(at);
    Some((front, &rest[1..]))
}

/// Whether the bytes are UTF-8.
#[tactic(auto, using(crate::proofs::Utf8::is_text, crate::proofs::Utf8::is_no_text))]
pub fn is_utf8(bytes: &[u8]) -> bool
    ensures exact { result ≡ is_utf8 bytes.now }
    ensures means { IsTrue result ↔ IsUtf8 bytes.now }
{
    std::str::from_utf8(bytes).is_ok()
}
