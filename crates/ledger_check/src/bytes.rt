//! Texts split at a byte.

ghost use Rattle.std.specs.Prelude.{◌≡◌, ◌++◌, ◌↔◌, IfNone, IfSome, IsTrue};
ghost use Rattle.ledger_check.specs.Lines.{IsLine, Lacks};

use memchr::memchr;

/// What is before the first comma of the text, and what is after it.
pub(crate) fn field(text: &[u8]) -> Option<(&[u8], &[u8])> {
    match memchr(b',', text) {
        Some(at) => Some((&text[..at], &text[at + 1..])),
        None => None,
    }
}

/// The first line of the text with its newline, and the rest. `None` if the text has no newline.
pub fn split_line(text: &[u8]) -> Option<(&[u8], &[u8])>
    ensures some { IfSome result (λ parts. IsLine parts.0.now
        × (text.now ≡ parts.0.now ++ parts.1.now)) }
    ensures none { IfNone result (Lacks 10 text.now) }
{
    match memchr(b'\n', text) {
        Some(at) => Some(text.split_at(at + 1)),
        None => None,
    }
}

/// Whether the texts have the same bytes.
pub fn same_bytes(a: &[u8], b: &[u8]) -> bool
    ensures { IsTrue result ↔ (a.now ≡ b.now) }
{
    a == b
}
