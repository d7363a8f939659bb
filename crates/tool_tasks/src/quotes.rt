//! A quote of a CSV that nothing closes.

#[derive(Clone, Copy, Debug, PartialEq, Eq)]
enum Position {
    Begin,
    /// In a field without quotes, or after its closing quote.
    Plain,
    Quoted,
    /// After a quote within quotes, which closes them or represents one.
    Quote,
}

/// Whether the text begins as gzip, zip or Parquet does: its quotes mean nothing.
fn is_archive(text: &[u8]) -> bool {
    text.starts_with(&[0x1f, 0x8b]) || text.starts_with(b"PK\x03\x04") || text.starts_with(b"PAR1")
}

/// The line of the last quote that opens a field, if nothing closes it. It takes all later rows
/// into its field. No clause says more of it.
pub(crate) fn open_quote(text: &[u8], separator: u8) -> Option<u64> {
    if is_archive(text) {
        return None;
    }
    let (mut position, mut line, mut opened) = (Position::Begin, 1u64, 1);
    for byte in text {
        let byte = *byte;
        position = match position {
            Position::Begin if byte == b'"' => {
                opened = line;
                Position::Quoted
            }
            // a byte order mark is before the first field
            Position::Begin if line == 1 && matches!(byte, 0xef | 0xbb | 0xbf) => Position::Begin,
            Position::Quoted if byte == b'"' => Position::Quote,
            Position::Quote if byte == b'"' => Position::Quoted,
            Position::Quoted => Position::Quoted,
            _ if byte == separator || byte == b'\n' || byte == b'\r' => Position::Begin,
            _ => Position::Plain,
        };
        if byte == b'\n' {
            line = line.saturating_add(1);
        }
    }
    if position == Position::Quoted {
        Some(opened)
    } else {
        None
    }
}
