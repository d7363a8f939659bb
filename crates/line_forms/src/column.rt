//! Columns of a line: what is before a comma, or before the line feed.

ghost use Rattle.std.specs.Prelude.{◌≡◌, ◌≤◌, length};
ghost use Rattle.line_forms.specs.Columns.{column_in, ends_column};

use memchr::memchr2;

/// Whether a column ends at the byte: it is a comma or a line feed.
pub fn ends_column(byte: u8) -> bool
    ensures { result ≡ ends_column byte }
{
    byte == b',' || byte == b'\n'
}

/// How many bytes the column at the front of the text has. Many columns are empty.
pub fn column_before(text: &[u8]) -> usize
    ensures value { result ≡ column_in text.now }
    ensures within { result ≤ length text.now }
{
    if let [first, ..] = text {
        if ends_column(*first) {
            return 0;
        }
    }
    match memchr2(b',', b'\n', text) {
        Some(at) => at,
        None => text.len(),
    }
}
