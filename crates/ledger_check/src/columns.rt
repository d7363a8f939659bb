//! The columns of a traced ledger's line.

ghost use Rattle.ledger_check.specs.Columns.{class_in, columns_in, cut_line, cut_of};
ghost use Rattle.ledger_check.specs.Columns.{has_ledger_head, has_plain_head, has_traced_head};
ghost use Rattle.ledger_check.specs.Columns.{is_class_name, is_name_byte, last_field, number_line};
ghost use Rattle.ledger_check.specs.Columns.{traced_head, upload_in};
ghost use Rattle.std.specs.{List.list_all, Prelude.◌≡◌, Prelude.◌&&◌, Prelude.◌||◌, Prelude.◌==◌};
ghost use Rattle.std.specs.Prelude.{◌<◌, List, IfSome, length, nat_le, nat_lt, option_map, true};

use crate::lines_fed::MAX_LINE_BYTES;
use fare_texts::head_line;
use line_forms::forms::line_of;
use line_forms::number::{Number64, number_32_of};
use memchr::memrchr;

/// The most bytes of a traced ledger's line, with its line feed.
const MAX_TRACED_BYTES: usize = 352;

const MAX_NAME_BYTES: usize = 64;

/// The header line of a traced ledger.
pub fn traced_head_line() -> &'static [u8]
    ensures { result.now ≡ traced_head }
{
    b"token,line,moment,validator,mode,answer,cents,window_start,window_end,ride,reason,points_at,class,upload,place\n"
}

/// Whether the text begins with that line.
pub fn has_traced_head(text: &[u8]) -> bool
    ensures { result ≡ has_traced_head text.now }
{
    text.starts_with(traced_head_line())
}

fn has_plain_head(text: &[u8]) -> bool
    ensures { result ≡ has_plain_head text.now }
{
    text.starts_with(head_line().as_bytes())
}

/// Whether the text begins with the header line of a ledger, traced or not.
pub fn has_ledger_head(text: &[u8]) -> bool
    ensures { result ≡ has_ledger_head text.now }
{
    has_plain_head(text) || has_traced_head(text)
}

fn last_field(text: &[u8]) -> Option<(&[u8], &[u8])>
    ensures { option_map (λ parts. (parts.0.now, parts.1.now)) result ≡ last_field text.now }
{
    match memrchr(b',', text) {
        Some(at) => Some((&text[..at], &text[at + 1..])),
        None => None,
    }
}

fn is_name_byte(byte: u8) -> bool
    ensures { result ≡ is_name_byte byte }
{
    (b'a' <= byte && byte <= b'z')
        || ((b'A' <= byte && byte <= b'Z')
            || ((b'0' <= byte && byte <= b'9') || (byte == b'-' || byte == b'_')))
}

fn are_name_bytes(bytes: &[u8]) -> bool
    ensures { result ≡ list_all is_name_byte bytes.now }
{
    let mut rest = bytes;
    while let Some((first, trailing)) = rest.split_first() {
        if !is_name_byte(*first) {
            return false;
        }
        rest = trailing;
    }
    true
}

fn is_class_name(name: &[u8]) -> bool
    ensures { result ≡ is_class_name name.now }
{
    1 <= name.len() && (name.len() <= MAX_NAME_BYTES && are_name_bytes(name))
}

fn number_line(text: &[u8]) -> Option<u64>
    ensures { result ≡ number_line text.now }
{
    line_of(&Number64, text)
}

fn are_fields_and_class(fields: &[u8], class: &[u8]) -> bool
    ensures short { result ≡ true → length fields.now < 255 }
    ensures both { result ≡ (nat_lt (length fields.now) 255 && is_class_name class.now) }
{
    fields.len() < MAX_LINE_BYTES && is_class_name(class)
}

/// A line of a traced ledger: the twelve fields of a ledger's line, and the columns.
#[derive(Clone, Copy)]
pub struct CutLine<'a> {
    /// The fields, without a line feed.
    pub fields: &'a [u8],
    /// The class of the token's rider.
    pub class: &'a [u8],
    /// The number of the tap's upload, from 0.
    pub upload: u32,
    /// The tap's place in that upload, from 1.
    pub position: u64,
}

fn class_in(text: &[u8], upload: u32, position: u64) -> Option<CutLine<'_>>
    ensures cut { option_map cut_of result ≡ class_in upload position text.now }
    ensures short { IfSome result (λ cut. length cut.fields.now < 255) }
{
    let (fields, class) = last_field(text)?;
    if are_fields_and_class(fields, class) {
        Some(CutLine {
            fields,
            class,
            upload,
            position,
        })
    } else {
        None
    }
}

fn upload_in(text: &[u8], position: u64) -> Option<CutLine<'_>>
    ensures cut { option_map cut_of result ≡ upload_in position text.now }
    ensures short { IfSome result (λ cut. length cut.fields.now < 255) }
{
    let (front, digits) = last_field(text)?;
    let upload = number_32_of(digits)?;
    class_in(front, upload, position)
}

fn columns_in(line: &[u8]) -> Option<CutLine<'_>>
    ensures cut { option_map cut_of result ≡ columns_in line.now }
    ensures short { IfSome result (λ cut. length cut.fields.now < 255) }
{
    let (text, end) = last_field(line)?;
    let position = number_line(end)?;
    upload_in(text, position)
}

/// The fields and columns of a line, with its line feed. `None` without a traced line's form.
#[tactic(auto, unfolding(crate::specs::Columns::cut_line))]
pub fn cut_line(line: &[u8]) -> Option<CutLine<'_>>
    ensures cut { option_map cut_of result ≡ cut_line line.now }
    ensures short { IfSome result (λ cut. length cut.fields.now < 255) }
{
    if line.len() > MAX_TRACED_BYTES {
        return None;
    }
    columns_in(line)
}
