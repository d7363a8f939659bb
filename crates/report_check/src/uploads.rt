//! The lines of the uploads, with which a report begins.

ghost use Rattle.ledger_check.specs.Lines.{lines_of};
ghost use Rattle.report_check.specs.Uploads.{cut_in, end_at, end_in, unfinished_in, uploads_in};
ghost use Rattle.report_check.specs.inside.Uploads.{found_of};
ghost use Rattle.report_texts.specs.Forms.{count_at};
ghost use Rattle.std.specs.Prelude.{◌≡◌, ◌∷◌, ◌<◌, IfOk, MatchOption, None, Some, codes, length};
ghost use Rattle.std.specs.{Prelude.sum_by, Str.bytes_eq};
ghost use Rattle.tap_views.specs.UploadEnds.{taps_of_end};

use ledger_check::{same_bytes, split_line};
use line_forms::form::FormOf;
use line_forms::forms::After;
use line_forms::number::Number64;
use report_texts::forms::{head_in, upload_in};
use std::alloc::Global;
use tap_views::{NoMemory, UploadEnd};

#[derive(Drop)]
pub(crate) enum UploadLines {
    /// How the uploads ended.
    Reported(Vec<UploadEnd>),
    /// The line of this number, from 1, is the first that no report has there.
    NoLine(u64),
}

pub(crate) fn first_line(text: &[u8]) -> (&[u8], &[u8])
    ensures lines { 0 < length text.now
        → lines_of text.now ≡ result.0.now ∷ lines_of result.1.now }
    ensures shorter { 0 < length text.now → length result.1.now < length text.now }
{
    match split_line(text) {
        Some(parts) => parts,
        None => (text, &[]),
    }
}

fn number_in(line: &[u8]) -> Option<(u64, &[u8])>
    ensures { MatchOption result (count_at (codes "upload ") line.now ≡ None)
        (λ parts. count_at (codes "upload ") line.now ≡ Some (parts.0, parts.1.now)) }
{
    After(b"upload ", Number64).read(line)
}

/// The end in ` cut 4` or ` undrawn`, with the line feed.
fn cut_in(text: &[u8]) -> Option<UploadEnd>
    ensures { result ≡ cut_in text.now }
{
    match head_in(text, b" cut ") {
        Some(taps) => Some(UploadEnd::Cut { taps }),
        None if is_undrawn(text) => Some(UploadEnd::Undrawn),
        None => None,
    }
}

fn is_undrawn(text: &[u8]) -> bool
    ensures { result ≡ bytes_eq text.now (codes " undrawn\n") }
{
    text == b" undrawn\n".as_slice()
}

/// The upload's number and its end in `upload 0 cut 4` or `upload 0 undrawn`.
fn unfinished_in(line: &[u8]) -> Option<(u64, UploadEnd)>
    ensures { result ≡ unfinished_in line.now }
{
    let (number, rest) = number_in(line)?;
    let end = cut_in(rest)?;
    Some((number, end))
}

fn end_in(line: &[u8]) -> Option<(u64, UploadEnd)>
    ensures { result ≡ end_in line.now }
{
    match upload_in(line) {
        Some(found) => Some(found),
        None => unfinished_in(line),
    }
}

fn end_at(upload: u64, line: &[u8]) -> Option<UploadEnd>
    ensures { result ≡ end_at upload line.now }
{
    match end_in(line) {
        Some((number, end)) if number == upload => Some(end),
        _ => None,
    }
}

pub(crate) fn upload_lines(alloc: Global, text: &[u8]) -> Result<UploadLines, NoMemory>
    ensures { IfOk result (λ found. uploads_in (lines_of text.now) ≡ found_of found) }
{
    if text.is_empty() {
        return Ok(UploadLines::NoLine(1));
    }
    let (head, trailing) = first_line(text);
    let Some(uploads) = head_in(head, b"uploads ") else {
        return Ok(UploadLines::NoLine(1));
    };
    let mut ends = Vec::new(alloc);
    let mut rest = trailing;
    for upload in 0..uploads {
        if rest.is_empty() {
            return Ok(UploadLines::NoLine(ends.len() as u64 + 2));
        }
        let (line, more) = first_line(rest);
        let Some(end) = end_at(upload, line) else {
            return Ok(UploadLines::NoLine(ends.len() as u64 + 2));
        };
        ends.push(end)?;
        rest = more;
    }
    Ok(UploadLines::Reported(ends))
}

pub(crate) fn taps_of(ends: &[UploadEnd]) -> u128
    ensures { result ≡ sum_by taps_of_end ends.now }
{
    let mut taps: u128 = 0;
    for end in ends {
        taps += u128::from(end.taps());
    }
    taps
}
