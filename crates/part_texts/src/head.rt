//! The head of a part's text: how it is written, and how its lines are read.

ghost use Rattle.fare_texts.specs.{PrintFaults.UnchangedUnlessWrite, WrittenOut.Begins};
ghost use Rattle.fare_texts.specs.declared.print_fault.PrintFault.TheVariants.{Write as ForWrite};
ghost use Rattle.part_texts.specs.HeadForms.{span_in, to_in};
ghost use Rattle.part_texts.specs.Heads.{part_head, span_line, span_lines};
ghost use Rattle.std.specs.Io.KnownBytes.{Appends};
ghost use Rattle.std.specs.Prelude.{◌≡◌, ◌++◌, IfErr, IfOk, OnOk, codes, string_bytes};
ghost use Rattle.std.specs.Str.{bytes_eq};

use fare_texts::{PrintFault, write_out};
use line_forms::form::FormOf;
use line_forms::forms::{After, Then, line_of};
use line_forms::number::Number64;
use report_texts::write_section_head;
use sorted_taps::{FileSpan, Position};
use std::alloc::{AllocError, Global};
use std::io::Write;

/// Appends the line `file 0 from 0 skip 0 to 14344 skip 25`.
#[tactic(auto, unfolding(crate::specs::Heads::span_line))]
fn write_span(text: &mut String, file: u64, span: &FileSpan) -> Result<(), AllocError>
    ensures { OnOk result (string_bytes text.new
        ≡ string_bytes text.old ++ span_line file span.now) }
{
    let Position { offset, skip } = span.from;
    match span.to {
        None => writeln!(text, "file {file} from {offset} skip {skip} to end"),
        Some(to) => {
            let Position {
                offset: end,
                skip: taken,
            } = to;
            writeln!(
                text,
                "file {file} from {offset} skip {skip} to {end} skip {taken}"
            )
        }
    }
}

#[tactic(auto, using(crate::proofs::HeadTexts::spans_more))]
fn write_spans(text: &mut String, spans: &[FileSpan]) -> Result<(), AllocError>
    ensures { OnOk result (string_bytes text.new
        ≡ string_bytes text.old ++ span_lines 0 spans.now) }
{
    for (file, span) in spans.iter().enumerate() {
        write_span(text, file as u64, span)?;
    }
    Ok(())
}

fn head_text(alloc: Global, spans: &[FileSpan]) -> Result<Vec<u8>, AllocError>
    ensures { IfOk result (λ text. text.items ≡ part_head spans.now) }
{
    let mut text = String::new(alloc);
    write_section_head(&mut text, "part files ", spans.len() as u128)?;
    write_spans(&mut text, spans)?;
    Ok(text.into_bytes())
}

/// Writes the head of the text of a part with these taps of each file, once it has all memory.
pub fn write_part_head<W: Write>(
    alloc: Global,
    spans: &[FileSpan],
    out: &mut W,
) -> Result<(), PrintFault>
    ensures ok { OnOk result
        (Appends (W.contents out.old) (W.contents out.new) (part_head spans.now)) }
    ensures started { IfErr result (λ fault. fault ≡ ForWrite
        → Begins (W.contents out.old) (W.contents out.new) (part_head spans.now)) }
    ensures fault { IfErr result (λ fault. UnchangedUnlessWrite fault (out.new ≡ out.old)) }
{
    let Ok(text) = head_text(alloc, spans) else {
        return Err(PrintFault::NoMemory);
    };
    write_out(text.as_slice(), out)?;
    Ok(())
}

fn is_to_end(text: &[u8]) -> bool
    ensures { result ≡ bytes_eq text.now (codes " to end\n") }
{
    text == b" to end\n".as_slice()
}

/// The position in ` to 14344 skip 25`, or the end in ` to end`, with the line feed.
fn to_in(text: &[u8]) -> Option<Option<Position>>
    ensures { result ≡ to_in text.now }
{
    let form = Then(After(b" to ", Number64), After(b" skip ", Number64));
    match line_of(&form, text) {
        Some((offset, skip)) => Some(Some(Position { offset, skip })),
        None if is_to_end(text) => Some(None),
        None => None,
    }
}

/// The file's number and the span in the line `file 0 from 0 skip 0 to 14344 skip 25`.
pub fn span_in(line: &[u8]) -> Option<(u64, FileSpan)>
    ensures { result ≡ span_in line.now }
{
    let position = Then(After(b" from ", Number64), After(b" skip ", Number64));
    let form = Then(After(b"file ", Number64), position);
    let ((file, (offset, skip)), rest) = form.read(line)?;
    let to = to_in(rest)?;
    Some((
        file,
        FileSpan {
            from: Position { offset, skip },
            to,
        },
    ))
}
