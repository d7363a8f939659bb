//! One line of a ledger.

ghost use Rattle.fare_texts.specs.LedgerLines.{IsLedgerLine, IsReasonFields, line_head, mode_field};
ghost use Rattle.fare_texts.specs.{Moments.IsMomentText, StatementText.answer_text};
ghost use Rattle.hex.specs.Hex.{encode_lower};
ghost use Rattle.std.specs.{Fmt.decimal, Prelude.◌≡◌};
ghost use Rattle.std.specs.Prelude.{◌+◌, ◌≤◌, ◌++◌, [], length, List, ℕ, OnOk, codes, string_bytes};
ghost use Rattle.tap_views.specs.Token.{bytes_of};

use crate::answer_name;
use crate::digits::digits_of;
use crate::line::Line;
use crate::moment::put_moment;
use crate::reason_fields::put_reason_fields;
use account_rule::Answer;
use fare_caps::CappedReason;
use histories::Entry;
use std::alloc::AllocError;
use tap_views::Token;
use tariffs::FareTable;

/// A longer name of a mode is appended on its own, since a line has no room for it.
const MODE_BYTES: usize = 16;

/// Appends the line of a token's entry, whose number among the token's lines counts from 1.
pub fn write_line(
    text: &mut String,
    table: &FareTable,
    token: Token,
    number: u64,
    entry: &Entry,
    reason: &CappedReason,
) -> Result<(), AllocError>
    ensures { OnOk result ((line : List ℕ)
        × IsLedgerLine table.now token number entry.now reason.now line
        × (string_bytes text.new ≡ string_bytes text.old ++ line)) }
{
    let mut line = Line::new();
    let digits = digits_of(token);
    write_line_by(
        &mut line, text, table, token, &digits, number, entry, reason,
    )
}

/// The same with the token's digits, in the room of another line: a new one writes a zero for each
/// of its bytes.
pub(crate) fn write_line_by(
    line: &mut Line,
    text: &mut String,
    table: &FareTable,
    token: Token,
    digits: &[u8; 32],
    number: u64,
    entry: &Entry,
    reason: &CappedReason,
) -> Result<(), AllocError>
    requires { digits.now ≡ encode_lower (bytes_of token) }
    ensures { OnOk result ((line : List ℕ)
        × IsLedgerLine table.now token number entry.now reason.now line
        × (string_bytes text.new ≡ string_bytes text.old ++ line)) }
{
    let mode = mode_field(table, entry.moment, entry.validator);
    line.clear();
    put_end(line, table, entry, reason);
    if mode.len() > MODE_BYTES {
        append_apart(text, token, number, entry, mode, line)?;
        return Ok(());
    }
    line.put(mode.as_bytes());
    put_start(line, digits, number, entry);
    line.append_to(text)?;
    Ok(())
}

/// Appends what a line has before its mode, the mode, and the end.
#[cold]
#[inline(never)]
fn append_apart(
    text: &mut String,
    token: Token,
    number: u64,
    entry: &Entry,
    mode: &str,
    end: &Line,
) -> Result<(), AllocError>
    ensures { OnOk result ((moment : List ℕ) × IsMomentText entry.now.moment moment
        × (string_bytes text.new ≡ string_bytes text.old ++ ((line_head token number
        ++ (moment ++ (codes "," ++ (decimal entry.now.validator ++ codes ","))))
        ++ (mode.now ++ end.now)))) }
{
    let mut start = Line::new();
    put_start(&mut start, &digits_of(token), number, entry);
    start.append_to(text)?;
    text.push_str(mode)?;
    end.append_to(text)?;
    Ok(())
}

/// Puts what a line has before its mode, as `000..0a1,1,2024-03-08T17:00:00.000Z,1000,`.
#[inline(always)]
fn put_start(line: &mut Line, digits: &[u8; 32], number: u64, entry: &Entry)
    requires { length line.old + 156 ≤ 384 }
    ensures { (moment : List ℕ) × IsMomentText entry.now.moment moment
        × (line.new ≡ ((digits.now ++ (codes "," ++ (decimal number ++ codes ",")))
        ++ (moment ++ (codes "," ++ (decimal entry.now.validator ++ codes ",")))) ++ line.old) }
{
    line.put(b",");
    line.put_short(u64::from(entry.validator));
    line.put(b",");
    put_moment(line, entry.moment);
    line.put(b",");
    line.put_short(number);
    line.put(b",");
    line.put(digits);
}

/// Puts what a line has after its mode, as `,paid,300,..`.
#[inline(always)]
fn put_end(line: &mut Line, table: &FareTable, entry: &Entry, reason: &CappedReason)
    requires { line.old ≡ [] }
    ensures put { (fields : List ℕ)
        × IsReasonFields table.now.meaning.cap_names reason.now fields
        × (line.new ≡ codes "," ++ (answer_text entry.now.answer
        ++ (codes "," ++ (decimal entry.now.cents ++ (codes "," ++ (fields ++ codes "\n")))))) }
    ensures short { length line.new ≤ 208 }
{
    line.put(b"\n");
    put_reason_fields(line, table, reason);
    line.put(b",");
    line.put_short(u64::from(entry.cents));
    line.put(b",");
    put_answer(line, entry.answer);
    line.put(b",");
}

/// Puts the word of the answer there.
#[inline(always)]
fn put_answer(line: &mut Line, answer: Answer)
    requires { length line.old + 8 ≤ 384 }
    ensures put { line.new ≡ answer_text answer ++ line.old }
    ensures short { length line.new ≤ length line.old + 8 }
{
    line.put(answer_name(answer).as_bytes());
}

/// The name of the validator's mode at the moment, or nothing if the table does not know the
/// validator.
fn mode_field(table: &FareTable, moment: u64, validator: u32) -> &str
    ensures { result.now ≡ mode_field table.now moment validator }
{
    match table.mode_of(moment, validator) {
        Some(mode) => table.mode_name(mode),
        None => "",
    }
}
