//! The lines of the report's tokens: of many tokens, most of the text.

ghost use Rattle.fare_texts.specs.{Counts.first_counts, Counts.last_counts, ReportLines.token_line};
ghost use Rattle.fare_texts.specs.WrittenOut.{Begins, GoesOut};
ghost use Rattle.fare_texts.specs.declared.print_fault.PrintFault.TheVariants.{Write as ForWrite};
ghost use Rattle.hex.specs.Hex.{encode_lower};
ghost use Rattle.histories.specs.{Shown.token_sum, Sums.sums_of};
ghost use Rattle.std.specs.{Io.KnownBytes.Appends, List.flat_map};
ghost use Rattle.std.specs.Prelude.{◌≡◌, ◌+◌, ◌≤◌, [], ◌++◌, OnErr, OnOk, IfErr, length, codes};
ghost use Rattle.std.specs.Prelude.{vec_capacity, vec_len};
ghost use Rattle.tap_views.specs.Token.{bytes_of};

use fare_texts::{Line, PrintFault, write_out};
use histories::{TokenSum, TokenSums, Totals};
use std::io::Write;
use tap_views::Token;

fn make_room<W: Write>(text: &mut Vec<u8>, needed: usize, out: &mut W) -> Result<(), PrintFault>
    requires { needed ≤ vec_capacity text.old }
    ensures gone { OnOk result (GoesOut (W.contents out.old) text.old.items (W.contents out.new)
        text.new.items []) }
    ensures started { OnErr result (Begins (W.contents out.old) (W.contents out.new)
        text.old.items) }
    ensures room { OnOk result (vec_len text.new + needed ≤ vec_capacity text.new) }
    ensures capacity { vec_capacity text.new ≡ vec_capacity text.old }
    ensures fault { IfErr result (λ fault. fault ≡ ForWrite) }
{
    if needed <= text.capacity() - text.len() {
        return Ok(());
    }
    write_out(text.as_slice(), out)?;
    text.clear();
    Ok(())
}

fn push_line<W: Write>(text: &mut Vec<u8>, line: &Line, out: &mut W) -> Result<(), PrintFault>
    requires { 384 ≤ vec_capacity text.old }
    ensures gone { OnOk result (GoesOut (W.contents out.old) text.old.items (W.contents out.new)
        text.new.items line.now) }
    ensures started { OnErr result (Begins (W.contents out.old) (W.contents out.new)
        text.old.items) }
    ensures capacity { vec_capacity text.old ≤ vec_capacity text.new }
    ensures fault { IfErr result (λ fault. fault ≡ ForWrite) }
{
    let bytes = line.bytes();
    make_room(text, bytes.len(), out)?;
    let Ok(()) = text.extend_from_slice(bytes) else {
        unreachable!();
    };
    Ok(())
}

pub(crate) fn write_lines<W: Write>(
    text: &mut Vec<u8>,
    sums: &TokenSums,
    out: &mut W,
) -> Result<(), PrintFault>
    requires { 384 ≤ vec_capacity text.old }
    ensures ok { OnOk result (Appends (W.contents out.old) (W.contents out.new)
        (text.old.items ++ flat_map token_line sums.now)) }
    ensures started { OnErr result (Begins (W.contents out.old) (W.contents out.new)
        (text.old.items ++ flat_map token_line sums.now)) }
    ensures fault { IfErr result (λ fault. fault ≡ ForWrite) }
{
    let mut line = Line::new();
    for position in 0..sums.len() {
        let sum = sums.get(position);
        make_line(&mut line, &sum);
        push_line(text, &line, out)?;
    }
    write_out(text.as_slice(), out)?;
    Ok(())
}

#[inline(always)]
fn make_line(line: &mut Line, sum: &TokenSum)
    ensures { line.new ≡ token_line (token_sum sum.now) }
{
    line.clear();
    put_other_counts(line, &sum.totals);
    put_live_counts(line, &sum.totals);
    put_name(line, sum.token);
}

/// Puts ` stale 0 unknown 0 cents 300` and the end of the line.
#[inline(always)]
#[tactic(auto, unfolding(fare_texts::specs::Counts::last_counts))]
fn put_other_counts(line: &mut Line, totals: &Totals)
    requires { line.old ≡ [] }
    ensures put { line.new ≡ last_counts (sums_of totals.now) }
    ensures short { length line.new ≤ 144 }
{
    line.put(b"\n");
    line.put_count(b" cents ", totals.cents);
    line.put_count(b" unknown ", totals.unknown);
    line.put_count(b" stale ", totals.stale);
}

/// Puts `taps 2 paid 1 transfers 1 capped 0` before what the line has.
#[inline(always)]
fn put_live_counts(line: &mut Line, totals: &Totals)
    requires { length line.old ≤ 144 }
    ensures put { line.new ≡ first_counts (sums_of totals.now) ++ line.old }
    ensures short { length line.new ≤ 334 }
{
    line.put_count(b" capped ", totals.capped);
    line.put_count(b" transfers ", totals.transfers);
    line.put_count(b" paid ", totals.paid);
    line.put_count(b"taps ", totals.taps);
}

#[inline(always)]
fn put_name(line: &mut Line, token: Token)
    requires { length line.old ≤ 334 }
    ensures { line.new ≡ codes "token "
        ++ (encode_lower (bytes_of token) ++ (codes " " ++ line.old)) }
{
    line.put(b" ");
    line.put_digits(&token.bytes());
    line.put(b"token ");
}
