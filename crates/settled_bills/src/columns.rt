//! The three columns after the lines of a traced ledger.

ghost use Rattle.class_names.specs.Names.{class_by};
ghost use Rattle.settled_bills.specs.Columns.{columns_by, columns_of, with_columns};
ghost use Rattle.settled_bills.specs.inside.Puts.{Puts};
ghost use Rattle.std.specs.Fmt.{decimal};
ghost use Rattle.std.specs.Prelude.{◌≡◌, ◌++◌, ◌∷◌, [], ℕ, List, IfOk, OnOk, codes, ◌==◌};

use crate::trace::TracedTap;
use class_names::ClassNames;
use itoa::Buffer;
use std::alloc::AllocError;

fn put_number(text: &mut Vec<u8>, number: u64) -> Result<(), AllocError>
    ensures { OnOk result (text.new.items ≡ text.old.items ++ (codes "," ++ decimal number)) }
{
    let mut buffer = Buffer::new();
    text.extend_from_slice(b",")?;
    text.extend_from_slice(buffer.format(number).as_bytes())?;
    Ok(())
}

fn put_columns(text: &mut Vec<u8>, class: &str, traced: &TracedTap) -> Result<(), AllocError>
    ensures { OnOk result
        (text.new.items ≡ text.old.items ++ columns_of class.now traced.now) }
{
    text.extend_from_slice(b",")?;
    text.extend_from_slice(class.as_bytes())?;
    put_number(text, traced.upload)?;
    put_number(text, traced.position)?;
    Ok(())
}

fn put_next<'t>(
    text: &mut Vec<u8>,
    names: &ClassNames,
    taps: &'t [TracedTap],
) -> Result<&'t [TracedTap], AllocError>
    ensures { IfOk result (λ left. (rest : List ℕ)
        → text.old.items ++ with_columns (10 ∷ rest) (columns_by (class_by names.now) taps.now)
        ≡ text.new.items ++ 10 ∷ with_columns rest (columns_by (class_by names.now) left.now)) }
{
    match taps.split_first() {
        Some((traced, left)) => {
            put_columns(
                text,
                names.class_of(traced.tap.moment, &traced.tap.token),
                traced,
            )?;
            Ok(left)
        }
        None => Ok(taps),
    }
}

fn is_feed(byte: u8) -> bool
    ensures { result ≡ (byte == 10) }
{
    byte == b'\n'
}

/// Before a line feed it appends the columns of the next tap. Returns the taps that are left.
fn put_byte<'t>(
    text: &mut Vec<u8>,
    byte: u8,
    names: &ClassNames,
    taps: &'t [TracedTap],
) -> Result<&'t [TracedTap], AllocError>
    ensures { IfOk result (λ left. Puts (class_by names.now) text.old.items taps.now (byte ∷ [])
        text.new.items left.now) }
{
    if is_feed(byte) {
        let left = put_next(text, names, taps)?;
        text.push(byte)?;
        return Ok(left);
    }
    text.push(byte)?;
    Ok(taps)
}

/// Appends the lines, each with the columns of a tap after it, and returns the taps that are left.
pub(crate) fn put_lines<'t>(
    text: &mut Vec<u8>,
    lines: &[u8],
    names: &ClassNames,
    taps: &'t [TracedTap],
) -> Result<&'t [TracedTap], AllocError>
    ensures { IfOk result (λ left. Puts (class_by names.now) text.old.items taps.now lines.now
        text.new.items left.now) }
{
    let mut rest = lines;
    let mut left = taps;
    while let Some((byte, trailing)) = rest.split_first() {
        left = put_byte(text, *byte, names, left)?;
        rest = trailing;
    }
    Ok(left)
}
