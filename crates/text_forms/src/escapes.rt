//! Texts in JSON and in CSV.
ghost use Rattle.std.specs.Prelude.{◌≡◌, ◌++◌, ◌%◌, OnOk};
ghost use Rattle.text_forms.specs.inside.Escapes.{csv_byte, csv_cell, has_special, hex_digit};
ghost use Rattle.text_forms.specs.inside.Escapes.{is_special, json_byte, json_string};

use std::alloc::AllocError;

const LOW_DIGITS: u8 = 16;

fn hex_digit(byte: u8) -> u8
    ensures { result ≡ hex_digit (byte % 16) }
{
    match byte % LOW_DIGITS {
        digit @ 0..=9 => b'0' + digit,
        digit => b'W' + digit,
    }
}

fn push_json_byte(out: &mut Vec<u8>, byte: u8) -> Result<(), AllocError>
    ensures { OnOk result (out.new.items ≡ out.old.items ++ json_byte byte) }
{
    match byte {
        b'"' | b'\\' => out.extend_from_slice(&[b'\\', byte]),
        0..=31 => out.extend_from_slice(&[
            b'\\',
            b'u',
            b'0',
            b'0',
            b'0' + byte / LOW_DIGITS,
            hex_digit(byte),
        ]),
        _ => out.extend_from_slice(&[byte]),
    }
}

/// Appends the text as a string of JSON.
pub(crate) fn push_json(out: &mut Vec<u8>, text: &[u8]) -> Result<(), AllocError>
    ensures { OnOk result (out.new.items ≡ out.old.items ++ json_string text.now) }
{
    out.extend_from_slice(b"\"")?;
    for byte in text {
        push_json_byte(out, *byte)?;
    }
    out.extend_from_slice(b"\"")
}

fn is_special(byte: u8) -> bool
    ensures { result ≡ is_special byte }
{
    matches!(byte, b',' | b'"' | b'\n' | b'\r')
}

fn has_special(text: &[u8]) -> bool
    ensures { result ≡ has_special text.now }
{
    text.iter().any(|byte| is_special(*byte))
}

fn push_csv_byte(out: &mut Vec<u8>, byte: u8) -> Result<(), AllocError>
    ensures { OnOk result (out.new.items ≡ out.old.items ++ csv_byte byte) }
{
    match byte {
        b'"' => out.extend_from_slice(b"\"\""),
        _ => out.extend_from_slice(&[byte]),
    }
}

/// Appends the text as a cell of CSV.
pub(crate) fn push_cell(out: &mut Vec<u8>, text: &[u8]) -> Result<(), AllocError>
    ensures { OnOk result (out.new.items ≡ out.old.items ++ csv_cell text.now) }
{
    if !has_special(text) {
        return out.extend_from_slice(text);
    }
    out.extend_from_slice(b"\"")?;
    for byte in text {
        push_csv_byte(out, *byte)?;
    }
    out.extend_from_slice(b"\"")
}
