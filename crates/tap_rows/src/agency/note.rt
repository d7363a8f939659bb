//! What a fault shows beside its reason. It only informs.

use crate::agency::choice::{Choice, Columns};
use crate::agency::fault::{AgencyFault, Wanted};
use crate::agency::positions::{Positions, has_at};
use crate::agency::reading::{Reading, Reason, field_in};
use csv::ByteRecord;
use itoa::Buffer;
use std::alloc::{AllocError, Global};
use strsim::osa_distance;

/// As many letters of a field are shown.
const SHOWN_LETTERS: usize = 40;

/// As many columns of a head are shown.
const SHOWN_COLUMNS: usize = 20;

/// A text in quotes, cut, with a question mark for each control character.
fn push_text(note: &mut String, text: &str) -> Result<(), AllocError> {
    note.push('"')?;
    let mut left = SHOWN_LETTERS;
    for letter in text.chars() {
        if left == 0 {
            note.push_str("..")?;
            break;
        }
        left -= 1;
        note.push(if letter.is_control() { '?' } else { letter })?;
    }
    note.push('"')
}

fn push_field(note: &mut String, field: &[u8]) -> Result<(), AllocError> {
    match str::from_utf8(field) {
        Ok(text) => push_text(note, text),
        Err(_) => note.push_str("not UTF-8"),
    }
}

fn push_number(note: &mut String, number: usize) -> Result<(), AllocError> {
    let mut digits = Buffer::new();
    note.push_str(digits.format(number))
}

/// A column of a row. Under a key no value of the column of tokens is shown.
#[derive(Clone, Copy)]
struct Cell<'a> {
    row: &'a ByteRecord,
    is_secret: bool,
    column: &'a str,
    position: usize,
}

fn push_value(note: &mut String, cell: Cell<'_>) -> Result<(), AllocError> {
    note.push_str(": ")?;
    push_text(note, cell.column)?;
    if cell.is_secret {
        return note.push_str(", which is not shown under --token-key");
    }
    note.push_str(" is ")?;
    push_field(note, field_in(cell.row, cell.position))
}

fn push_refusal(
    note: &mut String,
    choice: &Choice<'_>,
    positions: &Positions<'_>,
    row: &ByteRecord,
    reason: Reason,
) -> Result<(), AllocError> {
    let columns = choice.columns;
    let (column, position) = match reason {
        Reason::Fields => {
            note.push_str(": ")?;
            push_number(note, row.len())?;
            note.push_str(", and the head has ")?;
            return push_number(note, positions.width);
        }
        Reason::Token => (columns.token, positions.token),
        Reason::Validator | Reason::Device => (columns.validator, positions.validator),
        Reason::LocalTime | Reason::Skipped | Reason::Twice | Reason::Early | Reason::Moment => (
            columns.moment,
            positions.moment,
        ),
        Reason::Riders => match (columns.count, positions.count) {
            (Some(name), Some(position)) => (name, position),
            _ => return Ok(()),
        },
    };
    let cell = Cell {
        row,
        is_secret: choice.key.is_some() && position == positions.token,
        column,
        position,
    };
    push_value(note, cell)
}

/// Notes the first row that is refused, as far as memory allows.
pub(crate) fn note_reading(
    note: &mut String,
    choice: &Choice<'_>,
    positions: &Positions<'_>,
    row: &ByteRecord,
    reading: &Reading,
) {
    if let Reading::Refused(reason) = reading {
        if note.is_empty() {
            let _noted = push_refusal(note, choice, positions, row, *reason);
        }
    }
}

fn column_of<'a>(columns: &Columns<'a>, wanted: Wanted) -> &'a str {
    match wanted {
        Wanted::Token => columns.token,
        Wanted::Validator => columns.validator,
        Wanted::Moment => columns.moment,
        Wanted::Only(index) => match columns.only.get(index) {
            Some(condition) => condition.column,
            None => "",
        },
        Wanted::Without(index) => match columns.without.get(index) {
            Some(condition) => condition.column,
            None => "",
        },
        Wanted::Count => columns.count.unwrap_or(""),
    }
}

/// What another kind of file begins with, and what to do with it.
fn kind_of(first: &[u8]) -> Option<&'static str> {
    if first.starts_with(&[0x1f, 0x8b]) {
        Some("it is gzip: zcat FILE | omny_tools encode .. -")
    } else if first.starts_with(b"PK\x03\x04") {
        Some(
            "it is zip, as a spreadsheet is: save the sheet as CSV, or unzip -p FILE | omny_tools encode .. -",
        )
    } else if first.starts_with(b"PAR1") {
        Some("it is Parquet: duckdb -csv -c \"from read_parquet('FILE')\" | omny_tools encode .. -")
    } else if first.starts_with(&[0xff, 0xfe]) || first.starts_with(&[0xfe, 0xff]) {
        Some("it is UTF-16: iconv -f UTF-16 -t UTF-8 FILE | omny_tools encode .. -")
    } else if first.get(1) == Some(&0) {
        Some("it is UTF-16: iconv -f UTF-16LE -t UTF-8 FILE | omny_tools encode .. -")
    } else if first.first() == Some(&0) {
        Some("it is UTF-16: iconv -f UTF-16BE -t UTF-8 FILE | omny_tools encode .. -")
    } else if first.starts_with(b"sep=") {
        Some("its first line says what the separator is: tail -n +2 FILE | omny_tools encode .. -")
    } else {
        None
    }
}

/// The column of the fewest edits that may be meant, and the first such.
fn nearest<'a>(
    alloc: Global,
    head: &'a ByteRecord,
    name: &str,
) -> Result<Option<&'a str>, AllocError> {
    let mut best: Option<(usize, &'a str)> = None;
    for position in 0..head.len().min(SHOWN_COLUMNS) {
        if let Ok(column) = str::from_utf8(field_in(head, position)) {
            let edits = osa_distance(alloc, name, column)?;
            let is_better = match best {
                Some((least, _)) => edits < least,
                None => edits.saturating_mul(2) <= name.len(),
            };
            if is_better {
                best = Some((edits, column));
            }
        }
    }
    match best {
        Some((_, column)) => Ok(Some(column)),
        None => Ok(None),
    }
}

/// Under a key no names are shown: without a header the first row has a card's number.
fn push_columns(
    note: &mut String,
    choice: &Choice<'_>,
    head: &ByteRecord,
) -> Result<(), AllocError> {
    note.push_str(": there are ")?;
    if choice.key.is_some() {
        push_number(note, head.len())?;
        return note.push_str(", which are not shown under --token-key");
    }
    for position in 0..head.len() {
        if position > 0 {
            note.push_str(", ")?;
        }
        if position == SHOWN_COLUMNS {
            return note.push_str("..");
        }
        push_field(note, field_in(head, position))?;
    }
    Ok(())
}

fn push_head(
    alloc: Global,
    note: &mut String,
    choice: &Choice<'_>,
    head: &ByteRecord,
    name: &str,
) -> Result<(), AllocError> {
    if let Some(kind) = kind_of(field_in(head, 0)) {
        note.push_str(": ")?;
        return note.push_str(kind);
    }
    for position in 0..head.len() {
        if has_at(head, position, name.as_bytes()) {
            return note.push_str(": it is there more than once");
        }
    }
    push_columns(note, choice, head)?;
    if let Some(column) = nearest(alloc, head, name)? {
        note.push_str("; is ")?;
        push_text(note, column)?;
        note.push_str(" meant?")?;
    }
    Ok(())
}

/// Notes what a head has in place of the column that is wanted, as far as memory allows.
pub(crate) fn note_fault(
    alloc: Global,
    note: &mut String,
    choice: &Choice<'_>,
    head: &ByteRecord,
    fault: &AgencyFault,
) {
    if let AgencyFault::Column(wanted) = fault {
        let _noted = push_head(
            alloc,
            note,
            choice,
            head,
            column_of(choice.columns, *wanted),
        );
    }
}
