//! What `encode` makes of an agency's own CSVs, once they are loaded and it is known how they are read.
ghost use Rattle.frame.specs.Outsides.{Stops};
ghost use Rattle.std.specs.Prelude.{◌≡◌, ℕ, [], Contains, IfErr, IfOk, List, MatchResult, OnOk};
ghost use Rattle.std.specs.Prelude.{option_map};
ghost use Rattle.tap_rows.specs.Devices.{devices_of};
ghost use Rattle.tool_tasks.specs.EncodeRows.{AddsCsv, IsGivenOf, IsWrongCsv, device_files};
ghost use Rattle.tool_tasks.specs.EncodeRows.{nothing_encoded, rows_status, upload_files};
ghost use Rattle.tool_tasks.specs.EncodeRows.{upload_text, with_csv, word_in};
ghost use Rattle.tool_tasks.specs.inside.EncodeRows.{AreOf, IsPrepared, csvs_of, encoded_of};
ghost use Rattle.tool_tasks.specs.inside.Prepared.{files_in, whole_of};

use crate::fault::Fault;
use crate::names::{Name, word_at};
use crate::prepared::{NewFile, Prepared, new_file};
use crate::quotes::open_quote;
use crate::stops::Halt;
use crate::uploads::push_moment;
use crate::wrong_tables::reason_text;
use frame::Outside;
use std::alloc::{AllocError, Global};
use tap_rows::{
    AgencyFault, Choice, Columns, EncodedRows, Summary, Wanted, device_text, encode_rows,
};
use tool_words::RowsWords;

/// The name of a column.
fn name_of<'a>(columns: &Columns<'a>, wanted: Wanted) -> &'a str {
    match wanted {
        Wanted::Token => columns.token,
        Wanted::Validator => columns.validator,
        Wanted::Moment => columns.moment,
        Wanted::Only(position) => columns.only.get(position).map_or("", |only| only.column),
        Wanted::Without(position) => columns.without.get(position).map_or("", |not| not.column),
        Wanted::Count => columns.count.unwrap_or(""),
    }
}

/// Appends how many rows there are of each kind, and the first and the last moment; of several CSVs
/// also what this one is called. No clause says what is appended.
fn push_summary(
    text: &mut String,
    is_many: bool,
    word: &str,
    summary: &Summary,
) -> Result<(), AllocError> {
    let (read, taps) = (summary.rows(), summary.taps);
    let (left_out, refused) = (summary.left_out, summary.refused);
    write!(
        text,
        "read {read} taps {taps} left out {left_out} refused {refused} first "
    )?;
    push_moment(text, summary.span.map(|span| span.first))?;
    text.push_str(" last ")?;
    push_moment(text, summary.span.map(|span| span.last))?;
    if is_many {
        write!(text, " {}", Name(word))?;
    }
    text.push_str("\n")
}

/// What CSVs are encoded as.
#[derive(Drop)]
pub(crate) struct Encoded {
    pub(crate) upload: Vec<u8>,
    pub(crate) rows: Vec<u8>,
    pub(crate) note: String,
    pub(crate) has_taps: bool,
    pub(crate) has_refused: bool,
}

impl Encoded {
    fn new(alloc: Global) -> Encoded
        ensures { encoded_of result ≡ nothing_encoded }
    {
        Encoded {
            upload: Vec::new(alloc),
            rows: Vec::new(alloc),
            note: String::new(alloc),
            has_taps: false,
            has_refused: false,
        }
    }

    /// Appends one more CSV, and its line.
    fn add(&mut self, is_many: bool, word: &str, csv: &EncodedRows) -> Result<(), AllocError>
        ensures { OnOk result (encoded_of self.new ≡ with_csv (encoded_of self.old)
            csv.now.upload.items csv.now.refused.items csv.now.summary) }
    {
        self.upload.extend_from_slice(&csv.upload)?;
        self.rows.extend_from_slice(&csv.refused)?;
        self.has_taps |= csv.summary.taps != 0;
        self.has_refused |= csv.summary.refused != 0;
        push_summary(&mut self.note, is_many, word, &csv.summary)?;
        Ok(())
    }
}

/// Encodes one more CSV. What else there is to say of a wrong one goes to `more`.
fn encode_csv<'a>(
    alloc: Global,
    words: &RowsWords<'a>,
    is_many: bool,
    choice: &Choice<'_>,
    word: &'a str,
    text: &Vec<u8>,
    more: &mut String,
    all: &mut Encoded,
) -> Result<(), Halt<'a>>
    ensures added { OnOk result (AddsCsv words.now choice.now text.now.items
        (encoded_of all.old) (encoded_of all.new)) }
    ensures stopped { IfErr result
        (λ halt. Stops (IsWrongCsv words.now choice.now text.now.items) halt.0) }
{
    more.clear();
    if let Some(line) = open_quote(text, words.columns.separator.byte) {
        write!(more, "\nfault: cannot read {}", Name(word))?;
        let wrong = Fault::Line(word, line, "a quote is not closed");
        return Err(Halt(Outside::Untraced, wrong));
    }
    match encode_rows(alloc, choice, text, more) {
        Err(AgencyFault::NoMemory) => Err(Halt(Outside::NoMemory, Fault::NoMemory)),
        Err(AgencyFault::Column(wanted)) => {
            let wrong = Fault::Column(word, name_of(&words.columns, wanted));
            Err(Halt(Outside::Wrong, wrong))
        }
        Ok(encoded) => match (words.refused, encoded.summary.first_refused) {
            (None, Some((number, reason))) => {
                let wrong = Fault::Row(word, number, reason_text(reason));
                Err(Halt(Outside::Wrong, wrong))
            }
            _ => {
                all.add(is_many, word, &encoded)?;
                Ok(())
            }
        },
    }
}

/// What is written of an upload, and the file that is made of it.
fn upload_file<'a>(
    alloc: Global,
    name: Option<&'a str>,
    upload: Vec<u8>,
) -> (Vec<u8>, Option<NewFile<'a>>)
    ensures text { result.0.items ≡ upload_text (word_in name.entry) upload.items }
    ensures file { files_in result.1 ≡ upload_files (word_in name.entry) upload.items }
{
    match name {
        None => (upload, None),
        Some(_) if upload.is_empty() => (Vec::new(alloc), None),
        Some(name) => {
            let file = NewFile {
                name,
                bytes: upload,
                is_new: false,
                unmade: Fault::Write,
            };
            (Vec::new(alloc), Some(file))
        }
    }
}

/// The device table that is made; a table that was not there may not come in between.
fn device_file<'a>(
    alloc: Global,
    words: &RowsWords<'a>,
    is_there: bool,
    choice: &Choice<'_>,
) -> Result<Option<NewFile<'a>>, AllocError>
    ensures { IfOk result (λ file. files_in file ≡ device_files words.now.makes_devices
        (word_in words.now.devices)
        (option_map (λ table. devices_of table.now) choice.now.devices)) }
{
    if !words.makes_devices {
        return Ok(None);
    }
    match (words.devices, choice.devices) {
        (Some(name), Some(devices)) => Ok(Some(NewFile {
            name,
            bytes: device_text(alloc, devices)?,
            is_new: !is_there,
            unmade: Fault::Write,
        })),
        _ => Ok(None),
    }
}

fn status_of(all: &Encoded) -> u8
    ensures { result ≡ rows_status (encoded_of all.now) }
{
    if !all.has_taps {
        1
    } else if all.has_refused {
        3
    } else {
        0
    }
}

/// What is written, made and noted of CSVs that are encoded.
fn prepare_encoded<'a>(
    alloc: Global,
    words: &RowsWords<'a>,
    is_there: bool,
    choice: &Choice<'_>,
    all: Encoded,
) -> Result<Prepared<'a>, AllocError>
    ensures { IfOk result (λ prepared. AreOf words.now prepared × IsGivenOf words.now choice.now
        (encoded_of all) (whole_of [] prepared) prepared.status) }
{
    let status = status_of(&all);
    let devices = device_file(alloc, words, is_there, choice)?;
    let Encoded {
        upload,
        rows,
        note,
        has_taps: _,
        has_refused: _,
    } = all;
    let (text, upload) = upload_file(alloc, words.out, upload);
    Ok(Prepared {
        text,
        first: devices,
        upload,
        held: new_file(words.refused, rows, true, Fault::Write),
        note,
        status,
    })
}

/// What is written, made and noted of CSVs of these names. What else there is to say of a wrong one
/// goes to `more`.
pub(crate) fn prepare_csvs<'a>(
    alloc: Global,
    words: &RowsWords<'a>,
    names: &[&'a str],
    is_there: bool,
    choice: &Choice<'_>,
    csvs: &[Vec<u8>],
    more: &mut String,
) -> Result<Prepared<'a>, Halt<'a>>
    ensures { MatchResult result (IsPrepared words.now choice.now (csvs_of csvs.now))
        (λ halt. Stops ((csv : List ℕ) × Contains (csvs_of csvs.now) csv
        × IsWrongCsv words.now choice.now csv) halt.0) }
{
    let is_many = csvs.len() > 1;
    let mut all = Encoded::new(alloc);
    for number in 0..csvs.len() {
        let csv = &csvs[number];
        let word = word_at(names, number).unwrap_or("");
        encode_csv(alloc, words, is_many, choice, word, csv, more, &mut all)?;
    }
    match prepare_encoded(alloc, words, is_there, choice, all) {
        Ok(prepared) => Ok(prepared),
        Err(AllocError) => Err(Halt(Outside::NoMemory, Fault::NoMemory)),
    }
}
