//! What the words request.
ghost use Rattle.std.specs.Prelude.{◌≤◌};

use crate::later_table::LaterTable;
use jiff::Timestamp;
use program_manners::WrongWord;
use tap_rows::{Columns, Fold};

/// How an agency's CSV is read, and what is done with the rows that are not taps.
#[derive(Drop)]
pub struct RowsWords<'a> {
    pub columns: Columns<'a>,
    /// The file of devices and their validators; none if the rows have the validators' numbers.
    pub devices: Option<&'a str>,
    /// Whether this file is made anew, with the devices of the rows that it lacks.
    pub makes_devices: bool,
    /// The file of the key under which any text is a token, if there is one.
    pub key: Option<&'a str>,
    /// The zone of local times, by its name or its rule; none if they are refused.
    pub zone: Option<&'a str>,
    pub fold: Fold,
    /// The file of the rows that are not taps; none if the first of them ends the encoding.
    pub refused: Option<&'a str>,
    /// The file of the upload; none if it is written to the output.
    pub out: Option<&'a str>,
}

/// What `uploads --good-part` requests.
#[derive(Clone, Copy, Debug)]
pub struct ValidPrefixWords<'a> {
    pub upload: &'a str,
    pub out: &'a str,
    pub has_tokens: bool,
}

/// What a look at uploads requests, beside the uploads.
#[derive(Clone, Copy, Debug)]
pub struct LookWords<'a> {
    /// How many milliseconds at most a near duplicate is later than the tap before it.
    pub within: u64,
    /// The first moment that is looked at, in milliseconds since 1970-01-01T00:00Z, if it is given.
    pub first: Option<u64>,
    pub last: Option<u64>,
    /// The word of the fare table whose validators are looked at, if one is given.
    pub table: Option<&'a str>,
    pub has_list: bool,
    /// Whether it is printed how many tokens the uploads have and share. A list has no such lines.
    pub has_tokens: bool,
}

/// What `table` requests. Files are named by words of the command line.
#[derive(Drop)]
pub struct TableQuestion<'a> {
    /// The table that is valid first.
    pub table: &'a str,
    /// Those that follow it, in order.
    pub later: Vec<LaterTable<'a>>,
    /// The uploads whose validators are compared with the tables.
    pub uploads: Vec<&'a str>,
    /// Whether a warning is a fault.
    pub is_strict: bool,
    pub has_riders: bool,
    /// The moment after which changes of clocks are printed; none: now.
    pub from: Option<Timestamp>,
    /// Whether the table is written as SQL, in place of its lines.
    pub is_sql: bool,
}

/// What `sort` requests.
#[derive(Drop)]
pub struct SortingWords<'a> {
    /// Whether the uploads are in canonical order already, and are merged.
    pub is_merge: bool,
    pub out: &'a str,
    /// The file of a line for each upload, if it is made.
    pub ends: Option<&'a str>,
    pub uploads: Vec<&'a str>,
}

/// What `bounds` requests.
#[derive(Drop)]
pub struct BoundsWords<'a> {
    /// How many parts at most, 1 to 65,536.
    pub parts: u32,
    pub uploads: Vec<&'a str>,
    ghost some_part: { 1 ≤ parts },
    ghost few_parts: { parts ≤ 65536 },
}

/// What `corrections` requests.
#[derive(Clone, Copy, Debug)]
pub struct CorrectionsWords<'a> {
    /// The ledger of the bill that was issued.
    pub old: &'a str,
    /// The ledger of the bill that takes its place.
    pub new: &'a str,
    /// Whether the corrections are summed by token.
    pub is_by_token: bool,
}

/// What the words request. A file is named by its word, and `-` is standard input.
#[derive(Drop)]
pub enum Task<'a> {
    /// The upload of a tap table.
    Encode(&'a str),
    /// The upload of the rows of an agency's CSVs.
    EncodeRows(Vec<&'a str>, RowsWords<'a>),
    /// The tap table of uploads.
    Decode(Vec<&'a str>),
    /// What uploads have, and whether their tokens are counted.
    Uploads(Vec<&'a str>, bool),
    /// What one upload has, and a file of its valid prefix.
    ValidPrefix(ValidPrefixWords<'a>),
    /// What uploads have, and what is found in them.
    Look(LookWords<'a>, Vec<&'a str>),
    /// What fare tables are understood as.
    Table(TableQuestion<'a>),
    /// Uploads in one order.
    Sort(SortingWords<'a>),
    /// The texts of parts as that of the complete run.
    Merge(Vec<&'a str>),
    /// The tokens at which to divide a run over uploads.
    Bounds(BoundsWords<'a>),
    /// The corrections from one ledger to another.
    Corrections(CorrectionsWords<'a>),
    /// Nothing, since the words are wrong, as this line says.
    UsageError(&'static str),
    /// Nothing, since the words of what only informs are wrong, as this line says.
    Unshown(&'static str),
    /// Nothing, since the word of a later table has a wrong date, or none.
    WrongDate(WrongWord<'a>),
}
