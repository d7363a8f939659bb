//! What `encode` with columns requests.
ghost use Rattle.clap.specs.Words.{found_of, rows_of};
ghost use Rattle.std.specs.{List.slice_split, Prelude.◌≡◌, Prelude.IfOk, Prelude.map};
ghost use Rattle.std.specs.Prelude.{nat_lt, option_map};
ghost use Rattle.tool_words.specs.Columns.{columns_among, columns_text, columns_in, conditions_in};
ghost use Rattle.tool_words.specs.Columns.{conditions_of, count_in, devices_in, fold_in};
ghost use Rattle.tool_words.specs.Columns.{has_hashes, has_parts, is_comma, is_from, parts_of};
ghost use Rattle.tool_words.specs.Columns.{separator_in, unit_in, value_of};
ghost use Rattle.tool_words.specs.Request.{encoded_files, inputs_in, read_files, requested_rows};
ghost use Rattle.tool_words.specs.{Request.rows_request, Tasks.rows_words_of};
ghost use Rattle.tool_words.specs.Tasks.{condition_of, request_of, text_in, texts_of};
ghost use Rattle.tool_words.specs.inside.Columns.{names_of};

use crate::reading::{INPUT_TWICE, has_value, inputs_in};
use crate::task::{RowsWords, Task};
use clap::ArgMatches;
use program_manners::{flag_in, names_in, value_in};
use std::alloc::{AllocError, Global};
use tap_rows::{Columns, Condition, Fold, Separator, Unit};

const WRONG_COLUMNS: &str =
    "error: --columns needs token=NAME,validator=NAME,moment=NAME, each once";

const WRONG_EXPORT: &str = "error: encode --from is littlepay or tides";

/// `--from littlepay` is short for these columns, with conditions.
const LITTLEPAY: &str = "token=customer_id,validator=device_id,moment=transaction_date_time_utc";

/// `--from tides` is short for these columns, with hashes and counts of riders.
const TIDES: &str = "token=fare_media_id,validator=device_id,moment=event_timestamp";

fn has_parts(word: &str) -> bool
    ensures { result ≡ has_parts word.now }
{
    word.bytes().any(|byte| byte == b'=')
}

fn parts_of<'a>(word: &'a str) -> Condition<'a>
    ensures { condition_of result ≡ parts_of word.entry.now }
{
    match word.split_once('=') {
        Some((column, value)) => Condition { column, value },
        None => Condition {
            column: word,
            value: "",
        },
    }
}

fn all_parts<'a>(alloc: Global, words: &[&'a str]) -> Result<Vec<Condition<'a>>, AllocError>
    ensures { IfOk result (λ all. map condition_of all.items
        ≡ map (λ w. parts_of w.now) words.now) }
{
    words.iter().map(|word| parts_of(word)).collect(alloc)
}

fn conditions_in<'a>(
    alloc: Global,
    words: &[&'a str],
) -> Result<Option<Vec<Condition<'a>>>, AllocError>
    ensures { IfOk result (λ only. option_map (λ all. map condition_of all.items) only
        ≡ conditions_in (texts_of words.now)) }
{
    if !words.iter().all(|word| has_parts(word)) {
        return Ok(None);
    }
    Ok(Some(all_parts(alloc, words)?))
}

/// The words under this name, with this one if they are short for `littlepay`.
fn conditions_of<'a>(
    alloc: Global,
    matches: &ArgMatches<'a>,
    name: &str,
    more: &'a str,
) -> Result<Option<Vec<Condition<'a>>>, AllocError>
    ensures { IfOk result (λ only. option_map (λ all. map condition_of all.items) only
        ≡ conditions_of name.now more.entry.now (rows_of (found_of matches.now))) }
{
    let mut words = names_in(alloc, matches, name)?;
    if is_from(matches, "littlepay") {
        words.push(more)?;
    }
    conditions_in(alloc, &words)
}

fn value_of<'a>(column: &str, pairs: &[Condition<'a>]) -> Option<&'a str>
    ensures { text_in result ≡ value_of column.now (map condition_of pairs.now) }
{
    for pair in pairs {
        if pair.column == column {
            return Some(pair.value);
        }
    }
    None
}

/// The columns of tokens, validators and moments.
fn columns_among<'a>(pairs: &[Condition<'a>]) -> Option<(&'a str, &'a str, &'a str)>
    ensures { option_map names_of result ≡ columns_among (map condition_of pairs.now) }
{
    if pairs.len() != 3 {
        return None;
    }
    Some((
        value_of("token", pairs)?,
        value_of("validator", pairs)?,
        value_of("moment", pairs)?,
    ))
}

fn is_from(matches: &ArgMatches<'_>, name: &str) -> bool
    ensures { result ≡ is_from name.now (rows_of (found_of matches.now)) }
{
    value_in(matches, "from").unwrap_or("") == name
}

/// The value of `--columns`, or what `--from` is short for.
fn columns_text<'a>(matches: &ArgMatches<'a>) -> &'a str
    ensures { result.now ≡ columns_text (rows_of (found_of matches.now)) }
{
    if is_from(matches, "littlepay") {
        return LITTLEPAY;
    }
    if is_from(matches, "tides") {
        return TIDES;
    }
    value_in(matches, "columns").unwrap_or("")
}

fn between_commas<'a>(alloc: Global, text: &'a str) -> Result<Vec<&'a str>, AllocError>
    ensures { IfOk result (λ words. texts_of words.items ≡ slice_split is_comma text.entry.now) }
{
    text.split(',').collect(alloc)
}

fn columns_in<'a>(
    alloc: Global,
    matches: &ArgMatches<'a>,
) -> Result<Option<(&'a str, &'a str, &'a str)>, AllocError>
    ensures { IfOk result (λ columns. option_map names_of columns
        ≡ columns_in (rows_of (found_of matches.now))) }
{
    let words = between_commas(alloc, columns_text(matches))?;
    match conditions_in(alloc, &words)? {
        Some(pairs) => Ok(columns_among(&pairs)),
        None => Ok(None),
    }
}

fn separator_in(word: &str) -> Option<Separator>
    ensures { result ≡ separator_in word.now }
{
    if word == "tab" {
        return Some(Separator { byte: b'\t' });
    }
    match word.as_bytes() {
        [b'"' | b'\n' | b'\r'] => None,
        [byte] => Some(Separator { byte: *byte }),
        _ => None,
    }
}

fn unit_in(word: Option<&str>) -> Option<Unit>
    ensures { result ≡ unit_in (text_in word.entry) }
{
    match word {
        None => Some(Unit::Unsaid),
        Some(word) if word == "s" => Some(Unit::Seconds),
        Some(word) if word == "ms" => Some(Unit::Milliseconds),
        Some(word) if word == "us" => Some(Unit::Microseconds),
        Some(_) => None,
    }
}

fn fold_in(has_zone: bool, word: Option<&str>) -> Option<Fold>
    ensures { result ≡ fold_in has_zone (text_in word.entry) }
{
    match word {
        None => Some(Fold::Unsaid),
        Some(word) if has_zone && word == "first" => Some(Fold::First),
        Some(word) if has_zone && word == "second" => Some(Fold::Second),
        Some(_) => None,
    }
}

/// Standard input, if no file is named.
pub(crate) fn files_in<'a>(
    alloc: Global,
    matches: &ArgMatches<'a>,
) -> Result<Vec<&'a str>, AllocError>
    ensures { IfOk result (λ files. texts_of files.items
        ≡ encoded_files (rows_of (found_of matches.now))) }
{
    let mut files = names_in(alloc, matches, "FILE")?;
    if files.is_empty() {
        files.push("-")?;
    }
    Ok(files)
}

/// The CSVs, the device table and the key; no name, where there is none.
fn read_files<'a>(alloc: Global, matches: &ArgMatches<'a>) -> Result<Vec<&'a str>, AllocError>
    ensures { IfOk result (λ files. texts_of files.items
        ≡ read_files (rows_of (found_of matches.now))) }
{
    let mut files = files_in(alloc, matches)?;
    files.push(value_in(matches, "validators").unwrap_or(""))?;
    files.push(value_in(matches, "token-key").unwrap_or(""))?;
    Ok(files)
}

fn reads_input_twice(alloc: Global, matches: &ArgMatches<'_>) -> Result<bool, AllocError>
    ensures { IfOk result (λ twice. twice
        ≡ nat_lt 1 (inputs_in (read_files (rows_of (found_of matches.now))))) }
{
    let files = read_files(alloc, matches)?;
    Ok(inputs_in(&files) > 1)
}

/// Whether a token is the hash of its field.
fn has_hashes(matches: &ArgMatches<'_>) -> bool
    ensures { result ≡ has_hashes (rows_of (found_of matches.now)) }
{
    is_from(matches, "tides") || flag_in(matches, "token-hash")
}

/// The device table that is read, or made.
fn devices_in<'a>(matches: &ArgMatches<'a>) -> Option<&'a str>
    ensures { text_in result ≡ devices_in (rows_of (found_of matches.now)) }
{
    value_in(matches, "validators").or(value_in(matches, "validators-make"))
}

/// The column of riders.
fn count_in<'a>(matches: &ArgMatches<'a>) -> Option<&'a str>
    ensures { text_in result ≡ count_in (rows_of (found_of matches.now)) }
{
    match value_in(matches, "count") {
        None if is_from(matches, "tides") => Some("num_riders"),
        count => count,
    }
}

fn rows_words<'a>(
    matches: &ArgMatches<'a>,
    columns: (&'a str, &'a str, &'a str),
    separator: Separator,
    unit: Unit,
    fold: Fold,
    only: Vec<Condition<'a>>,
    without: Vec<Condition<'a>>,
) -> RowsWords<'a>
    ensures { rows_words_of result ≡ requested_rows (names_of columns.entry) separator unit fold
        (map condition_of only.entry.items) (map condition_of without.entry.items)
        (rows_of (found_of matches.now)) }
{
    let columns = Columns {
        separator,
        token: columns.0,
        validator: columns.1,
        moment: columns.2,
        has_hashes: has_hashes(matches),
        unit,
        format: value_in(matches, "moment-format"),
        only,
        without,
        count: count_in(matches),
    };
    RowsWords {
        columns,
        devices: devices_in(matches),
        makes_devices: has_value(matches, "validators-make"),
        key: value_in(matches, "token-key"),
        zone: value_in(matches, "zone"),
        fold,
        refused: value_in(matches, "refused"),
        out: value_in(matches, "out"),
    }
}

pub(crate) fn rows_task<'a>(alloc: Global, matches: &ArgMatches<'a>) -> Result<Task<'a>, AllocError>
    ensures { IfOk result (λ task. request_of task ≡ rows_request (rows_of (found_of matches.now))) }
{
    let files = files_in(alloc, matches)?;
    let columns = columns_in(alloc, matches)?;
    let only = conditions_of(alloc, matches, "only", "transaction_outcome=allow")?;
    let without = conditions_of(alloc, matches, "drop", "type=off")?;
    let Some(columns) = columns else {
        let is_named = has_value(matches, "from");
        return Ok(Task::UsageError(if is_named {
            WRONG_EXPORT
        } else {
            WRONG_COLUMNS
        }));
    };
    let Some(separator) = separator_in(value_in(matches, "separator").unwrap_or(",")) else {
        return Ok(Task::UsageError("error: --separator is one byte, not a quote, or tab"));
    };
    let Some(unit) = unit_in(value_in(matches, "unit")) else {
        return Ok(Task::UsageError("error: --unit is s, ms or us"));
    };
    let Some(fold) = fold_in(has_value(matches, "zone"), value_in(matches, "fold")) else {
        return Ok(Task::UsageError("error: --fold is first or second, beside --zone"));
    };
    let Some(only) = only else {
        return Ok(Task::UsageError("error: --only needs COLUMN=VALUE"));
    };
    let Some(without) = without else {
        return Ok(Task::UsageError("error: --drop needs COLUMN=VALUE"));
    };
    if reads_input_twice(alloc, matches)? {
        return Ok(Task::UsageError(INPUT_TWICE));
    }
    let words = rows_words(matches, columns, separator, unit, fold, only, without);
    Ok(Task::EncodeRows(files, words))
}
