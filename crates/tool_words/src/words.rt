//! From the words to what they request.
ghost use Rattle.std.specs.Prelude.{◌≡◌, ◌⊎◌, IfErr, IfOk, codes, length, map, nat_lt};
ghost use Rattle.std.specs.Prelude.{option_map, string_bytes};
ghost use Rattle.clap.specs.Words.{FailsBy, fault_of, found_of, kind_of, rows_of, subcommand_of};
ghost use Rattle.clap.specs.Words.{subcommand_rows_of};
ghost use Rattle.program_manners.specs.Words.{AsksForText, IsRequest};
ghost use Rattle.tool_words.specs.Request.{corrections_request, encode_request};
ghost use Rattle.tool_words.specs.Request.{merge_request, request_by, request_of_name};
ghost use Rattle.tool_words.specs.Request.{shows, sort_request, table_request, uploads_request};
ghost use Rattle.tool_words.specs.Tasks.{request_of, texts_of};
ghost use Rattle.tool_words.specs.ToolLine.{Parses, entered, named, program};

use crate::encode_words::{files_in, rows_task};
use crate::program::command;
use crate::reading::{
    INPUT_TWICE, has_any, has_input_twice, has_value, inputs_in, is_input, number_in,
};
use crate::rules::{breaks_rule, looks};
use crate::table_words::table_task;
use crate::task::{BoundsWords, CorrectionsWords, SortingWords, Task};
use crate::uploads_words::{look_task, valid_prefix_task};
use clap::error::ErrorKind;
use clap::{ArgMatches, Error};
use program_manners::{flag_in, names_in, value_in};
use std::alloc::{AllocError, Global};

const MAX_PARTS: u32 = 65_536;

/// Of a tap table, unless the words are of the rows of an agency's CSV.
fn table_rows_task<'a>(matches: &ArgMatches<'a>, has_files: bool) -> Task<'a>
    requires { has_files
        ≡ nat_lt 1 (length (named (codes "FILE") (rows_of (found_of matches.now)))) }
    ensures { request_of result ≡ table_request (rows_of (found_of matches.now)) }
{
    if has_any(matches, &["only", "separator", "refused"]) {
        return Task::UsageError("error: --only, --separator and --refused need --columns");
    }
    if has_value(matches, "validators") {
        return Task::UsageError("error: --validators needs --columns");
    }
    if has_value(matches, "unit") {
        return Task::UsageError("error: --unit needs --columns");
    }
    if flag_in(matches, "token-hash")
        || has_any(matches, &["drop", "count", "token-key", "zone", "fold"])
    {
        return Task::UsageError(
            "error: --drop, --count, --token-hash, --token-key, --zone, --fold need --columns",
        );
    }
    if has_files || has_any(matches, &["moment-format", "validators-make", "out"]) {
        return Task::UsageError(
            "error: --moment-format, --validators-make, --out, several FILEs need --columns",
        );
    }
    Task::Encode(value_in(matches, "FILE").unwrap_or("-"))
}

#[tactic(auto, using(crate::proofs::Columns::many_named))]
fn encode_task<'a>(alloc: Global, matches: &ArgMatches<'a>) -> Result<Task<'a>, AllocError>
    ensures { IfOk result (λ task. request_of task ≡ encode_request (rows_of (found_of matches.now))) }
{
    if has_value(matches, "columns") && has_value(matches, "from") {
        return Ok(Task::UsageError("error: --columns cannot be used with --from"));
    }
    if has_value(matches, "columns") || has_value(matches, "from") {
        return rows_task(alloc, matches);
    }
    let files = names_in(alloc, matches, "FILE")?;
    Ok(table_rows_task(matches, files.len() > 1))
}

fn uploads_task<'a>(alloc: Global, matches: &ArgMatches<'a>) -> Result<Task<'a>, AllocError>
    ensures { IfOk result (λ task. request_of task ≡ uploads_request (rows_of (found_of matches.now))) }
{
    if let Some(out) = value_in(matches, "good-part") {
        let words = names_in(alloc, matches, "FILE")?;
        return Ok(valid_prefix_task(out, flag_in(matches, "tokens"), &words));
    }
    if looks(matches) {
        return look_task(alloc, matches);
    }
    let has_tokens = flag_in(matches, "tokens");
    Ok(Task::Uploads(names_in(alloc, matches, "FILE")?, has_tokens))
}

/// Uploads that are merged are read at any offset.
fn sort_task<'a>(alloc: Global, matches: &ArgMatches<'a>) -> Result<Task<'a>, AllocError>
    ensures { IfOk result (λ task. request_of task ≡ sort_request (rows_of (found_of matches.now))) }
{
    let is_merge = flag_in(matches, "merge");
    let uploads = names_in(alloc, matches, "UPLOAD")?;
    let inputs = inputs_in(&uploads);
    if inputs > 0 && is_merge {
        return Ok(Task::UsageError("error: --merge reads files, and - is none"));
    }
    if inputs > 1 {
        return Ok(Task::UsageError(INPUT_TWICE));
    }
    Ok(Task::Sort(SortingWords {
        is_merge,
        out: value_in(matches, "out").unwrap_or("-"),
        ends: value_in(matches, "ends"),
        uploads,
    }))
}

fn merge_task<'a>(parts: Vec<&'a str>) -> Task<'a>
    ensures { request_of result ≡ merge_request (texts_of parts.entry.items) }
{
    if inputs_in(&parts) > 1 {
        return Task::UsageError(INPUT_TWICE);
    }
    Task::Merge(parts)
}

/// Uploads that are sampled are read at any offset, too.
fn bounds_task<'a>(alloc: Global, matches: &ArgMatches<'a>) -> Result<Task<'a>, AllocError>
    ensures { IfOk result (λ task. request_of task ≡ shows) }
{
    let parts = number_in(matches, "parts", 1).max(1).min(MAX_PARTS);
    let uploads = names_in(alloc, matches, "FILE")?;
    if inputs_in(&uploads) > 0 {
        return Ok(Task::Unshown("error: bounds reads files, and - is none"));
    }
    Ok(Task::Bounds(BoundsWords { parts, uploads }))
}

fn corrections_task<'a>(matches: &ArgMatches<'a>) -> Task<'a>
    ensures { request_of result ≡ corrections_request (rows_of (found_of matches.now)) }
{
    let words = CorrectionsWords {
        old: value_in(matches, "OLD").unwrap_or("-"),
        new: value_in(matches, "NEW").unwrap_or("-"),
        is_by_token: flag_in(matches, "tokens"),
    };
    if is_input(words.old) && is_input(words.new) {
        return Task::UsageError(INPUT_TWICE);
    }
    Task::Corrections(words)
}

fn task_of_name<'a>(
    alloc: Global,
    name: &'a str,
    matches: ArgMatches<'a>,
) -> Result<Task<'a>, AllocError>
    ensures { IfOk result (λ task. request_of task
        ≡ request_of_name name.entry.now (rows_of (found_of matches.entry))) }
{
    if has_input_twice(alloc, &matches)? {
        return Ok(Task::UsageError(INPUT_TWICE));
    }
    if name == "encode" {
        return encode_task(alloc, &matches);
    }
    if name == "decode" {
        return Ok(Task::Decode(files_in(alloc, &matches)?));
    }
    if name == "uploads" {
        return uploads_task(alloc, &matches);
    }
    if name == "sort" {
        return sort_task(alloc, &matches);
    }
    if name == "merge" {
        return Ok(merge_task(names_in(alloc, &matches, "PART")?));
    }
    if name == "bounds" {
        return bounds_task(alloc, &matches);
    }
    if name == "corrections" {
        return Ok(corrections_task(&matches));
    }
    table_task(alloc, &matches)
}

/// The subcommand that the words enter, and what it is given, unless a rule between its arguments
/// is broken.
pub(crate) fn entered<'a>(
    alloc: Global,
    words: &'a [String],
) -> Result<Option<(&'a str, ArgMatches<'a>)>, Error>
    ensures rows { IfOk result (λ found. option_map (λ p. (p.0.now, rows_of (found_of p.1))) found
        ≡ entered (map string_bytes words.now)) }
    ensures kinds { FailsBy (fault_of program (map string_bytes words.now)) result }
{
    let Some((name, found)) = subcommand_in(matched(alloc, words)?) else {
        return Ok(None);
    };
    if breaks_rule(name, &found) {
        return Ok(None);
    }
    Ok(Some((name, found)))
}

/// The words read by clap, without the rules between arguments.
fn matched<'a>(alloc: Global, words: &'a [String]) -> Result<ArgMatches<'a>, Error>
    ensures rows { IfOk result (λ matches. subcommand_rows_of matches
        ≡ subcommand_of program (map string_bytes words.entry.now)) }
    ensures kinds { FailsBy (fault_of program (map string_bytes words.entry.now)) result }
{
    command(alloc, false)?.try_get_matches_from(words)
}

#[tactic(auto, using(crate::proofs::Entered::entered_pair))]
fn subcommand_in<'a>(matches: ArgMatches<'a>) -> Option<(&'a str, ArgMatches<'a>)>
    ensures { option_map (λ p. (p.0.now, rows_of (found_of p.1))) result
        ≡ subcommand_rows_of matches.entry }
{
    let mut matches = matches;
    matches.remove_subcommand()
}

/// The usage error that clap finds in the words with the rules between arguments; else this one.
fn whole_error<'a>(alloc: Global, words: &'a [String], error: Error) -> Error
    ensures { (kind_of result ≡ kind_of error) ⊎ (¬ IsRequest (kind_of result)) }
{
    let Ok(whole) = command(alloc, true) else {
        return error;
    };
    match whole.try_get_matches_from(words) {
        Ok(_taken) => error,
        Err(found) if found.use_stderr() => found,
        Err(_) => error,
    }
}

/// What the words request, the program's name first; else clap's error, which may be a call for
/// help.
pub fn read<'a>(alloc: Global, words: &'a [String]) -> Result<Task<'a>, Error>
    ensures request { IfOk result (λ task. Parses (map string_bytes words.entry.now)
        × (request_of task ≡ request_by (map string_bytes words.entry.now))) }
    ensures wrong { IfErr result (λ error. (kind_of error ≡ ErrorKind.OutOfMemory)
        ⊎ ((¬ Parses (map string_bytes words.entry.now))
        × (IsRequest (kind_of error) → AsksForText program (map string_bytes words.entry.now)))) }
{
    match entered(alloc, words) {
        Ok(Some((name, found))) => Ok(task_of_name(alloc, name, found)?),
        Ok(None) => Err(whole_error(alloc, words, Error::from(AllocError))),
        Err(error) if error.kind() == ErrorKind::OutOfMemory || !error.use_stderr() => Err(error),
        Err(error) => Err(whole_error(alloc, words, error)),
    }
}
