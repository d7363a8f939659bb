//! The command line.
ghost use Rattle.clap.specs.Words.{FailsBy, app_of, fault_of, found_of, matches_of, rows_of};
ghost use Rattle.clap.specs.Words.{rule_of};
ghost use Rattle.fare_program.specs.Options.{form_of, program, request_by, request_in};
ghost use Rattle.fare_program.specs.inside.Options.{request_of};
ghost use Rattle.std.specs.Prelude.{◌≡◌, ◌≤◌, IfOk, map, string_bytes};

use crate::options::Options;
use clap::{Arg, ArgAction, ArgMatches, Command, Error};
use fare_texts::Form;
use program_manners::{
    TableWords, add_list_args, flag_arg, flag_in, names_in, new_command, number_arg, option_arg,
    positional_arg, repeated_arg, value_in, with_arg,
};
use std::alloc::{AllocError, Global};

const ABOUT: &str = "Charges the taps of upload files by a fare table, and reports what they cost.

With --table the uploads are posted to accounts, by worker threads, and the
report is printed, or with --token the statement of one token, or with --ledger
the ledger. Without --table, or with --list, the taps are only listed, each as
live, stale or unknown.";

const NOTES: &str = "Examples:
  omny_cli --table table.toml --settle a.tap b.tap
  omny_cli --table table.toml --settle --ledger a.tap b.tap > ledger.csv

More examples:
  omny_cli --table table.toml --settle --token HEX --explain a.tap b.tap
  omny_cli --table table.toml --settle --sorted monday.tap tuesday.tap
  omny_cli --table table.toml --settle --ledger --traced a.tap b.tap
  omny_cli --table old.toml --table new.toml@2026-01-04 --settle a.tap b.tap
  omny_cli --table table.toml --settle --made-by bill.made a.tap > bill.txt
  omny_cli --table table.toml --settle --format json a.tap b.tap > bill.json
  find week -name '*.tap' -print0 |
    omny_cli --table table.toml --settle --files-from - -0
  omny_cli a.tap

What is printed:
  report     how each upload ended, then the sums of all taps, of each
             validator, of each token
  statement  each tap of the token, what it was and cost, the token's sums, its
             last window; with --explain also why each tap costs this, the
             token's terms and all its windows, with --json as JSON, with local
             times
  ledger     CSV, a header line and a line for each tap of each token, with its
             window and the reason of what it cost; with --token those of one
             token; with --traced also the class of the token, the number of
             the tap's file, from 0, and its number there, from 1
  listing    each tap: number of its file, its number there (both from 0),
             token, validator, moment in milliseconds since
             1970-01-01T00:00Z, and live (later than every known tap of its
             token before it), stale (not so) or unknown (the table lacks its
             validator)
With --settle all taps are posted in one order, so that what is printed depends
on the taps alone. Without it the order of the files and the number of workers
can change what a token pays. Of several files a note on the standard error
says so, and how many taps came too late. With --live it is left out: such a
run is meant.
With --sorted beside it each file has its taps in that order already, as
`omny_tools sort` makes it. The files are read in pieces and merged, so that
little memory is taken. A file that is out of order or has a layout fault ends
the run.
With --tokens FROM..BELOW beside it only the taps of tokens from FROM on and
below BELOW are charged: 32 hexadecimal digits each, and either may be left
out. The text begins with where these taps lie in each file. `omny_tools merge`
joins such parts. One thread makes a part.
With --made-by FILE the run makes FILE, which must not exist, after its text is
written: the program's version and arguments, the size and SHA-256 of each file
that was read, and of the text. `omny_audit --made-by FILE` checks them.
With --format json or csv a report or a statement is one JSON object, or one
table of CSV, of the same values.
Amounts are cents. Of a file with a layout fault the batches before it count,
and its line names the fault: `upload 1 refused 2 at 64 L5` in a report,
`1 refused 64 L5` in a listing. On a terminal a hint follows a fault.

Exit status:
  0  all is done, and every upload was posted, or listed without a fault
  1  an upload was not, as the text says; or a file, the table, the run, memory
     or writing failed, as a line `fault: ..` on the standard error says.
     Nothing is printed then, unless a write failed, or a sorted file did after
     all were checked: that may leave a part of the text
  2  the command line is wrong";

const TABLE_HELP: &str = "Fare table; again as G@2026-01-04: from that day on";

const LIST_HELP: &str = "List the taps, also where there is a fare table";

const WORKERS_HELP: &str = "Threads that post the uploads, 1 to 16";

const SHARDS_HELP: &str = "Shards of the accounts, 1 to 64";

const TOKEN_HELP: &str = "Print the statement of this token";

const SETTLE_HELP: &str = "Charge all taps in order of token and moment";

const LIVE_HELP: &str = "Charge taps as FILEs are drawn, without a note";

const SORTED_HELP: &str = "With --settle: merge FILEs of `omny_tools sort`";

const LEDGER_HELP: &str = "Print the ledger, of all tokens or of --token";

const EXPLAIN_HELP: &str = "Explain each line of the statement";

const JSON_HELP: &str = "Print the explained statement as JSON";

const TRACED_HELP: &str = "Add class, upload and place to the settled ledger";

const TOKENS_HELP: &str = "With --sorted: charge only tokens FROM..BELOW";

const MADE_BY_HELP: &str = "Make FILE of what made the text: sizes and SHA-256";

const FORMAT_HELP: &str = "Print it as text, json or csv [default: text]";

const FILE_HELP: &str = "Uploads, at most 64 MiB each [default: standard input, as -]";

/// The argument, which `-h` does not show.
fn hidden<'a>(arg: Arg<'a>) -> Arg<'a>
    ensures rule { rule_of result ≡ rule_of arg.entry }
    ensures local { result.global ≡ arg.entry.global }
{
    arg.hide_short_help(true)
}

/// The command line, as clap reads it.
#[tactic(auto, unfolding(crate::specs::Options::program))]
fn command<'a>(alloc: Global) -> Result<Command<'a>, AllocError>
    ensures { IfOk result (λ command. app_of command ≡ program) }
{
    let command = new_command(alloc, "omny_cli", ABOUT, NOTES);
    let command = with_arg(command, repeated_arg(alloc, "table", "F", TABLE_HELP))?;
    let command = with_arg(command, flag_arg(alloc, "settle", SETTLE_HELP))?;
    let command = with_arg(command, hidden(flag_arg(alloc, "live", LIVE_HELP)))?;
    let command = with_arg(command, flag_arg(alloc, "sorted", SORTED_HELP))?;
    let command = with_arg(command, hidden(flag_arg(alloc, "list", LIST_HELP)))?;
    let workers = number_arg(alloc, "workers", 16, "2", WORKERS_HELP);
    let command = with_arg(command, hidden(workers))?;
    let shards = number_arg(alloc, "shards", 64, "8", SHARDS_HELP);
    let command = with_arg(command, hidden(shards))?;
    let command = with_arg(command, option_arg(alloc, "token", "HEX", TOKEN_HELP))?;
    let command = with_arg(command, flag_arg(alloc, "ledger", LEDGER_HELP))?;
    let command = with_arg(command, flag_arg(alloc, "explain", EXPLAIN_HELP))?;
    let command = with_arg(command, hidden(flag_arg(alloc, "json", JSON_HELP)))?;
    let command = with_arg(command, hidden(flag_arg(alloc, "traced", TRACED_HELP)))?;
    let tokens = option_arg(alloc, "tokens", "RANGE", TOKENS_HELP);
    let command = with_arg(command, hidden(tokens))?;
    let command = with_arg(command, option_arg(alloc, "made-by", "FILE", MADE_BY_HELP))?;
    let command = with_arg(command, option_arg(alloc, "format", "FORM", FORMAT_HELP))?;
    let command = add_list_args(alloc, command)?;
    let file = positional_arg(alloc, "FILE", ArgAction::Append, FILE_HELP);
    with_arg(command, file)
}

/// The words read by clap.
pub(crate) fn matched<'a>(alloc: Global, words: &'a [String]) -> Result<ArgMatches<'a>, Error>
    ensures rows { IfOk result (λ matches. rows_of (found_of matches)
        ≡ matches_of program (map string_bytes words.entry.now)) }
    ensures kinds { FailsBy (fault_of program (map string_bytes words.entry.now)) result }
{
    command(alloc)?.try_get_matches_from(words)
}

/// The number of an option that has a default. Its parser takes only numbers of 1 to `most`.
fn number_in<'a>(matches: &ArgMatches<'a>, name: &str, most: u32) -> u32
    requires { 1 ≤ most }
    ensures { (1 ≤ result) × (result ≤ most) }
{
    let number: u32 = matches.get_one(name).unwrap_or(1);
    number.max(1).min(most)
}

impl<'a> Options<'a> {
    /// The form in which the statement is explained, if it is.
    pub(crate) fn form(&self) -> Option<Form>
        ensures { result ≡ form_of (request_of self.now) }
    {
        if !self.explain {
            return None;
        }
        if self.json {
            return Some(Form::Json);
        }
        Some(Form::Text)
    }

    fn of(alloc: Global, matches: &ArgMatches<'a>) -> Result<Options<'a>, AllocError>
        ensures { IfOk result (λ options. request_of options
            ≡ request_in options.workers options.shards (rows_of (found_of matches.now))) }
    {
        let tables = names_in(alloc, matches, "table")?;
        Ok(Options {
            table: TableWords::of(alloc, &tables)?,
            list: flag_in(matches, "list"),
            workers: number_in(matches, "workers", 16),
            shards: number_in(matches, "shards", 64),
            token: value_in(matches, "token"),
            settle: flag_in(matches, "settle"),
            live: flag_in(matches, "live"),
            sorted: flag_in(matches, "sorted"),
            ledger: flag_in(matches, "ledger"),
            explain: flag_in(matches, "explain"),
            json: flag_in(matches, "json"),
            traced: flag_in(matches, "traced"),
            tokens: value_in(matches, "tokens"),
            files: names_in(alloc, matches, "FILE")?,
        })
    }

    /// What the words ask for; else clap's error, which may be a call for help.
    pub(crate) fn read(alloc: Global, words: &'a [String]) -> Result<Options<'a>, Error>
        ensures request { IfOk result
            (λ options. request_of options ≡ request_by options.workers options.shards
            (map string_bytes words.entry.now)) }
        ensures kinds { FailsBy (fault_of program (map string_bytes words.entry.now)) result }
    {
        let matches = matched(alloc, words)?;
        Ok(Options::of(alloc, &matches)?)
    }
}
