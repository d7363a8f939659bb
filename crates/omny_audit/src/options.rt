//! The command line.
ghost use Rattle.clap.specs.Words.{FailsBy, app_of, fault_of, found_of, matches_of, rows_of};
ghost use Rattle.clap.specs.Words.{rule_of};
ghost use Rattle.frame.specs.Names.{file_named};
ghost use Rattle.omny_audit.specs.Options.{audit_program, audit_request_by, required_table_option};
ghost use Rattle.omny_audit.specs.inside.Program.{audit_request_of};
ghost use Rattle.program_manners.specs.{TableViews.names_of, TableWords.tables_in};
ghost use Rattle.std.specs.Prelude.{◌≡◌, IfOk, Some, false, map, option_and_then, option_map};
ghost use Rattle.std.specs.Prelude.{string_bytes};

use clap::{Arg, ArgAction, ArgMatches, Command, Error};
use frame::file_of;
use program_manners::{
    ListFault, ListWords, TableWords, add_list_args, files_arg, flag_arg, flag_in, names_in,
    new_command, option_arg, positional_arg, repeated_arg, value_in, with_arg,
};
use std::alloc::{AllocError, Global};

const ABOUT: &str = "Checks a ledger under a fare table, and against uploads.

A ledger has a header line, and for each token, increasing, a line for each of
its taps: what it cost and why. It is legal where each line is the one that the
fare rules give its tap after those before it. It is settled where its lines
are in order of token, moment and validator.

With --uploads its taps must be those of the uploads before their layout
faults, each as often as there, in any order. With --report the report must be
that of its sums, and of the uploads. With --all it goes on after the first
wrong line. Of a traced ledger the classes are checked too, and with --uploads
the places of the taps. With --made-by the text and its files must be those of
FILE, which `omny_cli --made-by FILE` made. With --format json or csv each line
that is printed is an object of JSON, or a row of CSV.";

const NOTES: &str = "Examples:
  omny_audit --table table.toml ledger.csv
  omny_audit --table table.toml ledger.csv --uploads a.tap b.tap
  omny_audit --table table.toml --report bill.txt -- ledger.csv

More examples:
  find week -name '*.tap' -print0 |
    omny_audit --table table.toml ledger.csv --files-from - -0
  omny_audit --all --table table.toml ledger.csv
  omny_audit --table old.toml --table new.toml@2026-01-04 ledger.csv
  omny_audit --table table.toml --made-by bill.made ledger.csv --uploads a.tap
  omny_cli --table table.toml --settle --ledger a.tap b.tap |
    omny_audit --table table.toml --uploads a.tap b.tap

What is printed:
  legal N lines, settled
    the text is, whole, a ledger; N does not count the header line
  legal N lines, not settled: line L is earlier than the line before
    the same of a live run, whose charges depend on the order in which taps
    were drawn; L is the first such line
  line N wants LINE
    the first line that no ledger has there, and the one that its tap should
    have; line 1 is the header line
  line N is no ledger line
    the first line that no ledger has there: it is cut, too long, out of order,
    or lacks the form of a ledger's line
With --uploads a second line follows `legal N lines, ..`:
  all taps of the uploads
    the ledger has these taps, and no others
  missing tap TOKEN MOMENT VALIDATOR
    the uploads have this tap more often than the ledger
  surplus tap TOKEN MOMENT VALIDATOR
    the ledger has this tap more often than the uploads
With --all each wrong line is printed, compared with the rules after the taps
of the lines before it, and then, in place of `legal N lines, ..`:
  wrong N of M lines, of K tokens; cents C, wanted D
    C is what the lines charge, and D what the rules give their taps
With --uploads each missing and each surplus tap follows.
A traced ledger, known by its header line, is checked without its last three
columns. If it is legal or with --all, a line follows:
  all classes of the table
    each line has the class that the table names for its token
  line N has another class than CLASS
    the first line that does not
and with --uploads, where uploads count from 0 and places from 1:
  all places of the uploads
    each line has the tap at its place, and each tap a line
  line N has another tap than upload U has at place P
    the first line that does not
  line N has upload U place P again
    the first line whose place an earlier line has
  no line has upload U place P
    no line has a wrong place, and none has this tap
With --report a line follows, if the ledger is legal and its columns are right:
  report of the ledger
    each line is that of the sums of the ledger
  wrong report line N: wants LINE
    the first line that is not, and the one that should be
  wrong report line N: no report has it
    the first line that no report has there
  wrong report line N: the uploads have A taps, the ledger B
    without --uploads; N is the last line of the report's uploads
Without --uploads `upload lines not compared` follows it: any with as many taps
are taken. With --uploads the next lines name the damaged uploads, however the
ledger is:
  upload U refused TAPS at OFFSET FAULT
    the layout fault after TAPS taps, and the offset of its batch
With --made-by the files are read once more, and the last lines are
  made by omny_cli VERSION
    the ledger or the report is the text, and the tables and the uploads are
    its files, by sizes and SHA-256; names and arguments are not compared
  made by omny_cli VERSION, uploads not compared
    the same without --uploads; `text not compared` of a ledger that comes from
    the standard input
  made another text, made of NAME, not made of NAME
    neither the ledger nor the report is the text; a file of it is not given; a
    file that is given is not one of it

Exit status:
  0  the ledger is legal and settled (or with --live legal), has right columns,
     if it is traced, and, with --uploads, has their taps, none of them is
     damaged, and, with --report, the report is its own, and all is as FILE of
     --made-by says
  1  it is not, or does not; or a file, the table, memory or writing failed, as
     a line `fault: ..` on the standard error says
  2  the command line is wrong";

/// What the words request.
#[derive(Drop)]
pub(crate) struct Options<'a> {
    /// The words of the fare table and of those that follow it.
    pub(crate) table: TableWords<'a>,
    /// Whether all wrong lines are requested.
    pub(crate) all: bool,
    /// Whether a ledger that is not settled is right.
    pub(crate) live: bool,
    /// The files of the uploads whose taps the ledger should have; none requests no such check.
    pub(crate) uploads: Vec<&'a str>,
    /// The file of the report; none requests no such check.
    pub(crate) report: Option<&'a str>,
    /// The file of the ledger; none represents standard input.
    pub(crate) ledger: Option<&'a str>,
    /// The file that says what the ledger or the report was made by; none requests no such check.
    pub(crate) made_by: Option<&'a str>,
    /// The form of the findings, if it is named.
    pub(crate) format: Option<&'a str>,
}

const TABLE_HELP: &str = "Fare table; again as G@2026-01-04: from that day on";

const ALL_HELP: &str = "Print each wrong line and tap, not only the first";

const UPLOADS_HELP: &str = "Compare their taps; the list ends at an option or --";

const REPORT_HELP: &str = "Check this report of the ledger, too";

const MADE_BY_HELP: &str = "Compare with this file of `omny_cli --made-by`";

const FORMAT_HELP: &str = "Print them as text, json or csv [default: text]";

const LEDGER_HELP: &str = "A ledger of any length [default: standard input, as -]";

fn table_arg<'a>(alloc: Global) -> Arg<'a>
    ensures rule { rule_of result ≡ required_table_option }
    ensures local { result.global ≡ false }
{
    repeated_arg(alloc, "table", "F", TABLE_HELP).required(true)
}

fn command<'a>(alloc: Global) -> Result<Command<'a>, AllocError>
    ensures { IfOk result (λ command. app_of command ≡ audit_program) }
{
    let command = new_command(alloc, "omny_audit", ABOUT, NOTES);
    let command = with_arg(command, table_arg(alloc))?;
    let command = with_arg(command, flag_arg(alloc, "all", ALL_HELP))?;
    let live = flag_arg(alloc, "live", "Take a ledger of a run without --settle");
    let command = with_arg(command, live)?;
    let command = with_arg(command, files_arg(alloc, "uploads", UPLOADS_HELP))?;
    let command = with_arg(command, option_arg(alloc, "report", "REPORT", REPORT_HELP))?;
    let command = with_arg(command, option_arg(alloc, "made-by", "FILE", MADE_BY_HELP))?;
    let command = with_arg(command, option_arg(alloc, "format", "FORM", FORMAT_HELP))?;
    let command = add_list_args(alloc, command)?;
    let ledger = positional_arg(alloc, "LEDGER", ArgAction::Set, LEDGER_HELP);
    with_arg(command, ledger)
}

fn matched<'a>(alloc: Global, words: &'a [String]) -> Result<ArgMatches<'a>, Error>
    ensures rows { IfOk result (λ matches. rows_of (found_of matches)
        ≡ matches_of audit_program (map string_bytes words.entry.now)) }
    ensures kinds { FailsBy (fault_of audit_program (map string_bytes words.entry.now)) result }
{
    command(alloc)?.try_get_matches_from(words)
}

fn ledger_in<'a>(named: Option<&'a str>) -> Option<&'a str>
    ensures { option_map (λ n. n.now) result
        ≡ option_and_then file_named (option_map (λ n. n.now) named.entry) }
{
    match named {
        Some(name) => file_of(name),
        None => None,
    }
}

fn tables_of<'a>(alloc: Global, words: &[&'a str]) -> Result<TableWords<'a>, AllocError>
    ensures { IfOk result (λ tables. Some (names_of tables)
        ≡ tables_in (map (λ w. w.now) words.now)) }
{
    match TableWords::of(alloc, words)? {
        Some(tables) => Ok(tables),
        // each command line has a table at least
        None => Err(AllocError),
    }
}

impl<'a> Options<'a> {
    /// What the words request; else clap's error, which may be a call for help.
    pub(crate) fn read(alloc: Global, words: &'a [String]) -> Result<Options<'a>, Error>
        ensures request { IfOk result
            (λ options. audit_request_of options
            ≡ audit_request_by (map string_bytes words.entry.now)) }
        ensures kinds { FailsBy (fault_of audit_program (map string_bytes words.entry.now)) result }
    {
        let matches = matched(alloc, words)?;
        let tables = names_in(alloc, &matches, "table")?;
        Ok(Options {
            table: tables_of(alloc, &tables)?,
            all: flag_in(&matches, "all"),
            live: flag_in(&matches, "live"),
            uploads: names_in(alloc, &matches, "uploads")?,
            report: value_in(&matches, "report"),
            ledger: ledger_in(value_in(&matches, "LEDGER")),
            made_by: value_in(&matches, "made-by"),
            format: value_in(&matches, "format"),
        })
    }
}

/// Whether the words are a command line that names no file of the ledger.
pub(crate) fn reads_input(alloc: Global, words: &[String]) -> bool {
    Options::read(alloc, words).is_ok_and(|options| options.ledger.is_none())
}

/// The list of uploads that the words name; words that are not a command line name none. An error
/// is `NullAlone`, if they only say what ends its names, `InputTwice`, if the list and the ledger
/// are standard input, or `NoMemory`.
pub(crate) fn list_words<'a>(
    alloc: Global,
    words: &'a [String],
) -> Result<Option<ListWords<'a>>, ListFault> {
    let matches = match matched(alloc, words) {
        Ok(matches) => matches,
        Err(error) => return ListWords::unread(&error),
    };
    let has_ledger = ledger_in(matches.get_str("LEDGER")).is_some();
    match ListWords::of(&matches) {
        Ok(Some(list)) => {
            if list.name == "-" && !has_ledger {
                return Err(ListFault::InputTwice);
            }
            Ok(Some(list))
        }
        other => other,
    }
}
