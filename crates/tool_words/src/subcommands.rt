//! The program's texts, and the subcommands, with their arguments and helps.

use crate::arguments::{Files, Row, Subcommand, Takes};

/// The arguments of a subcommand, each with its name, what it takes, and its help.
macro_rules! rows {
    ($($name:literal: $takes:ident $(($($value:literal),+))?, $help:literal;)+) => {
        &[$(Row($name, Takes::$takes $(($($value),+))?, $help)),+]
    };
}

/// Examples, and what most statuses mean.
macro_rules! with_status {
    ($examples:literal) => {
        concat!(
            $examples,
            "

Exit status:
  0  all is done
  1  a file has a fault, or could not be read or written, as a line `fault: ..`
     on the standard error says
  2  the command line is wrong"
        )
    };
}

pub(crate) const ABOUT: &str =
    "Makes uploads of taps and back, and shows what uploads and fare tables have.";

pub(crate) const NOTES: &str = with_status!(
    "Examples:
  omny_tools encode taps.csv > day.tap
  omny_tools uploads --look monday.tap tuesday.tap
  omny_tools sort --out week.tap monday.tap tuesday.tap
  omny_tools encode --help"
);

pub(crate) const SUBCOMMANDS: [Subcommand; 8] = [
    // `encode [--columns NAMES | --from EXPORT [OPTION...]] [FILE...]`
    Subcommand {
        name: "encode",
        about: "Makes an upload of a tap table, or of any CSV of an agency.

The upload goes to standard output. The tap table is CSV. Its first line is
token,validator,moment. Each other line is a tap: 32 hexadecimal digits, a
number from 0 to 4294967295, and a moment before 2100, in milliseconds since
1970-01-01T00:00Z or as 2024-03-08T17:00:00Z. A field may be between double
quotes. A line ends with LF or CRLF.

The taps come out in the order of their lines, in TAP1 batches of 4096, the
last of fewer. If a line is wrong, nothing is written, and its number is
reported. The table is read whole, into memory.

With --columns the file is any CSV with a header line, as an agency has it:
fields in quotes by RFC 4180, a byte order mark or none. A token may be a UUID,
too, and a moment may have an offset, as 2024-03-08 12:00:00-05:00. The last
line on the standard error reports how many rows were read, how many are taps,
left out and refused, and the first and the last moment. The header is row 1.

Several CSVs make one upload, each with its own header, and a last line for
each. With --out the upload is the file OUT, whole, and none if there is no tap.

With --columns a plain number is a moment in milliseconds. Moments before 2000
are refused, since they may be seconds: --unit s reads plain numbers as
seconds, --unit ms as milliseconds of any year, --unit us as microseconds.

With --validators the column of validators has the names of devices. DEVICES is
CSV with the header device,validator and a row for each device, which gives it
its number. A row of another device is no tap. --validators-make also numbers
the devices that DEVICES lacks, from its greatest number on, and makes it anew.
Without the file it begins with 1. Keep it, so that numbers stay the same.

With --token-key any text is a token: the first 16 bytes of its HMAC-SHA-256.
The key is the bytes of the file KEY, without a line feed at its end, 1 to
65536. Keep it: other keys make other tokens. Whoever has it can try numbers.

With --moment-format moments are read by this format of strptime: a date of
year, month and day, at least hour and minute, and an offset (%z) or --zone; or
seconds since 1970 (%s). Weekdays are passed over.

With --zone times without an offset are of this zone: a name as
America/New_York, of the system's zone files, or a POSIX rule. A time that
clocks show twice is refused without --fold, and one that they skip always.",
        notes: "Examples:
  omny_tools encode taps.csv > day.tap
  omny_tools encode --columns token=card,validator=reader,moment=tapped_at
    --only result=ok export.csv > day.tap

More examples:
  omny_tools encode --columns token=card,validator=reader,moment=tapped_at
    --only result=ok --validators readers.csv --refused refused.csv
    export.csv > day.tap
  omny_tools encode --from tides --validators-make readers.csv --out day.tap
    bus.csv tram.csv

Exit status:
  0  the upload is written
  1  a file has a fault, or could not be read or written, as a line `fault: ..`
     on the standard error says; with --columns also if no row is a tap
  2  the command line is wrong, or standard output is a terminal
  3  with --refused: the upload is written, and rows were refused",
        rows: rows! {
            "columns": Value("NAMES"), "As token=NAME,validator=NAME,moment=NAME";
            "from": Value("EXPORT"), "In place of --columns: littlepay or tides";
            "validators": Value("DEVICES"), "A file with the validator of each device";
            "validators-make": Value("DEVICES"), "The same; new devices get the next numbers";
            "only": Values("COLUMN=VALUE"), "Keep rows with this value, or one of several";
            "drop": Values("COLUMN=VALUE"), "Leave out rows with this value";
            "count": Value("COLUMN"), "Refuse a row unless it has 1 rider here";
            "token-hash": Flag, "The token is half of the SHA-256 of its field";
            "token-key": Value("KEY"), "Tokens are codes of any text, by the file KEY";
            "separator": Value("SEPARATOR"), "The byte between fields, or tab [default: ,]";
            "unit": Value("UNIT"), "Plain numbers are s, ms or us, of any year";
            "moment-format": Value("FORMAT"), "How moments are written, as %d/%m/%Y %H:%M:%S";
            "zone": Value("ZONE"), "Zone of local times, by name or POSIX rule";
            "fold": Value("FOLD"), "Which time is meant of two: first or second";
            "refused": Value("REFUSED"), "Make REFUSED of rows that are no taps, go on";
            "out": Value("OUT"), "Make OUT of the upload, or replace it";
            "FILE": Words, "The tap table, or CSVs [default: standard input, as -]";
        },
        files: Files::Unlisted,
        rare: &[
            "validators-make",
            "drop",
            "count",
            "token-hash",
            "separator",
            "fold",
        ],
        apart: &[("validators-make", "validators")],
    },
    // `decode [--files-from LIST [-0]] [FILE]...`
    Subcommand {
        name: "decode",
        about: "Writes the taps of uploads as one tap table.

Tokens have lower-case digits, moments are milliseconds. Of an upload with a
layout fault the taps before it are written, and the fault is reported.",
        notes: with_status!(
            "Examples:
  omny_tools decode a.tap b.tap > taps.csv"
        ),
        rows: rows! {
            "FILE": Words, "Uploads, at most 64 MiB each [default: standard input, as -]";
        },
        files: Files::Listed,
        rare: &[],
        apart: &[],
    },
    // `uploads [--good-part OUT] [--tokens] [LOOK]... [--files-from LIST [-0]] FILE...`, where LOOK
    // is `--look`, `--within S`, `--from MOMENT`, `--until MOMENT`, `--table F` or `--list`. A look
    // goes without `--good-part`, and `--list` without `--format FORM`.
    Subcommand {
        name: "uploads",
        about: "Prints what uploads have, and what is wrong with them.

For each upload: batches, taps, first and last moment, and the layout fault, if
any, with its batch, its tap (both from 0), the offset of its batch in bytes,
and what to do. Of an upload with a layout fault the part before it is printed,
and the status is 1.

With --look, or an option that says what to look for, the uploads are also
checked for near duplicates, repeated uploads, taps outside a span and inactive
validators. How many of each kind are found is printed, with the first of them.
Nothing is changed or left out, and the status does not depend on what is
found. All taps are in memory.

A near duplicate is a tap at most S seconds (--within) after the tap before it,
of its token at its validator. A validator of the fare table F (--table) is
inactive on a day of UTC if it has no tap on it: of the days on which others
have one, and of all days from --from to --until if both are given.",
        notes: with_status!(
            "Examples:
  omny_tools uploads monday.tap tuesday.tap
  omny_tools uploads --look --within 60 --table table.toml week/*.tap

More examples:
  omny_tools uploads --good-part whole.tap damaged.tap
  omny_tools uploads --look --format json week/*.tap
  omny_tools uploads --list --from 2026-03-02T00:00:00Z week/*.tap"
        ),
        rows: rows! {
            "good-part": Value("OUT"), "Make OUT of the batches before the layout fault";
            "tokens": Flag, "Print how many tokens each has, and shares";
            "look": Flag, "Look for near duplicates and repeated uploads";
            "within": Number("S", 0, 4_294_967), "Near duplicates: within S seconds [default: 5]";
            "from": Value("MOMENT"), "Look for taps before 2026-03-02T00:00:00Z";
            "until": Value("MOMENT"), "Look for taps from 2026-03-09T00:00:00Z on";
            "table": Value("F"), "Look for inactive validators; - is standard input";
            "list": Flag, "Write all that is found as CSV, and nothing else";
            "format": Value("FORM"), "Print lines as text, json or csv [default: text]";
            "FILE": Words, "Uploads, at most 64 MiB each; - is standard input";
        },
        files: Files::Wanted,
        rare: &[],
        apart: &[
            ("look", "good-part"),
            ("within", "good-part"),
            ("from", "good-part"),
            ("until", "good-part"),
            ("table", "good-part"),
            ("list", "good-part"),
            ("list", "tokens"),
            ("list", "format"),
        ],
    },
    // `table [--strict] [--riders] [--from MOMENT] [--sql] F [--table G@YYYY-MM-DD]... [UPLOAD]...`
    Subcommand {
        name: "table",
        about: "Prints a fare table as it is understood, or what is wrong.

That is: the zone with its next changes of clocks, the modes, the transfers,
the classes with the price of each ride of a window, the ranges of validators
with the gaps between them, and how many riders each class has.

Warnings name what the rules of the table pass over: keys that have no meaning
and, where uploads are given, ranges that no validator of theirs is in, and
validators of theirs that are in no range. Faults name each wrong value: its
whole path, its line and column, and what is wanted. Both go to the standard
error, and of a table with a fault nothing else is printed.

With --table the tables that follow, each from 00:00 of its date on by the
clocks of the tables' zone, are printed after it. Uploads are compared with
each table by the taps of its own time.",
        notes: with_status!(
            "Examples:
  omny_tools table table.toml
  omny_tools table --strict table.toml monday.tap
  omny_tools table old.toml --table new.toml@2026-01-04
  omny_tools table --sql table.toml | sqlite3 bill.db"
        ),
        rows: rows! {
            "strict": Flag, "End with status 1 also if there is a warning";
            "riders": Flag, "Print each rider with its class";
            "from": Value("MOMENT"), "Changes of clocks after it [default: now]";
            "sql": Flag, "Print tables of SQLite and PostgreSQL instead";
            "table": Values("G@YYYY-MM-DD"), "A fare table that is valid from this date on";
            "F": Word, "The fare table, at most 64 MiB; - is standard input";
            "UPLOAD": Words, "Uploads whose validators are compared with the table";
        },
        files: Files::Unlisted,
        rare: &[],
        apart: &[("sql", "riders"), ("sql", "from")],
    },
    // `sort [--merge] --out OUT [--ends ENDS] [--files-from LIST [-0]] UPLOAD...`
    Subcommand {
        name: "sort",
        about: "Makes one upload of all taps of uploads, in canonical order.

That is the order of token, moment and validator. The taps before each upload's
first layout fault are sorted in memory. With --merge the uploads are in
canonical order already, and of any length: they are read in pieces and merged.
A fault of order or layout then ends it. OUT has batches of 512 taps. It is
made under another name and then renamed, so it is whole, and it may be one of
the uploads.",
        notes: "Examples:
  omny_tools sort --out monday.tap bus.tap tram.tap
  omny_tools sort --merge --out week.tap monday.tap tuesday.tap

Exit status:
  0  OUT is made, and no upload was refused
  1  a file has a fault, or could not be read or made, as a line `fault: ..` on
     the standard error says; OUT is not made
  2  the command line is wrong
  3  OUT is made of the taps before each upload's first layout fault, and there
     is one",
        rows: rows! {
            "merge": Flag, "Merge uploads that are in canonical order already";
            "out": Needed("OUT"), "The file to make; one that exists is replaced";
            "ends": Value("ENDS"), "Make ENDS of how each upload ended, a line each";
            "UPLOAD": Words, "Uploads, at most 64 MiB each (with --merge of any); - is stdin";
        },
        files: Files::Wanted,
        rare: &[],
        apart: &[],
    },
    // `bounds --parts N [--files-from LIST [-0]] FILE...`
    Subcommand {
        name: "bounds",
        about: "Prints the tokens at which to divide a sorted run into parts.

One token is printed a line. The uploads are in canonical order. Part 1 is a
run of omny_cli --settle --sorted --tokens ..FIRST, part 2 one of
FIRST..SECOND, and so on, and the last one of LAST.. with no end. At most N - 1
tokens are printed, by a sample of the uploads: the parts have about as many
taps. Any tokens would do: only the speed of the parts depends on them.",
        notes: with_status!(
            "Examples:
  omny_tools bounds --parts 4 monday.tap tuesday.tap"
        ),
        rows: rows! {
            "parts": NeededNumber("N", 1, 65_536), "How many parts at most, 1 to 65536";
            "FILE": Words, "Uploads in canonical order, of any length";
        },
        files: Files::Wanted,
        rare: &[],
        apart: &[],
    },
    // `merge [--files-from LIST [-0]] PART...`
    Subcommand {
        name: "merge",
        about: "Merges the parts of a run into the whole report or ledger.

Each part was written by a run of omny_cli --settle --sorted --tokens
FROM..BELOW over the same files. The parts are in their order: each begins at
the tokens at which the one before it ends. A part is refused if it does not
begin where the one before it ends, or if its sums do not add up. The parts are
read as the whole is written, so they may be larger than memory.",
        notes: "Examples:
  omny_tools merge part1.txt part2.txt > report.txt

Exit status:
  0  the report or the ledger is written
  1  a part is wrong, or could not be read or written, as a line `fault: ..` on
     the standard error says; what was written is not the whole
  2  the command line is wrong",
        rows: rows! {
            "PART": Words, "The parts, in the order of tokens; - is standard input";
        },
        files: Files::Wanted,
        rare: &[],
        apart: &[],
    },
    // `corrections [--tokens] OLD NEW`
    Subcommand {
        name: "corrections",
        about: "Writes what a later bill charges otherwise, line by line.

OLD and NEW are ledgers of omny_cli --settle. A line of the one and a line of
the other with the same token, moment and validator are compared. A line is
written, as CSV, for each that only one ledger has, and for each whose answer,
cents or reason differ. With --tokens these are counted and their cents summed:
a line for each token that has one. The ledgers are read as it is written, so
they may be larger than memory. If OLD has lines that NEW lacks, their number
is reported on the standard error.",
        notes: "Examples:
  omny_tools corrections monday.csv tuesday.csv > corrections.csv
  omny_tools corrections --tokens monday.csv tuesday.csv

Exit status:
  0  the corrections are written, also where there is none
  1  a text is no settled ledger, or could not be read or written, as a line
     `fault: ..` on the standard error says; what was written is not the
     corrections
  2  the command line is wrong",
        rows: rows! {
            "tokens": Flag, "Write the sums of each token's corrections instead";
            "OLD": Word, "The ledger of the bill that was issued; - is standard input";
            "NEW": Word, "The ledger of the later bill; - is standard input";
        },
        files: Files::Unlisted,
        rare: &[],
        apart: &[],
    },
];
