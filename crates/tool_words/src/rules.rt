//! The rules between the arguments of a subcommand.
ghost use Rattle.std.specs.Prelude.{◌≡◌};
ghost use Rattle.clap.specs.Words.{found_of, rows_of};
ghost use Rattle.tool_words.specs.ToolLine.{breaks_rule, lacks_files, looks};

use crate::reading::{has_any, has_value};
use clap::ArgMatches;
use program_manners::flag_in;

fn lacks_files(matches: &ArgMatches<'_>, name: &str) -> bool
    ensures { result ≡ lacks_files name.now (rows_of (found_of matches.now)) }
{
    !has_value(matches, name) && !has_value(matches, "files-from")
}

pub(crate) fn looks(matches: &ArgMatches<'_>) -> bool
    ensures { result ≡ looks (rows_of (found_of matches.now)) }
{
    flag_in(matches, "look")
        || flag_in(matches, "list")
        || has_any(matches, &["within", "from", "until", "table"])
}

/// Whether a rule between the arguments of this subcommand is broken.
pub(crate) fn breaks_rule(name: &str, matches: &ArgMatches<'_>) -> bool
    ensures { result ≡ breaks_rule name.now (rows_of (found_of matches.now)) }
{
    if name == "uploads" {
        return lacks_files(matches, "FILE")
            || (has_value(matches, "good-part") && looks(matches))
            || (flag_in(matches, "list")
                && (flag_in(matches, "tokens") || has_value(matches, "format")));
    }
    if name == "table" {
        return flag_in(matches, "sql")
            && (flag_in(matches, "riders") || has_value(matches, "from"));
    }
    if name == "sort" {
        return lacks_files(matches, "UPLOAD");
    }
    if name == "merge" {
        return lacks_files(matches, "PART");
    }
    if name == "bounds" {
        return lacks_files(matches, "FILE");
    }
    name == "encode" && has_value(matches, "validators") && has_value(matches, "validators-make")
}
