//! What is given to a subcommand.
ghost use Rattle.clap.specs.Words.{found_of, rows_of};
ghost use Rattle.std.specs.{List.list_any, Prelude.◌≡◌, Prelude.IfOk, Prelude.map};
ghost use Rattle.tool_words.specs.Request.{has_input_twice, inputs_in, is_input, names_input};
ghost use Rattle.tool_words.specs.ToolLine.{has_value};

use clap::ArgMatches;
use program_manners::{names_in, value_in};
use std::alloc::{AllocError, Global};

const INPUT_WORD: &str = "-";

pub(crate) const INPUT_TWICE: &str = "error: - can be named only once";

/// Whether the word represents standard input.
pub fn is_input(word: &str) -> bool
    ensures { result ≡ is_input word.now }
{
    word == INPUT_WORD
}

pub(crate) fn inputs_in(words: &[&str]) -> usize
    ensures { result ≡ inputs_in (map (λ w. w.now) words.now) }
{
    let mut inputs = 0;
    for word in words {
        if is_input(word) {
            inputs += 1;
        }
    }
    inputs
}

pub(crate) fn has_value(matches: &ArgMatches<'_>, name: &str) -> bool
    ensures { result ≡ has_value name.now (rows_of (found_of matches.now)) }
{
    value_in(matches, name).is_some()
}

/// Whether an option of these has a value.
pub(crate) fn has_any(matches: &ArgMatches<'_>, names: &[&str]) -> bool
    ensures { result ≡ list_any (λ n. has_value n.now (rows_of (found_of matches.now))) names.now }
{
    names.iter().any(|name| has_value(matches, name))
}

pub(crate) fn number_in(matches: &ArgMatches<'_>, name: &str, default: u32) -> u32 {
    matches.get_one(name).unwrap_or(default)
}

fn names_input(alloc: Global, matches: &ArgMatches<'_>, name: &str) -> Result<bool, AllocError>
    ensures { IfOk result (λ is. is ≡ names_input name.now (rows_of (found_of matches.now))) }
{
    Ok(inputs_in(&names_in(alloc, matches, name)?) > 0)
}

/// Whether the list of files is standard input, and so is a file.
pub(crate) fn has_input_twice(alloc: Global, matches: &ArgMatches<'_>) -> Result<bool, AllocError>
    ensures { IfOk result (λ is. is ≡ has_input_twice (rows_of (found_of matches.now))) }
{
    Ok(
        is_input(value_in(matches, "files-from").unwrap_or(""))
            && (names_input(alloc, matches, "FILE")?
                || names_input(alloc, matches, "UPLOAD")?
                || names_input(alloc, matches, "PART")?
                || names_input(alloc, matches, "table")?),
    )
}
