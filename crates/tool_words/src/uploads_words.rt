//! What `uploads` requests with a valid prefix or a look.
ghost use Rattle.std.specs.Prelude.{◌≡◌, IfOk};
ghost use Rattle.tool_words.specs.Request.{valid_prefix_request, shows};
ghost use Rattle.tool_words.specs.Tasks.{request_of, texts_of};

use crate::moments::span_given;
use crate::reading::{INPUT_TWICE, inputs_in, is_input, number_in};
use crate::task::{LookWords, Task, ValidPrefixWords};
use clap::ArgMatches;
use program_manners::{flag_in, names_in, value_in};
use std::alloc::{AllocError, Global};

/// How many seconds at most a near duplicate is later than the tap before it, if none are given.
const WITHIN_SECONDS: u32 = 5;

pub(crate) fn valid_prefix_task<'a>(out: &'a str, has_tokens: bool, words: &[&'a str]) -> Task<'a>
    ensures { request_of result ≡ valid_prefix_request out.entry.now has_tokens (texts_of words.now) }
{
    if words.len() != 1 {
        return Task::UsageError("error: --good-part needs one FILE");
    }
    Task::ValidPrefix(ValidPrefixWords {
        upload: words[0],
        out,
        has_tokens,
    })
}

pub(crate) fn look_task<'a>(alloc: Global, matches: &ArgMatches<'a>) -> Result<Task<'a>, AllocError>
    ensures { IfOk result (λ task. request_of task ≡ shows) }
{
    let uploads = names_in(alloc, matches, "FILE")?;
    let (first, last) = match span_given(matches) {
        Ok(span) => span,
        Err(usage_error) => return Ok(Task::Unshown(usage_error)),
    };
    let table = value_in(matches, "table");
    let inputs = inputs_in(&uploads);
    if inputs > 1 || (inputs > 0 && is_input(table.unwrap_or(""))) {
        return Ok(Task::Unshown(INPUT_TWICE));
    }
    let words = LookWords {
        within: u64::from(number_in(matches, "within", WITHIN_SECONDS)) * 1000,
        first,
        last,
        table,
        has_list: flag_in(matches, "list"),
        has_tokens: flag_in(matches, "tokens"),
    };
    Ok(Task::Look(words, uploads))
}
