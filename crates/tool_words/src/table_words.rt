//! What `table` requests.
ghost use Rattle.std.specs.Prelude.{◌≡◌, IfOk};
ghost use Rattle.tool_words.specs.{Request.shows, Tasks.request_of};

use crate::later_table::LaterTable;
use crate::moments::{WRONG_FROM, moment_given};
use crate::reading::{INPUT_TWICE, has_value, inputs_in, is_input};
use crate::task::{TableQuestion, Task};
use clap::ArgMatches;
use program_manners::{flag_in, names_in, value_in};
use std::alloc::{AllocError, Global};

const TABLES_AS_SQL: &str = "error: --table cannot be used with --sql";

/// Whether a later table is standard input, and so is another text.
fn has_later_twice(question: &TableQuestion<'_>) -> bool {
    let later = question
        .later
        .iter()
        .filter(|table| is_input(table.file()))
        .count();
    let others = is_input(question.table) || inputs_in(&question.uploads) > 0;
    later > 1 || (later > 0 && others)
}

pub(crate) fn table_task<'a>(
    alloc: Global,
    matches: &ArgMatches<'a>,
) -> Result<Task<'a>, AllocError>
    ensures { IfOk result (λ task. request_of task ≡ shows) }
{
    let words = names_in(alloc, matches, "table")?;
    let uploads = names_in(alloc, matches, "UPLOAD")?;
    let Ok(from) = moment_given(matches, "from", WRONG_FROM) else {
        return Ok(Task::Unshown(WRONG_FROM));
    };
    let is_sql = flag_in(matches, "sql");
    if is_sql && has_value(matches, "table") {
        return Ok(Task::Unshown(TABLES_AS_SQL));
    }
    let mut later = Vec::new(alloc);
    for word in &words {
        match LaterTable::of(word) {
            Ok(table) => later.push(table)?,
            Err(wrong) => return Ok(Task::WrongDate(wrong)),
        }
    }
    let question = TableQuestion {
        table: value_in(matches, "F").unwrap_or("-"),
        later,
        uploads,
        is_strict: flag_in(matches, "strict"),
        has_riders: flag_in(matches, "riders"),
        from,
        is_sql,
    };
    if has_later_twice(&question) {
        return Ok(Task::Unshown(INPUT_TWICE));
    }
    Ok(Task::Table(question))
}
