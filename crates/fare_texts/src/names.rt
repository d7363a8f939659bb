//! The words for modes and answers.

ghost use Rattle.std.specs.Prelude.{◌≡◌, ◌<◌, [], length, Some, slice_get, slice_index_or};
ghost use Rattle.fare_texts.specs.StatementText.{answer_text, mode_text};

use account_rule::Answer;
use tariffs::FareTable;

/// The name of the validator's mode at the moment, or `-` if the table does not know the validator.
pub(crate) fn mode_name(table: &FareTable, moment: u64, validator: u32) -> &str
    ensures { result.now ≡ mode_text table.now moment validator }
{
    match table.mode_of(moment, validator) {
        Some(mode) => table.mode_name(mode),
        None => "-",
    }
}

/// The name of the cap at the index, or nothing if the table has no such cap.
pub(crate) fn cap_name(table: &FareTable, cap: u8) -> &str
    ensures { result.now ≡ slice_index_or table.now.meaning.cap_names cap [] }
{
    match table.cap_names().get(cap as usize) {
        Some(name) => name.as_str(),
        None => "",
    }
}

/// The word of an answer.
pub fn answer_name(answer: Answer) -> &'static str
    ensures { result.now ≡ answer_text answer }
{
    match answer {
        Answer::Paid => "paid",
        Answer::Transfer => "transfer",
        Answer::Capped => "capped",
        Answer::Stale => "stale",
        Answer::Unknown => "unknown",
    }
}
