//! The lines of a token's entries, each with its reason.

ghost use Rattle.std.specs.Prelude.{◌≡◌, ◌++◌, List, [], ℕ, OnOk, length, string_bytes};
ghost use Rattle.std.specs.Option.{ForSome};
ghost use Rattle.account_rule.specs.NoTransfers.{HasModesBelow};
ghost use Rattle.fare_texts.specs.ReasonWords.{HasModeOf};
ghost use Rattle.fare_texts.specs.Explained.{AreExplainedAfter, IsExplainedLine};

use crate::{
    Explainer, write_entry_words, write_local, write_moment, write_no_transfer, write_reason_words,
};
use account_rule::NoTransfer;
use fare_caps::CappedReason;
use histories::Entry;
use std::alloc::AllocError;
use tap_views::{NoMemory, Token};
use tariffs::{Clock, FareTable};

/// Appends the line of an entry that has this reason and, if it is a ride, is no transfer because
/// of `none`.
fn write_line(
    text: &mut String,
    table: &FareTable,
    clock: &Clock,
    entry: &Entry,
    reason: &CappedReason,
    none: Option<NoTransfer>,
) -> Result<(), AllocError>
    requires clock { clock.now ≡ table.now.zone }
    requires mode { HasModeOf table.now reason.now }
    requires modes { ForSome none (HasModesBelow (length table.now.meaning.modes)) }
    ensures { OnOk result ((line : List ℕ)
        × IsExplainedLine table.now entry.now reason.now none line
        × (string_bytes text.new ≡ string_bytes text.old ++ line)) }
{
    write_moment(text, entry.moment)?;
    write_entry_words(text, table, entry)?;
    write_reason_words(text, table, reason)?;
    write_no_transfer(text, table, entry.moment, reason, none)?;
    write_local(text, clock, ", local ", entry.moment)?;
    text.push_str("\n")?;
    Ok(())
}

/// Appends the lines of a token, whose entries these are: each with the reason that the account
/// rule has for it after those before it. The text alone grows.
pub(crate) fn write_lines(
    text: &mut String,
    table: &FareTable,
    clock: &Clock,
    token: Token,
    entries: &[Entry],
) -> Result<(), NoMemory>
    requires { clock.now ≡ table.now.zone }
    ensures { OnOk result ((written : List ℕ)
        × AreExplainedAfter table.now token [] entries.now written
        × (string_bytes text.new ≡ string_bytes text.old ++ written)) }
{
    let mut explainer = Explainer::of(token);
    for entry in entries {
        let none = explainer.no_transfer(table, entry);
        let reason = explainer.explain_next(table, clock, entry)?;
        write_line(text, table, clock, entry, &reason, none)?;
    }
    Ok(())
}
