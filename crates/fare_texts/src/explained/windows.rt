//! The windows of a token.

ghost use Rattle.account_rule.specs.Laws.{is_ride};
ghost use Rattle.fare_caps.specs.{CapMeanings.capped_rules_of, CappedReplies.capped_window};
ghost use Rattle.fare_texts.specs.Explained.{earlier_windows, window_ended};
ghost use Rattle.histories.specs.Entry.{tap_of};
ghost use Rattle.std.specs.Prelude.{◌≡◌, ◌++◌, IfOk, OnOk, map};
ghost use Rattle.tap_views.specs.Token.{bytes_of};

use crate::Explainer;
use account_rule::{Answer, Reply, WindowView};
use histories::Entry;
use std::alloc::Global;
use tap_views::{NoMemory, Token};
use tariffs::{Clock, FareTable};

/// Whether the reply is to a ride, charged or free.
fn is_ride(reply: Reply) -> bool
    ensures { result ≡ is_ride reply }
{
    match reply.answer {
        Answer::Paid | Answer::Capped => true,
        Answer::Transfer | Answer::Stale | Answer::Unknown => false,
    }
}

/// Appends the window, if a ride at the moment opens another after it.
fn keep_ended(
    list: &mut Vec<WindowView>,
    window: Option<WindowView>,
    ride: bool,
    moment: u64,
) -> Result<(), NoMemory>
    ensures { OnOk result (list.new.items ≡ list.old.items ++ window_ended window ride moment) }
{
    if let Some(window) = window {
        if ride && moment >= window.until {
            list.push(window)?;
        }
    }
    Ok(())
}

/// The windows of a token, whose entries these are: those before the last, and the last, if there
/// is one.
pub(crate) fn windows_of(
    alloc: Global,
    table: &FareTable,
    clock: &Clock,
    token: Token,
    entries: &[Entry],
) -> Result<(Vec<WindowView>, Option<WindowView>), NoMemory>
    requires { clock.now ≡ table.now.zone }
    ensures earlier { IfOk result (λ windows. windows.0.items
        ≡ earlier_windows (capped_rules_of table.now (bytes_of token))
        (map (tap_of table.now) entries.now)) }
    ensures last { IfOk result (λ windows. windows.1
        ≡ capped_window (capped_rules_of table.now (bytes_of token))
        (map (tap_of table.now) entries.now)) }
{
    let mut explainer = Explainer::of(token);
    let mut earlier = Vec::new(alloc);
    for entry in entries {
        let window = explainer.window(table);
        let reason = explainer.explain_next(table, clock, entry)?;
        keep_ended(&mut earlier, window, is_ride(reason.reply()), entry.moment)?;
    }
    Ok((earlier, explainer.window(table)))
}
