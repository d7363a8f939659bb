//! The lines of a token's windows.

ghost use Rattle.std.specs.Prelude.{◌≡◌, ◌++◌, List, ℕ, OnOk, codes, map, string_bytes};
ghost use Rattle.fare_caps.specs.CapMeanings.{capped_rules_of};
ghost use Rattle.histories.specs.Entry.{tap_of};
ghost use Rattle.tap_views.specs.Token.{bytes_of};
ghost use Rattle.fare_texts.specs.Explained.{AreEarlierLines, AreWindowLines, IsLastLine};
ghost use Rattle.fare_texts.specs.Explained.{IsExplainedWindow};

use super::windows::windows_of;
use crate::{write_local, write_moment, write_window_words};
use account_rule::WindowView;
use histories::Entry;
use std::alloc::{AllocError, Global};
use tap_views::{NoMemory, Token};
use tariffs::{Clock, FareTable};

/// Appends the line of a window after its first word.
fn write_line(
    text: &mut String,
    clock: &Clock,
    word: &str,
    window: WindowView,
) -> Result<(), AllocError>
    ensures { OnOk result ((line : List ℕ) × IsExplainedWindow clock.now word.now window line
        × (string_bytes text.new ≡ string_bytes text.old ++ line)) }
{
    text.push_str(word)?;
    write_moment(text, window.start)?;
    text.push_str(" ")?;
    write_moment(text, window.until)?;
    write_window_words(text, window)?;
    write_local(text, clock, " because it lasts from local ", window.start)?;
    write_local(text, clock, " until local ", window.until)?;
    text.push_str("\n")?;
    Ok(())
}

/// Appends the lines of windows that are not the last.
fn write_earlier(text: &mut String, clock: &Clock, windows: &[WindowView]) -> Result<(), AllocError>
    ensures { OnOk result ((written : List ℕ) × AreEarlierLines clock.now windows.now written
        × (string_bytes text.new ≡ string_bytes text.old ++ written)) }
{
    for window in windows {
        write_line(text, clock, "earlier window ", *window)?;
    }
    Ok(())
}

/// Appends the line of the last window, or `window none`.
fn write_last(
    text: &mut String,
    clock: &Clock,
    window: Option<WindowView>,
) -> Result<(), AllocError>
    ensures { OnOk result ((line : List ℕ) × IsLastLine clock.now window line
        × (string_bytes text.new ≡ string_bytes text.old ++ line)) }
{
    match window {
        Some(window) => write_line(text, clock, "window ", window),
        None => text.push_str("window none\n"),
    }
}

/// Appends the lines of the windows of a token, whose entries these are, the last one last.
pub(crate) fn write_windows(
    alloc: Global,
    text: &mut String,
    table: &FareTable,
    clock: &Clock,
    token: Token,
    entries: &[Entry],
) -> Result<(), NoMemory>
    requires { clock.now ≡ table.now.zone }
    ensures { OnOk result ((written : List ℕ)
        × AreWindowLines table.now.zone (capped_rules_of table.now (bytes_of token))
        (map (tap_of table.now) entries.now) written
        × (string_bytes text.new ≡ string_bytes text.old ++ written)) }
{
    let (earlier, last) = windows_of(alloc, table, clock, token, entries)?;
    write_earlier(text, clock, earlier.as_slice())?;
    write_last(text, clock, last)?;
    Ok(())
}
