//! The explained statement of a token as JSON.

ghost use Rattle.fare_texts.specs.ExplainedJson.{break_json, dated_json, entries_json, fields_json};
ghost use Rattle.fare_texts.specs.ExplainedJson.{first_json, first_sums_json, head_json, json_of};
ghost use Rattle.fare_texts.specs.ExplainedJson.{last_sums_json, later_json, rest_json, start_json};
ghost use Rattle.fare_texts.specs.ExplainedJson.{what_json, why_json, window_json, windows_json};
ghost use Rattle.histories.specs.Sums.{sums_of};
ghost use Rattle.std.specs.Prelude.{◌≡◌, ◌<◌, ◌++◌, [], IfOk, OnOk, codes, flat_map, length};
ghost use Rattle.std.specs.Prelude.{string_bytes};

use super::json_parts::{At, Because, Lacking, Paying, Within};
use super::windows::windows_of;
use crate::Explainer;
use crate::digits::Digits;
use crate::names::{answer_name, mode_name};
use account_rule::{NoTransfer, WindowView};
use fare_caps::CappedReason;
use histories::{Entry, Totals, totals_of_entries};
use std::alloc::{AllocError, Global};
use tap_views::{NoMemory, Token};
use tariffs::{Clock, FareTable, Terms};

#[tactic(auto, unfolding(crate::specs::ExplainedJson::first_json))]
fn write_first(text: &mut String, token: Token, terms: Terms) -> Result<(), AllocError>
    ensures { OnOk result (string_bytes text.new ≡ string_bytes text.old ++ first_json token terms) }
{
    let digits = Digits(token);
    let paying = Paying(terms);
    write!(text, "{{\"token\":\"{digits}\",\n\"terms\":[\n{{{paying}}}")
}

#[tactic(auto, unfolding(crate::specs::ExplainedJson::dated_json))]
fn write_dated(
    text: &mut String,
    clock: &Clock,
    moment: u64,
    terms: Terms,
) -> Result<(), AllocError>
    ensures { OnOk result (string_bytes text.new
        ≡ string_bytes text.old ++ dated_json clock.now moment terms) }
{
    let from = At { clock, moment };
    let paying = Paying(terms);
    write!(text, ",\n{{\"from\":{from},{paying}}}")
}

fn write_later(
    text: &mut String,
    table: &FareTable,
    clock: &Clock,
    token: &[u8],
) -> Result<(), AllocError>
    requires { length token.now ≡ 16 }
    ensures { OnOk result (string_bytes text.new ≡ string_bytes text.old
        ++ flat_map (later_json clock.now token.now) table.now.later) }
{
    for position in 0..table.later_len() {
        let (from, tariff) = table.later(position);
        write_dated(text, clock, from, tariff.terms_of(token))?;
    }
    Ok(())
}

#[tactic(auto, unfolding(crate::specs::ExplainedJson::rest_json))]
fn write_rest(
    text: &mut String,
    table: &FareTable,
    clock: &Clock,
    token: &[u8],
) -> Result<(), AllocError>
    requires { length token.now ≡ 16 }
    ensures { OnOk result (string_bytes text.new ≡ string_bytes text.old
        ++ rest_json clock.now token.now table.now.later) }
{
    write_later(text, table, clock, token)?;
    text.push_str("],\n\"entries\":[")
}

#[tactic(auto, using(crate::proofs::Parts::in_parts))]
fn write_head(
    text: &mut String,
    table: &FareTable,
    clock: &Clock,
    token: Token,
) -> Result<(), AllocError>
    requires { clock.now ≡ table.now.zone }
    ensures { OnOk result (string_bytes text.new ≡ string_bytes text.old
        ++ head_json table.now token) }
{
    let bytes = token.bytes();
    write_first(text, token, table.terms_of(&bytes))?;
    write_rest(text, table, clock, &bytes)
}

/// What ends the line before one that has this number of lines before it.
fn line_break(number: u64) -> &'static str
    ensures { result.now ≡ break_json number }
{
    if number == 0 { "\n" } else { ",\n" }
}

#[tactic(auto, unfolding(crate::specs::ExplainedJson::start_json))]
fn write_start(text: &mut String, clock: &Clock, number: u64, moment: u64) -> Result<(), AllocError>
    ensures { OnOk result (string_bytes text.new
        ≡ string_bytes text.old ++ start_json clock.now number moment) }
{
    let line_break = line_break(number);
    let at = At { clock, moment };
    write!(text, "{line_break}{{\"moment\":{at}")
}

#[tactic(auto, unfolding(crate::specs::ExplainedJson::fields_json))]
fn write_fields(text: &mut String, table: &FareTable, entry: &Entry) -> Result<(), AllocError>
    ensures { OnOk result (string_bytes text.new ≡ string_bytes text.old
        ++ fields_json table.now entry.now) }
{
    let mode = mode_name(table, entry.moment, entry.validator);
    let validator = entry.validator;
    let answer = answer_name(entry.answer);
    let cents = entry.cents;
    write!(
        text,
        ",\"mode\":\"{mode}\",\"validator\":{validator},\"answer\":\"{answer}\",\"cents\":{cents}"
    )
}

#[tactic(auto, using(crate::proofs::Parts::in_parts))]
fn write_what(
    text: &mut String,
    table: &FareTable,
    clock: &Clock,
    number: u64,
    entry: &Entry,
) -> Result<(), AllocError>
    requires { clock.now ≡ table.now.zone }
    ensures { OnOk result (string_bytes text.new
        ≡ string_bytes text.old ++ what_json table.now number entry.now) }
{
    write_start(text, clock, number, entry.moment)?;
    write_fields(text, table, entry)
}

#[tactic(auto, unfolding(crate::specs::ExplainedJson::why_json))]
fn write_why(
    text: &mut String,
    table: &FareTable,
    clock: &Clock,
    moment: u64,
    reason: CappedReason,
    none: Option<NoTransfer>,
) -> Result<(), AllocError>
    ensures { OnOk result (string_bytes text.new ≡ string_bytes text.old
        ++ why_json clock.now table.now.meaning.modes table.now.meaning.cap_names moment reason
        none) }
{
    let because = Because {
        table,
        clock,
        reason,
    };
    let lacking = Lacking {
        table,
        clock,
        moment,
        reason,
        none,
    };
    write!(text, ",\"reason\":{because},\"no_transfer\":{lacking}}}")
}

fn write_entries(
    text: &mut String,
    table: &FareTable,
    clock: &Clock,
    token: Token,
    entries: &[Entry],
) -> Result<(), NoMemory>
    requires { clock.now ≡ table.now.zone }
    ensures { OnOk result (string_bytes text.new ≡ string_bytes text.old
        ++ entries_json table.now token [] entries.now) }
{
    let mut explainer = Explainer::of(token);
    for entry in entries {
        let number = explainer.number;
        let none = explainer.no_transfer(table, entry);
        let reason = explainer.explain_next(table, clock, entry)?;
        write_what(text, table, clock, number, entry)?;
        write_why(text, table, clock, entry.moment, reason, none)?;
    }
    Ok(())
}

#[tactic(auto, unfolding(crate::specs::ExplainedJson::first_sums_json))]
fn write_first_sums(text: &mut String, totals: &Totals) -> Result<(), AllocError>
    ensures { OnOk result (string_bytes text.new ≡ string_bytes text.old
        ++ first_sums_json (sums_of totals.now)) }
{
    let taps = totals.taps;
    let paid = totals.paid;
    let transfers = totals.transfers;
    let capped = totals.capped;
    write!(
        text,
        "],\n\"totals\":{{\"taps\":{taps},\"paid\":{paid},\"transfers\":{transfers},\"capped\":{capped}"
    )
}

#[tactic(auto, unfolding(crate::specs::ExplainedJson::last_sums_json))]
fn write_last_sums(text: &mut String, totals: &Totals) -> Result<(), AllocError>
    ensures { OnOk result (string_bytes text.new ≡ string_bytes text.old
        ++ last_sums_json (sums_of totals.now)) }
{
    let stale = totals.stale;
    let unknown = totals.unknown;
    let cents = totals.cents;
    write!(
        text,
        ",\"stale\":{stale},\"unknown\":{unknown},\"cents\":{cents}}},\n\"windows\":["
    )
}

#[tactic(auto, unfolding(crate::specs::ExplainedJson::window_json))]
fn write_window(
    text: &mut String,
    clock: &Clock,
    window: WindowView,
    end: &str,
) -> Result<(), AllocError>
    ensures { OnOk result (string_bytes text.new
        ≡ string_bytes text.old ++ window_json clock.now end.now window) }
{
    let within = Within {
        clock,
        start: window.start,
        until: window.until,
    };
    let paid = window.paid;
    let cents = window.cents;
    write!(
        text,
        "\n{{{within},\"paid\":{paid},\"cents\":{cents}}}{end}"
    )
}

fn write_earlier(text: &mut String, clock: &Clock, windows: &[WindowView]) -> Result<(), AllocError>
    ensures { OnOk result (string_bytes text.new ≡ string_bytes text.old
        ++ flat_map (window_json clock.now (codes ",")) windows.now) }
{
    for window in windows {
        write_window(text, clock, *window, ",")?;
    }
    Ok(())
}

fn write_windows(
    text: &mut String,
    clock: &Clock,
    earlier: &[WindowView],
    last: Option<WindowView>,
) -> Result<(), AllocError>
    ensures { OnOk result (string_bytes text.new
        ≡ string_bytes text.old ++ windows_json clock.now earlier.now last) }
{
    write_earlier(text, clock, earlier)?;
    match last {
        Some(window) => write_window(text, clock, window, "]}\n"),
        None => text.push_str("]}\n"),
    }
}

/// The explained statement of a token that has these entries, as JSON.
pub(crate) fn json_of(
    alloc: Global,
    table: &FareTable,
    token: Token,
    entries: &[Entry],
) -> Result<String, NoMemory>
    ensures { IfOk result (λ text. string_bytes text ≡ json_of table.now token entries.now) }
{
    let clock = table.clock(alloc)?;
    let (earlier, last) = windows_of(alloc, table, &clock, token, entries)?;
    let totals = totals_of_entries(entries);
    let mut text = String::new(alloc);
    write_head(&mut text, table, &clock, token)?;
    write_entries(&mut text, table, &clock, token, entries)?;
    write_first_sums(&mut text, &totals)?;
    write_last_sums(&mut text, &totals)?;
    write_windows(&mut text, &clock, earlier.as_slice(), last)?;
    Ok(text)
}
