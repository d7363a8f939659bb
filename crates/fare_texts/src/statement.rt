//! The text of a statement: a function for each line and for the list of lines.

ghost use Rattle.std.specs.Prelude.{◌≡◌, ◌++◌, IfOk, OnOk, ◌<◌, length, List, ℕ, slice_get, Some};
ghost use Rattle.std.specs.Prelude.{string_bytes};
ghost use Rattle.fare_texts.specs.Moments.{IsMomentText};
ghost use Rattle.fare_texts.specs.StatementText.{IsStatementText, IsWindowLine, IsLineOf};
ghost use Rattle.fare_texts.specs.StatementText.{IsEntryLine, AreEntryLines, statement_head};
ghost use Rattle.fare_texts.specs.StatementText.{entry_words, window_words};

use crate::counts::write_totals;
use crate::digits::Digits;
use crate::moment::write_moment;
use crate::names::{answer_name, mode_name};
use account_rule::WindowView;
use histories::{Entry, Lines, Statement};
use std::alloc::{AllocError, Global};
use tap_views::Token;
use tariffs::FareTable;

/// The text of the statement, whole.
pub fn statement_text(
    alloc: Global,
    table: &FareTable,
    statement: &Statement,
) -> Result<String, AllocError>
    ensures { IfOk result (λ text. IsStatementText table.now statement.now (string_bytes text)) }
{
    let mut text = String::new(alloc);
    write_statement_head(&mut text, statement.token)?;
    write_lines(&mut text, table, &statement.lines)?;
    write_totals(&mut text, &statement.totals)?;
    write_window(&mut text, statement.window)?;
    Ok(text)
}

/// Appends the header line, `statement` and the token.
#[tactic(auto, unfolding(crate::specs::StatementText::statement_head))]
pub fn write_statement_head(text: &mut String, token: Token) -> Result<(), AllocError>
    ensures { OnOk result (string_bytes text.new ≡ string_bytes text.old ++ statement_head token) }
{
    let digits = Digits(token);
    writeln!(text, "statement {digits}")
}

/// Appends a line for each entry.
fn write_lines(text: &mut String, table: &FareTable, lines: &Lines) -> Result<(), AllocError>
    ensures { OnOk result ((written : List ℕ) × AreEntryLines table.now lines.now written
        × (string_bytes text.new ≡ string_bytes text.old ++ written)) }
{
    for position in 0..lines.len() {
        write_entry(text, table, lines.get(position))?;
    }
    Ok(())
}

/// Appends `2024-03-08T17:00:00.000Z subway 1000 paid 300`, with the end of the line.
fn write_entry(text: &mut String, table: &FareTable, entry: &Entry) -> Result<(), AllocError>
    ensures { OnOk result ((line : List ℕ) × IsEntryLine table.now entry.now line
        × (string_bytes text.new ≡ string_bytes text.old ++ line)) }
{
    write_moment(text, entry.moment)?;
    write_entry_words(text, table, entry)?;
    text.push_str("\n")?;
    Ok(())
}

/// Appends what an entry's line has after its moment: the mode, the validator, the answer and the
/// cents.
#[tactic(auto, unfolding(crate::specs::StatementText::entry_words))]
pub fn write_entry_words(
    text: &mut String,
    table: &FareTable,
    entry: &Entry,
) -> Result<(), AllocError>
    ensures { OnOk result (string_bytes text.new ≡ string_bytes text.old
        ++ entry_words table.now entry.now) }
{
    let mode = mode_name(table, entry.moment, entry.validator);
    let validator = entry.validator;
    let answer = answer_name(entry.answer);
    let cents = entry.cents;
    write!(text, " {mode} {validator} {answer} {cents}")
}

/// Appends the line of the last window, or `window none`.
fn write_window(text: &mut String, window: Option<WindowView>) -> Result<(), AllocError>
    ensures { OnOk result ((line : List ℕ) × IsWindowLine window line
        × (string_bytes text.new ≡ string_bytes text.old ++ line)) }
{
    match window {
        Some(window) => write_last_window(text, window),
        None => text.push_str("window none\n"),
    }
}

/// Appends the line of a window.
fn write_last_window(text: &mut String, window: WindowView) -> Result<(), AllocError>
    ensures { OnOk result ((line : List ℕ) × IsLineOf window line
        × (string_bytes text.new ≡ string_bytes text.old ++ line)) }
{
    text.push_str("window ")?;
    write_moment(text, window.start)?;
    text.push_str(" ")?;
    write_moment(text, window.until)?;
    write_window_words(text, window)?;
    text.push_str("\n")?;
    Ok(())
}

/// Appends what a window's line has after its end: how many rides were paid, and what they cost.
#[tactic(auto, unfolding(crate::specs::StatementText::window_words))]
pub fn write_window_words(text: &mut String, window: WindowView) -> Result<(), AllocError>
    ensures { OnOk result (string_bytes text.new ≡ string_bytes text.old ++ window_words window) }
{
    let paid = window.paid;
    let cents = window.cents;
    write!(text, " paid {paid} cents {cents}")
}
