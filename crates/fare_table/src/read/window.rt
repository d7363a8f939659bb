//! The keys `window` and `day_starts`: texts that say how long windows are, and when a day starts.
ghost use Rattle.std.specs.Prelude.{◌≡◌, ◌<◌, IfOk, option_map};
ghost use Rattle.toml.specs.View.{view, table_view};
ghost use Rattle.tariffs.specs.WindowSpan.{IsBoundedLength, IsBoundedSpan};
ghost use Rattle.fare_table.specs.Window as spec;

use super::members::{of_kind, optional};
use crate::fault::{Key, TableFault};
use tariffs::{WindowLength, WindowSpan, minutes_named};
use toml::{Table, Value};

#[tactic(auto, unfolding(crate::specs::Window::window_of))]
pub(crate) fn window_of(table: &Table) -> Result<WindowSpan, TableFault>
    ensures span { result ≡ spec.window_of (table_view table.now) }
    ensures bounds { IfOk result IsBoundedSpan }
{
    let length = length_in(optional(table, "window"))?;
    let day_starts = day_start_in(optional(table, "day_starts"))?;
    Ok(WindowSpan { length, day_starts })
}

fn length_in(value: Option<&Value>) -> Result<WindowLength, TableFault>
    ensures length { result ≡ spec.length_in (option_map (λ v. view v.now) value.entry) }
    ensures bounds { IfOk result IsBoundedLength }
{
    let Some(value) = value else {
        return Ok(WindowLength::Days(7));
    };
    let text = of_kind(value.as_str(), Key::Window)?;
    WindowLength::named(text).ok_or(TableFault::Range { key: Key::Window })
}

fn day_start_in(value: Option<&Value>) -> Result<u32, TableFault>
    ensures minutes { result ≡ spec.day_start_in (option_map (λ v. view v.now) value.entry) }
    ensures bounds { IfOk result (λ minutes. minutes < 1_440) }
{
    let Some(value) = value else {
        return Ok(0);
    };
    let text = of_kind(value.as_str(), Key::DayStarts)?;
    minutes_named(text).ok_or(TableFault::Range {
        key: Key::DayStarts,
    })
}
