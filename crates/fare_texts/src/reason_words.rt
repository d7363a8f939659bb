//! The words that end an explained line.

ghost use Rattle.fare_texts.specs.ReasonWords.{IsRideText, IsTransferText, IsReasonWords};
ghost use Rattle.fare_texts.specs.ReasonWords.{IsWindowText, charge_end, charge_start, giver_start};
ghost use Rattle.fare_texts.specs.ReasonWords.{position_start, transfer_end, window_charge_end};
ghost use Rattle.fare_texts.specs.ReasonWords.{window_charge_start, window_transfer_end, HasModeOf};
ghost use Rattle.std.specs.Prelude.{◌≡◌, ◌<◌, ◌+◌, ◌++◌, [], length, List, ℕ, OnOk, slice_index_or};
ghost use Rattle.std.specs.Prelude.{string_bytes};

use crate::names::cap_name;
use crate::write_moment;
use account_rule::Charge;
use fare_caps::{CapCharge, CappedReason};
use std::alloc::AllocError;
use tariffs::FareTable;

/// Appends why a tap is answered as it is, as ` because the subway ride of 2024-03-08T17:00:00.000Z
/// gives it`.
pub fn write_reason_words(
    text: &mut String,
    table: &FareTable,
    reason: &CappedReason,
) -> Result<(), AllocError>
    requires { HasModeOf table.now reason.now }
    ensures { OnOk result ((written : List ℕ) × IsReasonWords table.now reason.now written
        × (string_bytes text.new ≡ string_bytes text.old ++ written)) }
{
    match *reason {
        CappedReason::Unknown => text.push_str(" because the table has no such validator"),
        CappedReason::Stale { latest } => {
            text.push_str(" because a tap of ")?;
            write_moment(text, latest)?;
            text.push_str(" is not earlier")
        }
        CappedReason::Transfer { moment, mode } => write_transfer(
            text,
            table.mode_name(mode),
            moment,
        ),
        CappedReason::PaidTransfer {
            start: _,
            until: _,
            moment,
            mode,
            charge,
        } => write_paid_transfer(text, table, table.mode_name(mode), moment, charge),
        CappedReason::Ride {
            start,
            until,
            charge,
        } => write_ride(text, table, start, until, charge),
    }
}

/// Appends ` because the subway ride of 2024-03-08T17:00:00.000Z gives it`.
fn write_transfer(text: &mut String, mode: &str, moment: u64) -> Result<(), AllocError>
    ensures { OnOk result ((written : List ℕ) × IsTransferText mode.now moment [] written
        × (string_bytes text.new ≡ string_bytes text.old ++ written)) }
{
    write_giver(text, mode)?;
    write_moment(text, moment)?;
    text.push_str(" gives it")?;
    Ok(())
}

/// Appends ` because the subway ride of 2024-03-08T17:00:00.000Z gives it at full price`.
fn write_paid_transfer(
    text: &mut String,
    table: &FareTable,
    mode: &str,
    moment: u64,
    charge: CapCharge,
) -> Result<(), AllocError>
    ensures { OnOk result ((written : List ℕ)
        × IsTransferText mode.now moment (transfer_end table.now.meaning.cap_names charge) written
        × (string_bytes text.new ≡ string_bytes text.old ++ written)) }
{
    write_giver(text, mode)?;
    write_moment(text, moment)?;
    text.push_str(" gives it")?;
    write_transfer_end(text, table, charge)?;
    Ok(())
}

/// Appends what decided the cents of a transfer.
fn write_transfer_end(
    text: &mut String,
    table: &FareTable,
    charge: CapCharge,
) -> Result<(), AllocError>
    ensures { OnOk result (string_bytes text.new
        ≡ string_bytes text.old ++ transfer_end table.now.meaning.cap_names charge) }
{
    match charge {
        CapCharge::ByWindow { charge } => text.push_str(window_transfer_end(charge)),
        CapCharge::CapCut {
            position: _,
            cents: _,
            cap,
        } => write_cap(text, " cut by the cap ", table, cap),
        CapCharge::CapReached { position: _, cap } => {
            write_cap(text, " past the cap ", table, cap)
        }
    }
}

/// How `window` decided the cents of a transfer.
fn window_transfer_end(charge: Charge) -> &'static str
    ensures { result.now ≡ window_transfer_end charge }
{
    match charge {
        Charge::Full { .. } => " at full price",
        Charge::CeilingCut { .. } => " cut by the ceiling",
        Charge::CeilingReached { .. } => " past the ceiling",
        Charge::RideLimitReached => "",
    }
}

/// Appends ` because the subway ride of `.
#[tactic(auto, unfolding(crate::specs::ReasonWords::giver_start))]
fn write_giver(text: &mut String, mode: &str) -> Result<(), AllocError>
    ensures { OnOk result (string_bytes text.new ≡ string_bytes text.old ++ giver_start mode.now) }
{
    write!(text, " because the {mode} ride of ")
}

/// Appends ` because it is ride 3 of the window from .. until .. at full fare`.
fn write_ride(
    text: &mut String,
    table: &FareTable,
    start: u64,
    until: u64,
    charge: CapCharge,
) -> Result<(), AllocError>
    ensures { OnOk result ((written : List ℕ)
        × IsRideText table.now.meaning.cap_names start until charge written
        × (string_bytes text.new ≡ string_bytes text.old ++ written)) }
{
    write_start(text, charge)?;
    write_window(text, start, until)?;
    write_end(text, table, charge)?;
    Ok(())
}

/// Appends the words of a charge before its window.
#[tactic(auto, unfolding(crate::specs::ReasonWords::charge_start))]
fn write_start(text: &mut String, charge: CapCharge) -> Result<(), AllocError>
    ensures { OnOk result (string_bytes text.new ≡ string_bytes text.old ++ charge_start charge) }
{
    match charge {
        CapCharge::ByWindow { charge } => write_window_start(text, charge),
        CapCharge::CapCut {
            position,
            cents: _,
            cap: _,
        } => write_position(text, position),
        CapCharge::CapReached { position, cap: _ } => write_position(text, position),
    }
}

fn write_window_start(text: &mut String, charge: Charge) -> Result<(), AllocError>
    ensures { OnOk result (string_bytes text.new
        ≡ string_bytes text.old ++ window_charge_start charge) }
{
    match charge {
        Charge::Full { position, cents: _ } => write_position(text, position),
        Charge::CeilingCut { position, cents: _ } => write_position(text, position),
        Charge::CeilingReached { position } => write_position(text, position),
        Charge::RideLimitReached => text.push_str(" because the ride limit of the window"),
    }
}

/// Appends ` because it is ride 3 of the window`, for the place 2.
#[tactic(auto, unfolding(crate::specs::ReasonWords::position_start))]
fn write_position(text: &mut String, position: u32) -> Result<(), AllocError>
    ensures { OnOk result (string_bytes text.new ≡ string_bytes text.old ++ position_start position) }
{
    let ride = u64::from(position) + 1;
    write!(text, " because it is ride {ride} of the window")
}

/// Appends ` from 2024-03-08T17:00:00.000Z until 2024-03-15T17:00:00.000Z`.
fn write_window(text: &mut String, start: u64, until: u64) -> Result<(), AllocError>
    ensures { OnOk result ((written : List ℕ) × IsWindowText start until written
        × (string_bytes text.new ≡ string_bytes text.old ++ written)) }
{
    text.push_str(" from ")?;
    write_moment(text, start)?;
    text.push_str(" until ")?;
    write_moment(text, until)
}

/// Appends the words of a charge after its window.
fn write_end(text: &mut String, table: &FareTable, charge: CapCharge) -> Result<(), AllocError>
    ensures { OnOk result (string_bytes text.new
        ≡ string_bytes text.old ++ charge_end table.now.meaning.cap_names charge) }
{
    match charge {
        CapCharge::ByWindow { charge } => text.push_str(window_end(charge)),
        CapCharge::CapCut {
            position: _,
            cents: _,
            cap,
        } => write_cap(text, " cut by the cap ", table, cap),
        CapCharge::CapReached { position: _, cap } => {
            write_cap(text, " past the cap ", table, cap)
        }
    }
}

/// Appends the words and the cap's name.
fn write_cap(text: &mut String, words: &str, table: &FareTable, cap: u8) -> Result<(), AllocError>
    ensures { OnOk result (string_bytes text.new ≡ string_bytes text.old
        ++ (words.now ++ slice_index_or table.now.meaning.cap_names cap [])) }
{
    text.push_str(words)?;
    text.push_str(cap_name(table, cap))?;
    Ok(())
}

/// The words of a charge by `window` after it.
fn window_end(charge: Charge) -> &'static str
    ensures { result.now ≡ window_charge_end charge }
{
    match charge {
        Charge::Full { .. } => " at full fare",
        Charge::CeilingCut { .. } => " cut by the ceiling",
        Charge::CeilingReached { .. } => " past the ceiling",
        Charge::RideLimitReached => " is reached",
    }
}
