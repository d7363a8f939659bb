//! The words after an explained ride: why it is no transfer.

ghost use Rattle.std.specs.Prelude.{◌≡◌, ◌-◌, ◌++◌, List, ℕ, OnOk, length, string_bytes};
ghost use Rattle.std.specs.Option.{ForSome};
ghost use Rattle.account_rule.specs.NoTransfers.{HasModesBelow};
ghost use Rattle.fare_texts.specs.NoTransferWords.{IsAfterTransferText, IsNoTransferEnd};
ghost use Rattle.fare_texts.specs.NoTransferWords.{IsNoTransferText, IsRideTooLateText};
ghost use Rattle.fare_texts.specs.NoTransferWords.{IsTooLateText, gap_words, pair_words};

use crate::write_moment;
use account_rule::NoTransfer;
use fare_caps::CappedReason;
use std::alloc::AllocError;
use tariffs::FareTable;

/// Appends why an entry at the moment is no transfer, if its reason is that of a ride, as `, no
/// transfer since it is the first known tap`. Else it appends nothing.
pub fn write_no_transfer(
    text: &mut String,
    table: &FareTable,
    moment: u64,
    reason: &CappedReason,
    none: Option<NoTransfer>,
) -> Result<(), AllocError>
    requires { ForSome none (HasModesBelow (length table.now.meaning.modes)) }
    ensures { OnOk result ((written : List ℕ)
        × IsNoTransferEnd table.now moment reason.now none written
        × (string_bytes text.new ≡ string_bytes text.old ++ written)) }
{
    match *reason {
        CappedReason::Ride { .. } => match none {
            Some(none) => write_words(text, table, moment, none),
            None => Ok(()),
        },
        CappedReason::Unknown
        | CappedReason::Stale { .. }
        | CappedReason::Transfer { .. }
        | CappedReason::PaidTransfer { .. } => Ok(()),
    }
}

/// Appends why a ride at the moment is no transfer.
fn write_words(
    text: &mut String,
    table: &FareTable,
    moment: u64,
    none: NoTransfer,
) -> Result<(), AllocError>
    requires { HasModesBelow (length table.now.meaning.modes) none }
    ensures { OnOk result ((written : List ℕ) × IsNoTransferText table.now moment none written
        × (string_bytes text.new ≡ string_bytes text.old ++ written)) }
{
    match none {
        NoTransfer::FirstTap => text.push_str(", no transfer since it is the first known tap"),
        NoTransfer::TooLate { last } => write_too_late(text, last, moment.saturating_sub(last)),
        NoTransfer::NoneGiven => text.push_str(", no transfer since rides give none"),
        NoTransfer::AfterTransfer { last } => write_after_transfer(text, last),
        NoTransfer::RideTooLate { ride } => {
            write_ride_too_late(text, ride, moment.saturating_sub(ride))
        }
        NoTransfer::NotPermitted { from, to } => {
            write_pair(text, table.mode_name(from), table.mode_name(to))
        }
    }
}

/// Appends `, no transfer since the tap of 2024-03-08T17:00:00.000Z is 2 h 3 min 10 s earlier`.
fn write_too_late(text: &mut String, last: u64, gap: u64) -> Result<(), AllocError>
    ensures { OnOk result ((written : List ℕ) × IsTooLateText last gap written
        × (string_bytes text.new ≡ string_bytes text.old ++ written)) }
{
    text.push_str(", no transfer since the tap of ")?;
    write_moment(text, last)?;
    write_gap(text, gap)
}

/// Appends `, no transfer since the ride of 2024-03-08T17:00:00.000Z is 2 h 3 min 10 s earlier`.
fn write_ride_too_late(text: &mut String, ride: u64, gap: u64) -> Result<(), AllocError>
    ensures { OnOk result ((written : List ℕ) × IsRideTooLateText ride gap written
        × (string_bytes text.new ≡ string_bytes text.old ++ written)) }
{
    text.push_str(", no transfer since the ride of ")?;
    write_moment(text, ride)?;
    write_gap(text, gap)
}

/// Appends ` is 2 h 3 min 10 s earlier`, for these milliseconds.
#[tactic(auto, unfolding(crate::specs::NoTransferWords::gap_words))]
fn write_gap(text: &mut String, gap: u64) -> Result<(), AllocError>
    ensures { OnOk result (string_bytes text.new ≡ string_bytes text.old ++ gap_words gap) }
{
    let hours = gap / 3_600_000;
    let minutes = gap / 60_000 % 60;
    let seconds = gap / 1_000 % 60;
    write!(text, " is {hours} h {minutes} min {seconds} s earlier")
}

/// Appends `, no transfer since the tap of 2024-03-08T17:00:00.000Z is one`.
fn write_after_transfer(text: &mut String, last: u64) -> Result<(), AllocError>
    ensures { OnOk result ((written : List ℕ) × IsAfterTransferText last written
        × (string_bytes text.new ≡ string_bytes text.old ++ written)) }
{
    text.push_str(", no transfer since the tap of ")?;
    write_moment(text, last)?;
    text.push_str(" is one")
}

/// Appends `, no transfer since there is none from subway to subway`.
#[tactic(auto, unfolding(crate::specs::NoTransferWords::pair_words))]
fn write_pair(text: &mut String, from: &str, to: &str) -> Result<(), AllocError>
    ensures { OnOk result (string_bytes text.new
        ≡ string_bytes text.old ++ pair_words from.now to.now) }
{
    write!(
        text,
        ", no transfer since there is none from {from} to {to}"
    )
}
