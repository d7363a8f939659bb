//! The last five fields of a ledger's line: the window, the ride's place, the reason, and the
//! moment that it points at.

ghost use Rattle.std.specs.Prelude.{◌≡◌, ◌+◌, ◌≤◌, ◌++◌, List, ℕ, length};
ghost use Rattle.fare_texts.specs.LedgerLines.{IsPointing, IsReasonFields, IsWindowFields};
ghost use Rattle.fare_texts.specs.LedgerLines.{cap_reason, cap_suffix, position_fields};
ghost use Rattle.fare_texts.specs.LedgerLines.{ride_rest, transfer_reason, transfer_words};
ghost use Rattle.fare_texts.specs.LedgerLines.{window_rest, window_transfer_reason};

use crate::line::Line;
use crate::moment::put_moment;
use crate::names::cap_name;
use account_rule::Charge;
use fare_caps::{CapCharge, CappedReason};
use tariffs::FareTable;

/// A longer name of a cap is left out, since a line has no room for it. A fare table has none.
const CAP_BYTES: usize = 16;

/// Puts the fields before what the line has, as `,,,stale,2024-03-08T18:00:00.000Z`.
#[inline(always)]
pub(crate) fn put_reason_fields(line: &mut Line, table: &FareTable, reason: &CappedReason)
    requires { length line.old + 156 ≤ 384 }
    ensures put { (fields : List ℕ)
        × IsReasonFields table.now.meaning.cap_names reason.now fields
        × (line.new ≡ fields ++ line.old) }
    ensures short { length line.new ≤ length line.old + 156 }
{
    match *reason {
        CappedReason::Unknown => line.put(b",,,unknown,"),
        CappedReason::Stale { latest } => put_pointing(line, b",,,stale,", latest),
        CappedReason::Transfer { moment, mode: _ } => put_pointing(line, b",,,transfer,", moment),
        CappedReason::PaidTransfer {
            start,
            until,
            moment,
            mode: _,
            charge,
        } => put_paid_transfer(line, table, start, until, moment, charge),
        CappedReason::Ride {
            start,
            until,
            charge,
        } => put_ride(line, table, start, until, charge),
    }
}

/// Puts the words and the moment to which they point.
#[inline(always)]
fn put_pointing(line: &mut Line, words: &[u8], at: u64)
    requires few { length words.now ≤ 20 }
    requires room { length line.old + 60 ≤ 384 }
    ensures put { (written : List ℕ) × IsPointing words.now at written
        × (line.new ≡ written ++ line.old) }
    ensures short { length line.new ≤ length line.old + 60 }
{
    put_moment(line, at);
    line.put(words);
}

/// Puts the fields of a transfer that costs something. Kept out of the line of a ride, which is the
/// more frequent one.
#[cold]
#[inline(never)]
fn put_paid_transfer(
    line: &mut Line,
    table: &FareTable,
    start: u64,
    until: u64,
    at: u64,
    charge: CapCharge,
)
    requires { length line.old + 156 ≤ 384 }
    ensures put { (rest : List ℕ) × (written : List ℕ)
        × IsPointing (transfer_words table.now.meaning.cap_names charge) at rest
        × IsWindowFields start until rest written × (line.new ≡ written ++ line.old) }
    ensures short { length line.new ≤ length line.old + 156 }
{
    put_moment(line, at);
    put_transfer_words(line, table, charge);
    put_moment(line, until);
    line.put(b",");
    put_moment(line, start);
}

/// Puts no place, and what decided the cents of a transfer, as `,,transfer-cut:month,`.
#[tactic(auto, unfolding(crate::specs::LedgerLines::transfer_words))]
fn put_transfer_words(line: &mut Line, table: &FareTable, charge: CapCharge)
    requires { length line.old + 35 ≤ 384 }
    ensures put { line.new ≡ transfer_words table.now.meaning.cap_names charge ++ line.old }
    ensures short { length line.new ≤ length line.old + 35 }
{
    line.put(b",");
    put_transfer_reason(line, table, charge);
    line.put(b",,");
}

/// Puts what decided the cents of a transfer.
fn put_transfer_reason(line: &mut Line, table: &FareTable, charge: CapCharge)
    requires { length line.old + 32 ≤ 384 }
    ensures put { line.new ≡ transfer_reason table.now.meaning.cap_names charge ++ line.old }
    ensures short { length line.new ≤ length line.old + 32 }
{
    match charge {
        CapCharge::ByWindow { charge } => line.put(window_transfer_reason(charge)),
        CapCharge::CapCut {
            position: _,
            cents: _,
            cap,
        } => put_named(line, table, b"transfer-cut", cap),
        CapCharge::CapReached { position: _, cap } => {
            put_named(line, table, b"transfer-capped", cap)
        }
    }
}

/// How `window` decided the cents of a transfer.
fn window_transfer_reason(charge: Charge) -> &'static [u8]
    ensures word { result.now ≡ window_transfer_reason charge }
    ensures few { length result.now ≤ 15 }
{
    match charge {
        Charge::Full { .. } => b"transfer-fare",
        Charge::CeilingCut { .. } => b"transfer-cut",
        Charge::CeilingReached { .. } | Charge::RideLimitReached => b"transfer-capped",
    }
}

/// Puts a word and the name of the cap, as `cap-cut:month`.
#[inline(always)]
fn put_named(line: &mut Line, table: &FareTable, word: &[u8], cap: u8)
    requires few { length word.now ≤ 15 }
    requires room { length line.old + 32 ≤ 384 }
    ensures put { line.new ≡ cap_reason word.now table.now.meaning.cap_names cap ++ line.old }
    ensures short { length line.new ≤ length line.old + (length word.now + 17) }
{
    put_suffix(line, cap_name(table, cap));
    line.put(word);
}

/// Puts the fields of a ride.
#[inline(always)]
fn put_ride(line: &mut Line, table: &FareTable, start: u64, until: u64, charge: CapCharge)
    requires { length line.old + 149 ≤ 384 }
    ensures put { (written : List ℕ)
        × IsWindowFields start until (ride_rest table.now.meaning.cap_names charge) written
        × (line.new ≡ written ++ line.old) }
    ensures short { length line.new ≤ length line.old + 149 }
{
    put_ride_rest(line, table, charge);
    put_moment(line, until);
    line.put(b",");
    put_moment(line, start);
}

/// Puts a ride's place and what decided its cents.
#[inline(always)]
fn put_ride_rest(line: &mut Line, table: &FareTable, charge: CapCharge)
    requires { length line.old + 68 ≤ 384 }
    ensures put { line.new ≡ ride_rest table.now.meaning.cap_names charge ++ line.old }
    ensures short { length line.new ≤ length line.old + 68 }
{
    match charge {
        CapCharge::ByWindow { charge } => put_window_rest(line, charge),
        CapCharge::CapCut {
            position,
            cents: _,
            cap,
        } => put_capped(line, table, position, b"cap-cut", cap),
        CapCharge::CapReached { position, cap } => {
            put_capped(line, table, position, b"cap", cap)
        }
    }
}

/// Puts a ride's place and how `window` decided its cents.
#[inline(always)]
fn put_window_rest(line: &mut Line, charge: Charge)
    requires { length line.old + 59 ≤ 384 }
    ensures put { line.new ≡ window_rest charge ++ line.old }
    ensures short { length line.new ≤ length line.old + 59 }
{
    match charge {
        Charge::Full { position, cents: _ } => put_placed(line, position, b"full"),
        Charge::CeilingCut { position, cents: _ } => put_placed(line, position, b"ceiling-cut"),
        Charge::CeilingReached { position } => put_placed(line, position, b"ceiling"),
        Charge::RideLimitReached => line.put(b",,ride-limit,"),
    }
}

/// Puts a ride's place, counted from 1, and a word.
#[inline(always)]
#[tactic(auto, unfolding(crate::specs::LedgerLines::position_fields))]
fn put_placed(line: &mut Line, position: u32, word: &[u8])
    requires few { length word.now ≤ 16 }
    requires room { length line.old + 59 ≤ 384 }
    ensures put { line.new ≡ position_fields position word.now ++ line.old }
    ensures short { length line.new ≤ length line.old + 59 }
{
    line.put(b",");
    line.put(word);
    line.put(b",");
    line.put_short(u64::from(position) + 1);
    line.put(b",");
}

/// Puts a ride's place, counted from 1, a word, and the name of the cap, as `,2,cap-cut:month,`.
#[inline(always)]
#[tactic(auto, unfolding(crate::specs::LedgerLines::position_fields))]
fn put_capped(line: &mut Line, table: &FareTable, position: u32, word: &[u8], cap: u8)
    requires few { length word.now ≤ 8 }
    requires room { length line.old + 68 ≤ 384 }
    ensures put { line.new ≡ position_fields position
        (cap_reason word.now table.now.meaning.cap_names cap) ++ line.old }
    ensures short { length line.new ≤ length line.old + 68 }
{
    line.put(b",");
    put_named(line, table, word, cap);
    line.put(b",");
    line.put_short(u64::from(position) + 1);
    line.put(b",");
}

/// Puts a colon and the name of a cap.
#[inline(always)]
#[tactic(auto, unfolding(crate::specs::LedgerLines::cap_suffix))]
fn put_suffix(line: &mut Line, name: &str)
    requires { length line.old + 17 ≤ 384 }
    ensures put { line.new ≡ cap_suffix name.now ++ line.old }
    ensures short { length line.new ≤ length line.old + 17 }
{
    if name.len() <= CAP_BYTES {
        line.put(name.as_bytes());
        line.put(b":");
    }
}
