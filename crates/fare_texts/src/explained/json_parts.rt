//! The parts of an explained statement as JSON.

ghost use Rattle.std.specs.Prelude.{◌≡◌, [], Some, slice_index_or};
ghost use Rattle.fare_texts.specs.ExplainedJson.{window_transfer_json};

use crate::local::local_at;
use crate::names::cap_name;
use account_rule::{Charge, NoTransfer};
use fare_caps::{CapCharge, CappedReason};
use std::fmt;
use tariffs::{Clock, FareTable, Mode, Terms};

/// A moment: in milliseconds since 1970-01-01T00:00Z, and as clocks of the table's zone show it.
#[derive(Clone, Copy)]
pub(crate) struct At<'a> {
    pub(crate) clock: &'a Clock,
    pub(crate) moment: u64,
}

impl fmt::Display for At<'_> {
    ghost use Rattle.fare_texts.specs.ExplainedJson.{at_json};

    ghost output = { λ at. Some (at_json at.clock.now at.moment) };

    #[tactic(auto, unfolding(crate::specs::ExplainedJson::at_json))]
    fn fmt<W: fmt::Write>(&self, f: &mut fmt::Formatter<W>) -> fmt::Result {
        let moment = self.moment;
        match local_at(self.clock, moment) {
            Some(local) => write!(f, "{{\"ms\":{moment},\"local\":\"{local}\"}}"),
            None => write!(f, "{{\"ms\":{moment},\"local\":null}}"),
        }
    }
}

/// Up to what a rider pays in a window by a table.
#[derive(Clone, Copy)]
struct Limits(Terms);

impl fmt::Display for Limits {
    ghost use Rattle.fare_texts.specs.ExplainedJson.{limits_json};

    ghost output = { λ limits. Some (limits_json limits.0) };

    #[tactic(auto, unfolding(crate::specs::ExplainedJson::limits_json))]
    fn fmt<W: fmt::Write>(&self, f: &mut fmt::Formatter<W>) -> fmt::Result {
        let free_from = u64::from(self.0.rides) + 1;
        let ceiling = self.0.ceiling;
        write!(f, "\"free_from\":{free_from},\"ceiling\":{ceiling}")
    }
}

/// What a rider pays by a table.
#[derive(Clone, Copy)]
pub(crate) struct Paying(pub(crate) Terms);

impl fmt::Display for Paying {
    ghost use Rattle.fare_texts.specs.ExplainedJson.{terms_json};

    ghost output = { λ paying. Some (terms_json paying.0) };

    #[tactic(auto, unfolding(crate::specs::ExplainedJson::terms_json))]
    fn fmt<W: fmt::Write>(&self, f: &mut fmt::Formatter<W>) -> fmt::Result {
        let fare = self.0.fare;
        let rides = self.0.rides;
        let limits = Limits(self.0);
        write!(f, "\"fare\":{fare},\"rides\":{rides},{limits}")
    }
}

/// How `window` decided the cents of a ride.
#[derive(Clone, Copy)]
struct ByWindow(Charge);

impl fmt::Display for ByWindow {
    ghost use Rattle.fare_texts.specs.ExplainedJson.{window_charge_json};

    ghost output = { λ decided. Some (window_charge_json decided.0) };

    #[tactic(auto, unfolding(crate::specs::ExplainedJson::window_charge_json))]
    fn fmt<W: fmt::Write>(&self, f: &mut fmt::Formatter<W>) -> fmt::Result {
        match self.0 {
            Charge::Full { position, cents: _ } => {
                let ride = u64::from(position) + 1;
                write!(f, "\"kind\":\"full\",\"ride\":{ride}")
            }
            Charge::CeilingCut { position, cents: _ } => {
                let ride = u64::from(position) + 1;
                write!(f, "\"kind\":\"ceiling-cut\",\"ride\":{ride}")
            }
            Charge::CeilingReached { position } => {
                let ride = u64::from(position) + 1;
                write!(f, "\"kind\":\"ceiling\",\"ride\":{ride}")
            }
            Charge::RideLimitReached => f.write_str("\"kind\":\"ride-limit\",\"ride\":null"),
        }
    }
}

/// How a cap decided them.
#[derive(Clone, Copy)]
struct ByCap<'a> {
    kind: &'a str,
    position: u32,
    name: &'a str,
}

impl fmt::Display for ByCap<'_> {
    ghost use Rattle.fare_texts.specs.ExplainedJson.{cap_json};

    ghost output = { λ by. Some (cap_json by.kind.now by.position by.name.now) };

    #[tactic(auto, unfolding(crate::specs::ExplainedJson::cap_json))]
    fn fmt<W: fmt::Write>(&self, f: &mut fmt::Formatter<W>) -> fmt::Result {
        let kind = self.kind;
        let name = self.name;
        let ride = u64::from(self.position) + 1;
        write!(f, "\"kind\":\"{kind}\",\"cap\":\"{name}\",\"ride\":{ride}")
    }
}

/// What decided the cents of a ride.
#[derive(Clone, Copy)]
struct Decided<'a> {
    table: &'a FareTable,
    charge: CapCharge,
}

impl fmt::Display for Decided<'_> {
    ghost use Rattle.fare_texts.specs.ExplainedJson.{charge_json};

    ghost output = { λ decided. Some (charge_json decided.table.now.meaning.cap_names
        decided.charge) };

    fn fmt<W: fmt::Write>(&self, f: &mut fmt::Formatter<W>) -> fmt::Result {
        match self.charge {
            CapCharge::ByWindow { charge } => ByWindow(charge).fmt(f),
            CapCharge::CapCut {
                position,
                cents: _,
                cap,
            } => ByCap {
                kind: "cap-cut",
                position,
                name: cap_name(self.table, cap),
            }
            .fmt(f),
            CapCharge::CapReached { position, cap } => ByCap {
                kind: "cap",
                position,
                name: cap_name(self.table, cap),
            }
            .fmt(f),
        }
    }
}

/// How a cap decided the cents of a transfer.
#[derive(Clone, Copy)]
struct TransferByCap<'a> {
    kind: &'a str,
    name: &'a str,
}

impl fmt::Display for TransferByCap<'_> {
    ghost use Rattle.fare_texts.specs.ExplainedJson.{cap_transfer_json};

    ghost output = { λ by. Some (cap_transfer_json by.kind.now by.name.now) };

    #[tactic(auto, unfolding(crate::specs::ExplainedJson::cap_transfer_json))]
    fn fmt<W: fmt::Write>(&self, f: &mut fmt::Formatter<W>) -> fmt::Result {
        let kind = self.kind;
        let name = self.name;
        write!(f, "\"kind\":\"{kind}\",\"cap\":\"{name}\"")
    }
}

/// What decided the cents of a transfer.
#[derive(Clone, Copy)]
struct DecidedTransfer<'a> {
    table: &'a FareTable,
    charge: CapCharge,
}

impl fmt::Display for DecidedTransfer<'_> {
    ghost use Rattle.fare_texts.specs.ExplainedJson.{transfer_json};

    ghost output = { λ decided. Some (transfer_json decided.table.now.meaning.cap_names
        decided.charge) };

    fn fmt<W: fmt::Write>(&self, f: &mut fmt::Formatter<W>) -> fmt::Result {
        match self.charge {
            CapCharge::ByWindow { charge } => f.write_str(window_transfer(charge)),
            CapCharge::CapCut {
                position: _,
                cents: _,
                cap,
            } => TransferByCap {
                kind: "transfer-cut",
                name: cap_name(self.table, cap),
            }
            .fmt(f),
            CapCharge::CapReached { position: _, cap } => TransferByCap {
                kind: "transfer-capped",
                name: cap_name(self.table, cap),
            }
            .fmt(f),
        }
    }
}

/// How `window` decided the cents of a transfer.
fn window_transfer(charge: Charge) -> &'static str
    ensures { result.now ≡ window_transfer_json charge }
{
    match charge {
        Charge::Full { .. } => "\"kind\":\"transfer-fare\"",
        Charge::CeilingCut { .. } => "\"kind\":\"transfer-cut\"",
        Charge::CeilingReached { .. } | Charge::RideLimitReached => {
            "\"kind\":\"transfer-capped\""
        }
    }
}

/// The start and the end of a window.
#[derive(Clone, Copy)]
pub(crate) struct Within<'a> {
    pub(crate) clock: &'a Clock,
    pub(crate) start: u64,
    pub(crate) until: u64,
}

impl fmt::Display for Within<'_> {
    ghost use Rattle.fare_texts.specs.ExplainedJson.{within_json};

    ghost output = { λ within. Some (within_json within.clock.now within.start within.until) };

    #[tactic(auto, unfolding(crate::specs::ExplainedJson::within_json))]
    fn fmt<W: fmt::Write>(&self, f: &mut fmt::Formatter<W>) -> fmt::Result {
        let start = At {
            clock: self.clock,
            moment: self.start,
        };
        let end = At {
            clock: self.clock,
            moment: self.until,
        };
        write!(f, "\"window_start\":{start},\"window_end\":{end}")
    }
}

/// The name of a mode, or nothing if the table has no such mode.
fn name_of(table: &FareTable, mode: Mode) -> &str
    ensures { result.now ≡ slice_index_or table.now.meaning.modes mode.position [] }
{
    match table.mode_names().get(mode.position as usize) {
        Some(name) => name.as_str(),
        None => "",
    }
}

/// Why a tap is answered as it is.
#[derive(Clone, Copy)]
pub(crate) struct Because<'a> {
    pub(crate) table: &'a FareTable,
    pub(crate) clock: &'a Clock,
    pub(crate) reason: CappedReason,
}

impl fmt::Display for Because<'_> {
    ghost use Rattle.fare_texts.specs.ExplainedJson.{reason_json};

    ghost output = { λ b. Some (reason_json b.clock.now b.table.now.meaning.modes
        b.table.now.meaning.cap_names b.reason) };

    fn fmt<W: fmt::Write>(&self, f: &mut fmt::Formatter<W>) -> fmt::Result {
        let clock = self.clock;
        match self.reason {
            CappedReason::Unknown => f.write_str("{\"kind\":\"unknown\"}"),
            CappedReason::Stale { latest } => {
                let at = At {
                    clock,
                    moment: latest,
                };
                write!(f, "{{\"kind\":\"stale\",\"points_at\":{at}}}")
            }
            CappedReason::Transfer { moment, mode } => {
                let at = At { clock, moment };
                let mode = name_of(self.table, mode);
                write!(
                    f,
                    "{{\"kind\":\"transfer\",\"points_at\":{at},\"mode\":\"{mode}\"}}"
                )
            }
            CappedReason::PaidTransfer {
                start,
                until,
                moment,
                mode,
                charge,
            } => {
                let decided = DecidedTransfer {
                    table: self.table,
                    charge,
                };
                let at = At { clock, moment };
                let mode = name_of(self.table, mode);
                let within = Within {
                    clock,
                    start,
                    until,
                };
                write!(
                    f,
                    "{{{decided},\"points_at\":{at},\"mode\":\"{mode}\",{within}}}"
                )
            }
            CappedReason::Ride {
                start,
                until,
                charge,
            } => {
                let decided = Decided {
                    table: self.table,
                    charge,
                };
                let within = Within {
                    clock,
                    start,
                    until,
                };
                write!(f, "{{{decided},{within}}}")
            }
        }
    }
}

/// How much earlier a tap was, in milliseconds.
#[derive(Clone, Copy)]
struct Gap(u64);

impl fmt::Display for Gap {
    ghost use Rattle.fare_texts.specs.ExplainedJson.{gap_json};

    ghost output = { λ gap. Some (gap_json gap.0) };

    #[tactic(auto, unfolding(crate::specs::ExplainedJson::gap_json))]
    fn fmt<W: fmt::Write>(&self, f: &mut fmt::Formatter<W>) -> fmt::Result {
        let hours = self.0 / 3_600_000;
        let minutes = self.0 / 60_000 % 60;
        let seconds = self.0 / 1_000 % 60;
        write!(
            f,
            "\"hours\":{hours},\"minutes\":{minutes},\"seconds\":{seconds}"
        )
    }
}

/// Why a ride at the moment is no transfer.
#[derive(Clone, Copy)]
struct Lack<'a> {
    table: &'a FareTable,
    clock: &'a Clock,
    moment: u64,
    none: NoTransfer,
}

impl fmt::Display for Lack<'_> {
    ghost use Rattle.fare_texts.specs.ExplainedJson.{no_transfer_json};

    ghost output = { λ l. Some (no_transfer_json l.clock.now l.table.now.meaning.modes l.moment
        l.none) };

    fn fmt<W: fmt::Write>(&self, f: &mut fmt::Formatter<W>) -> fmt::Result {
        let clock = self.clock;
        match self.none {
            NoTransfer::FirstTap => f.write_str("{\"kind\":\"first-tap\"}"),
            NoTransfer::TooLate { last } => {
                let at = At {
                    clock,
                    moment: last,
                };
                let gap = Gap(self.moment.saturating_sub(last));
                write!(f, "{{\"kind\":\"too-late\",\"points_at\":{at},{gap}}}")
            }
            NoTransfer::NoneGiven => f.write_str("{\"kind\":\"none-given\"}"),
            NoTransfer::AfterTransfer { last } => {
                let at = At {
                    clock,
                    moment: last,
                };
                write!(f, "{{\"kind\":\"after-transfer\",\"points_at\":{at}}}")
            }
            NoTransfer::RideTooLate { ride } => {
                let at = At {
                    clock,
                    moment: ride,
                };
                let gap = Gap(self.moment.saturating_sub(ride));
                write!(f, "{{\"kind\":\"ride-too-late\",\"points_at\":{at},{gap}}}")
            }
            NoTransfer::NotPermitted { from, to } => {
                let from = name_of(self.table, from);
                let to = name_of(self.table, to);
                write!(
                    f,
                    "{{\"kind\":\"not-permitted\",\"from\":\"{from}\",\"to\":\"{to}\"}}"
                )
            }
        }
    }
}

/// Why an entry at the moment that has this reason is no transfer: null, unless it is a ride.
#[derive(Clone, Copy)]
pub(crate) struct Lacking<'a> {
    pub(crate) table: &'a FareTable,
    pub(crate) clock: &'a Clock,
    pub(crate) moment: u64,
    pub(crate) reason: CappedReason,
    pub(crate) none: Option<NoTransfer>,
}

impl fmt::Display for Lacking<'_> {
    ghost use Rattle.fare_texts.specs.ExplainedJson.{lack_json};

    ghost output = { λ l. Some (lack_json l.clock.now l.table.now.meaning.modes l.moment l.reason
        l.none) };

    fn fmt<W: fmt::Write>(&self, f: &mut fmt::Formatter<W>) -> fmt::Result {
        match self.reason {
            CappedReason::Ride { .. } => match self.none {
                Some(none) => Lack {
                    table: self.table,
                    clock: self.clock,
                    moment: self.moment,
                    none,
                }
                .fmt(f),
                None => f.write_str("null"),
            },
            CappedReason::Unknown
            | CappedReason::Stale { .. }
            | CappedReason::Transfer { .. }
            | CappedReason::PaidTransfer { .. } => f.write_str("null"),
        }
    }
}
