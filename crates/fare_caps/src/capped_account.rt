//! The account of one token under caps: its state, and its step.

ghost use Rattle.account_rule.specs.declared.tap.TapIn.{TapIn};
ghost use Rattle.fare_caps.specs.{CapMeanings.capped_rules_of, CappedReplies.capped_reason};
ghost use Rattle.fare_caps.specs.CappedReplies.{capped_reply, capped_window, replied_by};
ghost use Rattle.fare_caps.specs.Represents.{Represents, RepresentsSome, no_further};
ghost use Rattle.fare_caps.specs.inside.Seen.{live_kind, uncapped};
ghost use Rattle.std.specs.Option.{ForSome};
ghost use Rattle.std.specs.Prelude.{◌≡◌, ℕ, ◌<◌, ◌≤◌, List, [], ◌∷◌, ◌++◌, length};
ghost use Rattle.tariffs.specs.Fares.{Fares};

use crate::cap_charge::CapCharge;
use crate::capped_reason::CappedReason;
use crate::further::Further;
use account_rule::{Account, Reason, Reply, TapIn, WindowView};
use tariffs::{Clock, FareTable, Mode};

/// The account of one token under one fare table with its caps and prices. Without these it costs
/// what `Account` costs, and answers as that does.
#[derive(Clone, Copy, Debug, PartialEq, Eq)]
pub struct CappedAccount {
    /// What it stores whatever the table: without caps and prices that is all.
    pub account: Account,
    /// Says nothing if the table has neither caps nor prices.
    pub further: Further,
}

impl CappedAccount {
    /// An account that has seen no tap.
    pub fn fresh() -> Self
        ensures holds { (fares : Fares) (token : List ℕ)
            → Represents (capped_rules_of fares token) result [] }
        ensures some { (fares : Fares) (token : List ℕ)
            → RepresentsSome (capped_rules_of fares token) result }
        ensures further { result.further ≡ no_further }
    {
        CappedAccount {
            account: Account::fresh(),
            further: Further::none(),
        }
    }

    /// Charges one more tap of the token, and returns the rule's reply. Takes no memory. All calls
    /// on an account have one table and one token.
    #[inline(always)]
    pub fn step(&mut self, table: &FareTable, clock: &Clock, token: &[u8], tap: TapIn) -> Reply
        requires clock { clock.now ≡ table.now.zone }
        requires token { length token.now ≡ 16 }
        requires mode { ForSome tap.mode (λ mode. mode.position < length table.now.meaning.modes) }
        requires early { tap.moment < 4_102_444_800_000 }
        requires holds { RepresentsSome (capped_rules_of table.now token.now) self.old }

        // For every list of taps that the account represents.
        ensures reply { (taps : List TapIn)
            → Represents (capped_rules_of table.now token.now) self.old taps
            → result ≡ capped_reply (capped_rules_of table.now token.now) taps tap }
        ensures holds { (taps : List TapIn)
            → Represents (capped_rules_of table.now token.now) self.old taps
            → Represents (capped_rules_of table.now token.now) self.new
            (taps ++ tap ∷ []) }
        ensures some { RepresentsSome (capped_rules_of table.now token.now) self.new }
        ensures few { result.cents ≤ 100_000 }
    {
        if table.has_caps_or_prices_at(tap.moment) {
            return self.capped_step(table, clock, token, tap.mode, tap.moment);
        }
        self.account.step(table, clock, token, tap)
    }

    /// Kept out of `step`, with scalars for the tap: a local of `step`, or a tap whose address is
    /// taken, would cost a run without caps and prices some stores at each tap.
    #[cold]
    #[inline(never)]
    fn capped_step(
        &mut self,
        table: &FareTable,
        clock: &Clock,
        token: &[u8],
        mode: Option<Mode>,
        moment: u64,
    ) -> Reply
        requires clock { clock.now ≡ table.now.zone }
        requires token { length token.now ≡ 16 }
        requires mode { ForSome mode (λ mode. mode.position < length table.now.meaning.modes) }
        requires early { moment < 4_102_444_800_000 }
        requires holds { RepresentsSome (capped_rules_of table.now token.now) self.old }
        ensures reply { (taps : List TapIn)
            → Represents (capped_rules_of table.now token.now) self.old taps
            → result ≡ capped_reply (capped_rules_of table.now token.now) taps
            (record { moment = moment; mode = mode }) }
        ensures holds { (taps : List TapIn)
            → Represents (capped_rules_of table.now token.now) self.old taps
            → Represents (capped_rules_of table.now token.now) self.new
            (taps ++ record { moment = moment; mode = mode } ∷ []) }
        ensures some { RepresentsSome (capped_rules_of table.now token.now) self.new }
        ensures few { result.cents ≤ 100_000 }
    {
        self.explain_step(table, clock, token, TapIn { moment, mode })
            .reply()
    }

    /// As `step`, but returns the reason, from which the reply follows. Takes no memory.
    #[inline(never)]
    pub fn explain_step(
        &mut self,
        table: &FareTable,
        clock: &Clock,
        token: &[u8],
        tap: TapIn,
    ) -> CappedReason
        requires clock { clock.now ≡ table.now.zone }
        requires token { length token.now ≡ 16 }
        requires mode { ForSome tap.mode (λ mode. mode.position < length table.now.meaning.modes) }
        requires early { tap.moment < 4_102_444_800_000 }
        requires holds { RepresentsSome (capped_rules_of table.now token.now) self.old }

        ensures reason { (taps : List TapIn)
            → Represents (capped_rules_of table.now token.now) self.old taps
            → result ≡ capped_reason (capped_rules_of table.now token.now) taps tap }
        ensures holds { (taps : List TapIn)
            → Represents (capped_rules_of table.now token.now) self.old taps
            → Represents (capped_rules_of table.now token.now) self.new
            (taps ++ tap ∷ []) }
        ensures some { RepresentsSome (capped_rules_of table.now token.now) self.new }
        ensures few { (replied_by result).cents ≤ 100_000 }
    {
        let reason = self.account.explain_step(table, clock, token, tap);
        if !table.has_caps_or_prices() {
            return uncapped(reason);
        }
        match live_kind(reason, tap.mode) {
            LiveKind::Free => uncapped(reason),
            LiveKind::Ride { start, until, mode } => {
                let tariff = table.at(tap.moment);
                let class = tariff.class_of(token);
                CappedReason::Ride {
                    start,
                    until,
                    charge: self
                        .further
                        .charge_ride(tariff, table.caps(), clock, class, mode, tap.moment),
                }
            }
            LiveKind::Transfer {
                moment,
                ride_mode,
                mode,
            } => {
                let tariff = table.at(tap.moment);
                let class = tariff.class_of(token);
                let charge = self
                    .further
                    .charge_transfer(tariff, table.caps(), class, mode);
                self.further.transfer_reason(moment, ride_mode, charge)
            }
        }
    }

    /// The last window of `window`, or `None` before the first ride.
    pub fn window(&self, table: &FareTable) -> Option<WindowView>
        ensures window { (token : List ℕ) (taps : List TapIn)
            → Represents (capped_rules_of table.now token) self.now taps
            → result ≡ capped_window (capped_rules_of table.now token) taps }
    {
        let Some(view) = self.account.window() else {
            return None;
        };
        if !table.has_caps_or_prices() {
            return Some(view);
        }
        Some(WindowView {
            start: view.start,
            until: view.until,
            paid: u32::from(self.further.paid),
            cents: self.further.window.cents,
        })
    }
}

/// A live tap, by the reason without caps.
#[derive(Clone, Copy)]
enum LiveKind {
    /// The tap is not live.
    Free,
    /// A ride on the mode, of the window from `start` to `until`.
    Ride {
        start: u64,
        until: u64,
        mode: Mode,
    },
    /// A transfer to the mode that the ride at the moment gives.
    Transfer {
        moment: u64,
        ride_mode: Mode,
        mode: Mode,
    },
}

/// The live tap whose reason this is, at a validator of the mode.
fn live_kind(reason: Reason, mode: Option<Mode>) -> LiveKind
    ensures { result ≡ live_kind reason mode }
{
    let Some(mode) = mode else {
        return LiveKind::Free;
    };
    match reason {
        Reason::Unknown => LiveKind::Free,
        Reason::Stale { latest: _ } => LiveKind::Free,
        Reason::Transfer {
            moment,
            mode: ride_mode,
        } => LiveKind::Transfer {
            moment,
            ride_mode,
            mode,
        },
        Reason::Ride {
            start,
            until,
            charge: _,
        } => LiveKind::Ride { start, until, mode },
    }
}

/// The same reason, if there are neither caps nor prices.
fn uncapped(reason: Reason) -> CappedReason
    ensures { result ≡ uncapped reason }
{
    match reason {
        Reason::Unknown => CappedReason::Unknown,
        Reason::Stale { latest } => CappedReason::Stale { latest },
        Reason::Transfer { moment, mode } => CappedReason::Transfer { moment, mode },
        Reason::Ride {
            start,
            until,
            charge,
        } => CappedReason::Ride {
            start,
            until,
            charge: CapCharge::ByWindow { charge },
        },
    }
}
