//! Why an account answers a tap as it does.

ghost use Rattle.account_rule.specs.Kept.{IsRoomy, kept_numbers, kept_trip};
ghost use Rattle.account_rule.specs.NoTransfers.{HasModesBelow, no_transfer, no_transfer_from};
ghost use Rattle.account_rule.specs.Reasons.{given_by, reason, replied_by};
ghost use Rattle.account_rule.specs.Represents.{Represents, RepresentsSome};
ghost use Rattle.account_rule.specs.{Taps.live_at, TokenRules.TokenRules, TokenRules.rules_of};
ghost use Rattle.account_rule.specs.declared.tap.TapIn.{TapIn};
ghost use Rattle.account_rule.specs.inside.Kept.{next_reason, transfers_in, window_at, with_ride};
ghost use Rattle.std.specs.Option.{ForSome};
ghost use Rattle.std.specs.Prelude.{◌≡◌, ℕ, ◌<◌, ◌≤◌, ◌++◌, ◌∷◌, [], List, length, Some};
ghost use Rattle.tariffs.specs.{Fares.ride_terms, Terms.AreBoundedTerms, Until.window_end_in};

use super::Account;
use crate::no_transfer::NoTransfer;
use crate::reason::Reason;
use crate::tap::TapIn;
use crate::window::Window;
use tariffs::{Clock, FareTable, Mode, Tariff};

impl Account {
    /// As `step`, but returns the reason, from which the reply follows. Takes no memory.
    pub fn explain_step(
        &mut self,
        table: &FareTable,
        clock: &Clock,
        token: &[u8],
        tap: TapIn,
    ) -> Reason
        requires clock { clock.now ≡ table.now.zone }
        requires token { length token.now ≡ 16 }
        requires mode { ForSome tap.mode (λ mode. mode.position < length table.now.meaning.modes) }
        requires early { tap.moment < 4_102_444_800_000 }
        requires holds { RepresentsSome (rules_of table.now token.now) self.old }

        ensures reason { (taps : List TapIn) → Represents (rules_of table.now token.now) self.old taps
            → result ≡ reason (rules_of table.now token.now) taps tap }
        ensures holds { (taps : List TapIn) → Represents (rules_of table.now token.now) self.old taps
            → Represents (rules_of table.now token.now) self.new (taps ++ tap ∷ []) }
        ensures some { RepresentsSome (rules_of table.now token.now) self.new }
        ensures few { (replied_by result).cents ≤ 100_000 }
    {
        let Some(mode) = tap.mode else {
            return Reason::Unknown;
        };
        if !self.has_window {
            let tariff = table.at(tap.moment);
            let terms = tariff.ride_terms(tariff.class_of(token), mode);
            let first = Window::opened(tariff, clock, tap.moment).next_reason(terms);
            self.first_ride(tariff, clock, token, mode, tap.moment);
            return first;
        }
        if tap.moment <= self.last {
            return Reason::Stale { latest: self.last };
        }
        let tariff = table.at(tap.moment);
        self.class = self.class_at(table, token, tap.moment);
        if self.gives_transfer(tariff, tap.moment, mode) {
            let given = self.given();
            self.take_transfer(mode, tap.moment);
            return given;
        }
        self.explain_ride(tariff, clock, mode, tap.moment)
    }

    /// Why a ride at the moment, on the mode, is not a transfer. Of a transfer it says nothing.
    pub fn no_transfer(
        &self,
        table: &FareTable,
        token: &[u8],
        moment: u64,
        mode: Mode,
    ) -> NoTransfer
        requires token { length token.now ≡ 16 }

        ensures lacks { (taps : List TapIn) → Represents (rules_of table.now token.now) self.now taps
            → result ≡ no_transfer (rules_of table.now token.now) taps moment mode }
        ensures modes { (rules : TokenRules) (taps : List TapIn) → Represents rules self.now taps
            → mode.position < rules.modes → HasModesBelow rules.modes result }
    {
        if !self.has_window {
            return NoTransfer::FirstTap;
        }
        let tariff = table.at(moment);
        self.spent(tariff, tariff.class_of(token), moment, mode)
    }

    #[tactic(auto, unfolding(crate::specs::inside::Kept::transfers_in, crate::specs::NoTransfers::no_transfer_from, crate::specs::Kept::kept_trip, crate::specs::Taps::live_at))]
    fn spent(&self, tariff: &Tariff, class: u32, moment: u64, mode: Mode) -> NoTransfer
        requires class { class < length tariff.now.meaning.classes }
        ensures lacks { result ≡ no_transfer_from (transfers_in tariff.now.meaning class)
            (kept_trip (Some (kept_numbers self.now))) (live_at moment mode) }
        ensures modes { (modes : ℕ) → self.now.mode.position < modes → mode.position < modes
            → HasModesBelow modes result }
    {
        let gives = tariff.transfer_terms(class);
        let time = u64::from(gives.time);
        if moment.saturating_sub(self.last) > time {
            return NoTransfer::TooLate { last: self.last };
        }
        if u32::from(self.given) >= gives.taps {
            if self.given == 0 {
                return NoTransfer::NoneGiven;
            }
            return NoTransfer::AfterTransfer { last: self.last };
        }
        if moment.saturating_sub(self.ride) > time {
            return NoTransfer::RideTooLate { ride: self.ride };
        }
        NoTransfer::NotPermitted {
            from: self.mode,
            to: mode,
        }
    }

    #[tactic(auto, unfolding(crate::specs::Reasons::given_by, crate::specs::Kept::kept_trip, crate::specs::Taps::live_at))]
    fn given(&self) -> Reason
        ensures { result ≡ given_by (kept_trip (Some (kept_numbers self.now))) }
    {
        Reason::Transfer {
            moment: self.ride,
            mode: self.ride_mode,
        }
    }

    #[tactic(auto, unfolding(crate::specs::inside::Kept::window_at, crate::specs::inside::Kept::open_window))]
    fn explain_ride(&mut self, tariff: &Tariff, clock: &Clock, mode: Mode, moment: u64) -> Reason
        requires class { self.old.class < length tariff.now.meaning.classes }
        requires mode { mode.position < length tariff.now.meaning.modes }
        requires early { moment < 4_102_444_800_000 }
        requires room { IsRoomy self.old.window }
        ensures bounds { AreBoundedTerms (ride_terms tariff.now.meaning self.old.class mode.position) }
        ensures reason { result
            ≡ next_reason (ride_terms tariff.now.meaning self.old.class mode.position)
            (window_at (Some self.old.window) moment (window_end_in clock.now
            tariff.now.meaning.window moment)) }
        ensures has_window { self.new.has_window ≡ self.old.has_window }
        ensures state { kept_numbers self.new ≡ record {
          last = live_at moment mode;
          ride = live_at moment mode;
          given = 0;
          class = self.old.class;
          window = with_ride (ride_terms tariff.now.meaning self.old.class mode.position)
              (window_at (Some self.old.window) moment (window_end_in clock.now
              tariff.now.meaning.window moment));
        } }
    {
        if moment >= self.window.until {
            self.window = Window::opened(tariff, clock, moment);
        }
        let terms = tariff.ride_terms(self.class, mode);
        let reason = self.window.next_reason(terms);
        self.window.add_ride(terms);
        self.begin_trip(mode, moment);
        reason
    }
}
