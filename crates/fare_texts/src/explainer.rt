//! A token's entries, explained one after another.

ghost use Rattle.account_rule.specs.NoTransfers.{HasModesBelow};
ghost use Rattle.fare_caps.specs.{CapMeanings.capped_rules_of, CappedReplies.capped_window};
ghost use Rattle.fare_texts.specs.Explainers.{HasExplained, next_entry};
ghost use Rattle.fare_texts.specs.LedgerLines.{IsLedgerLineAfter, reason_after};
ghost use Rattle.fare_texts.specs.{NoTransferWords.no_transfer_after, ReasonWords.HasModeOf};
ghost use Rattle.histories.specs.{Entry.tap_of, declared.entry.Entry.Entry};
ghost use Rattle.std.specs.Option.{ForSome};
ghost use Rattle.std.specs.Prelude.{◌≡◌, ◌+◌, ◌^◌, ◌<◌, ◌≤◌, ◌++◌, ◌∷◌, ◌⊎◌, [], List, ℕ, IfOk};
ghost use Rattle.std.specs.Prelude.{length, map, string_bytes, OnErr, OnOk};
ghost use Rattle.tap_views.specs.Token.{bytes_of};
ghost use Rattle.tariffs.specs.Fares.{Fares};

use crate::digits::digits_of;
use crate::ledger_line::{write_line, write_line_by};
use crate::line::Line;
use account_rule::{NoTransfer, TapIn, WindowView};
use fare_caps::{CappedAccount, CappedReason};
use histories::Entry;
use std::alloc::AllocError;
use tap_views::{MOMENT_LIMIT_MS, NoMemory, Token};
use tariffs::{Clock, FareTable};

/// The tap of an entry, as the account rule sees it. It takes no memory, and refuses an entry alone
/// that no upload has: one from 2100-01-01T00:00Z on.
fn tap_of(table: &FareTable, entry: &Entry) -> Result<TapIn, NoMemory>
    ensures tap { IfOk result (λ tap. tap ≡ tap_of table.now entry.now) }
    ensures mode { IfOk result (λ tap. ForSome tap.mode (λ mode.
        mode.position < length table.now.meaning.modes)) }
    ensures early { IfOk result (λ tap. tap.moment < 4_102_444_800_000) }
    ensures late { OnErr result (4_102_444_800_000 ≤ entry.now.moment) }
{
    if entry.moment >= MOMENT_LIMIT_MS {
        return Err(NoMemory);
    }
    Ok(TapIn {
        moment: entry.moment,
        mode: table.mode_of(entry.moment, entry.validator),
    })
}

/// A token whose entries are taken in the order of its history, with its account after those taken.
#[derive(Clone, Copy)]
pub struct Explainer {
    /// The token.
    pub token: Token,
    /// How many of its entries were taken.
    pub number: u64,
    /// Its account after them.
    pub account: CappedAccount,
    /// The token's digits, which each of its lines begins with.
    digits: [u8; 32],
}

impl Explainer {
    /// Before the first entry of a token.
    pub fn of(token: Token) -> Self
        ensures token { result.token ≡ token }
        ensures none { result.number ≡ 0 }
        ensures explained { (fares : Fares) → HasExplained fares result [] }
    {
        Explainer {
            token,
            number: 0,
            account: CappedAccount::fresh(),
            digits: digits_of(token),
        }
    }

    /// The token's last window after the entries taken, or `None` before its first ride.
    pub fn window(&self, table: &FareTable) -> Option<WindowView>
        ensures { (explained : List Entry) → HasExplained table.now self.now explained
            → result ≡ capped_window (capped_rules_of table.now (bytes_of self.now.token))
            (map (tap_of table.now) explained) }
    {
        self.account.window(table)
    }

    /// Why the token's next entry, if it is a ride, is no transfer. `None` if the table does not
    /// know its validator.
    pub fn no_transfer(&self, table: &FareTable, entry: &Entry) -> Option<NoTransfer>
        requires explained { (earlier : List Entry) × HasExplained table.now self.now earlier }

        // After all entries that it has taken.
        ensures lacks { (earlier : List Entry) → HasExplained table.now self.now earlier
            → result ≡ no_transfer_after table.now self.now.token earlier entry.now }
        ensures modes { ForSome result (HasModesBelow (length table.now.meaning.modes)) }
    {
        let mode = table.mode_of(entry.moment, entry.validator)?;
        let bytes = self.token.bytes();
        Some(
            self.account
                .account
                .no_transfer(table, &bytes, entry.moment, mode),
        )
    }

    /// Takes the token's next entry, and returns the account rule's reason for it after those taken
    /// before. It takes no memory, and refuses an entry alone that no upload has: one from
    /// 2100-01-01T00:00Z on.
    pub fn explain_next(
        &mut self,
        table: &FareTable,
        clock: &Clock,
        entry: &Entry,
    ) -> Result<CappedReason, NoMemory>
        requires clock { clock.now ≡ table.now.zone }
        requires explained { (earlier : List Entry) × HasExplained table.now self.old earlier }
        requires room { self.old.number + 1 < 2 ^ 64 }

        // After all entries that it has taken.
        ensures reason { IfOk result (λ why. (earlier : List Entry)
            → HasExplained table.now self.old earlier
            → why ≡ reason_after table.now self.old.token earlier entry.now) }
        ensures mode { IfOk result (HasModeOf table.now) }
        ensures explained { OnOk result
            ((earlier : List Entry) → HasExplained table.now self.old earlier
            → HasExplained table.now self.new (earlier ++ entry.now ∷ [])) }
        ensures token { OnOk result (self.new.token ≡ self.old.token) }
        ensures number { OnOk result (self.new.number ≡ self.old.number + 1) }
        ensures late { OnErr result (4_102_444_800_000 ≤ entry.now.moment) }
        ensures err { OnErr result (self.new ≡ self.old) }
    {
        let bytes = self.token.bytes();
        let tap = tap_of(table, entry)?;
        let reason = self.account.explain_step(table, clock, &bytes, tap);
        self.number += 1;
        Ok(reason)
    }

    /// Posts the token's next tap, at the validator and the moment, and returns its entry with the
    /// account rule's reason for it after the entries taken before. It takes no memory.
    pub fn post_next(
        &mut self,
        table: &FareTable,
        clock: &Clock,
        validator: u32,
        moment: u64,
    ) -> (Entry, CappedReason)
        requires clock { clock.now ≡ table.now.zone }
        requires early { moment < 4_102_444_800_000 }
        requires explained { (earlier : List Entry) × HasExplained table.now self.old earlier }
        requires room { self.old.number + 1 < 2 ^ 64 }

        // After all entries that it has taken.
        ensures entry { (earlier : List Entry) → HasExplained table.now self.old earlier
            → result.0 ≡ next_entry table.now self.old.token earlier validator moment }
        ensures reason { (earlier : List Entry) → HasExplained table.now self.old earlier
            → result.1 ≡ reason_after table.now self.old.token earlier result.0 }
        ensures explained { (earlier : List Entry) → HasExplained table.now self.old earlier
            → HasExplained table.now self.new (earlier ++ result.0 ∷ []) }
        ensures token { self.new.token ≡ self.old.token }
        ensures number { self.new.number ≡ self.old.number + 1 }
    {
        let bytes = self.token.bytes();
        let tap = TapIn {
            moment,
            mode: table.mode_of(moment, validator),
        };
        let reason = self.account.explain_step(table, clock, &bytes, tap);
        self.number += 1;
        let reply = reason.reply();
        let entry = Entry {
            token: self.token,
            validator,
            moment,
            answer: reply.answer,
            cents: reply.cents,
        };
        (entry, reason)
    }

    /// Posts the token's next tap, at the validator and the moment, and appends its line, which is
    /// made in the room of another. The text alone grows. If an allocation fails, the tap is posted,
    /// but its line is not whole.
    pub fn write_posted(
        &mut self,
        room: &mut Line,
        text: &mut String,
        table: &FareTable,
        clock: &Clock,
        validator: u32,
        moment: u64,
    ) -> Result<(), AllocError>
        requires clock { clock.now ≡ table.now.zone }
        requires early { moment < 4_102_444_800_000 }
        requires explained { (earlier : List Entry) × HasExplained table.now self.old earlier }
        requires room { self.old.number + 1 < 2 ^ 64 }

        // After all entries that it has taken.
        ensures line { OnOk result ((earlier : List Entry) → HasExplained table.now self.old earlier
            → (line : List ℕ) × IsLedgerLineAfter table.now self.old.token earlier
            (next_entry table.now self.old.token earlier validator moment) line
            × (string_bytes text.new ≡ string_bytes text.old ++ line)) }
        ensures explained { (earlier : List Entry) → HasExplained table.now self.old earlier
            → HasExplained table.now self.new
            (earlier ++ next_entry table.now self.old.token earlier validator moment ∷ []) }
        ensures token { self.new.token ≡ self.old.token }
        ensures number { self.new.number ≡ self.old.number + 1 }
    {
        let posted = self.post_next(table, clock, validator, moment);
        write_line_by(
            room,
            text,
            table,
            self.token,
            &self.digits,
            self.number,
            &posted.0,
            &posted.1,
        )?;
        Ok(())
    }

    /// Takes the token's next entry, and appends its line. The text alone grows. It refuses an
    /// entry from 2100-01-01T00:00Z on. If an allocation fails, the entry is taken, but its line is
    /// not whole.
    pub fn write_next(
        &mut self,
        text: &mut String,
        table: &FareTable,
        clock: &Clock,
        entry: &Entry,
    ) -> Result<(), NoMemory>
        requires clock { clock.now ≡ table.now.zone }
        requires explained { (earlier : List Entry) × HasExplained table.now self.old earlier }
        requires room { self.old.number + 1 < 2 ^ 64 }

        // After all entries that it has taken.
        ensures line { OnOk result ((earlier : List Entry) → HasExplained table.now self.old earlier
            → (line : List ℕ) × IsLedgerLineAfter table.now self.old.token earlier entry.now line
            × (string_bytes text.new ≡ string_bytes text.old ++ line)) }
        ensures explained { OnOk result
            ((earlier : List Entry) → HasExplained table.now self.old earlier
            → HasExplained table.now self.new (earlier ++ entry.now ∷ [])) }
        ensures token { OnOk result (self.new.token ≡ self.old.token) }
        ensures number { OnOk result (self.new.number ≡ self.old.number + 1) }
        ensures late_or_taken { OnErr result ((4_102_444_800_000 ≤ entry.now.moment)
            ⊎ (self.new.number ≡ self.old.number + 1)) }
    {
        let reason = self.explain_next(table, clock, entry)?;
        write_line(text, table, self.token, self.number, entry, &reason)?;
        Ok(())
    }
}
