//! A bill to which taps are added one by one.

ghost use Rattle.settlement.specs.{Bills.IsBillOf, Nondecreasing.TapsNondecreasingFrom};
ghost use Rattle.settlement.specs.{Nondecreasing.last_token, OpenBills.HasRoomFor};
ghost use Rattle.settlement.specs.{OpenBills.IsOpenBill, Posted.posted, Posted.token_of_tap};
ghost use Rattle.std.specs.Prelude.{◌≡◌, ◌+◌, ◌<◌, ◌≤◌, ◌^◌, ◌++◌, ◌∷◌, [], List, IfOk, OnOk};
ghost use Rattle.std.specs.Prelude.{length};
ghost use Rattle.tap_views.specs.{Encoding.AreEarly, TokenOrder.IsUpTo};
ghost use Rattle.tap_views.specs.declared.encoder.TapFields.{TapFields};
ghost use Rattle.tariffs.specs.Fares.{Fares};

use crate::bill::Bill;
use crate::kept_modes::KeptModes;
use crate::replay::Replay;
use histories::{HashSeed, Tally};
use std::alloc::Global;
use tap_views::{NoMemory, TapFields, Token};
use tariffs::{Clock, FareTable};

/// The least token: that of 16 zero bytes.
pub fn least_token() -> Token
    ensures { result ≡ record { high = 0; low = 0 } }
{
    // proof: the token of 16 zero bytes is that of two zero numbers
    tap_views::laws::same_bytes_same_token();
    Token::of(&[0; 16])
}

/// The token of a tap.
#[inline(always)]
pub fn token_of(tap: &TapFields) -> Token
    ensures { result ≡ token_of_tap tap.now }
{
    Token::of(&tap.token)
}

/// The bill of the taps that were added, token by token, with the account of the last token.
#[derive(Drop)]
pub struct OpenBill {
    /// The sums of the tokens before the last one, and those of all taps by validator.
    bill: Bill,
    replay: Replay,
    /// What the last token's taps come to.
    tally: Tally,
    has_taps: bool,
    modes: KeptModes,
}

impl OpenBill {
    /// No taps, from this token on. The seed hashes the validators' numbers.
    pub fn new(alloc: Global, seed: HashSeed, from: Token) -> Self
        ensures bill { (fares : Fares) → IsOpenBill fares [] result }
        ensures token { result.replay.token ≡ from }
    {
        OpenBill {
            bill: Bill::new(alloc, seed),
            replay: Replay::of(from),
            tally: Tally::new(),
            has_taps: false,
            modes: KeptModes::new(alloc),
        }
    }

    /// That of the last tap, or the one from which the bill goes on.
    pub fn token(&self) -> Token
        ensures { result ≡ self.now.replay.token }
    {
        self.replay.token
    }

    /// After an allocation failure the bill is of no use.
    fn close(&mut self, alloc: Global) -> Result<(), NoMemory>
        requires { HasRoomFor self.old 0 }
        ensures bill { OnOk result ((fares : Fares) (taps : List TapFields)
            → IsOpenBill fares taps self.old → IsBillOf (posted fares taps) self.new.bill) }
        ensures modes { OnOk result (self.new.modes ≡ self.old.modes) }
    {
        if !self.has_taps {
            return Ok(());
        }
        self.bill.totals.add_all(&self.tally);
        self.bill
            .tokens
            .push(alloc, self.replay.token, &self.tally)?;
        Ok(())
    }

    fn go_on_to(&mut self, alloc: Global, token: Token) -> Result<(), NoMemory>
        requires up { IsUpTo self.old.replay.token token }
        requires room { HasRoomFor self.old 0 }
        ensures bill { OnOk result ((fares : Fares) (taps : List TapFields)
            → IsOpenBill fares taps self.old → IsOpenBill fares taps self.new) }
        ensures token { OnOk result (self.new.replay.token ≡ token) }
    {
        if self.replay.token == token {
            return Ok(());
        }
        self.close(alloc)?;
        self.replay = Replay::of(token);
        self.tally = Tally::new();
        self.has_taps = false;
        Ok(())
    }

    #[inline(always)]
    fn post(&mut self, table: &FareTable, clock: &Clock, tap: &TapFields) -> Result<(), NoMemory>
        requires clock { clock.now ≡ table.now.zone }
        requires early { tap.now.moment < 4_102_444_800_000 }
        requires its { token_of_tap tap.now ≡ self.old.replay.token }
        requires bill { (taps : List TapFields) × IsOpenBill table.now taps self.old
            × (length taps + 1 ≤ 2 ^ 94) }
        ensures bill { OnOk result ((taps : List TapFields) → IsOpenBill table.now taps self.old
            → IsOpenBill table.now (taps ++ tap.now ∷ []) self.new) }
        ensures token { OnOk result (self.new.replay.token ≡ self.old.replay.token) }
    {
        let mode = self.modes.mode_of(table, tap.moment, tap.validator);
        let entry = self.replay.next(table, clock, tap, mode);
        self.tally.add(entry.reply());
        self.has_taps = true;
        self.bill.validators.add(&entry)?;
        Ok(())
    }

    /// Adds a tap of the bill's token or of a higher one. After an allocation failure the bill is
    /// of no use.
    #[inline(always)]
    pub fn add_tap(
        &mut self,
        alloc: Global,
        table: &FareTable,
        clock: &Clock,
        tap: &TapFields,
    ) -> Result<(), NoMemory>
        requires clock { clock.now ≡ table.now.zone }
        requires early { tap.now.moment < 4_102_444_800_000 }
        requires up { IsUpTo self.old.replay.token (token_of_tap tap.now) }
        requires bill { (taps : List TapFields) × IsOpenBill table.now taps self.old
            × (length taps + 1 ≤ 2 ^ 94) }
        ensures bill { OnOk result ((taps : List TapFields) → IsOpenBill table.now taps self.old
            → IsOpenBill table.now (taps ++ tap.now ∷ []) self.new) }
        ensures token { OnOk result (self.new.replay.token ≡ token_of_tap tap.now) }
    {
        self.go_on_to(alloc, token_of(tap))?;
        self.post(table, clock, tap)?;
        Ok(())
    }

    /// Adds taps of nondecreasing tokens, from the bill's on. After an allocation failure the bill
    /// is of no use.
    pub fn add(
        &mut self,
        alloc: Global,
        table: &FareTable,
        clock: &Clock,
        taps: &[TapFields],
    ) -> Result<(), NoMemory>
        requires clock { clock.now ≡ table.now.zone }
        requires early { AreEarly (λ tap. tap.moment) taps.now }
        requires nondecreasing { TapsNondecreasingFrom self.old.replay.token taps.now }
        requires bill { (before : List TapFields) × IsOpenBill table.now before self.old
            × (length before + length taps.now ≤ 2 ^ 94) }
        ensures bill { OnOk result ((before : List TapFields)
            → IsOpenBill table.now before self.old
            → IsOpenBill table.now (before ++ taps.now) self.new) }
        ensures token { OnOk result
            (self.new.replay.token ≡ last_token self.old.replay.token taps.now) }
    {
        for tap in taps {
            self.add_tap(alloc, table, clock, tap)?;
        }
        Ok(())
    }

    /// The bill of all taps that were added.
    pub fn into_bill(self, alloc: Global) -> Result<Bill, NoMemory>
        requires { HasRoomFor self 0 }
        ensures { IfOk result (λ bill. (fares : Fares) (taps : List TapFields)
            → IsOpenBill fares taps self → IsBillOf (posted fares taps) bill) }
    {
        let mut bill = self;
        bill.close(alloc)?;
        Ok(bill.bill)
    }
}
