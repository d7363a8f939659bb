//! The check of a text that comes in pieces, up to the first wrong line, and the taps of its lines.

ghost use Rattle.histories.specs.declared.entry.Entry.{Entry};
ghost use Rattle.ledger_check.specs.Balances.{IsBalance};
ghost use Rattle.ledger_check.specs.FullCheckStates.{IsFed, IsRightSoFar};
ghost use Rattle.ledger_check.specs.{FullChecks.taps_with, Ledger.IsLedgerOf, Lines.IsLine};
ghost use Rattle.ledger_check.specs.{Lines.Lacks, Orders.tap_of_entry, Sums.AreSumsOf};
ghost use Rattle.ledger_check.specs.Verdicts.{IsVerdict, is_legal};
ghost use Rattle.ledger_check.specs.{declared.balance.Balance.Balance, inside.FullChecks.IsCalled};
ghost use Rattle.std.specs.Prelude.{◌≡◌, ◌++◌, [], ℕ, List, IfOk, IfSome, IsTrue, map};
ghost use Rattle.std.specs.Prelude.{string_bytes};
ghost use Rattle.tap_views.specs.declared.encoder.TapFields.{TapFields};
ghost use Rattle.tariffs.specs.Fares.{Fares};

use crate::Balance;
use crate::bytes::split_line;
use crate::full_check_sums::one_wrong;
use crate::lines_fed::{LinesFed, MAX_LINE_BYTES};
use crate::open_sums::EntrySums;
use crate::walk::{CountedTap, LineFinding, Remark};
use histories::HashSeed;
use std::alloc::{AllocError, Global};
use tariffs::{Clock, FareTable};

/// What a check finds of a text. Lines count from 1, the header line.
#[derive(Drop)]
pub enum Verdict {
    /// The text is a ledger of this number of entries. It is settled, or the line of the second
    /// number is the first that is earlier than the line before it.
    Legal(u64, Option<u64>),
    /// The line of this number is the first wrong one: its tap should have this line, with newline.
    Wants(u64, String),
    /// The line of this number is the first that no ledger has there.
    NoLine(u64),
}

fn wrong_line(finding: LineFinding, number: u64, wanted: &String) -> Result<Verdict, AllocError>
    ensures { IfOk result (IsCalled finding.remark number (string_bytes wanted.now)) }
{
    if let Remark::Wants = finding.remark {
        if finding.has_form && wanted.len() <= MAX_LINE_BYTES {
            return Ok(Verdict::Wants(number, wanted.clone()?));
        }
    }
    Ok(Verdict::NoLine(number))
}

fn subtract_tap(balance: &mut Balance, tap: Option<CountedTap>)
    ensures { (valid taps : List TapFields) → IsBalance balance.old valid taps
        → IsBalance balance.new valid (taps_with taps tap) }
{
    if let Some(tap) = tap {
        balance.subtract(&tap.fields());
    }
}

/// A check under one fare table of a text in pieces. It stores at most the prefix of a line.
#[derive(Drop)]
pub struct Checker {
    pub(crate) fed: LinesFed,
}

impl Checker {
    /// Nothing was read. With a seed, which hashes the validators' numbers, entries are summed.
    pub fn new(alloc: Global, seed: Option<HashSeed>) -> Checker
        ensures { (fares : Fares) (balance : Balance) (valid : List TapFields)
            → IsBalance balance valid [] → IsRightSoFar fares result balance [] valid }
    {
        Checker {
            fed: LinesFed::new(alloc, seed),
        }
    }

    /// Reads the next piece of the text, and subtracts the taps of its lines. A verdict, if there
    /// is one, reports the first wrong line, whatever follows. After it, or an error, checker and
    /// balance are of no use. The table, its clock and the balance are the same in all calls.
    pub fn feed(
        &mut self,
        alloc: Global,
        table: &FareTable,
        clock: &Clock,
        piece: &[u8],
        balance: &mut Balance,
    ) -> Result<Option<Verdict>, AllocError>
        requires clock { clock.now ≡ table.now.zone }
        requires fed { (text : List ℕ) × (valid : List TapFields)
            × IsRightSoFar table.now self.old balance.old text valid }

        // For every text that was read so far.
        ensures { IfOk result (λ reported. (text : List ℕ) (valid : List TapFields)
            → IsRightSoFar table.now self.old balance.old text valid
            → IsFed table.now self.new balance.new (text ++ piece.now) valid reported) }
    {
        let mut rest = piece;
        while let Some((line, trailing)) = split_line(rest) {
            let reported = self.take(alloc, table, clock, line, balance)?;
            if reported.is_some() {
                return Ok(reported);
            }
            rest = trailing;
        }
        let reported = self.keep(rest)?;
        Ok(reported)
    }

    fn take(
        &mut self,
        alloc: Global,
        table: &FareTable,
        clock: &Clock,
        line: &[u8],
        balance: &mut Balance,
    ) -> Result<Option<Verdict>, AllocError>
        requires clock { clock.now ≡ table.now.zone }
        requires fed { (text : List ℕ) × (valid : List TapFields)
            × IsRightSoFar table.now self.old balance.old text valid }
        requires line { IsLine line.now }
        ensures { IfOk result (λ reported. (text : List ℕ) (valid : List TapFields)
            → IsRightSoFar table.now self.old balance.old text valid
            → IsFed table.now self.new balance.new (text ++ line.now) valid reported) }
    {
        let finding = self.fed.end_line(alloc, table, clock, line)?;
        if one_wrong(finding.remark) == 0 {
            subtract_tap(balance, finding.tap);
            return Ok(None);
        }
        let so_far = &self.fed.so_far;
        let verdict = wrong_line(finding, so_far.sums.lines, &so_far.walk.wanted)?;
        Ok(Some(verdict))
    }

    fn keep(&mut self, rest: &[u8]) -> Result<Option<Verdict>, AllocError>
        requires fed { (fares : Fares) × (balance : Balance) × (text : List ℕ)
            × (valid : List TapFields) × IsRightSoFar fares self.old balance text valid }
        requires rest { Lacks 10 rest.now }
        ensures { IfOk result (λ reported. (fares : Fares) (balance : Balance) (text : List ℕ)
            (valid : List TapFields) → IsRightSoFar fares self.old balance text valid
            → IsFed fares self.new balance (text ++ rest.now) valid reported) }
    {
        self.fed.keep(rest)?;
        if self.fed.started.len() > MAX_LINE_BYTES {
            return Ok(Some(Verdict::NoLine(self.fed.so_far.sums.lines + 1)));
        }
        Ok(None)
    }

    /// The verdict on the text that was read, which ends here. What is left is the balance of the
    /// taps of the ledger, if the text is one; and its sums, if they are requested.
    pub fn finish(&mut self, alloc: Global) -> Result<(Verdict, Option<EntrySums>), AllocError>
        requires { (fares : Fares) × (balance : Balance) × (text : List ℕ)
            × (valid : List TapFields) × IsRightSoFar fares self.old balance text valid }
        ensures verdict { IfOk result (λ ended. (fares : Fares) (balance : Balance) (text : List ℕ)
            (valid : List TapFields) → IsRightSoFar fares self.old balance text valid
            → IsVerdict fares text ended.0) }
        ensures legal { IfOk result (λ ended. (fares : Fares) (balance : Balance) (text : List ℕ)
            (valid : List TapFields) → IsRightSoFar fares self.old balance text valid
            → IsTrue (is_legal ended.0) → (entries : List Entry) → IsLedgerOf fares entries text
            → IsBalance balance valid (map tap_of_entry entries)
            × IfSome ended.1 (AreSumsOf entries)) }
    {
        let sums = self.fed.so_far.sums;
        if self.fed.is_whole() {
            let entry_sums = self.fed.entry_sums(alloc)?;
            let verdict = Verdict::Legal(sums.lines - 1, sums.order.early);
            return Ok((verdict, entry_sums));
        }
        Ok((Verdict::NoLine(sums.lines + 1), None))
    }
}
