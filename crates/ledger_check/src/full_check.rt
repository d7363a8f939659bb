//! A full check of a text that comes in pieces, past wrong lines.

ghost use Rattle.ledger_check.specs.{FullBalances.IsFullBalance, FullCheckStates.HasFullyChecked};
ghost use Rattle.ledger_check.specs.FullChecks.{IsFullCheck, TakenLine, entries_from};
ghost use Rattle.ledger_check.specs.FullChecks.{full_check_text, taps_from, taps_with, wrong_count};
ghost use Rattle.ledger_check.specs.{Lines.IsLine, Orders.are_settled, Sums.AreSumsOf};
ghost use Rattle.ledger_check.specs.declared.full_balance.FullBalance.{FullBalance as AFullBalance};
ghost use Rattle.ledger_check.specs.inside.FullChecks.{HasEnded};
ghost use Rattle.std.specs.Prelude.{◌≡◌, ◌++◌, [], ℕ, List, IfOk, IfSome, OnOk, Bool, nat_eq};
ghost use Rattle.std.specs.Prelude.{string_bytes, true};
ghost use Rattle.tap_views.specs.declared.encoder.TapFields.{TapFields};
ghost use Rattle.tariffs.specs.Fares.{Fares};

use crate::FullBalance;
use crate::bytes::split_line;
use crate::full_check_sums::FullCheckSums;
use crate::lines_fed::LinesFed;
use crate::open_sums::EntrySums;
use crate::walk::{LineFinding, NO_LINE, Remark, write_remark};
use histories::HashSeed;
use std::alloc::{AllocError, Global};
use tariffs::{Clock, FareTable};

fn subtract_tap(
    subtracts: bool,
    full: &mut FullBalance,
    finding: LineFinding,
) -> Result<(), AllocError>
    ensures { OnOk result ((valid taps : List TapFields) → subtracts ≡ true
        → IsFullBalance full.old valid taps
        → IsFullBalance full.new valid (taps_with taps finding.tap)) }
{
    if !subtracts {
        return Ok(());
    }
    match finding.tap {
        None => Ok(()),
        Some(tap) => full.subtract(&tap.fields()),
    }
}

/// What a full check finds of a whole text.
#[derive(Drop)]
pub struct FullyChecked {
    /// Whether no line is wrong.
    pub is_legal: bool,
    /// Whether no line is earlier than the line before it.
    pub is_settled: bool,
    /// The sums of the entries of a legal ledger, if they are requested.
    pub sums: Option<EntrySums>,
}

/// A full check under one fare table of a text in pieces. It stores at most the prefix of a line.
#[derive(Drop)]
pub struct FullCheck {
    pub(crate) fed: LinesFed,
}

impl FullCheck {
    /// Nothing was read. With a seed, which hashes the validators' numbers, entries are summed.
    pub fn new(alloc: Global, seed: Option<HashSeed>) -> FullCheck
        ensures { (fares : Fares) (subtracts : Bool) (full : AFullBalance) (valid : List TapFields)
            → (subtracts ≡ true → IsFullBalance full valid [])
            → HasFullyChecked fares result subtracts full [] [] valid }
    {
        FullCheck {
            fed: LinesFed::new(alloc, seed),
        }
    }

    /// Reads the next piece of the text, appends the remarks on its lines, and subtracts their taps
    /// from the balance, if it is to. After an allocation failure the check is of no use. The
    /// table, its clock, the balance and whether taps are subtracted are the same in all calls.
    pub fn feed(
        &mut self,
        alloc: Global,
        table: &FareTable,
        clock: &Clock,
        piece: &[u8],
        subtracts: bool,
        full: &mut FullBalance,
        reported: &mut String,
    ) -> Result<(), AllocError>
        requires clock { clock.now ≡ table.now.zone }
        requires fed { (text : List ℕ) × (written : List ℕ) × (valid : List TapFields)
            × HasFullyChecked table.now self.old subtracts full.old text written valid }

        // For every text that was read so far.
        ensures { OnOk result ((text written : List ℕ) (valid : List TapFields)
            → HasFullyChecked table.now self.old subtracts full.old text written valid
            → (more : List ℕ) × (string_bytes reported.new ≡ string_bytes reported.old ++ more)
            × HasFullyChecked table.now self.new subtracts full.new (text ++ piece.now)
            (written ++ more) valid) }
    {
        let mut rest = piece;
        while let Some((line, trailing)) = split_line(rest) {
            self.take(alloc, table, clock, line, subtracts, full, reported)?;
            rest = trailing;
        }
        self.fed.keep(rest)?;
        Ok(())
    }

    fn take(
        &mut self,
        alloc: Global,
        table: &FareTable,
        clock: &Clock,
        line: &[u8],
        subtracts: bool,
        full: &mut FullBalance,
        reported: &mut String,
    ) -> Result<(), AllocError>
        requires clock { clock.now ≡ table.now.zone }
        requires fed { (text : List ℕ) × (written : List ℕ) × (valid : List TapFields)
            × HasFullyChecked table.now self.old subtracts full.old text written valid }
        requires line { IsLine line.now }
        ensures { OnOk result ((text written : List ℕ) (valid : List TapFields)
            → HasFullyChecked table.now self.old subtracts full.old text written valid
            → (more : List ℕ) × (string_bytes reported.new ≡ string_bytes reported.old ++ more)
            × HasFullyChecked table.now self.new subtracts full.new (text ++ line.now)
            (written ++ more) valid) }
    {
        let finding = self.fed.end_line(alloc, table, clock, line)?;
        subtract_tap(subtracts, full, finding)?;
        let so_far = &self.fed.so_far;
        write_remark(
            reported,
            so_far.sums.lines,
            finding.remark,
            so_far.walk.wanted.as_str(),
        )?;
        Ok(())
    }

    fn end_text(&self, reported: &mut String) -> Result<FullCheckSums, AllocError>
        ensures { IfOk result (λ sums. (fares : Fares) (subtracts : Bool) (full : AFullBalance)
            (text written : List ℕ) (valid : List TapFields)
            → HasFullyChecked fares self.now subtracts full text written valid
            → HasEnded fares self.now.fed subtracts full text written valid sums
            (string_bytes reported.old) (string_bytes reported.new)) }
    {
        let sums = self.fed.so_far.sums;
        if self.fed.is_whole() {
            return Ok(sums);
        }
        let ended = sums.with(NO_LINE)?;
        write_remark(reported, ended.lines, Remark::NoLine, "")?;
        Ok(ended)
    }

    /// Ends the text that was read, and appends the rest of the report.
    pub fn finish(
        &mut self,
        alloc: Global,
        reported: &mut String,
    ) -> Result<FullyChecked, AllocError>
        requires { (fares : Fares) × (subtracts : Bool) × (full : AFullBalance) × (text : List ℕ)
            × (written : List ℕ) × (valid : List TapFields)
            × HasFullyChecked fares self.old subtracts full text written valid }
        ensures { IfOk result (λ fully_checked. (fares : Fares) (subtracts : Bool) (full : AFullBalance)
            (text written : List ℕ) (valid : List TapFields)
            → HasFullyChecked fares self.old subtracts full text written valid
            → (taken : List TakenLine) × IsFullCheck fares text taken
            × (fully_checked.is_legal ≡ nat_eq (wrong_count taken) 0)
            × (fully_checked.is_settled ≡ are_settled (taps_from taken))
            × (subtracts ≡ true → IsFullBalance full valid (taps_from taken))
            × (wrong_count taken ≡ 0
            → IfSome fully_checked.sums (AreSumsOf (entries_from taken)))
            × (more : List ℕ) × (string_bytes reported.new ≡ string_bytes reported.old ++ more)
            × (written ++ more ≡ full_check_text taken)) }
    {
        let sums = self.end_text(reported)?;
        sums.write_end(reported)?;
        let entry_sums = self.fed.entry_sums(alloc)?;
        Ok(FullyChecked {
            is_legal: sums.wrong == 0,
            is_settled: sums.order.early.is_none(),
            sums: entry_sums,
        })
    }
}
