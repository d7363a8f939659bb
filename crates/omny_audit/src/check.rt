//! The lines of a ledger, checked up to the first wrong one, or all of them.

ghost use Rattle.histories.specs.declared.entry.Entry.{Entry};
ghost use Rattle.ledger_check.specs.{Balances.IsBalance, FullBalances.IsFullBalance};
ghost use Rattle.ledger_check.specs.{FullCheckStates.HasFullyChecked, Ledger.IsLedgerOf};
ghost use Rattle.ledger_check.specs.{Orders.tap_of_entry, Sums.AreSumsOf};
ghost use Rattle.ledger_check.specs.Verdicts.{IsVerdict, early_in, is_legal};
ghost use Rattle.omny_audit.specs.Findings.{HasValidTaps, IsDifferencesEnd};
ghost use Rattle.omny_audit.specs.inside.Checks.{Finds, HasChecked, IsCompared, is_all, is_decided};
ghost use Rattle.std.specs.Bool.{then_some};
ghost use Rattle.std.specs.Prelude.{◌≡◌, ◌++◌, ◌↔◌, ◌&&◌, ◌||◌, ℕ, List, [], IfOk, IfSome, IsTrue};
ghost use Rattle.std.specs.Prelude.{None, OnOk, Bool, is_some, map, not, string_bytes, true, false};
ghost use Rattle.tap_views.specs.declared.encoder.TapFields.{TapFields as ATap};
ghost use Rattle.tariffs.specs.Fares.{Fares};

use crate::text::{write_difference, write_differences, write_verdict};
use fare_table::{Clock, FareTable};
use histories::HashSeed;
use ledger_check::balance_laws::{differences_are_real, even_sides_lack_nothing};
use ledger_check::laws::{full_checks_decide, verdicts_decide};
use ledger_check::{Balance, Checker, Difference, EntrySums, FullBalance, FullCheck, Verdict};
use std::alloc::{AllocError, Global};
use tap_views::NoMemory;

/// What is found of the lines that were checked, and of their taps.
#[derive(Drop)]
pub(crate) struct Found {
    /// Whether they are right, and the taps those of the uploads.
    pub(crate) is_sound: bool,
    /// Whether they are a legal ledger.
    pub(crate) is_legal: bool,
    /// The sums of a legal ledger's entries, if they are requested.
    pub(crate) sums: Option<EntrySums>,
}

/// What checks the lines of a ledger.
#[derive(Drop)]
pub(crate) enum Check {
    /// Up to the first wrong line, of which it has the verdict.
    First(Checker, Balance, Option<Verdict>),
    All(FullCheck, FullBalance),
}

impl Check {
    /// The taps of the ledger are to be subtracted from the balance. With a seed, its entries are
    /// summed.
    pub(crate) fn new(alloc: Global, all: bool, balance: Balance, seed: Option<HashSeed>) -> Check
        ensures all { is_all result ≡ all }
        ensures checked { (fares : Fares) (subtracts : Bool) (valid : List ATap)
            → IsBalance balance valid [] → HasChecked fares subtracts valid result [] [] }
    {
        if all {
            Check::All(FullCheck::new(alloc, seed), FullBalance::of(alloc, balance))
        } else {
            Check::First(Checker::new(alloc, seed), balance, None)
        }
    }

    pub(crate) fn is_all(&self) -> bool
        ensures { result ≡ is_all self.now }
    {
        match self {
            Check::First(_, _, _) => false,
            Check::All(_, _) => true,
        }
    }

    /// Whether nothing that follows can change what is found.
    pub(crate) fn is_decided(&self) -> bool
        ensures { result ≡ is_decided self.now }
    {
        match self {
            Check::First(_, _, verdict) => verdict.is_some(),
            Check::All(_, _) => false,
        }
    }

    /// Appends what is reported of the lines. The taps are subtracted, if there are uploads.
    pub(crate) fn feed(
        &mut self,
        alloc: Global,
        table: &FareTable,
        clock: &Clock,
        piece: &[u8],
        subtracts: bool,
        reported: &mut String,
    ) -> Result<(), NoMemory>
        requires clock { clock.now ≡ table.now.zone }
        requires fed { (valid : List ATap) × (text written : List ℕ)
            × HasChecked table.now subtracts valid self.old text written }
        ensures all { is_all self.new ≡ is_all self.old }
        ensures fed { OnOk result ((valid : List ATap) (text written : List ℕ)
            → HasChecked table.now subtracts valid self.old text written → (more : List ℕ)
            × (string_bytes reported.new ≡ string_bytes reported.old ++ more)
            × HasChecked table.now subtracts valid self.new (text ++ piece.now) (written ++ more)) }
    {
        match self {
            Check::First(checker, balance, verdict) => {
                if verdict.is_none() {
                    *verdict = checker.feed(alloc, table, clock, piece, balance)?;
                }
                Ok(())
            }
            Check::All(full_check, full) => {
                full_check.feed(alloc, table, clock, piece, subtracts, full, reported)?;
                Ok(())
            }
        }
    }

    /// Appends the rest of what is found of the lines and, if there are uploads, of their taps.
    pub(crate) fn finish(
        &mut self,
        alloc: Global,
        subtracts: bool,
        live: bool,
        reported: &mut String,
    ) -> Result<Found, NoMemory>
        requires fed { (fares : Fares) × (valid : List ATap) × (text written : List ℕ)
            × HasChecked fares subtracts valid self.old text written }
        ensures found { IfOk result (λ found. (fares : Fares) (valid : List ATap)
            (text written : List ℕ) → HasChecked fares subtracts valid self.old text written
            → (more : List ℕ) × (string_bytes reported.new ≡ string_bytes reported.old ++ more)
            × Finds (is_all self.old) live fares text (then_some subtracts valid)
            (written ++ more) found) }
        ensures decided { IfOk result
            (λ found. is_decided self.old ≡ true → found.is_legal ≡ false) }
    {
        match self {
            Check::First(checker, balance, verdict) => match verdict {
                Some(verdict) => {
                    let found = finding(verdict, balance, None, subtracts, live, reported)?;
                    Ok(found)
                }
                None => {
                    let (verdict, sums) = checker.finish(alloc)?;
                    let found = finding(&verdict, balance, sums, subtracts, live, reported)?;
                    Ok(found)
                }
            },
            Check::All(full_check, full) => {
                let found = full_finding(alloc, full_check, full, subtracts, live, reported)?;
                Ok(found)
            }
        }
    }
}

/// If they are compared. Returns whether the taps are the same.
fn write_even(
    balance: &Balance,
    is_compared: bool,
    reported: &mut String,
) -> Result<bool, AllocError>
    ensures { IfOk result (λ even. (rest : List ℕ)
        × (string_bytes reported.new ≡ string_bytes reported.old ++ rest)
        × IsCompared balance.now is_compared rest even) }
{
    // proof: a difference is one
    differences_are_real();
    if !is_compared {
        return Ok(true);
    }
    let difference = balance.difference();
    write_difference(reported, &difference)?;
    Ok(difference.is_none())
}

fn finding(
    verdict: &Verdict,
    balance: &Balance,
    sums: Option<EntrySums>,
    subtracts: bool,
    live: bool,
    reported: &mut String,
) -> Result<Found, AllocError>
    ensures found { IfOk result (λ found. (fares : Fares) (text : List ℕ) (valid : List ATap)
        → IsVerdict fares text verdict.now
        → (IsTrue (is_legal verdict.now) → (entries : List Entry) → IsLedgerOf fares entries text
        → IsBalance balance.now valid (map tap_of_entry entries)
        × IfSome sums (AreSumsOf entries))
        → (more : List ℕ) × (string_bytes reported.new ≡ string_bytes reported.old ++ more)
        × Finds false live fares text (then_some subtracts valid) more found) }
    ensures legal { IfOk result (λ found. found.is_legal ≡ is_legal verdict.now) }
{
    // proof: the verdict is `legal` exactly if the text is a ledger
    verdicts_decide();
    write_verdict(reported, verdict)?;
    let Verdict::Legal(_, early) = verdict else {
        return Ok(Found {
            is_sound: false,
            is_legal: false,
            sums: None,
        });
    };
    let is_even = write_even(balance, subtracts, reported)?;
    Ok(Found {
        is_sound: is_even & (live | early.is_none()),
        is_legal: true,
        sums,
    })
}

/// Returns whether the taps are the same.
fn write_lacking(
    alloc: Global,
    full: &FullBalance,
    subtracts: bool,
    reported: &mut String,
) -> Result<bool, AllocError>
    ensures { IfOk result (λ even. (rest : List ℕ)
        × (string_bytes reported.new ≡ string_bytes reported.old ++ rest)
        × ((valid taps : List ATap) → (subtracts ≡ true → IsFullBalance full.now valid taps)
        → IsDifferencesEnd (then_some subtracts valid) taps rest
        × ((even ≡ true) ↔ HasValidTaps (then_some subtracts valid) taps))) }
{
    // proof: neither side lacks a tap exactly if both have the same taps
    even_sides_lack_nothing();
    if !subtracts {
        return Ok(true);
    }
    let missing = full.missing(alloc)?;
    let surplus = full.surplus(alloc)?;
    let missing_taps = missing.as_slice();
    let surplus_taps = surplus.as_slice();
    write_differences(reported, missing_taps, surplus_taps)?;
    Ok(missing_taps.is_empty() & surplus_taps.is_empty())
}

fn full_finding(
    alloc: Global,
    full_check: &mut FullCheck,
    full: &FullBalance,
    subtracts: bool,
    live: bool,
    reported: &mut String,
) -> Result<Found, AllocError>
    requires { (fares : Fares) × (valid : List ATap) × (text written : List ℕ)
        × HasFullyChecked fares full_check.old subtracts full.now text written valid }
    ensures { IfOk result (λ found. (fares : Fares) (valid : List ATap) (text written : List ℕ)
        → HasFullyChecked fares full_check.old subtracts full.now text written valid
        → (more : List ℕ) × (string_bytes reported.new ≡ string_bytes reported.old ++ more)
        × Finds true live fares text (then_some subtracts valid) (written ++ more)
        found) }
{
    // proof: no line is wrong exactly if the text is a ledger
    full_checks_decide();
    let fully_checked = full_check.finish(alloc, reported)?;
    let is_even = write_lacking(alloc, full, subtracts, reported)?;
    Ok(Found {
        is_sound: fully_checked.is_legal & (is_even & (live | fully_checked.is_settled)),
        is_legal: fully_checked.is_legal,
        sums: fully_checked.sums,
    })
}
