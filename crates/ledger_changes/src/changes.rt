//! The corrections from one settled ledger to another, given in pieces.

ghost use Rattle.ledger_changes.specs.Changes.{is_changed};
ghost use Rattle.ledger_changes.specs.Given.{HasStarted, HasGiven, IsFaultOf, IsGivenAfter};
ghost use Rattle.ledger_changes.specs.Given.{IsUnbegun, IsWalked, new_calls, old_calls};
ghost use Rattle.ledger_changes.specs.{Texts.removed_in, Tokens.change_lines};
ghost use Rattle.ledger_changes.specs.Tokens.{head_of, last_sums, lines_of_changes, sums_with};
ghost use Rattle.ledger_changes.specs.declared.fault.Bill.TheVariants.{New, Old};
ghost use Rattle.ledger_changes.specs.inside.{Readings.HasEnded, Views.pair_of, Views.sum_in};
ghost use Rattle.ledger_changes.specs.inside.Walks.{WalksOn};
ghost use Rattle.recorded_lines.specs.Texts.{Follows, IsFresh, calls_of};
ghost use Rattle.std.specs.Prelude.{◌≡◌, ◌+◌, ◌++◌, ◌∷◌, [], ℕ, Bool, List, Some, IfErr, IfOk};
ghost use Rattle.std.specs.Prelude.{IfSome, None, OnOk, filter};

use crate::correction_text::correction_line;
use crate::fault::{Bill, CorrectionsFault};
use crate::ledger_rows::LedgerRows;
use crate::pairs::{LinePair, next_sides};
use crate::token_sums::{TokenSums, push_sums, sums_for};
use recorded_lines::Lines;
use std::alloc::{AllocError, Global};
use std::mem;

/// How many bytes make a piece.
const PIECE_BYTES: usize = 65_536;

const HEAD_LINE: &[u8] =
    b"token,moment,validator,change,answer_before,cents_before,reason_before,answer_after,cents_after,reason_after,cents_change\n";

const TOKENS_HEAD_LINE: &[u8] =
    b"token,added,removed,changed,cents_before,cents_after,cents_change\n";

/// The header line, which is the first piece.
pub fn corrections_head(is_by_token: bool) -> &'static [u8]
    ensures { result.now ≡ head_of is_by_token }
{
    if is_by_token {
        TOKENS_HEAD_LINE
    } else {
        HEAD_LINE
    }
}

/// `None` beyond 2^64 - 1, which no ledger reaches.
fn count_removed(removed: u64, pair: &LinePair) -> Option<u64>
    ensures { IfSome result (λ counted. counted ≡ removed + removed_in (pair_of pair.now ∷ [])) }
{
    match (&pair.before, &pair.after) {
        (Some(_), None) => removed.checked_add(1),
        _ => Some(removed),
    }
}

/// Appends the correction's line, or adds it to the sums of its token: the open sums of another
/// token are appended, and new ones begin.
fn push_change(
    alloc: Global,
    is_by_token: bool,
    last: Option<TokenSums>,
    pair: &LinePair,
    piece: &mut Vec<u8>,
) -> Result<Option<TokenSums>, AllocError>
    ensures lines { OnOk result (piece.new.items ≡ piece.old.items
        ++ change_lines is_by_token (sum_in last) (pair_of pair.now)) }
    ensures sums { IfOk result (λ sums. sum_in sums
        ≡ sums_with is_by_token (sum_in last) (pair_of pair.now)) }
{
    if !is_by_token {
        let line = correction_line(alloc, pair)?;
        piece.extend_from_slice(&line)?;
        return Ok(last);
    }
    let sums = sums_for(alloc, last, &pair.key.token, piece)?;
    match sums.with(pair) {
        Some(sums) => Ok(Some(sums)),
        None => Err(AllocError),
    }
}

/// What is known of the pairs so far.
#[derive(Drop)]
struct Tally {
    removed: u64,
    /// The open sums of a token.
    last: Option<TokenSums>,
}

fn take_pair(
    alloc: Global,
    is_by_token: bool,
    tally: &mut Tally,
    pair: &LinePair,
    piece: &mut Vec<u8>,
) -> Result<(), AllocError>
    ensures lines { OnOk result (piece.new.items ≡ piece.old.items
        ++ lines_of_changes is_by_token (sum_in tally.old.last)
        (filter is_changed (pair_of pair.now ∷ []))) }
    ensures sums { OnOk result (sum_in tally.new.last
        ≡ last_sums is_by_token (sum_in tally.old.last)
        (filter is_changed (pair_of pair.now ∷ []))) }
    ensures removed { OnOk result (tally.new.removed
        ≡ tally.old.removed + removed_in (filter is_changed (pair_of pair.now ∷ []))) }
{
    if pair.agrees() {
        return Ok(());
    }
    let last = mem::replace(&mut tally.last, None);
    tally.last = push_change(alloc, is_by_token, last, pair, piece)?;
    match count_removed(tally.removed, pair) {
        Some(removed) => {
            tally.removed = removed;
            Ok(())
        }
        None => Err(AllocError),
    }
}

/// Appends the next corrections until they are a piece. At the end it gives how many lines are
/// removed.
fn push_changes(
    alloc: Global,
    is_by_token: bool,
    old: &mut LedgerRows,
    new: &mut LedgerRows,
    tally: &mut Tally,
    piece: &mut Vec<u8>,
) -> Result<Option<u64>, CorrectionsFault>
    requires { piece.old.items ≡ [] }
    ensures old { new.new.bill ≡ new.old.bill }
    ensures new { old.new.bill ≡ old.old.bill }
    ensures follow { Follows old.old.from old.new.from × Follows new.old.from new.new.from }
    ensures given { IfOk result (λ end. (HasEnded old.old → HasEnded new.old
        → HasEnded old.new × HasEnded new.new)
        × ((text : List ℕ) → IsWalked is_by_token text tally.old.removed (sum_in tally.old.last)
        old.old new.old → WalksOn is_by_token end (text ++ piece.new.items) tally.new.removed
        (sum_in tally.new.last) old.new new.new)) }
    ensures stopped { IfErr result (λ fault. (text : List ℕ) → old.old.bill ≡ Old
        → new.old.bill ≡ New → IsWalked is_by_token text tally.old.removed (sum_in tally.old.last)
        old.old new.old → IsFaultOf fault (calls_of old.new.from) (calls_of new.new.from)) }
{
    for _ in 0..u64::MAX {
        if piece.len() >= PIECE_BYTES {
            return Ok(None);
        }
        let (has_old, has_new) = next_sides(&old.row, &new.row);
        let before = old.row_if(alloc, has_old)?;
        let after = new.row_if(alloc, has_new)?;
        let Some(pair) = LinePair::of_rows(before, after) else {
            push_sums(alloc, &tally.last, piece)?;
            return Ok(Some(tally.removed));
        };
        take_pair(alloc, is_by_token, tally, &pair, piece)?;
    }
    Ok(None)
}

/// The corrections from one settled ledger to another, in pieces: the header line, and a line for
/// each line of either that the other charges otherwise; or, by token, a line for each token with a
/// correction. Both are read side by side: a row of each and the sums of one token are in memory.
#[derive(Drop)]
pub struct Corrections {
    is_by_token: bool,
    old: LedgerRows,
    new: LedgerRows,
    tally: Tally,
}

impl Corrections {
    /// The corrections of these ledgers, of which nothing is read yet.
    pub fn new(alloc: Global, is_by_token: bool, old: Lines, new: Lines) -> Corrections
        ensures by { result.is_by_token ≡ is_by_token }
        ensures old { result.old.from ≡ old }
        ensures new { result.new.from ≡ new }
        ensures unbegun { IsFresh old → IsFresh new → IsUnbegun result }
    {
        Corrections {
            is_by_token,
            old: LedgerRows::new(alloc, old, Bill::Old),
            new: LedgerRows::new(alloc, new, Bill::New),
            tally: Tally {
                removed: 0,
                last: None,
            },
        }
    }

    /// Reads both header lines. The header line of the corrections may be given then.
    pub fn begin(&mut self, alloc: Global) -> Result<(), CorrectionsFault>
        requires { IsUnbegun self.now }
        ensures follow { Follows self.entry.now.old.from self.exit.now.old.from
            × Follows self.entry.now.new.from self.exit.now.new.from }
        ensures given { OnOk result (HasGiven self.exit.now self.entry.now.is_by_token
            (head_of self.entry.now.is_by_token)) }
        ensures wrong { IfErr result (λ fault. IsFaultOf fault (old_calls self.exit.now)
            (new_calls self.exit.now)) }
    {
        match self.old.begin(alloc) {
            Ok(()) => {}
            Err(fault) => return Err(fault),
        }
        match self.new.begin(alloc) {
            Ok(()) => Ok(()),
            Err(fault) => Err(fault),
        }
    }

    /// Appends the next lines, some 64 KiB of them, and gives none; or the last ones, and gives how
    /// many lines are removed: only the old ledger has them. A fault of a line comes after the
    /// lines before it.
    pub fn next(
        &mut self,
        alloc: Global,
        piece: &mut Vec<u8>,
    ) -> Result<Option<u64>, CorrectionsFault>
        requires { piece.old.items ≡ [] }
        ensures follow { Follows self.entry.now.old.from self.exit.now.old.from
            × Follows self.entry.now.new.from self.exit.now.new.from }
        ensures given { IfOk result (λ end. (by_token : Bool) (text : List ℕ)
            → HasGiven self.entry.now by_token text
            → IsGivenAfter self.exit.now by_token end (text ++ piece.new.items)) }
        ensures started { (by_token : Bool) (text : List ℕ) → HasGiven self.entry.now by_token text
            → HasStarted by_token text (old_calls self.exit.now) (new_calls self.exit.now) }
        ensures wrong { IfErr result (λ fault. (by_token : Bool) (text : List ℕ)
            → HasGiven self.entry.now by_token text
            → IsFaultOf fault (old_calls self.exit.now) (new_calls self.exit.now)) }
    {
        push_changes(
            alloc,
            self.is_by_token,
            &mut self.old,
            &mut self.new,
            &mut self.tally,
            piece,
        )
    }

    /// The ledgers, the old one first.
    pub fn into_texts(self) -> (Lines, Lines)
        ensures { result ≡ (self.old.from, self.new.from) }
    {
        let Corrections { old, new, .. } = self;
        (old.into_text(), new.into_text())
    }
}
