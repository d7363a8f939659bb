//! The fronts of parts: each part's text up to its lines of tokens or of entries.

ghost use Rattle.fare_texts.specs.LedgerLines.{head_text};
ghost use Rattle.histories.specs.{Shown.validator_sum, Sums.sums_of};
ghost use Rattle.part_texts.specs.FrontSteps.{at_part, front_step, head_step, is_over, kind_step};
ghost use Rattle.part_texts.specs.FrontSteps.{ledger_step, span_step, tokens_step, totals_step};
ghost use Rattle.part_texts.specs.FrontSteps.{upload_step, uploads_step, validator_step};
ghost use Rattle.part_texts.specs.FrontSteps.{validators_step};
ghost use Rattle.part_texts.specs.Fronts.{is_above, may_end, no_fronts, no_sums, position_eq, plus};
ghost use Rattle.part_texts.specs.Fronts.{posted_in, starts, sums_eq, sums_within, taps_before};
ghost use Rattle.part_texts.specs.inside.Fronts.{fronts_view, IsWith, TakesAs, shown_sums};
ghost use Rattle.std.specs.{BTreeMap.is_at, Map.lookup, Ordering.nat_cmp, Prelude.◌≡◌};
ghost use Rattle.std.specs.Prelude.{◌+◌, ◌<◌, IfOk, MatchOption, None, Some, nat_le, option_map};
ghost use Rattle.std.specs.{Prelude.unwrap_or, Str.bytes_eq};

use crate::head::span_in;
use crate::seen::Seen;
use fare_texts::head_line;
use histories::{Totals, ValidatorSum};
use report_texts::Wrong;
use report_texts::forms::{head_in, totals_in, upload_in, validator_in};
use sorted_taps::{FileSpan, Position};
use std::alloc::{AllocError, Global};
use std::collections::{BTreeMap, VecDeque};
use tap_views::{Token, UploadEnd};

/// The most taps of a sum.
const MAX_WHOLE_TAPS: u128 = 1 << 95;

/// Which line of a part's front is next.
#[derive(Clone, Copy, Debug, PartialEq, Eq)]
pub enum Stage {
    /// `part files 2`.
    Head,
    /// The line of a file; if none is left, `uploads 2` or the header line of a ledger.
    Files {
        files: u64,
        left: u64,
    },
    /// The line of an upload; if none is left, that of the totals. `posted` are the taps so far.
    Uploads {
        uploads: u64,
        left: u64,
        posted: u64,
    },
    /// `validators 3`.
    AfterTotals,
    /// The line of a validator; if none is left, `tokens 5`.
    Validators {
        left: u64,
        last: Option<u32>,
    },
    /// The front is read, and this number of lines of tokens follows.
    Tokens {
        left: u64,
    },
    /// The front is read, and the lines of a ledger's entries follow: whether the next is the first.
    Entries {
        is_first: bool,
    },
}

/// Why a line was not taken: it is wrong, for this reason, or an allocation failed.
#[derive(Clone, Copy, Debug, PartialEq, Eq)]
pub enum Refusal {
    Wrong(Wrong),
    NoMemory,
}

impl From<AllocError> for Refusal {
    ghost use Rattle.part_texts.specs.declared.fronts.Refusal.TheVariants.{NoMemory};

    ghost from_gives = { λ _ refusal. refusal ≡ NoMemory };

    fn from(_refused: AllocError) -> Refusal {
        Refusal::NoMemory
    }
}

/// A part, as far as it is read.
#[derive(Clone, Copy)]
pub struct Open {
    /// Which line is next, and its number.
    pub stage: Stage,
    pub number: u64,
    /// The part's totals.
    pub part: Totals,
}

/// What the parts say, as far as they are read.
#[derive(Drop)]
pub struct Fronts {
    pub stage: Stage,
    /// Whether no part was read before this one.
    pub is_first: bool,
    /// Whether no part follows this one.
    pub is_last: bool,
    /// Whether the parts are ledgers.
    pub is_ledger: bool,
    /// Where the taps of the parts so far end in each file, from the next file on.
    pub ends: VecDeque<Option<Position>>,
    /// How many taps the parts so far have of each upload, from the next upload on.
    pub taps: VecDeque<u64>,
    /// The part's totals.
    pub part: Totals,
    /// What the part's validators so far, or its tokens, add up to.
    pub so_far: Totals,
    /// The totals of all parts so far.
    pub totals: Totals,
    /// The sums of each validator in all parts so far.
    pub validators: BTreeMap<u32, Totals>,
    /// How many tokens all parts so far have.
    pub tokens: u64,
    /// The token of the line before, of this part or of an earlier one.
    pub last: Option<Token>,
    /// The token of the last entry that was decoded.
    pub(crate) seen: Option<Seen>,
}

pub(crate) fn added(sum: &Totals, more: &Totals) -> Option<Totals>
    ensures { option_map sums_of result ≡ sums_within (sums_of sum.now) (sums_of more.now) }
{
    match sum.taps.checked_add(more.taps) {
        Some(taps) if taps <= MAX_WHOLE_TAPS => {
            let mut all = *sum;
            all.add_all(more);
            Some(all)
        }
        _ => None,
    }
}

pub(crate) fn are_same(a: &Totals, b: &Totals) -> bool
    ensures { result ≡ sums_eq (sums_of a.now) (sums_of b.now) }
{
    a.taps == b.taps
        && a.paid == b.paid
        && a.transfers == b.transfers
        && a.capped == b.capped
        && a.stale == b.stale
        && a.unknown == b.unknown
        && a.cents == b.cents
}

fn plus(a: u64, b: u64) -> Option<u64>
    ensures { result ≡ plus a b }
{
    a.checked_add(b)
}

fn is_same_position(a: Position, b: Position) -> bool
    ensures { result ≡ position_eq a b }
{
    a.offset == b.offset && a.skip == b.skip
}

fn may_end(is_last: bool, to: Option<Position>) -> bool
    ensures { result ≡ may_end is_last to }
{
    match to {
        None => true,
        Some(_) => !is_last,
    }
}

fn next_start(is_first: bool, ends: &mut VecDeque<Option<Position>>) -> Option<Position>
    ensures { MatchOption result (starts is_first ends.old.items ≡ None)
        (λ position. starts is_first ends.old.items ≡ Some (position, ends.new.items)) }
{
    if is_first {
        return Some(Position { offset: 0, skip: 0 });
    }
    match ends.pop_front() {
        Some(Some(position)) => Some(position),
        Some(None) => None,
        None => None,
    }
}

fn next_taps(is_first: bool, taps: &mut VecDeque<u64>) -> Option<u64>
    ensures { MatchOption result (taps_before is_first taps.old.items ≡ None)
        (λ number. taps_before is_first taps.old.items ≡ Some (number, taps.new.items)) }
{
    if is_first {
        return Some(0);
    }
    taps.pop_front()
}

fn posted_in(end: &UploadEnd) -> Option<u64>
    ensures { result ≡ posted_in end.now }
{
    match end {
        UploadEnd::Posted { taps } => Some(*taps),
        _ => None,
    }
}

fn is_above(last: Option<u32>, validator: u32) -> bool
    ensures { result ≡ is_above last validator }
{
    match last {
        Some(last) => last < validator,
        None => true,
    }
}

fn kept_of(validators: &BTreeMap<u32, Totals>, validator: u32) -> Totals
    ensures { sums_of result ≡ unwrap_or (lookup (is_at (nat_cmp validator))
        (shown_sums sums_of validators.now.entries)) no_sums }
{
    match validators.get(&validator) {
        Some(kept) => *kept,
        None => no_totals(),
    }
}

pub(crate) fn no_totals() -> Totals
    ensures { sums_of result ≡ no_sums }
{
    Totals {
        taps: 0,
        paid: 0,
        transfers: 0,
        capped: 0,
        stale: 0,
        unknown: 0,
        cents: 0,
    }
}

fn add_validator(
    validators: &mut BTreeMap<u32, Totals>,
    sum: &ValidatorSum,
) -> Result<bool, AllocError>
    ensures { IfOk result (λ fits. IsWith (shown_sums sums_of validators.old.entries)
        (shown_sums sums_of validators.new.entries) (validator_sum sum.now) fits) }
{
    let kept = kept_of(validators, sum.validator);
    let Some(all) = added(&kept, &sum.totals) else {
        return Ok(false);
    };
    validators.insert(sum.validator, all)?;
    Ok(true)
}

fn is_head_line(line: &[u8]) -> bool
    ensures { result ≡ bytes_eq line.now head_text }
{
    line == head_line().as_bytes()
}

impl Fronts {
    pub(crate) fn new(alloc: Global) -> Fronts
        ensures { fronts_view result ≡ no_fronts }
    {
        Fronts {
            stage: Stage::Head,
            is_first: true,
            is_last: false,
            is_ledger: false,
            ends: VecDeque::new(alloc),
            taps: VecDeque::new(alloc),
            part: no_totals(),
            so_far: no_totals(),
            totals: no_totals(),
            validators: BTreeMap::new(alloc),
            tokens: 0,
            last: None,
            seen: None,
        }
    }

    /// Goes on with the part at this place of so many.
    pub(crate) fn begin(&mut self, part: &Open, position: usize, count: usize)
        ensures { fronts_view self.new ≡ at_part position (nat_le count (position + 1)) part.now.stage
            (sums_of part.now.part) (fronts_view self.old) }
    {
        self.stage = part.stage;
        self.is_first = position == 0;
        self.is_last = count <= position.saturating_add(1);
        self.part = part.part;
        self.so_far = no_totals();
    }

    fn take_head(&mut self, line: &[u8]) -> Result<(), Refusal>
        ensures { TakesAs (head_step (fronts_view self.old) line.now) (fronts_view self.new) result }
    {
        let files = head_in(line, b"part files ").ok_or(Refusal::Wrong(Wrong::Form))?;
        if !(self.is_first || files == self.ends.len() as u64) {
            return Err(Refusal::Wrong(Wrong::Form));
        }
        self.stage = Stage::Files { files, left: files };
        Ok(())
    }

    fn take_span(&mut self, files: u64, left: u64, line: &[u8]) -> Result<(), Refusal>
        requires { 0 < left }
        ensures { TakesAs (span_step files left (fronts_view self.old) line.now)
            (fronts_view self.new) result }
    {
        let (file, span) = span_in(line).ok_or(Refusal::Wrong(Wrong::Form))?;
        if file != files.saturating_sub(left) {
            return Err(Refusal::Wrong(Wrong::Form));
        }
        let start = next_start(self.is_first, &mut self.ends).ok_or(Refusal::Wrong(Wrong::Order))?;
        if !(is_same_position(start, span.from) && may_end(self.is_last, span.to)) {
            return Err(Refusal::Wrong(Wrong::Order));
        }
        let Ok(()) = self.ends.push_back(span.to) else {
            return Err(Refusal::NoMemory);
        };
        self.stage = Stage::Files {
            files,
            left: left - 1,
        };
        Ok(())
    }

    fn take_header(&mut self) -> Result<(), Refusal>
        ensures { TakesAs (ledger_step (fronts_view self.old)) (fronts_view self.new) result }
    {
        if !(self.is_first || self.is_ledger) {
            return Err(Refusal::Wrong(Wrong::Form));
        }
        self.stage = Stage::Entries { is_first: true };
        self.is_ledger = true;
        Ok(())
    }

    fn take_uploads(&mut self, files: u64, line: &[u8]) -> Result<(), Refusal>
        ensures { TakesAs (uploads_step files (fronts_view self.old) line.now)
            (fronts_view self.new) result }
    {
        let uploads = head_in(line, b"uploads ").ok_or(Refusal::Wrong(Wrong::Form))?;
        if !(uploads == files && (self.is_first || !self.is_ledger)) {
            return Err(Refusal::Wrong(Wrong::Form));
        }
        self.stage = Stage::Uploads {
            uploads,
            left: uploads,
            posted: 0,
        };
        self.is_ledger = false;
        Ok(())
    }

    fn take_kind(&mut self, files: u64, line: &[u8]) -> Result<(), Refusal>
        ensures { TakesAs (kind_step files (fronts_view self.old) line.now)
            (fronts_view self.new) result }
    {
        if is_head_line(line) {
            self.take_header()
        } else {
            self.take_uploads(files, line)
        }
    }

    fn take_upload(
        &mut self,
        uploads: u64,
        left: u64,
        posted: u64,
        line: &[u8],
    ) -> Result<(), Refusal>
        requires { 0 < left }
        ensures { TakesAs (upload_step uploads left posted (fronts_view self.old) line.now)
            (fronts_view self.new) result }
    {
        let (upload, end) = upload_in(line).ok_or(Refusal::Wrong(Wrong::Form))?;
        if upload != uploads.saturating_sub(left) {
            return Err(Refusal::Wrong(Wrong::Form));
        }
        let taps = posted_in(&end).ok_or(Refusal::Wrong(Wrong::NotPosted))?;
        let before = next_taps(self.is_first, &mut self.taps).ok_or(Refusal::Wrong(Wrong::Form))?;
        let all = plus(before, taps).ok_or(Refusal::Wrong(Wrong::Totals))?;
        let posted = plus(posted, taps).ok_or(Refusal::Wrong(Wrong::Totals))?;
        let Ok(()) = self.taps.push_back(all) else {
            return Err(Refusal::NoMemory);
        };
        self.stage = Stage::Uploads {
            uploads,
            left: left - 1,
            posted,
        };
        Ok(())
    }

    fn take_totals(&mut self, posted: u64, line: &[u8]) -> Result<(), Refusal>
        ensures { TakesAs (totals_step posted (fronts_view self.old) line.now)
            (fronts_view self.new) result }
    {
        let part = totals_in(line).ok_or(Refusal::Wrong(Wrong::Form))?;
        if part.taps != u128::from(posted) {
            return Err(Refusal::Wrong(Wrong::Totals));
        }
        let all = added(&self.totals, &part).ok_or(Refusal::Wrong(Wrong::Totals))?;
        self.stage = Stage::AfterTotals;
        self.part = part;
        self.so_far = no_totals();
        self.totals = all;
        Ok(())
    }

    fn take_validators(&mut self, line: &[u8]) -> Result<(), Refusal>
        ensures { TakesAs (validators_step (fronts_view self.old) line.now)
            (fronts_view self.new) result }
    {
        let left = head_in(line, b"validators ").ok_or(Refusal::Wrong(Wrong::Form))?;
        self.stage = Stage::Validators { left, last: None };
        Ok(())
    }

    fn take_validator(&mut self, left: u64, last: Option<u32>, line: &[u8]) -> Result<(), Refusal>
        requires { 0 < left }
        ensures { TakesAs (validator_step left last (fronts_view self.old) line.now)
            (fronts_view self.new) result }
    {
        let sum = validator_in(line).ok_or(Refusal::Wrong(Wrong::Form))?;
        if !is_above(last, sum.validator) {
            return Err(Refusal::Wrong(Wrong::Order));
        }
        let so_far = added(&self.so_far, &sum.totals).ok_or(Refusal::Wrong(Wrong::Totals))?;
        if !add_validator(&mut self.validators, &sum)? {
            return Err(Refusal::Wrong(Wrong::Totals));
        }
        self.stage = Stage::Validators {
            left: left - 1,
            last: Some(sum.validator),
        };
        self.so_far = so_far;
        Ok(())
    }

    fn take_tokens(&mut self, line: &[u8]) -> Result<(), Refusal>
        ensures { TakesAs (tokens_step (fronts_view self.old) line.now)
            (fronts_view self.new) result }
    {
        let left = head_in(line, b"tokens ").ok_or(Refusal::Wrong(Wrong::Form))?;
        if !are_same(&self.part, &self.so_far) {
            return Err(Refusal::Wrong(Wrong::Totals));
        }
        let all = plus(self.tokens, left).ok_or(Refusal::Wrong(Wrong::Totals))?;
        self.stage = Stage::Tokens { left };
        self.tokens = all;
        Ok(())
    }

    /// Whether no more lines are to be read: those after the front are copied, or are not read.
    pub(crate) fn is_over(&self, is_copied: bool) -> bool
        ensures { result ≡ is_over is_copied (fronts_view self.now) }
    {
        !is_copied && matches!(self.stage, Stage::Tokens { .. } | Stage::Entries { .. })
    }

    /// Takes the next line, of at most 1,024 bytes. Only a text's last line may lack a line feed.
    pub(crate) fn take(&mut self, line: &[u8]) -> Result<(), Refusal>
        ensures { TakesAs (front_step (fronts_view self.old) line.now) (fronts_view self.new)
            result }
    {
        match self.stage {
            Stage::Head => self.take_head(line),
            Stage::Files { files, left: 0 } => self.take_kind(files, line),
            Stage::Files { files, left } => self.take_span(files, left, line),
            Stage::Uploads {
                uploads: _,
                left: 0,
                posted,
            } => self.take_totals(posted, line),
            Stage::Uploads {
                uploads,
                left,
                posted,
            } => self.take_upload(uploads, left, posted, line),
            Stage::AfterTotals => self.take_validators(line),
            Stage::Validators { left: 0, last: _ } => self.take_tokens(line),
            Stage::Validators { left, last } => self.take_validator(left, last, line),
            Stage::Tokens { left: 0 } => Err(Refusal::Wrong(Wrong::Form)),
            Stage::Tokens { left } => self.take_token(left, line),
            Stage::Entries { is_first } => self.take_entry(is_first, line),
        }
    }
}
