//! The bill of a range of the taps.

ghost use Rattle.std.specs.Prelude.{◌≡◌, All, List, ℕ, Option, IfOk, IsTrue, None, OnOk, Some, map};
ghost use Rattle.std.specs.declared.cmp.Ordering.TheVariants.{Less};
ghost use Rattle.tariffs.specs.Fares.{Fares};
ghost use Rattle.tap_views.specs.Token.{token_cmp};
ghost use Rattle.settlement.specs.Bills.{HaveBillRoom};
ghost use Rattle.sorted_taps.specs.Positions.{first_position};
ghost use Rattle.settled_bills.specs.Parts.{added};
ghost use Rattle.settled_bills.specs.inside.Charged.{IsPart, joined_spans};

use crate::charges::charge;
use crate::fault::BillFault;
use crate::token_part::StartedPart;
use histories::HashSeed;
use placed_files::Placed;
use settlement::{Bill, OpenBill, least_token};
use sorted_taps::{FileSpan, Position, SortedFault};
use std::alloc::Global;
use tap_views::Token;
use tariffs::FareTable;

#[derive(Drop)]
pub(crate) struct Part {
    /// Where the taps are in each file.
    pub(crate) spans: Vec<FileSpan>,
    /// How many of them each file has.
    pub(crate) numbers: Vec<u64>,
    pub(crate) bill: Bill,
    /// How many they are.
    count: u64,
    /// A token below which the taps have none.
    first: Token,
    /// A token above which the taps have none.
    last: Token,
}

/// The taps with tokens from one on and below another. A fault need not be the first one of the
/// files.
pub(crate) fn part_of<F: Placed>(
    alloc: Global,
    table: &FareTable,
    seed: HashSeed,
    files: &[F],
    from: Option<Token>,
    below: Option<Token>,
) -> Result<Part, SortedFault>
    ensures { IfOk result (IsPart table.now (map F.bytes files.now)) }
{
    let mut started = StartedPart::begin(alloc, files, from)?;
    let first = from.unwrap_or(least_token());
    let mut so_far = OpenBill::new(alloc, seed, first);
    let count = charge(alloc, table, files, below, &mut started.taker, &mut so_far)?;
    let numbers = started.taker.merge.numbers(alloc)?;
    let last = so_far.token();
    let Ok(bill) = so_far.into_bill(alloc) else {
        return Err(SortedFault::NoMemory);
    };
    let spans = started.end(alloc, files, below)?;
    Ok(Part {
        spans,
        numbers,
        bill,
        count,
        first,
        last,
    })
}

pub(crate) fn is_below(token: Token, other: Token) -> bool
    ensures { IsTrue result → token_cmp token other ≡ Less }
{
    token < other
}

/// What the files have in two parts.
#[derive(Drop)]
struct JoinedFiles {
    spans: Vec<FileSpan>,
    numbers: Vec<u64>,
}

/// Refused if the others do not begin where these end, or if a sum exceeds 64 bits.
fn join_files(
    alloc: Global,
    spans: &[FileSpan],
    others: &[FileSpan],
    numbers: &[u64],
    counts: &[u64],
) -> Result<JoinedFiles, SortedFault>
    ensures meet { IfOk result (λ _.
        map (λ span. span.to) spans.now ≡ map (λ span. Some span.from) others.now) }
    ensures spans { IfOk result (λ made. made.spans.items ≡ joined_spans spans.now others.now) }
    ensures numbers { IfOk result (λ made. made.numbers.items ≡ added numbers.now counts.now) }
{
    let long = spans.len();
    if others.len() != long || numbers.len() != long || counts.len() != long {
        return Err(SortedFault::Unread);
    }
    let mut joined = Vec::with_capacity(alloc, long)?;
    let mut sums = Vec::with_capacity(alloc, long)?;
    for at in 0..long {
        let FileSpan { from, to } = spans[at];
        let other = others[at];
        if to != Some(other.from) {
            return Err(SortedFault::Unread);
        }
        let Some(sum) = numbers[at].checked_add(counts[at]) else {
            return Err(SortedFault::Unread);
        };
        joined.push(FileSpan { from, to: other.to })?;
        sums.push(sum)?;
    }
    Ok(JoinedFiles {
        spans: joined,
        numbers: sums,
    })
}

impl Part {
    /// Whether each of its spans is all of its file.
    pub(crate) fn is_whole(&self) -> bool
        ensures begins { IsTrue result → All (λ span. span.from ≡ first_position) self.now.spans.items }
        ensures ends { IsTrue result → All (λ span. span.to ≡ None) self.now.spans.items }
    {
        let begin = Position { offset: 0, skip: 0 };
        for span in &self.spans {
            if span.from != begin || span.to.is_some() {
                return false;
            }
        }
        true
    }

    /// If the part does not begin where this one ends, with higher tokens, this one is of no use.
    pub(crate) fn append(&mut self, alloc: Global, more: Part) -> Result<(), BillFault>
        requires { HaveBillRoom self.old.bill more.bill }
        ensures { OnOk result ((fares : Fares) (known : List (Option (List ℕ)))
            → IsPart fares known self.old → IsPart fares known more
            → IsPart fares known self.new) }
    {
        let Part {
            spans,
            numbers,
            bill,
            count,
            first,
            last,
        } = more;
        if !is_below(self.last, first) {
            return Err(BillFault::Changed);
        }
        let Some(count) = self.count.checked_add(count) else {
            return Err(BillFault::Changed);
        };
        let joined = join_files(alloc, &self.spans, &spans, &self.numbers, &numbers)?;
        self.spans = joined.spans;
        self.numbers = joined.numbers;
        self.count = count;
        self.last = last;
        self.bill.append(alloc, bill)?;
        Ok(())
    }
}
