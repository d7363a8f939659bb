//! A part of sorted files: the taps of a range of tokens, and where they are in each file.

ghost use Rattle.histories.specs.declared.entry.Entry.{Entry};
ghost use Rattle.settlement.specs.Bills.{IsBillOf};
ghost use Rattle.settled_bills.specs.{Faults.IsBillFault, Parts.IsPartOf};
ghost use Rattle.settled_bills.specs.inside.{Charged.HaveTaps, Taken.IsReady};
ghost use Rattle.sorted_taps.specs.{Merges.AreTaken, Positions.ArePlaced, Positions.AreSpanned};
ghost use Rattle.sorted_taps.specs.declared.reader.TapReader.{TapReader as AReader};
ghost use Rattle.std.specs.Prelude.{◌≡◌, ◌≢◌, ◌≤◌, ◌^◌, true, ℕ, List, IfErr, IfOk, Some, length};
ghost use Rattle.std.specs.Prelude.{map};
ghost use Rattle.tap_views.specs.{UploadEnds.are_posted, declared.encoder.TapFields.TapFields};
ghost use Rattle.tap_views.specs.declared.upload_end.UploadEnd.TheVariants.{Posted};

use crate::bill::unless_changed;
use crate::fault::BillFault;
use crate::part::{Part, part_of};
use crate::taker::{TAKEN_TAPS, Taker};
use crate::tap_numbers::ends_of;
use histories::HashSeed;
use placed_files::Placed;
use settlement::{Billed, least_token};
use sorted_taps::{
    FileSpan, Merge, PlacedReaders, Position, SortedFault, WINDOW_BYTES, readers_from, spans_to,
    stamps_of,
};
use std::alloc::Global;
use tap_views::Token;
use tariffs::FareTable;

/// The bill of a part, with how many taps it has of each file, and where it is in each.
#[derive(Drop)]
pub struct PartBill {
    pub spans: Vec<FileSpan>,
    pub billed: Billed,
}

/// Merged files, and the positions where a part begins.
#[derive(Drop)]
pub(crate) struct StartedPart {
    positions: Vec<Position>,
    pub(crate) taker: Taker,
}

impl StartedPart {
    pub(crate) fn begin<F: Placed>(
        alloc: Global,
        files: &[F],
        from: Option<Token>,
    ) -> Result<Self, SortedFault>
        ensures ready { IfOk result (λ part. IsReady (length files.now) part.taker) }
        ensures positions { IfOk result (λ part. length part.positions.items ≡ length files.now) }
        ensures placed { IfOk result (λ part. (all : List (List ℕ))
            → map F.bytes files.now ≡ map Some all
            → ArePlaced all part.positions.items part.taker.merge.readers.items) }
    {
        let mut window = vec![in alloc; 0u8; WINDOW_BYTES]?;
        let placed = readers_from(alloc, files, from, &mut window)?;
        let PlacedReaders { positions, readers } = placed;
        let taker = Taker::of(alloc, Merge::of(readers), window)?;
        Ok(StartedPart { positions, taker })
    }

    /// Refused if the readers are not where a part would begin that goes on from the bound.
    pub(crate) fn end<F: Placed>(
        self,
        alloc: Global,
        files: &[F],
        below: Option<Token>,
    ) -> Result<Vec<FileSpan>, SortedFault>
        requires ready { IsReady (length files.now) self.taker }
        requires positions { length self.positions.items ≡ length files.now }
        ensures { IfOk result (λ spans. (all : List (List ℕ)) (begin : List AReader)
            (taps : List TapFields) → map F.bytes files.now ≡ map Some all
            → ArePlaced all self.positions.items begin
            → AreTaken all begin taps self.taker.merge.readers.items
            → HaveTaps all spans.items
            (map (λ reader. reader.passed) self.taker.merge.readers.items) taps) }
    {
        let StartedPart { positions, taker } = self;
        let Taker {
            merge,
            mut window,
            ..
        } = taker;
        let readers = merge.readers();
        match spans_to(alloc, files, &positions, readers, below, &mut window)? {
            Some(spans) => Ok(spans),
            // a file has changed, or is out of order
            None => Err(SortedFault::OutOfOrder { tap: 0 }),
        }
    }
}

/// The bill of a part of sorted files, in one pass by one worker: of the taps with tokens from one
/// on and below another, each bound optional. Each span of the part is found by the same steps from
/// the same token, at once in batches of 512 taps: so parts of the same files join, if each goes on
/// from the token below which the one before it ends. If a file is not sorted, the fault is the
/// first one of all files, also after the part. A file that was written meanwhile, or has another
/// length at the end, is reported as changed.
pub fn part_bill<F: Placed>(
    alloc: Global,
    table: &FareTable,
    seed: HashSeed,
    files: &[F],
    from: Option<Token>,
    below: Option<Token>,
) -> Result<PartBill, BillFault>
    ensures billed { IfOk result (λ made. (history : List Entry)
        × IsBillOf history made.billed.bill × (length history ≤ 2 ^ 95)
        × ((all : List (List ℕ)) → map F.bytes files.now ≡ map Some all
        → (lists : List (List TapFields))
        × IsPartOf table.now all made.spans.items lists history
        × (made.billed.ends.items ≡ map Posted (map length lists)))) }
    ensures posted { IfOk result (λ made. are_posted made.billed.ends.items ≡ true) }
    ensures fault { IfErr result (λ fault. (all : List (List ℕ))
        → map F.bytes files.now ≡ map Some all → IsBillFault all fault) }
    ensures unwritten { IfErr result (λ fault. fault ≢ BillFault.Write) }
{
    let stamps = stamps_of(alloc, files)?;
    let charged = part_of(alloc, table, seed, files, from, below);
    let part = unless_changed(alloc, files, &stamps, charged)?;
    let ends = ends_of(alloc, &part.numbers)?;
    let Part { spans, bill, .. } = part;
    let billed = Billed { ends, bill };
    Ok(PartBill { spans, billed })
}

/// Its fault need not be the first one of the files.
fn spans_of_part<F: Placed>(
    alloc: Global,
    files: &[F],
    from: Option<Token>,
    below: Option<Token>,
) -> Result<Vec<FileSpan>, SortedFault>
    ensures { IfOk result (λ spans. (all : List (List ℕ)) → map F.bytes files.now ≡ map Some all
        → (lists : List (List TapFields)) × AreSpanned all spans.items lists) }
{
    let mut started = StartedPart::begin(alloc, files, from)?;
    for _ in 0..u64::MAX {
        started.taker.take(files, least_token(), below, TAKEN_TAPS)?;
        if started.taker.taps.is_empty() {
            return started.end(alloc, files, below);
        }
    }
    Err(SortedFault::Unread)
}

/// Where a part is in each file: its taps with tokens from one on and below another. All its taps
/// are read once, so that a text made of them meets no fault of an unchanged file.
pub fn part_spans<F: Placed>(
    alloc: Global,
    files: &[F],
    from: Option<Token>,
    below: Option<Token>,
) -> Result<Vec<FileSpan>, BillFault>
    ensures spanned { IfOk result (λ spans. (all : List (List ℕ))
        → map F.bytes files.now ≡ map Some all
        → (lists : List (List TapFields)) × AreSpanned all spans.items lists) }
    ensures fault { IfErr result (λ fault. (all : List (List ℕ))
        → map F.bytes files.now ≡ map Some all → IsBillFault all fault) }
    ensures unwritten { IfErr result (λ fault. fault ≢ BillFault.Write) }
{
    let stamps = stamps_of(alloc, files)?;
    let spans = spans_of_part(alloc, files, from, below);
    unless_changed(alloc, files, &stamps, spans)
}
