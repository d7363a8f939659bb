//! Positions in sorted files, at which parts of them begin and end.

ghost use Rattle.std.specs.Prelude.{◌≡◌, ◌≤◌, ℕ, List, length, map, IfOk, IfSome, Some};
ghost use Rattle.sorted_taps.specs.Positions.{ArePlaced, DoSpan, IsAt, IsPlacedAnew};
ghost use Rattle.sorted_taps.specs.Reading.{window_bytes};

use crate::fault::SortedFault;
use crate::ranges::reader_from;
use crate::reader::TapReader;
use placed_files::Placed;
use std::alloc::Global;
use tap_views::Token;

/// A position in a file: after some taps of the batches from an offset on. Each run finds the same
/// one for a token in the same bytes.
#[derive(Clone, Copy, Debug, PartialEq, Eq)]
pub struct Position {
    /// The offset of the first byte of a batch.
    pub offset: u64,
    /// How many taps of the batches from there on are before the position.
    pub skip: u64,
}

/// The taps of a file between two positions.
#[derive(Clone, Copy, Debug, PartialEq, Eq)]
pub struct FileSpan {
    pub from: Position,
    /// None at the file's end.
    pub to: Option<Position>,
}

/// A reader that is at a position.
#[derive(Drop)]
pub(crate) struct PlacedReader {
    pub(crate) position: Position,
    pub(crate) reader: TapReader,
}

/// Readers of files, each at the position of its file.
#[derive(Drop)]
pub struct PlacedReaders {
    pub positions: Vec<Position>,
    pub readers: Vec<TapReader>,
}

fn placed_reader<F: Placed>(
    alloc: Global,
    file: &F,
    from: Option<Token>,
    window: &mut [u8],
) -> Result<PlacedReader, SortedFault>
    requires { window_bytes ≤ length window.old }
    ensures { IfOk result (λ made. IfSome (F.bytes file.now)
        (λ all. IsPlacedAnew all made.position made.reader)) }
{
    match from {
        Some(token) => reader_from(alloc, file, token, window),
        None => {
            let reader = TapReader::at(alloc, file, 0, window)?;
            Ok(PlacedReader {
                position: Position { offset: 0, skip: 0 },
                reader,
            })
        }
    }
}

/// A reader of each file, at its first tap with this token or a higher one, or at its first tap
/// without a token. Batches of 512 taps are found at once. In others the taps from the last batch
/// on that is known to begin below the token are read. The window has `WINDOW_BYTES` at least.
pub fn readers_from<F: Placed>(
    alloc: Global,
    files: &[F],
    from: Option<Token>,
    window: &mut [u8],
) -> Result<PlacedReaders, SortedFault>
    requires { window_bytes ≤ length window.old }
    ensures number { IfOk result (λ made. length made.readers.items ≡ length files.now) }
    ensures positions { IfOk result (λ made. length made.positions.items ≡ length files.now) }
    ensures placed { IfOk result (λ made. (all : List (List ℕ))
        → map F.bytes files.now ≡ map Some all
        → ArePlaced all made.positions.items made.readers.items) }
{
    let mut positions = Vec::new(alloc);
    let mut readers = Vec::new(alloc);
    for file in files {
        let placed = placed_reader(alloc, file, from, window)?;
        let PlacedReader { position, reader } = placed;
        positions.push(position)?;
        readers.push(reader)?;
    }
    Ok(PlacedReaders { positions, readers })
}

fn span_to<F: Placed>(
    alloc: Global,
    file: &F,
    from: Position,
    reader: &TapReader,
    below: Option<Token>,
    window: &mut [u8],
) -> Result<Option<FileSpan>, SortedFault>
    requires { window_bytes ≤ length window.old }
    ensures from { IfOk result (λ made. IfSome made (λ span. span.from ≡ from)) }
    ensures to { IfOk result (λ made. IfSome made (λ span. IfSome (F.bytes file.now)
        (λ all. IsAt all span.to reader.now))) }
{
    match below {
        Some(token) => {
            let end = reader_from(alloc, file, token, window)?;
            if !reader.is_at(&end.reader) {
                return Ok(None);
            }
            let to = Some(end.position);
            Ok(Some(FileSpan { from, to }))
        }
        None => {
            if reader.head().is_some() {
                return Ok(None);
            }
            Ok(Some(FileSpan { from, to: None }))
        }
    }
}

/// The spans from these positions to the readers, if each is at its file's first tap with the
/// bound's token or a higher one, or at the file's end without a bound. The window has
/// `WINDOW_BYTES` at least.
pub fn spans_to<F: Placed>(
    alloc: Global,
    files: &[F],
    positions: &[Position],
    readers: &[TapReader],
    below: Option<Token>,
    window: &mut [u8],
) -> Result<Option<Vec<FileSpan>>, SortedFault>
    requires window { window_bytes ≤ length window.old }
    requires positions { length positions.now ≡ length files.now }
    requires readers { length readers.now ≡ length files.now }
    ensures number { IfOk result (λ made. IfSome made
        (λ spans. length spans.items ≡ length files.now)) }
    ensures spanned { IfOk result (λ made. IfSome made (λ spans. (all : List (List ℕ))
        → map F.bytes files.now ≡ map Some all
        → DoSpan all positions.now readers.now spans.items)) }
{
    let mut spans = Vec::new(alloc);
    for at in 0..files.len() {
        let file = &files[at];
        let reader = &readers[at];
        let position = &positions[at];
        let Some(span) = span_to(alloc, file, *position, reader, below, window)? else {
            return Ok(None);
        };
        spans.push(span)?;
    }
    Ok(Some(spans))
}
